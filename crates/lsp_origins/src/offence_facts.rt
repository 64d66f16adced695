//! What is said about an offence: the report of its No, the line that names its event, and the
//! facts on it.
ghost use Rattle.std.specs.Prelude.{◌≡◌, ◌++◌, ℕ, List, Some, IfOk, OnOk, option_map, string_bytes};
ghost use Rattle.lsp_trail.specs.Common.{bad_log_of, call_view, Event, flaw_of, HasFate, Heard};
ghost use Rattle.lsp_trail.specs.Common.{heard_events, IsSeen, IsTrail, kept_of, made_in, MaySpeak};
ghost use Rattle.lsp_trail.specs.Common.{no, no_by, numbered, offence_view, Offends, place_of};
ghost use Rattle.lsp_trail.specs.Common.{raw_view, Reads, report, rest_of, Rests, rule_at, said_at};
ghost use Rattle.lsp_trail.specs.Common.{ShowsFault, StandsAfter, Terms, terms_in, Who};
ghost use Rattle.lsp_replay.specs.Tries.{TriesCall};
ghost use Rattle.lsp_origins.specs.Explained.{cause_lines, end_explained, end_facts, end_usually};
ghost use Rattle.lsp_origins.specs.Explained.{flaw_lines, place_in, TellsOf, flaw_held, rests_held};
ghost use Rattle.lsp_origins.specs.Traced.{AreTraced, earlier_at, traced};
ghost use Rattle.lsp_facts.specs.EventFacts.{AreFacts, side_by};
ghost use Rattle.lsp_facts.specs.Fact.{event_line};

use crate::trace::{lack_traced, message_traced, said_traced};
use lsp_docs::Tried;
use lsp_facts::{
    Facts, content_facts, flaw_facts, frame_facts, header_facts, push_bare_event,
    push_content_event, push_details, push_end_event, push_message_event, usual, usual_inside,
};
use lsp_lined::Lined;
use lsp_replay::{End, EventPlace, LogEvents, Seen};
use lsp_rpc::{Result, Side, Spoken};
use lsp_trail::Past;
use lsp_types::rules;
use lsp_verdict::{Offence, Raw, Who, verdict_report};

/// Adds what is said about an event that offends, of which this was tried. The past is of the
/// events before it, apart from the counts, which are with it.
///
/// # Errors
/// `Memory` where memory was refused.
pub fn push_offence(
    text: &mut String,
    past: Past<'_>,
    offence: &Offence,
    seen: &Seen<'_>,
    tried: Option<&Tried<Lined>>,
) -> Result<()>
    ensures { OnOk result ((terms : Terms) (before : List Heard) (h : Heard)
        → IsTrail terms past.entry.trail.now (heard_events before)
        → IsSeen past.entry.held.now.session past.entry.held.now.docs past.entry.held.now.counts
        seen.now terms before h → HasFate terms before h (Offends offence.now.rule tried.entry)
        → (offence_view offence.now).no
        ≡ no_by (heard_events before) h.note.event offence.now.rule
        → TellsOf terms before h offence.now.rule
        (ShowsFault seen.now.raw (heard_events before)) (string_bytes text.old)
        (string_bytes text.new)) }
{
    push_report(text, offence)?;
    push_event(text, offence, seen.raw, seen.spoken)?;
    let facts = facts_of(past, offence, seen, tried)?;
    push_details(text, &facts, usual(offence.rule, offence.who))
}

/// Adds the report of the No of an offence.
fn push_report(text: &mut String, offence: &Offence) -> Result<()>
    ensures { OnOk result (string_bytes text.new
        ≡ string_bytes text.old ++ report (offence_view offence.now).no) }
{
    let report = verdict_report(*text.allocator(), &offence.verdict())?;
    Ok(text.push_str(report.as_str())?)
}

/// Adds the line of the event of an offence.
fn push_event(
    lines: &mut String,
    offence: &Offence,
    raw: Raw<'_>,
    spoken: Option<&Spoken>,
) -> Result<()>
    ensures { OnOk result ((event : Event) (kept : List Event) → Reads (raw_view raw.entry) event
        → MaySpeak kept event (option_map (λ s. s.now) spoken.entry)
        → string_bytes lines.new ≡ string_bytes lines.old
        ++ event_line offence.now.event offence.now.who offence.now.number (raw_view raw.entry)) }
{
    let place = place_in(offence);
    match raw {
        Raw::Content { content, .. } => match spoken {
            Some(spoken) => push_message_event(lines, place, &spoken.message),
            None => push_content_event(lines, place, content),
        },
        _ => push_bare_event(lines, place),
    }
}

/// The facts on an event that offends.
fn facts_of(
    past: Past<'_>,
    offence: &Offence,
    seen: &Seen<'_>,
    tried: Option<&Tried<Lined>>,
) -> Result<Facts>
    ensures { IfOk result (λ facts. (event : Event) (before : List Event)
        → StandsAfter past.entry before → place_in offence.now ≡ place_of before event
        → Reads (raw_view seen.now.raw) event
        → MaySpeak (kept_of (terms_in past.entry) before) event
        (option_map (λ s. s.now) seen.now.spoken)
        → option_map call_view seen.now.call ≡ said_at (terms_in past.entry) before event
        → TriesCall (terms_in past.entry) (kept_of (terms_in past.entry) before)
        (said_at (terms_in past.entry) before event) offence.now.rule
        (made_in (option_map (λ t. t.now) tried.entry))
        → rule_at (terms_in past.entry) before event ≡ Some offence.now.rule
        → (rests : Rests) → ShowsFault seen.now.raw before rests
        → AreTraced (AreFacts rests before (terms_in past.entry)
        (kept_of (terms_in past.entry) before) (raw_view seen.now.raw) event offence.now.rule)
        (earlier_at (terms_in past.entry) before event)
        (traced (terms_in past.entry) before event offence.now.rule) facts) }
{
    let rule = offence.rule;
    match seen.raw {
        Raw::Broken { rest, .. } => frame_facts(past.held.docs.alloc(), rest),
        Raw::Content {
            side,
            content,
            behind,
        } => match seen.spoken {
            Some(spoken) => {
                if rule < rules::FIRST_ON_DOCUMENTS {
                    return message_traced(past, side, spoken, rule);
                }
                said_traced(past, place_in(offence), seen.call, rule, tried)
            }
            None => content_facts(past.held.docs.alloc(), content, behind, rule),
        },
        Raw::Snapshot { .. } => said_traced(past, place_in(offence), seen.call, rule, tried),
    }
}

/// The place of the event of an offence.
fn place_in(offence: &Offence) -> EventPlace
    ensures { result ≡ place_in offence.now }
{
    let Offence {
        event,
        who,
        number,
        ..
    } = *offence;
    EventPlace { event, who, number }
}

// ---- the end

/// Adds what is said of how a session ends, by what is listed of that. The past is of all events.
///
/// # Errors
/// `Memory` where memory was refused.
pub fn push_end(text: &mut String, past: Past<'_>, log: &LogEvents, end: &Offence) -> Result<()>
    ensures { OnOk result ((before : List Event) → StandsAfter past.entry before
        → string_bytes text.new ≡ string_bytes text.old
        ++ cause_lines (end_explained (rests_held log.now)
        (numbered (terms_in past.entry) before) (offence_view end.now).no)) }
{
    push_report(text, end)?;
    push_end_event(text, end.event, end.who)?;
    let rest = log.rest(side_by(end.who));
    let facts = end_facts(past, rest, end.rule)?;
    push_details(text, &facts, end_usually(rest, end.rule, end.who))
}

/// Whose fault it usually is that a session ends so, where this is the rest of the side.
fn end_usually(rest: &[u8], rule: u16, who: Who) -> &'static str
    ensures { (rests : Rests) (number event : ℕ) → rest.now ≡ rest_of rests (side_by who)
        → result.now ≡ end_usually rests (no rule who number event) }
{
    if rule != rules::STREAM_ENDS_INSIDE_FRAME {
        return usual(rule, who);
    }
    usual_inside(rest, who)
}

/// The facts on how a session ends that breaks this rule: 107 has those on the rest of a side, 303
/// and 407 those on what is missing from the session.
fn end_facts(past: Past<'_>, rest: &[u8], rule: u16) -> Result<Facts>
    ensures { IfOk result (λ facts. (rests : Rests) (before : List Event) (who : Who)
        (number event : ℕ) → StandsAfter past.entry before
        → rest.now ≡ rest_of rests (side_by who)
        → facts ≡ end_facts rests (numbered (terms_in past.entry) before)
        (no rule who number event)) }
{
    if rule == rules::STREAM_ENDS_INSIDE_FRAME {
        return header_facts(past.held.docs.alloc(), rest);
    }
    lack_traced(past)
}

/// The side whose event it is; a snapshot is the editor's.
fn side_by(who: Who) -> Side
    ensures { result ≡ side_by who }
{
    match who {
        Who::Server => Side::Server,
        _ => Side::Editor,
    }
}

/// Adds the lines that tell where a log has its fault, if it ends with one.
///
/// # Errors
/// `Memory` where memory was refused.
pub fn push_flaw(text: &mut String, log: &LogEvents, end: End) -> Result<()>
    ensures { OnOk result (string_bytes text.new ≡ string_bytes text.old
        ++ flaw_lines (bad_log_of (flaw_of end)) (flaw_held log.now end)) }
{
    let End::Bad { number, .. } = end else {
        return Ok(());
    };
    let facts = flaw_facts(*text.allocator(), number, log.place(), log.found())?;
    push_details(text, &facts, "recorder")
}
