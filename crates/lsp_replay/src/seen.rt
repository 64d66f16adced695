//! What happened at an event, as an account is told it.
ghost use Rattle.std.specs.Prelude.{◌≡◌, ◌++◌, ◌∷◌, ◌+◌, ◌<◌, ◌^◌, [], List, None, OnOk, length};
ghost use Rattle.std.specs.Prelude.{OnErr, is_some, string_bytes, true};
ghost use Rattle.lsp_docs.specs.Documents.{Terms};
ghost use Rattle.lsp_replay.specs.Lines.{heard_line, shown_line};
ghost use Rattle.lsp_replay.specs.Telling.{IsSeen, rule_of};
ghost use Rattle.lsp_verdict.specs.Given.{AreCounts, offence_view, raw_view};
ghost use Rattle.lsp_verdict.specs.Heard.{Heard, heard_events};
ghost use Rattle.lsp_verdict.specs.Offences.{IsNoted};
ghost use Rattle.lsp_verdict.specs.Verdict.{no_by};

use crate::events::Events;
use crate::heard::EventPlace;
use crate::lines::{push_message_line, push_snapshot_line};
use lsp_docs::{Call, Took, Tried};
use lsp_lined::Lined;
use lsp_rpc::{Result, Spoken};
use lsp_verdict::{Counts, Lines, Offence, Outcome, Raw};

/// What happened at an event, which is counted. All of it is lent.
#[derive(Clone, Copy)]
pub struct Seen<'a> {
    /// The event, as it was read.
    pub raw: Raw<'a>,
    /// The message that it is, without its params and the value of a result that nothing reads,
    /// with what it means.
    pub spoken: Option<&'a Spoken>,
    /// What it says about a document, under what was agreed before it.
    pub call: Option<Call<'a>>,
    pub fate: Fate<'a>,
}

/// What became of an event.
#[derive(Clone, Copy)]
pub enum Fate<'a> {
    /// It is kept, and this is what its call says. Session and documents are those after it.
    Kept(Took),
    /// It offends, by its least rule, and is skipped: session and documents are those before it.
    /// This was tried of its changes.
    Offends {
        rule: u16,
        tried: Option<&'a Tried<Lined>>,
    },
}

/// Whether a pass goes on after an event.
#[derive(Drop)]
pub enum Flow {
    /// It does.
    GoOn,
    /// It ends so, and nothing more is read. The outcome is large, and rarely given.
    Stop(Box<Outcome>),
}

/// Adds the line of an event that is kept to a text, short or long, where such lines are shown.
///
/// # Errors
/// `Memory` where memory was refused.
#[inline(always)]
pub fn push_kept_line(
    text: &mut String,
    lines: Option<Lines>,
    held: &Events<Lined>,
    seen: &Seen<'_>,
) -> Result<()>
    ensures shown { OnOk result ((terms : Terms) (before : List Heard) (h : Heard)
        → IsSeen held.now.session held.now.docs held.now.counts seen.now terms before h
        → rule_of terms before h ≡ None
        → string_bytes text.new ≡ string_bytes text.old ++ shown_line lines before h) }
    ensures memory { OnErr result (is_some lines ≡ true) }
{
    match lines {
        Some(lines) => push_line(text, lines, held, seen),
        None => Ok(()),
    }
}

#[inline(always)]
fn push_line(text: &mut String, lines: Lines, held: &Events<Lined>, seen: &Seen<'_>) -> Result<()>
    ensures { OnOk result ((terms : Terms) (before : List Heard) (h : Heard)
        → IsSeen held.now.session held.now.docs held.now.counts seen.now terms before h
        → rule_of terms before h ≡ None
        → string_bytes text.new ≡ string_bytes text.old ++ heard_line lines before h) }
{
    let place = EventPlace::last(&held.counts, seen.raw.who());
    match seen.raw {
        Raw::Content { side, .. } => match seen.spoken {
            Some(spoken) => push_message_line(text, lines, place, side, spoken),
            None => Ok(()),
        },
        Raw::Broken { .. } => Ok(()),
        Raw::Snapshot {
            version,
            uri,
            text: shown,
        } => push_snapshot_line(text, lines, place, version, uri, shown),
    }
}

/// The offence against this rule at the event that was counted last, which is this one.
pub fn last_offence(counts: &Counts, raw: Raw<'_>, rule: u16, follows: bool) -> Offence
    ensures { (before : List Heard) (h : Heard)
        → AreCounts counts.now (heard_events (before ++ h ∷ [])) → length before + 1 < 2 ^ 64
        → h.raw ≡ raw_view raw.entry → IsNoted h.raw h.note → offence_view result
        ≡ record { no = no_by (heard_events before) h.note.event rule; follows = follows } }
{
    let EventPlace { event, who, number } = EventPlace::last(counts, raw.who());
    Offence {
        rule,
        who,
        number,
        event,
        follows,
    }
}
