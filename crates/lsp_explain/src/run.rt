//! Explains the verdict on a log.
ghost use Rattle.std.specs.Prelude.{◌≡◌, ◌++◌, ◌∷◌, ◌<◌, ◌^◌, [], List, None, IfOk, length, map};
ghost use Rattle.std.specs.Prelude.{string_bytes, take};
ghost use Rattle.lsp_trail.specs.Common.{bad_log_of, by_itself, Completeness, first_no, flaw_of};
ghost use Rattle.lsp_trail.specs.Common.{Heard, heard_events, IsSeen, IsTrail, Offends, PassesOn};
ghost use Rattle.lsp_trail.specs.Common.{ports, run_in, Says, ShowsFault, Stood, summary, Terms};
ghost use Rattle.lsp_trail.specs.Common.{verdict_view};
ghost use Rattle.lsp_survey.specs.SessionEnds.{ends_held};
ghost use Rattle.lsp_explain.specs.ExplainRuns.{FirstStands, end_verdict, ends_said, explain_run};
ghost use Rattle.lsp_origins.specs.Explained.{explanation, flaw_held, rests_held};

use lsp_docs::Tried;
use lsp_frame::{Limits, Sink, Source};
use lsp_lined::Lined;
use lsp_notes::{MessageNotes, Misfits, push_notes};
use lsp_origins::{push_end, push_flaw, push_offence};
use lsp_replay::{Account, End, Events, Fate, Flow, Form, LogEvents, Seen, last_offence, pass_in};
use lsp_rpc::Result;
use lsp_survey::{OffenceCount, SessionEnd, session_end};
use lsp_trail::{Past, Trail};
use lsp_verdict::{Completeness, Outcome, RunFault, Verdict};
use std::alloc::Global;

/// Reads a log and writes the report of the verdict on it, and after a No what is wrong: the line
/// that names the first event that offends, and the facts on it. After the report of a bad log
/// come the number of its record, how many bytes come before that, and the line that is
/// there. Last come the notes on the messages before that event, or on all where none offends.
///
/// It reads up to the first event that offends, and nothing is written before the verdict is known.
///
/// # Errors
/// `Read` where the source failed, `Write` where the sink did, and `Memory` where memory was
/// refused.
pub fn run_explain<R: Source, W: Sink>(
    alloc: Global,
    reader: &mut R,
    writer: &mut W,
    limits: Limits,
    completeness: Completeness,
    form: Form,
) -> Result<Outcome, RunFault>
    ensures passes { PassesOn (run_in form (explain_run completeness)) limits
        (ports (R.told reader.old) (R.told reader.new) (W.told writer.old) (W.told writer.new))
        result }
{
    let account = FirstOffence::new(alloc, completeness);
    pass_in(alloc, reader, writer, limits, account, form)
}

/// Explains the first event that offends, or how a log ends where none does.
#[derive(Drop)]
pub(crate) struct FirstOffence {
    completeness: Completeness,
    trail: Trail,
    misfits: Misfits,
    messages: MessageNotes,
}

impl FirstOffence {
    /// An account that was told of nothing.
    pub(crate) fn new(alloc: Global, completeness: Completeness) -> FirstOffence
        ensures completeness { result.completeness ≡ completeness }
        ensures stands { (terms : Terms) → FirstStands result terms [] }
    {
        FirstOffence {
            completeness,
            trail: Trail::new(alloc),
            misfits: Misfits::new(alloc),
            messages: MessageNotes::new(alloc),
        }
    }

    /// Explains the next event, which breaks this rule and of which this was tried, and adds the
    /// notes on the events before it.
    ///
    /// Apart from `event`, which is inlined where events are heard: a function that has grown too
    /// long is not.
    #[cold]
    #[inline(never)]
    fn explain(
        &mut self,
        held: &Events<Lined>,
        seen: &Seen<'_>,
        rule: u16,
        tried: Option<&Tried<Lined>>,
        text: &mut String,
    ) -> Result<Flow>
        ensures asked { self.new.completeness ≡ self.old.completeness }
        ensures says { IfOk result (λ flow. (terms : Terms) (before : List Heard) (h : Heard)
            → FirstStands self.old terms before
            → IsSeen held.now.session held.now.docs held.now.counts seen.now terms before h
            → seen.now.fate ≡ Offends rule tried.entry
            → Says (explain_run self.old.completeness) terms before h
            (ShowsFault seen.now.raw (heard_events before)) (string_bytes text.old)
            (string_bytes text.new) (FirstStands self.new terms (before ++ h ∷ [])) flow) }
    {
        let trail = &self.trail;
        let past = Past { held, trail };
        let offence = last_offence(&held.counts, seen.raw, rule, false);
        let verdict = offence.verdict();
        push_offence(text, past, &offence, seen, tried)?;
        self.misfits.note_refuted(held, seen, rule)?;
        push_notes(text, past, &self.misfits, &self.messages, &verdict)?;
        let boxed = Box::new(*text.allocator(), Outcome::Judged(verdict))?;
        Ok(Flow::Stop(boxed))
    }
}

impl Account for FirstOffence {
    ghost Asked = { Completeness };

    ghost asked = { λ account. account.completeness };

    ghost run = { explain_run };

    ghost stands = { FirstStands };

    #[inline(always)]
    fn event(&mut self, held: &Events<Lined>, seen: &Seen<'_>, text: &mut String) -> Result<Flow> {
        let Fate::Offends { rule, tried } = seen.fate else {
            self.messages.note_event(held, &self.trail, seen, false)?;
            self.trail.keep(held, seen)?;
            self.misfits.note_kept(held, seen)?;
            return Ok(Flow::GoOn);
        };
        self.explain(held, seen, rule, tried, text)
    }

    fn end(
        &mut self,
        held: &Events<Lined>,
        log: &LogEvents,
        end: End,
        text: &mut String,
    ) -> Result<Outcome> {
        let trail = &self.trail;
        let past = Past { held, trail };
        let verdict = push_ending(text, past, log, end, self.completeness)?;
        push_notes(text, past, &self.misfits, &self.messages, &verdict)?;
        Ok(Outcome::Judged(verdict))
    }
}

/// Adds what explains how a log ends none of whose events offends, and gives the verdict.
fn push_ending(
    text: &mut String,
    past: Past<'_>,
    log: &LogEvents,
    end: End,
    completeness: Completeness,
) -> Result<Verdict>
    ensures { IfOk result (λ verdict. (terms : Terms) (heard : List Heard)
        → IsTrail terms past.entry.trail.now (heard_events heard)
        → first_no terms (heard_events heard) ≡ None
        → Stood terms past.entry.held.now.session past.entry.held.now.docs
        past.entry.held.now.counts heard
        → length heard < 2 ^ 63
        → (string_bytes text.new ≡ string_bytes text.old
        ++ explanation (map by_itself (ends_held completeness terms heard log.now end))
        (take 1 (ends_said terms heard (rests_held log.now)
        (ends_held completeness terms heard log.now end))) (bad_log_of (flaw_of end))
        (flaw_held log.now end) (summary terms (heard_events heard)))
        × (verdict_view verdict ≡ end_verdict terms heard (flaw_of end)
        (ends_held completeness terms heard log.now end))) }
{
    let SessionEnd { listed, bad } = session_end(past.held, log, end, completeness)?;
    if let Some(offence) = listed.first() {
        push_end(text, past, log, offence)?;
        return Ok(offence.verdict());
    }
    let verdict = OffenceCount::new().push_verdict(past.held, bad, text)?;
    push_flaw(text, log, end)?;
    Ok(verdict)
}
