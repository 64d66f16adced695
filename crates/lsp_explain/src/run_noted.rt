//! Explains all that is wrong with a log, with the notes on what breaks no rule.
ghost use Rattle.std.specs.Prelude.{◌≡◌, []};
ghost use Rattle.lsp_trail.specs.Common.{Completeness, PassesOn, ports, run_in, Terms};
ghost use Rattle.lsp_explain.specs.NotedRun.{NotedStands, noted_run};

use crate::run_all::AllCauses;
use lsp_frame::{Limits, Sink, Source};
use lsp_lined::Lined;
use lsp_notes::NotesAlong;
use lsp_replay::{Account, End, Events, Flow, Form, LogEvents, Seen, pass_in};
use lsp_rpc::Result;
use lsp_trail::Past;
use lsp_verdict::{Completeness, Outcome, RunFault};
use std::alloc::Global;

/// Reads a log to its end, and explains it as `run_explain_all` does, with the notes: each when it
/// is found, after what is wrong with that event. The notes that only the end knows come after the
/// report of a Yes, and last how many notes there are.
///
/// # Errors
/// Those of `run_explain_all`; what was written before stays written.
pub fn run_explain_noted<R: Source, W: Sink>(
    alloc: Global,
    reader: &mut R,
    writer: &mut W,
    limits: Limits,
    completeness: Completeness,
    form: Form,
) -> Result<Outcome, RunFault>
    ensures passes { PassesOn (run_in form (noted_run completeness)) limits
        (ports (R.told reader.old) (R.told reader.new) (W.told writer.old) (W.told writer.new))
        result }
{
    let account = NotedCauses::new(alloc, completeness);
    pass_in(alloc, reader, writer, limits, account, form)
}

/// Explains each offence of a log that follows from no earlier one, and how the log ends, and tells
/// the notes on the way.
#[derive(Drop)]
pub(crate) struct NotedCauses {
    causes: AllCauses,
    notes: NotesAlong,
}

impl NotedCauses {
    /// An account that was told of nothing.
    pub(crate) fn new(alloc: Global, completeness: Completeness) -> NotedCauses
        ensures completeness { result.causes.completeness ≡ completeness }
        ensures stands { (terms : Terms) → NotedStands result terms [] }
    {
        NotedCauses {
            causes: AllCauses::new(alloc, completeness),
            notes: NotesAlong::new(alloc),
        }
    }
}

impl Account for NotedCauses {
    ghost Asked = { Completeness };

    ghost asked = { λ account. account.causes.completeness };

    ghost run = { noted_run };

    ghost stands = { NotedStands };

    #[inline(always)]
    fn event(&mut self, held: &Events<Lined>, seen: &Seen<'_>, text: &mut String) -> Result<Flow> {
        self.notes.note(held, &self.causes.trail, seen)?;
        let flow = self.causes.event(held, seen, text)?;
        let trail = &self.causes.trail;
        let past = Past { held, trail };
        self.notes.push_new(text, past)?;
        Ok(flow)
    }

    fn end(
        &mut self,
        held: &Events<Lined>,
        log: &LogEvents,
        end: End,
        text: &mut String,
    ) -> Result<Outcome> {
        let verdict = self.causes.close(held, log, end, text)?;
        let trail = &self.causes.trail;
        let past = Past { held, trail };
        self.notes.push_end(text, past, &verdict)?;
        Ok(Outcome::Judged(verdict))
    }
}
