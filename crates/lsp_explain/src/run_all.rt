//! Explains all that is wrong with a log.
ghost use Rattle.std.specs.Prelude.{◌≡◌, ◌++◌, ◌<◌, ◌^◌, [], List, IfOk, OnOk, length, map};
ghost use Rattle.std.specs.Prelude.{string_bytes};
ghost use Rattle.std.specs.List.{flat_map};
ghost use Rattle.lsp_trail.specs.Common.{Closes, Completeness, Event, Heard, Judged, numbered};
ghost use Rattle.lsp_trail.specs.Common.{offence_view, PassesOn, ports, run_in, StandsAfter, Stood};
ghost use Rattle.lsp_trail.specs.Common.{Terms, terms_in};
ghost use Rattle.lsp_replay.specs.Telling.{IsEnd};
ghost use Rattle.lsp_survey.specs.Reported.{IsTally};
ghost use Rattle.lsp_verdict.specs.Offences.{Offence as SpecOffence};
ghost use Rattle.lsp_explain.specs.ExplainRuns.{AllStands, all_run};
ghost use Rattle.lsp_origins.specs.Explained.{cause_lines, end_explained, rests_held};

use lsp_frame::{Limits, Sink, Source};
use lsp_lined::Lined;
use lsp_origins::{push_end, push_flaw, push_offence};
use lsp_replay::{Account, End, Events, Fate, Flow, Form, LogEvents, Seen, last_offence, pass_in};
use lsp_rpc::Result;
use lsp_survey::{Losses, OffenceCount, SessionEnd, session_end};
use lsp_trail::{Past, Trail};
use lsp_verdict::{Completeness, Offence, Outcome, RunFault, Verdict};
use std::alloc::Global;

/// Reads a log to its end, and explains each offence in it that follows from no earlier one: the
/// two lines of its No, the line that names its event, and the facts on it. After them come the
/// lines of a fault of the log with the number of its record, and how many offences were found. For
/// a log with nothing wrong, it is the report of the verdict.
///
/// An event that offends is skipped, as if it had not been sent, and the next is judged after
/// those that keep the rules. What is said about an offence is written when it is found.
///
/// # Errors
/// `Read` where the source failed, `Write` where the sink did, and `Memory` where memory was
/// refused;
/// what was written before stays written.
pub fn run_explain_all<R: Source, W: Sink>(
    alloc: Global,
    reader: &mut R,
    writer: &mut W,
    limits: Limits,
    completeness: Completeness,
    form: Form,
) -> Result<Outcome, RunFault>
    // The verdict is the one that `run_check` gives, or `run_check_complete`.
    ensures passes { PassesOn (run_in form (all_run completeness)) limits
        (ports (R.told reader.old) (R.told reader.new) (W.told writer.old) (W.told writer.new))
        result }
{
    let account = AllCauses::new(alloc, completeness);
    pass_in(alloc, reader, writer, limits, account, form)
}

/// Explains each offence of a log that follows from no earlier one, and how the log ends.
#[derive(Drop)]
pub(crate) struct AllCauses {
    pub(crate) completeness: Completeness,
    losses: Losses,
    tally: OffenceCount,
    pub(crate) trail: Trail,
}

impl AllCauses {
    /// An account that was told of nothing.
    pub(crate) fn new(alloc: Global, completeness: Completeness) -> AllCauses
        ensures completeness { result.completeness ≡ completeness }
        ensures stands { (terms : Terms) → AllStands result terms [] }
    {
        AllCauses {
            completeness,
            losses: Losses::new(alloc),
            tally: OffenceCount::new(),
            trail: Trail::new(alloc),
        }
    }

    /// Says what there is to say at the end of the log, and gives the verdict.
    pub(crate) fn close(
        &mut self,
        held: &Events<Lined>,
        log: &LogEvents,
        end: End,
        text: &mut String,
    ) -> Result<Verdict>
        ensures trail { self.new.trail ≡ self.old.trail }
        ensures closes { IfOk result (λ verdict. (terms : Terms) (heard : List Heard)
            → AllStands self.old terms heard
            → Stood terms held.now.session held.now.docs held.now.counts heard
            → length heard < 2 ^ 63
            → Closes (all_run self.old.completeness) terms heard (IsEnd log.now end heard)
            (string_bytes text.old) (string_bytes text.new) (Judged verdict)) }
    {
        let SessionEnd { listed, bad } = session_end(held, log, end, self.completeness)?;
        let trail = &self.trail;
        let past = Past { held, trail };
        explain_ends(&mut self.tally, past, log, listed.as_slice(), text)?;
        let verdict = self.tally.push_verdict(held, bad, text)?;
        push_flaw(text, log, end)?;
        self.tally.push_count(text)?;
        Ok(verdict)
    }
}

/// Explains and counts what is listed of the end of a session. The past is of all its events.
fn explain_ends(
    tally: &mut OffenceCount,
    past: Past<'_>,
    log: &LogEvents,
    listed: &[Offence],
    text: &mut String,
) -> Result<()>
    ensures tally { OnOk result ((found : List SpecOffence) → IsTally tally.old found
        → IsTally tally.new (found ++ map offence_view listed.now)) }
    ensures said { OnOk result ((before : List Event) → StandsAfter past.entry before
        → string_bytes text.new ≡ string_bytes text.old ++ flat_map cause_lines
        (map (end_explained (rests_held log.now) (numbered (terms_in past.entry) before))
        (map (λ o. (offence_view o).no) listed.now))) }
{
    for offence in listed {
        tally.add(offence);
        push_end(text, past, log, offence)?;
    }
    Ok(())
}

impl Account for AllCauses {
    ghost Asked = { Completeness };

    ghost asked = { λ account. account.completeness };

    ghost run = { all_run };

    ghost stands = { AllStands };

    #[inline(always)]
    fn event(&mut self, held: &Events<Lined>, seen: &Seen<'_>, text: &mut String) -> Result<Flow> {
        let follows = self.losses.tell(held, seen)?;
        let Fate::Offends { rule, tried } = seen.fate else {
            self.trail.keep(held, seen)?;
            return Ok(Flow::GoOn);
        };
        let offence = last_offence(&held.counts, seen.raw, rule, follows);
        self.tally.add(&offence);
        if follows {
            return Ok(Flow::GoOn);
        }
        let trail = &self.trail;
        let past = Past { held, trail };
        push_offence(text, past, &offence, seen, tried)?;
        Ok(Flow::GoOn)
    }

    fn end(
        &mut self,
        held: &Events<Lined>,
        log: &LogEvents,
        end: End,
        text: &mut String,
    ) -> Result<Outcome> {
        let verdict = self.close(held, log, end, text)?;
        Ok(Outcome::Judged(verdict))
    }
}
