//! What is said on standard error about how a run ended.
ghost use Rattle.std.specs.Prelude.{◌≡◌, Ok, Err, Some, IfOk, IfErr, option_map, string_bytes};
ghost use Rattle.lsp_verdict.specs.declared.outcome.RunFault.TheVariants as faults;
ghost use Rattle.lsp_request.specs.declared.task_outcome.TaskOutcome.TheVariants as tasks;
ghost use Rattle.lsp_request.specs.Remarks.{remark_of, report_apart, run_report_apart};

use crate::command_line::{Rewrite, Task};
use crate::task_outcome::TaskOutcome;
use lsp_judge::{EventOutcome, Mode, Outcome, RunFault, Verdict};
use lsp_verdict::{frame_report, verdict_report};
use std::alloc::Global;

/// The fixed words for how a run over a log or a stream ended.
fn remark_of_outcome(outcome: &Outcome) -> Option<&'static str>
    ensures { option_map (λ words. words.now) result ≡ remark_of (Ok (tasks.Run outcome.now)) }
{
    match outcome {
        Outcome::NoDocument => Some("no such document"),
        Outcome::TooFew => Some("fewer editor messages"),
        Outcome::NoDifference => Some("no texts differ: the verdict is neither 608 nor 702"),
        Outcome::Unlike => {
            Some("this log can't be redacted: without its words it has another verdict")
        }
        Outcome::Done | Outcome::Judged(_) | Outcome::Stream { .. } => None,
    }
}

/// The fixed words for how a run for one event ended.
fn remark_of_event(outcome: EventOutcome) -> Option<&'static str>
    ensures { option_map (λ words. words.now) result ≡ remark_of (Ok (tasks.Event outcome)) }
{
    match outcome {
        EventOutcome::NoContent => Some("no content"),
        EventOutcome::FewerEvents => Some("fewer events"),
        EventOutcome::Done | EventOutcome::BadLog { .. } => None,
    }
}

/// The fixed words for a fault.
fn remark_of_fault(fault: RunFault) -> &'static str
    ensures { Some result.now ≡ remark_of (Err fault) }
{
    match fault {
        RunFault::Read => "lspcheck: read fault",
        RunFault::Write => "lspcheck: write fault",
        RunFault::Memory => "lspcheck: out of memory",
    }
}

/// The fixed words for how a task ended, without their line end, where there are any.
pub fn remark_of(ended: &Result<TaskOutcome, RunFault>) -> Option<&'static str>
    ensures { option_map (λ words. words.now) result ≡ remark_of ended.now }
{
    match ended {
        Ok(TaskOutcome::Run(outcome)) => remark_of_outcome(outcome),
        Ok(TaskOutcome::Event(outcome)) => remark_of_event(*outcome),
        Err(fault) => Some(remark_of_fault(*fault)),
    }
}

/// The report of a fault, where it is not part of what the task writes: `text`, `event`, `normal`,
/// `upgrade`, `redact`, `frames --as canonical` and `explain` with the option for one of two texts
/// write what was asked for and nothing else. Yes is not a fault of a log that was upgraded.
///
/// # Errors
/// `Memory` where memory was refused, and nothing else.
pub fn report_apart(
    alloc: Global,
    task: Task<'_>,
    outcome: &TaskOutcome,
) -> Result<Option<String>, RunFault>
    ensures report { IfOk result
        (λ written. option_map (λ report. string_bytes report) written
        ≡ report_apart task.entry outcome.now) }
    ensures fault { IfErr result (λ fault. fault ≡ faults.Memory) }
{
    match outcome {
        TaskOutcome::Run(outcome) => run_report_apart(alloc, task, outcome),
        TaskOutcome::Event(EventOutcome::BadLog { number, fault }) => {
            let verdict = Verdict::BadLog {
                number: *number,
                fault: *fault,
            };
            Ok(Some(verdict_report(alloc, &verdict)?))
        }
        TaskOutcome::Event(_) => Ok(None),
    }
}

/// The same where the run over a log or a stream ended so.
fn run_report_apart(
    alloc: Global,
    task: Task<'_>,
    outcome: &Outcome,
) -> Result<Option<String>, RunFault>
    ensures report { IfOk result
        (λ written. option_map (λ report. string_bytes report) written
        ≡ run_report_apart task.entry outcome.now) }
    ensures fault { IfErr result (λ fault. fault ≡ faults.Memory) }
{
    match (outcome, task) {
        (Outcome::Stream { frame, fault }, Task::Frames(Mode::Canonical)) => {
            Ok(Some(frame_report(alloc, *frame, *fault)?))
        }
        (Outcome::Judged(Verdict::Yes(_)), Task::Rewrite(Rewrite::Upgrade)) => Ok(None),
        (Outcome::Judged(verdict), Task::Text { .. } | Task::Compared(_) | Task::Rewrite(_)) => Ok(
            Some(verdict_report(alloc, verdict)?),
        ),
        _ => Ok(None),
    }
}
