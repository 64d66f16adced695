//! The status that the program ends with.
ghost use Rattle.std.specs.Prelude.{◌≡◌, max};
ghost use Rattle.lsp_request.specs.Status.{status_of, status_of_event, status_of_fault};
ghost use Rattle.lsp_request.specs.Status.{lacks_comparison, outcome_compared_nothing};
ghost use Rattle.lsp_request.specs.Status.{status_of_outcome, status_of_request, status_of_task};
ghost use Rattle.lsp_request.specs.Status.{status_of_words, task_compared_nothing};

use crate::command_line::Request;
use crate::task_outcome::TaskOutcome;
use clap::error::ErrorKind;
use lsp_judge::{EventOutcome, Outcome, RunFault, Verdict, compared_nothing};

fn status_of_outcome(outcome: &Outcome) -> u8
    ensures { result ≡ status_of_outcome outcome.now }
{
    match outcome {
        Outcome::Done | Outcome::Judged(Verdict::Yes(_)) => 0,
        Outcome::Judged(Verdict::No { .. }) => 1,
        Outcome::Judged(Verdict::BadLog { .. }) | Outcome::Stream { .. } => 2,
        Outcome::NoDocument | Outcome::TooFew | Outcome::NoDifference => 5,
        Outcome::Unlike => 6,
    }
}

fn status_of_event(outcome: EventOutcome) -> u8
    ensures { result ≡ status_of_event outcome }
{
    match outcome {
        EventOutcome::Done => 0,
        EventOutcome::BadLog { .. } => 2,
        EventOutcome::NoContent | EventOutcome::FewerEvents => 5,
    }
}

fn status_of_fault(fault: RunFault) -> u8
    ensures { result ≡ status_of_fault fault }
{
    match fault {
        RunFault::Read | RunFault::Write => 3,
        RunFault::Memory => 4,
    }
}

/// The exit status that tells a script how a run ended.
pub fn status_of(ended: &Result<Outcome, RunFault>) -> u8
    ensures { result ≡ status_of ended.now }
{
    match ended {
        Ok(outcome) => status_of_outcome(outcome),
        Err(fault) => status_of_fault(*fault),
    }
}

/// The exit status where a task ended so.
pub fn status_of_task(ended: &Result<TaskOutcome, RunFault>) -> u8
    ensures { result ≡ status_of_task ended.now }
{
    match ended {
        Ok(TaskOutcome::Run(outcome)) => status_of_outcome(outcome),
        Ok(TaskOutcome::Event(outcome)) => status_of_event(*outcome),
        Err(fault) => status_of_fault(*fault),
    }
}

fn outcome_compared_nothing(outcome: &Outcome) -> bool
    ensures { result ≡ outcome_compared_nothing outcome.now }
{
    match outcome {
        Outcome::Judged(verdict) => compared_nothing(verdict),
        _ => false,
    }
}

fn task_compared_nothing(ended: &Result<TaskOutcome, RunFault>) -> bool
    ensures { result ≡ task_compared_nothing ended.now }
{
    match ended {
        Ok(TaskOutcome::Run(outcome)) => outcome_compared_nothing(outcome),
        _ => false,
    }
}

/// Whether the request wants a snapshot compared, and for the Yes that its task gave none was.
pub fn lacks_comparison(request: &Request<'_>, ended: &Result<TaskOutcome, RunFault>) -> bool
    ensures { result ≡ lacks_comparison request.now ended.now }
{
    request.compared && task_compared_nothing(ended)
}

/// The exit status of a request whose task ended so: that of the task, but 1 for a Yes that lacks
/// a comparison.
pub fn status_of_request(request: &Request<'_>, ended: &Result<TaskOutcome, RunFault>) -> u8
    ensures { result ≡ status_of_request request.now ended.now }
{
    if lacks_comparison(request, ended) {
        return 1;
    }
    status_of_task(ended)
}

/// The worse of two statuses of `check`, for several files: 4 out of memory, 3 a fault, 2 a bad
/// log, 1 no, 0 yes.
pub fn worse_of(status: u8, other: u8) -> u8
    ensures { result ≡ max status other }
{
    status.max(other)
}

/// The exit status where the words ask for no run: 0 for help and the version, 4 where memory was
/// refused while they were read, and 64 for bad arguments.
pub fn status_of_words(kind: ErrorKind) -> u8
    ensures { result ≡ status_of_words kind }
{
    match kind {
        ErrorKind::DisplayHelp | ErrorKind::DisplayVersion => 0,
        ErrorKind::OutOfMemory => 4,
        _ => 64,
    }
}
