//! Writes a log with its words replaced.
ghost use Rattle.lsp_redact.specs.Redacting.{redact_run};
ghost use Rattle.lsp_replay.specs.Common.{PassesOn, ports};

use crate::redacting::Redacting;
use lsp_frame::{Limits, Sink, Source};
use lsp_replay::pass;
use lsp_verdict::{Outcome, RunFault};
use std::alloc::Global;

/// Reads a log up to the first event that offends, or to its end, and writes one that has the same
/// verdict: of each message what the rules read, names as numbers, and characters as others of
/// their kind, with as many units in each encoding.
///
/// A fault of a side's frames or of the log ends it after the events before that, and so do bytes
/// at the end that are not a whole frame; the outcome is then the verdict at that fault, and else
/// `Done`. Nothing is written before the verdict is known, and before what is to be written was
/// judged too: where that does not show the verdict, the outcome is `Unlike`, and nothing is
/// written.
///
/// # Errors
/// `Read` where the source failed, `Write` where the sink did, and `Memory` where memory was
/// refused.
pub fn run_redact<R: Source, W: Sink>(
    alloc: Global,
    reader: &mut R,
    writer: &mut W,
    limits: Limits,
) -> Result<Outcome, RunFault>
    ensures passes { PassesOn (redact_run limits) limits
        (ports (R.told reader.old) (R.told reader.new) (W.told writer.old) (W.told writer.new))
        result }
{
    let mut account = Redacting::new(alloc, limits);
    pass(alloc, reader, writer, limits, &mut account)
}
