//! Judges a log and writes the report, whether or not its session must be complete.
ghost use Rattle.lsp_judge.specs.Checked.{Checked};
ghost use Rattle.lsp_verdict.specs.Runs.{ports};

use crate::judging::{Form, Judging, Rejudging};
use lsp_frame::{Limits, Sink, Source};
use lsp_replay::pass;
use lsp_verdict::{Completeness, Outcome, RunFault};
use std::alloc::Global;

/// Reads a log up to the first event that offends, or to its end, and writes the report of the
/// verdict on it.
///
/// Nothing is written before the verdict is known.
///
/// # Errors
/// `Read` where the source failed, `Write` where the sink did, and `Memory` where memory was
/// refused.
pub fn run_check<R: Source, W: Sink>(
    alloc: Global,
    reader: &mut R,
    writer: &mut W,
    limits: Limits,
) -> Result<Outcome, RunFault>
    ensures checked { Checked Completeness.Ignored limits
        (ports (R.told reader.old) (R.told reader.new) (W.told writer.old) (W.told writer.new))
        result }
{
    check(alloc, reader, writer, limits, Completeness::Ignored)
}

/// Reads a log as [`run_check`] does, and writes the report of the verdict on it where its session
/// must be complete: instead of Yes a No by 303 where a request of the editor's has no answer, else
/// by 407 where the editor did not send `exit`.
///
/// # Errors
/// Those of [`run_check`].
pub fn run_check_complete<R: Source, W: Sink>(
    alloc: Global,
    reader: &mut R,
    writer: &mut W,
    limits: Limits,
) -> Result<Outcome, RunFault>
    ensures checked { Checked Completeness.Required limits
        (ports (R.told reader.old) (R.told reader.new) (W.told writer.old) (W.told writer.new))
        result }
{
    check(alloc, reader, writer, limits, Completeness::Required)
}

fn check<R: Source, W: Sink>(
    alloc: Global,
    reader: &mut R,
    writer: &mut W,
    limits: Limits,
    completeness: Completeness,
) -> Result<Outcome, RunFault>
    ensures checked { Checked completeness limits (ports (R.told reader.old) (R.told reader.new)
        (W.told writer.old) (W.told writer.new)) result }
{
    let mut account = Judging {
        completeness,
        lines: None,
        form: Form::Report,
    };
    pass(alloc, reader, writer, limits, &mut account)
}

/// Reads a log that is held in memory as [`run_check`] does.
pub(crate) fn check_held<R: Source, W: Sink>(
    alloc: Global,
    reader: &mut R,
    writer: &mut W,
    limits: Limits,
) -> Result<Outcome, RunFault>
    ensures checked { Checked Completeness.Ignored limits
        (ports (R.told reader.old) (R.told reader.new) (W.told writer.old) (W.told writer.new))
        result }
{
    let judging = Judging {
        completeness: Completeness::Ignored,
        lines: None,
        form: Form::Report,
    };
    let mut account = Rejudging { judging };
    pass(alloc, reader, writer, limits, &mut account)
}
