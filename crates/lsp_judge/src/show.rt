//! Shows a log: a line for each event, and the report.
ghost use Rattle.lsp_judge.specs.ShownLog.{Showed};
ghost use Rattle.lsp_verdict.specs.Runs.{ports};

use crate::judging::{Form, Judging};
use lsp_frame::{Limits, Sink, Source};
use lsp_replay::pass;
use lsp_verdict::{Completeness, Lines, Outcome, RunFault};
use std::alloc::Global;

/// Reads a log up to the first event that offends, or to its end, and writes a line for each event
/// before that place, and then the report of the verdict.
///
/// The line of a message has its number among all events, from 1, the side that sent it, and its
/// words; that of a snapshot its number, version, bytes of text and URI.
///
/// # Errors
/// `Read` is answered where the source failed, `Write` where the sink did, and `Memory` where
/// memory was refused; what was written before stays written.
pub fn run_show<R: Source, W: Sink>(
    alloc: Global,
    reader: &mut R,
    writer: &mut W,
    limits: Limits,
) -> Result<Outcome, RunFault>
    ensures showed { Showed Lines.Short limits (ports (R.told reader.old) (R.told reader.new)
        (W.told writer.old) (W.told writer.new)) result }
{
    show(alloc, reader, writer, limits, Lines::Short)
}

/// Does what [`run_show`] does, with long lines: each also has the event's number among those of
/// its side, or among the snapshots; and of a message that opens, changes, saves or closes a
/// document the URI, and the version that it is opened at or changed to.
///
/// # Errors
/// Those of [`run_show`].
pub fn run_show_long<R: Source, W: Sink>(
    alloc: Global,
    reader: &mut R,
    writer: &mut W,
    limits: Limits,
) -> Result<Outcome, RunFault>
    ensures showed { Showed Lines.Long limits (ports (R.told reader.old) (R.told reader.new)
        (W.told writer.old) (W.told writer.new)) result }
{
    show(alloc, reader, writer, limits, Lines::Long)
}

fn show<R: Source, W: Sink>(
    alloc: Global,
    reader: &mut R,
    writer: &mut W,
    limits: Limits,
    lines: Lines,
) -> Result<Outcome, RunFault>
    ensures showed { Showed lines limits (ports (R.told reader.old) (R.told reader.new)
        (W.told writer.old) (W.told writer.new)) result }
{
    let mut account = Judging {
        completeness: Completeness::Ignored,
        lines: Some(lines),
        form: Form::Report,
    };
    pass(alloc, reader, writer, limits, &mut account)
}
