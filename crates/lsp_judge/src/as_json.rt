//! Judges a log and writes the report, or shows the events before it too, as JSON.
ghost use Rattle.lsp_replay.specs.JsonRun.{WritesJson};
ghost use Rattle.lsp_judge.specs.JudgingRun.{check_run, show_run};
ghost use Rattle.lsp_verdict.specs.Runs.{ports};

use crate::judging::{Form, Judging};
use lsp_frame::{Limits, Sink, Source};
use lsp_replay::{Json, pass};
use lsp_verdict::{Completeness, Lines, Outcome, RunFault};
use std::alloc::Global;

/// Reads a log as `run_check` does, or as `run_check_complete` where its session must be complete,
/// and writes the report as JSON.
///
/// # Errors
/// `Read` where the source failed, `Write` where the sink did, and `Memory` where memory was
/// refused.
pub fn run_check_json<R: Source, W: Sink>(
    alloc: Global,
    reader: &mut R,
    writer: &mut W,
    limits: Limits,
    completeness: Completeness,
) -> Result<Outcome, RunFault>
    ensures json { WritesJson (check_run completeness) limits
        (ports (R.told reader.old) (R.told reader.new) (W.told writer.old) (W.told writer.new))
        result }
{
    let account = Judging {
        completeness,
        lines: None,
        form: Form::Report,
    };
    let mut account = Json::new(alloc, account);
    pass(alloc, reader, writer, limits, &mut account)
}

/// Reads a log as `run_show` does, or as `run_show_long` where lines are long, and writes the
/// events and the report as JSON.
///
/// # Errors
/// Those of [`run_check_json`]; what was written before stays written.
pub fn run_show_json<R: Source, W: Sink>(
    alloc: Global,
    reader: &mut R,
    writer: &mut W,
    limits: Limits,
    lines: Lines,
) -> Result<Outcome, RunFault>
    ensures json { WritesJson (show_run lines) limits
        (ports (R.told reader.old) (R.told reader.new) (W.told writer.old) (W.told writer.new))
        result }
{
    let account = Judging {
        completeness: Completeness::Ignored,
        lines: Some(lines),
        form: Form::Report,
    };
    let mut account = Json::new(alloc, account);
    pass(alloc, reader, writer, limits, &mut account)
}
