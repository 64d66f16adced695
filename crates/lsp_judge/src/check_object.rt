//! Judges one of several logs, and writes the object of its line.
ghost use Rattle.std.specs.Prelude.{◌≡◌, ◌++◌, OnOk, string_bytes};
ghost use Rattle.lsp_json.specs.Rows.{file_json};
ghost use Rattle.lsp_judge.specs.Objects.{CheckedObject, other_lines, remarked};
ghost use Rattle.lsp_verdict.specs.Runs.{ports};

use crate::check_line::first_line;
use crate::judging::{Form, Judging};
use lsp_frame::{Limits, Sink, Source};
use lsp_json::push_file_json;
use lsp_replay::pass;
use lsp_rpc::Result;
use lsp_verdict::{Completeness, Outcome, RunFault};
use std::alloc::Global;

/// Reads one of several logs as `run_check_line` does, and writes the object of its line: the
/// name of the file first, and of a No and of a bad log the text too.
///
/// # Errors
/// Those of `run_check_line`.
pub fn run_check_object<R: Source, W: Sink>(
    alloc: Global,
    reader: &mut R,
    writer: &mut W,
    limits: Limits,
    completeness: Completeness,
    file: &str,
) -> Result<Outcome, RunFault>
    ensures checked { CheckedObject completeness limits file.now
        (ports (R.told reader.old) (R.told reader.new) (W.told writer.old) (W.told writer.new))
        result }
{
    let mut account = Judging {
        completeness,
        lines: None,
        form: Form::Object(file),
    };
    pass(alloc, reader, writer, limits, &mut account)
}

/// What stands behind the first LF.
fn other_lines(text: &str) -> &str
    ensures { result.now ≡ other_lines text.now }
{
    match text.split_once('\n') {
        Some((_, others)) => others,
        None => "",
    }
}

/// Adds the object of one of several logs: the name of its file, and the members of the first line
/// of this report, which the remark follows.
pub(crate) fn push_object(text: &mut String, file: &str, report: &str, remark: &str) -> Result<()>
    ensures { OnOk result (string_bytes text.new ≡ string_bytes text.old
        ++ file_json file.now (remarked report.now remark.now)) }
{
    let mut lines = String::new(*text.allocator());
    lines.push_str(first_line(report))?;
    lines.push_str(remark)?;
    lines.push_str("\n")?;
    lines.push_str(other_lines(report))?;
    push_file_json(text, file, lines.as_str())
}
