//! Judges one of several logs, and writes a line.
ghost use Rattle.std.specs.Prelude.{◌≡◌, ◌++◌, ◌∷◌, [], OnOk, codes, string_bytes};
ghost use Rattle.lsp_judge.specs.Checked.{CheckedLine, compared_nothing, first_line, line_remark};
ghost use Rattle.lsp_replay.specs.Common.{ports, verdict_view};

use crate::judging::{Form, Judging};
use lsp_frame::{Limits, Sink, Source};
use lsp_replay::pass;
use lsp_rpc::Result;
use lsp_verdict::{Completeness, Outcome, RunFault, Verdict};
use std::alloc::Global;

/// Reads one of several logs as `run_check` does, or as `run_check_complete` where its session
/// must be complete, and writes one line: the name, a colon and a space, and the first line of the
/// report of the verdict, with ` nothing-compared` after a Yes for which no snapshot was compared.
///
/// # Errors
/// `Read` where the source failed, `Write` where the sink did, and `Memory` where memory was
/// refused.
pub fn run_check_line<R: Source, W: Sink>(
    alloc: Global,
    reader: &mut R,
    writer: &mut W,
    limits: Limits,
    completeness: Completeness,
    name: &str,
) -> Result<Outcome, RunFault>
    ensures checked { CheckedLine completeness limits name.now
        (ports (R.told reader.old) (R.told reader.new) (W.told writer.old) (W.told writer.new))
        result }
{
    let mut account = Judging {
        completeness,
        lines: None,
        form: Form::Line(name),
    };
    pass(alloc, reader, writer, limits, &mut account)
}

/// What stands before the first LF.
pub(crate) fn first_line(text: &str) -> &str
    ensures { result.now ≡ first_line text.now }
{
    match text.split_once('\n') {
        Some((first, _)) => first,
        None => text,
    }
}

/// Whether the verdict is a Yes for which no snapshot was compared.
pub fn compared_nothing(verdict: &Verdict) -> bool
    ensures { result ≡ compared_nothing (verdict_view verdict.now) }
{
    match verdict {
        Verdict::Yes(summary) => summary.snapshots == summary.unmatched,
        _ => false,
    }
}

/// What follows the first line of the report in the line of one of several logs.
pub(crate) fn line_remark(verdict: &Verdict) -> &'static str
    ensures { result.now ≡ line_remark (verdict_view verdict.now) }
{
    if compared_nothing(verdict) {
        " nothing-compared"
    } else {
        ""
    }
}

/// Adds the line of one of several logs: its name, the first line of this report, and what follows
/// that.
pub(crate) fn push_line(text: &mut String, name: &str, report: &str, remark: &str) -> Result<()>
    ensures { OnOk result (string_bytes text.new ≡ string_bytes text.old
        ++ (name.now ++ codes ": " ++ first_line report.now ++ remark.now ++ 10 ∷ [])) }
{
    text.push_str(name)?;
    text.push_str(": ")?;
    text.push_str(first_line(report))?;
    text.push_str(remark)?;
    Ok(text.push_str("\n")?)
}
