//! The text that is held after a message of the editor, where each event that offends is skipped.
ghost use Rattle.std.specs.Prelude.{◌<◌};
ghost use Rattle.lsp_replay.specs.Common.{PassesOn, ports};
ghost use Rattle.lsp_survey.specs.KeptText.{kept_text_run};

use lsp_frame::{Limits, Sink, Source};
use lsp_replay::{HeldText, pass};
use lsp_verdict::{Outcome, RunFault};
use std::alloc::Global;

/// Reads a log up to the editor's message of this number, from 1, and writes the text that the
/// server holds of a URI just after it, and nothing else. An event that offends is skipped, as
/// if it had not been sent.
///
/// Where that message does not come, the log is read to its end.
///
/// # Errors
/// `Read` where the source failed, `Write` where the sink did, and `Memory` where memory was
/// refused.
pub fn run_text_all<R: Source, W: Sink>(
    alloc: Global,
    reader: &mut R,
    writer: &mut W,
    limits: Limits,
    number: u64,
    uri: &str,
) -> Result<Outcome, RunFault>
    requires { 0 < number }
    ensures passes { PassesOn (kept_text_run number uri.now) limits
        (ports (R.told reader.old) (R.told reader.new) (W.told writer.old) (W.told writer.new))
        result }
{
    let skips = true;
    let mut account = HeldText { number, uri, skips };
    pass(alloc, reader, writer, limits, &mut account)
}
