//! The text that is held after a message of the editor's.
ghost use Rattle.std.specs.Prelude.{◌≡◌, ◌<◌, ℕ, IfOk, string_bytes};
ghost use Rattle.lsp_judge.specs.TextRun.{given_as};
ghost use Rattle.lsp_replay.specs.TextAnswers.{FindsText, WritesText, answer_view};
ghost use Rattle.lsp_verdict.specs.Runs.{ports, failures_after};
ghost use Rattle.lsp_verdict.specs.Shown.{AnswersText};

use crate::in_memory::Written;
use lsp_frame::{Limits, Sink, Source};
use lsp_replay::{HeldText, TextAnswer, pass};
use lsp_rpc::{Memory, Result};
use lsp_verdict::{Outcome, RunFault};
use std::alloc::Global;

/// Reads a log up to the editor's message of this number, from 1, and answers with the text that
/// the server holds of a URI just after it.
///
/// Where that message does not come, or an event up to it offends, the log is read up to its
/// verdict.
///
/// # Errors
/// `Read` where the source failed, `Memory` where memory was refused; it never answers `Write`.
pub fn text_after<R: Source>(
    alloc: Global,
    reader: &mut R,
    limits: Limits,
    number: u64,
    uri: &str,
) -> Result<TextAnswer, RunFault>
    requires { 0 < number }
    // The answer is that of the log read, however it continues where its end was not met.
    ensures { FindsText limits (R.told reader.old) (R.told reader.new)
        (λ log. AnswersText limits log number uri.now) result }
{
    let bytes = Vec::new(alloc);
    let mut written = Written { bytes, failures: 0 };
    match run_text(alloc, reader, &mut written, limits, number, uri) {
        Ok(outcome) => {
            let text = text_of(written)?;
            Ok(answer_of(outcome, text))
        }
        Err(fault) => Err(in_memory(fault)),
    }
}

/// Reads a log as [`text_after`] does, and writes the text and nothing else.
///
/// # Errors
/// `Read` where the source failed, `Write` where the sink did, and `Memory` where memory was
/// refused.
pub fn run_text<R: Source, W: Sink>(
    alloc: Global,
    reader: &mut R,
    writer: &mut W,
    limits: Limits,
    number: u64,
    uri: &str,
) -> Result<Outcome, RunFault>
    requires { 0 < number }
    ensures text { WritesText limits
        (ports (R.told reader.old) (R.told reader.new) (W.told writer.old) (W.told writer.new))
        (λ log. AnswersText limits log number uri.now) result }
{
    let skips = false;
    let mut account = HeldText { number, uri, skips };
    pass(alloc, reader, writer, limits, &mut account)
}

/// The fault of a run that writes into memory, of which more was refused where a write failed.
fn in_memory(fault: RunFault) -> RunFault
    ensures source { (n : ℕ) → failures_after fault n ≡ failures_after result n }
    ensures unwritten { result ≡ RunFault.Write → ⊥ }
{
    match fault {
        RunFault::Read => RunFault::Read,
        RunFault::Write | RunFault::Memory => RunFault::Memory,
    }
}

/// The text that was written.
fn text_of(written: Written) -> Result<String>
    ensures { IfOk result (λ text. string_bytes text ≡ written.bytes.items) }
{
    let Written { bytes, failures: _ } = written;
    String::from_utf8(bytes).map_err(|_| Memory)
}

/// The answer of a run that ended so and wrote this.
fn answer_of(outcome: Outcome, written: String) -> TextAnswer
    ensures { answer_view result ≡ given_as outcome (string_bytes written) }
{
    match outcome {
        Outcome::Done | Outcome::Stream { .. } => TextAnswer::Text(written),
        Outcome::NoDocument => TextAnswer::NoDocument,
        Outcome::TooFew => TextAnswer::TooFew,
        Outcome::NoDifference | Outcome::Unlike => TextAnswer::NoDifference,
        Outcome::Judged(verdict) => TextAnswer::Refused(verdict),
    }
}
