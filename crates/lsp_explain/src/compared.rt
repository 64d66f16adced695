//! The whole texts of a verdict that says that two texts differ.
ghost use Rattle.std.specs.Prelude.{◌≡◌, None, IfOk, option_map};
ghost use Rattle.lsp_facts.specs.TwoTexts.{seen_texts};
ghost use Rattle.lsp_trail.specs.Common.{bad_log_of, first_no, flaw_of, heard_events, PassesOn};
ghost use Rattle.lsp_trail.specs.Common.{ports};
ghost use Rattle.lsp_replay.specs.TextAnswers.{answer_view};
ghost use Rattle.lsp_explain.specs.Compared as spec;
ghost use Rattle.lsp_explain.specs.Compared.{ComparedAsked, compared_run, sound_answer};

use lsp_facts::{ComparedText, TwoTexts, texts_at};
use lsp_frame::{Limits, Sink, Source};
use lsp_lined::Lined;
use lsp_replay::{Account, End, Events, Fate, Flow, LogEvents, Seen, TextAnswer, pass};
use lsp_rpc::Result;
use lsp_verdict::{Outcome, RunFault, Verdict};
use std::alloc::Global;

/// Reads a log up to the first event that offends, and writes one of the two texts that differ, and
/// nothing else, where that event offends by 608 or 702.
///
/// # Errors
/// `Read` where the source failed, `Write` where the sink did, and `Memory` where memory was
/// refused.
pub fn run_compared<R: Source, W: Sink>(
    alloc: Global,
    reader: &mut R,
    writer: &mut W,
    limits: Limits,
    which: ComparedText,
) -> Result<Outcome, RunFault>
    ensures passes { PassesOn (compared_run which) limits
        (ports (R.told reader.old) (R.told reader.new) (W.told writer.old) (W.told writer.new))
        result }
{
    let mut account = OneText { which };
    pass(alloc, reader, writer, limits, &mut account)
}

/// Says one of the two texts that differ at the first event that offends.
#[derive(Drop)]
struct OneText {
    which: ComparedText,
}

impl Account for OneText {
    ghost Asked = { ComparedAsked };

    ghost asked = { λ account. account.which };

    ghost run = { compared_run };

    ghost stands = { λ account terms heard. first_no terms (heard_events heard) ≡ None };

    fn event(&mut self, held: &Events<Lined>, seen: &Seen<'_>, text: &mut String) -> Result<Flow> {
        let Fate::Offends { rule, tried } = seen.fate else {
            return Ok(Flow::GoOn);
        };
        let texts = texts_at(held, seen.call, rule, tried);
        one_of(*text.allocator(), texts, self.which)?.stop(text)
    }

    fn end(
        &mut self,
        _held: &Events<Lined>,
        _log: &LogEvents,
        end: End,
        text: &mut String,
    ) -> Result<Outcome> {
        let outcome = answer_at(end).add(text)?;
        Ok(outcome)
    }
}

/// The one of two texts, where there are two.
fn one_of(
    alloc: Global,
    texts: Option<TwoTexts<'_, Lined>>,
    which: ComparedText,
) -> Result<TextAnswer>
    ensures { IfOk result (λ answer. answer_view answer
        ≡ spec.answer_of which (option_map seen_texts texts.entry)) }
{
    let Some(texts) = texts else {
        return Ok(TextAnswer::NoDifference);
    };
    let text = match which {
        ComparedText::ByMessages => texts.by_messages.to_text(alloc)?,
        ComparedText::InEditor => String::from_str(alloc, texts.in_editor)?,
    };
    Ok(TextAnswer::Text(text))
}

/// What is answered at the end of a log none of whose events offends.
fn answer_at(end: End) -> TextAnswer
    ensures { answer_view result ≡ sound_answer (bad_log_of (flaw_of end)) }
{
    match end {
        End::Sound => TextAnswer::NoDifference,
        End::Bad { number, fault } => TextAnswer::Refused(Verdict::BadLog { number, fault }),
    }
}
