//! The character by which two texts that differ stay apart.
ghost use Rattle.std.specs.Prelude.{◌≡◌, IfOk, List, Some, chars, option_and_then, option_map};
ghost use Rattle.std.specs.Prelude.{string_bytes};
ghost use Rattle.lsp_replay.specs.Common.{call_at, call_view, calls, Event, made_in, offence};
ghost use Rattle.lsp_replay.specs.Common.{Stands, TriesCall};
ghost use Rattle.lsp_redact.specs.Characters as spec;
ghost use Rattle.lsp_redact.specs.Redacting.{apart_at};
ghost use Rattle.lsp_facts.specs.TwoTexts.{seen_texts};
ghost use Rattle.lsp_text.specs.SameText as same;

use lsp_docs::{Call, Tried};
use lsp_facts::{TwoTexts, texts_at};
use lsp_lined::Lined;
use lsp_replay::Events;
use lsp_rpc::Result;
use lsp_text::compared_lines;
use lsp_types::LineEnds;
use std::alloc::Global;

/// The character of the second text where it first differs from the other. `None` where it ends
/// there.
fn first_other(text: &str, other: &str) -> Option<char>
    ensures { result ≡ spec.first_other (chars text.now) (chars other.now) }
{
    let mut characters = text.chars();
    for character in other.chars() {
        let Some(own) = characters.next() else {
            return Some(character);
        };
        if own != character {
            return Some(character);
        }
    }
    None
}

/// What of a text is compared.
fn compared(alloc: Global, text: &str, line_ends: LineEnds) -> Result<String>
    ensures { IfOk result (λ compared. chars (string_bytes compared)
        ≡ same.compared line_ends (chars text.now)) }
{
    match line_ends {
        LineEnds::Exact => Ok(String::from_str(alloc, text)?),
        LineEnds::Ignored => compared_lines(alloc, text),
    }
}

/// The character by which two texts stay apart: that of the editor's own text where the two first
/// differ, as they are compared.
fn apart_in(alloc: Global, texts: &TwoTexts<'_, Lined>, line_ends: LineEnds) -> Result<Option<char>>
    ensures { IfOk result (λ apart. apart ≡ spec.apart_in line_ends (seen_texts texts.now)) }
{
    let by_messages = texts.by_messages.to_text(alloc)?;
    let by_messages = compared(alloc, by_messages.as_str(), line_ends)?;
    let in_editor = compared(alloc, texts.in_editor, line_ends)?;
    Ok(first_other(by_messages.as_str(), in_editor.as_str()))
}

/// The character by which two texts stay apart, where there are two.
fn apart_if(
    alloc: Global,
    texts: Option<TwoTexts<'_, Lined>>,
    line_ends: LineEnds,
) -> Result<Option<char>>
    ensures { IfOk result (λ apart. apart ≡ option_and_then (spec.apart_in line_ends)
        (option_map seen_texts texts.entry)) }
{
    match texts {
        Some(texts) => apart_in(alloc, &texts, line_ends),
        None => Ok(None),
    }
}

/// The character by which the two texts of a call stay apart that breaks this rule; none where it
/// does not say that two texts differ. The documents are those before it, and this was tried of its
/// changes.
pub(crate) fn apart_of(
    alloc: Global,
    held: &Events<Lined>,
    call: Option<Call<'_>>,
    rule: u16,
    tried: Option<&Tried<Lined>>,
) -> Result<Option<char>>
    ensures { IfOk result (λ apart. (kept : List Event) (event : Event)
        → Stands held.now.docs (calls kept)
        → option_map call_view call.entry ≡ call_at kept event
        → offence held.now.docs.terms kept event ≡ Some rule
        → TriesCall held.now.docs.terms kept (call_at kept event) rule
        (made_in (option_map (λ t. t.now) tried.entry))
        → apart ≡ apart_at held.now.docs.terms kept event rule) }
{
    let texts = texts_at(held, call, rule, tried);
    let apart = apart_if(alloc, texts, held.docs.line_ends())?;
    Ok(apart)
}
