//! The snapshots that wait and refute the text of a version.

ghost use Rattle.std.specs.Prelude.{◌≡◌, List, Some, true, not, IfOk, option_map, slice_get};
ghost use Rattle.std.specs.List.{list_any};
ghost use Rattle.lsp_types.specs.declared.rules.TheConstants as rules;
ghost use Rattle.lsp_docs.specs.Calls.{Call as SpecCall};
ghost use Rattle.lsp_replay.specs.Common.{are_mixed, call_rule, call_view, IsTried, same_text};
ghost use Rattle.lsp_replay.specs.Common.{Stands, text_of, texts_of, tried_in};
ghost use Rattle.lsp_facts.specs.TwoTexts.{lent_text};
ghost use Rattle.lsp_facts.specs.Refuting as spec;

use crate::lent_text::LentText;
use crate::made::{Brought, brings};
use lsp_docs::{Call, Docs, Tried, is_other_text};
use lsp_replay::EventPlace;
use lsp_rpc::Result;
use lsp_text::TextStore;
use lsp_types::LineEnds;
use std::alloc::Global;

/// Those of the snapshots that wait for the version of a call that have another text than it brings
/// its document to, where it breaks 702. All that wait are given by their places, in the order in
/// which they came. The documents are those before the call, and this was tried of its changes.
///
/// # Errors
/// `Memory` where memory was refused.
pub fn refuting<S: TextStore>(
    docs: &Docs<S>,
    call: Call<'_>,
    tried: Option<&Tried<S>>,
    snapshots: &[EventPlace],
) -> Result<Vec<EventPlace>>
    ensures { IfOk result (λ others. (calls : List SpecCall) → Stands docs.now calls
        → call_rule docs.now.terms calls (call_view call.entry) ≡ Some rules.SNAPSHOT_DIFFERS
        → IsTried docs.now.terms calls (call_view call.entry)
        (tried_in S.content (option_map (λ t. t.now) tried.entry))
        → others.items
        ≡ spec.refuting docs.now.terms calls (call_view call.entry) snapshots.now) }
{
    let Some(brought) = brings(docs, call, tried) else {
        return Ok(Vec::new(docs.alloc()));
    };
    let Brought { version, text } = brought;
    let texts = docs.waiting_texts(call.uri(), version);
    let others = differing(docs.alloc(), docs.line_ends(), texts, text, snapshots)?;
    Ok(others)
}

/// Those of the snapshots that have another text than this one, as at least one has. Where they all
/// have the same text, each is one of them.
fn differing<S: TextStore>(
    alloc: Global,
    line_ends: LineEnds,
    texts: &[String],
    text: LentText<'_, S>,
    snapshots: &[EventPlace],
) -> Result<Vec<EventPlace>>
    ensures { IfOk result (λ others.
        list_any (spec.is_other line_ends (lent_text S.content text.entry)) (texts_of texts.now)
        ≡ true → others.items ≡ spec.others_of line_ends (lent_text S.content text.entry)
        snapshots.now (texts_of texts.now)) }
{
    if any_differs(line_ends, texts) {
        return others(alloc, line_ends, texts, text, snapshots);
    }
    let count = texts.len().min(snapshots.len());
    Ok(Vec::from_slice(alloc, &snapshots[..count])?)
}

/// Whether one of the texts is another than the first.
fn any_differs(line_ends: LineEnds, texts: &[String]) -> bool
    ensures { result ≡ are_mixed line_ends (texts_of texts.now) }
{
    match texts.split_first() {
        Some((first, rest)) => any_other(line_ends, first, rest),
        None => false,
    }
}

/// Whether one of the texts is another than this one.
fn any_other(line_ends: LineEnds, text: &String, texts: &[String]) -> bool
    ensures { result ≡ list_any (λ t. not (same_text line_ends (text_of t) (text_of text.now)))
        texts.now }
{
    texts
        .iter()
        .any(|other| is_other_text(line_ends, text, other.as_str()))
}

/// Those of the snapshots that have another text than this one. They are given by their places, and
/// their texts are in the same order.
fn others<S: TextStore>(
    alloc: Global,
    line_ends: LineEnds,
    texts: &[String],
    text: LentText<'_, S>,
    snapshots: &[EventPlace],
) -> Result<Vec<EventPlace>>
    ensures { IfOk result (λ others. others.items
        ≡ spec.others_of line_ends (lent_text S.content text.entry) snapshots.now
        (texts_of texts.now)) }
{
    let mut others = Vec::new(alloc);
    for (index, place) in snapshots.iter().enumerate() {
        if is_other_at(line_ends, texts, index, &text) {
            others.push(*place)?;
        }
    }
    Ok(others)
}

/// Whether there is a text at this place, and it is another one.
fn is_other_at<S: TextStore>(
    line_ends: LineEnds,
    texts: &[String],
    index: usize,
    text: &LentText<'_, S>,
) -> bool
    ensures { result ≡ spec.is_other_at line_ends (lent_text S.content text.now)
        (slice_get (texts_of texts.now) index) }
{
    match texts.get(index) {
        Some(other) => text.is_other(line_ends, other),
        None => false,
    }
}
