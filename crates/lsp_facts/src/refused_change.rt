//! Facts on a change that is not of the agreed kind, or that fails.

ghost use Rattle.std.specs.Prelude.{◌≡◌, ◌<◌, ◌^◌, ◌+◌, length, slice_get, Err, IfOk};
ghost use Rattle.std.specs.List.{prefix_len};
ghost use Rattle.std.specs.Str.{chars};
ghost use Rattle.std.specs.String.{string_bytes};
ghost use Rattle.lsp_replay.specs.Common.{changed, edit_of, edits_of, is_of_kind};
ghost use Rattle.lsp_facts.specs.DocumentFacts.{misfit_facts, kind_facts, stray, IsStray};
ghost use Rattle.lsp_facts.specs.DocumentFacts.{HasStray, IsTooLong, IsReason, IsRefused};
ghost use Rattle.lsp_types.specs.declared.rules.TheConstants as rules;

use crate::facts::Facts;
use lsp_docs::is_of_kind;
use lsp_rpc::Result;
use lsp_text::{TextFault, TextStore, change_all, char_inside, size_with};
use lsp_types::{Change, Encoding, Memory, Position, Span, SyncKind, rules};
use lsp_verdict::kind_name;
use std::alloc::Global;

/// The facts on changes of another kind than agreed: the kind, and the first change not of it.
pub(crate) fn misfit<S: TextStore>(
    alloc: Global,
    store: &S,
    encoding: Encoding,
    kind: SyncKind,
    changes: &[Change],
    limit: u64,
) -> Result<Facts>
    ensures { IfOk result (λ facts. facts
        ≡ kind_facts limit encoding kind (S.content store.now) (edits_of changes.now)) }
{
    let mut facts = Facts::new(alloc);
    facts.word("sync", kind_name(Some(kind)))?;
    let count = count_fitting(kind, changes);
    if changes.len() <= count {
        return Ok(facts);
    }
    facts.append(misfit_at(alloc, store, encoding, changes, count, limit)?)?;
    Ok(facts)
}

/// The facts on the change after this many others, which is not of the kind: its span, and the
/// length of the line in which that begins, where the changes before it can be made.
fn misfit_at<S: TextStore>(
    alloc: Global,
    store: &S,
    encoding: Encoding,
    changes: &[Change],
    count: usize,
    limit: u64,
) -> Result<Facts>
    requires { count < length changes.now }
    ensures { IfOk result (λ facts. facts
        ≡ misfit_facts limit encoding (S.content store.now) (edits_of changes.now) count
        (slice_get (edits_of changes.now) count)) }
{
    let mut facts = Facts::new(alloc);
    let span = changes[count].span;
    facts.change(encoding, count, span)?;
    let mut copy = store.copy(alloc)?;
    match change_all(&mut copy, encoding, &changes[..count], limit) {
        Ok(_) => {
            let text = copy.to_text(alloc)?;
            facts.first_length(text.as_str(), encoding, span)?;
            Ok(facts)
        }
        Err(failed) => match failed.fault {
            TextFault::Rule(_) => Ok(facts),
            TextFault::Memory => Err(Memory),
        },
    }
}

/// How many changes come before the first that is not of the kind.
fn count_fitting(kind: SyncKind, changes: &[Change]) -> usize
    ensures { result ≡ prefix_len (λ change. is_of_kind kind (edit_of change)) changes.now }
{
    changes
        .iter()
        .take_while(|change| is_of_kind(kind, change))
        .count()
}

/// The facts on the change that this rule refuses after this many others, on the text they made.
pub(crate) fn refused(
    alloc: Global,
    encoding: Encoding,
    text: &str,
    count: usize,
    change: &Change,
    rule: u16,
    limit: u64,
) -> Result<Facts>
    requires { count + 1 < 2 ^ 64 }
    ensures { IfOk result (λ facts. changed encoding (chars text.now) change.now.span
        (chars (string_bytes change.now.text)) limit ≡ Err rule
        → IsRefused limit encoding (chars text.now) count (edit_of change.now) rule facts) }
{
    let mut facts = Facts::new(alloc);
    facts.change(encoding, count, change.span)?;
    facts.append(reason(alloc, encoding, text, change, rule, limit)?)?;
    Ok(facts)
}

/// Why this rule refuses a change of a text.
fn reason(
    alloc: Global,
    encoding: Encoding,
    text: &str,
    change: &Change,
    rule: u16,
    limit: u64,
) -> Result<Facts>
    ensures { IfOk result (λ facts. changed encoding (chars text.now) change.now.span
        (chars (string_bytes change.now.text)) limit ≡ Err rule
        → IsReason limit encoding (chars text.now) (edit_of change.now) rule facts) }
{
    if rule == rules::POSITION_INSIDE_CHARACTER {
        return stray_facts(alloc, encoding, text, change.span);
    }
    let mut facts = Facts::new(alloc);
    facts.first_length(text, encoding, change.span)?;
    if rule == rules::DOCUMENT_OVER_LIMIT {
        facts.append(size_facts(alloc, encoding, text, change, limit)?)?;
    }
    Ok(facts)
}

/// The line of the position of a span that lies inside a character, that character, and the other
/// encodings in which the position lies at an edge.
fn stray_facts(alloc: Global, encoding: Encoding, text: &str, span: Option<Span>) -> Result<Facts>
    ensures { IfOk result (λ facts. HasStray encoding (chars text.now) span
        → IsStray encoding (chars text.now) span facts) }
{
    let mut facts = Facts::new(alloc);
    let Some(span) = span else {
        return Ok(facts);
    };
    let position = stray_of(text, encoding, span);
    facts.length(text, encoding, position)?;
    let Some(c) = char_inside(text, encoding, position) else {
        return Ok(facts);
    };
    facts.inside(c)?;
    facts.fits(text, position)?;
    Ok(facts)
}

/// The position of a span that lies inside a character: the first, unless that denotes a place.
fn stray_of(text: &str, encoding: Encoding, span: Span) -> Position
    ensures { result ≡ stray encoding (chars text.now) span }
{
    match char_inside(text, encoding, span.first) {
        Some(_) => span.first,
        None => span.second,
    }
}

/// The bytes of UTF-8 that a text would have with a change, and how many it may have.
fn size_facts(
    alloc: Global,
    encoding: Encoding,
    text: &str,
    change: &Change,
    limit: u64,
) -> Result<Facts>
    ensures { IfOk result (λ facts. changed encoding (chars text.now) change.now.span
        (chars (string_bytes change.now.text)) limit ≡ Err rules.DOCUMENT_OVER_LIMIT
        → IsTooLong limit encoding (chars text.now) (edit_of change.now) facts) }
{
    let mut facts = Facts::new(alloc);
    let Some(size) = size_with(text, encoding, change.span, change.text.as_str()) else {
        return Ok(facts);
    };
    facts.number("bytes", size)?;
    facts.number("limit", limit)?;
    Ok(facts)
}
