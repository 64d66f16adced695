//! Positions, ranges and changes of a text (LSP 3.17, Position, Range and
//! TextDocumentContentChangeEvent).
ghost use Rattle.std.specs.Prelude.{◌≡◌, codes, option_map};
ghost use Rattle.serde_json.specs.View.{view};
ghost use Rattle.lsp_rpc.specs.Fault.{Gives};
ghost use Rattle.lsp_rpc.specs.Params as spec;
ghost use Rattle.lsp_rpc.specs.View.{change_view, changes_view};
ghost use Rattle.lsp_types.specs.declared.rules.TheConstants as rules;

use crate::params::{PARAMS_FAULT, into_text, items_of, uinteger_of};
use crate::shape::{given, integer_at};
use lsp_types::{Change, Fault, Position, Span};
use serde_json::Value;
use std::alloc::Global;

fn position_of(value: &Value) -> Option<Position>
    ensures { result ≡ spec.position_at (view value.now) }
{
    let line = uinteger_of(value.get("line")?)?;
    let column = uinteger_of(value.get("character")?)?;
    Some(Position { line, column })
}

/// The range that the value is (LSP 3.17, Range).
pub fn span_of(value: &Value) -> Option<Span>
    ensures { result ≡ spec.span_at (view value.now) }
{
    let first = position_of(value.get("start")?)?;
    let second = position_of(value.get("end")?)?;
    Some(Span { first, second })
}

/// The span of a change, where it has one.
fn range_of(value: &Value) -> Option<Option<Span>>
    ensures { result ≡ spec.allowed (codes "range") spec.span_at (view value.now) }
{
    match given(value, "range") {
        Some(range) => Some(Some(span_of(range)?)),
        None => Some(None),
    }
}

/// The length that a change gives of its range, where that is an integer.
fn range_length_of(value: &Value) -> Option<i32>
    ensures { result ≡ spec.range_length_at (view value.now) }
{
    integer_at(value, "rangeLength")
}

fn change_of(value: Value) -> Option<Change>
    ensures { option_map change_view result ≡ spec.change_at (view value) }
{
    let span = range_of(&value)?;
    let range_length = range_length_of(&value);
    let text = into_text(value, "text")?;
    Some(Change {
        span,
        range_length,
        text,
    })
}

/// The changes that a JSON array lists (LSP 3.17, TextDocumentContentChangeEvent).
///
/// # Errors
/// 209 where the value is not an array, or an item has another shape; `Memory`.
pub(crate) fn changes_of(alloc: Global, value: Value) -> Result<Vec<Change>, Fault>
    ensures { Gives (λ v. changes_view v.items) rules.BAD_METHOD_PARAMS result
        (spec.array_of spec.change_at (view value)) }
{
    let mut found = Vec::new(alloc);
    for item in items_of(value).ok_or(PARAMS_FAULT)? {
        found.push(change_of(item).ok_or(PARAMS_FAULT)?)?;
    }
    Ok(found)
}
