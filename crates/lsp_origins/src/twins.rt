//! Ids that differ only in their type.
ghost use Rattle.std.specs.Prelude.{◌≡◌, IfOk, option_map};
ghost use Rattle.lsp_rpc.specs.Ident.{id_view, text as text_id};
ghost use Rattle.lsp_origins.specs.Traced as spec;

use lsp_rpc::{Id, Result};
use std::alloc::Global;

/// The id of the other type that is written in the same way, if there is one: `7` and `"7"`.
pub(crate) fn twin_of(alloc: Global, id: &Id) -> Result<Option<Id>>
    ensures { IfOk result (λ twin. option_map id_view twin ≡ spec.twin (id_view id.now)) }
{
    match id {
        Id::Number(number) => Ok(Some(Id::Text(format!(in alloc; "{number}")?))),
        Id::Text(text) => number_of(alloc, text.as_str()),
    }
}

/// The number that is written so.
fn number_of(alloc: Global, text: &str) -> Result<Option<Id>>
    ensures { IfOk result
        (λ twin. option_map id_view twin ≡ spec.twin (text_id text.now)) }
{
    Ok(written(alloc, text)?.map(Id::Number))
}

/// The integer that is written so, without a zero in front, a plus or a minus before 0.
fn written(alloc: Global, text: &str) -> Result<Option<i32>>
    ensures { IfOk result (λ number. number ≡ spec.written text.now) }
{
    match text.parse::<i32>() {
        Ok(number) => if_same(alloc, number, text),
        Err(_) => Ok(None),
    }
}

/// The number, if it is written like this text.
fn if_same(alloc: Global, number: i32, text: &str) -> Result<Option<i32>>
    ensures { IfOk result (λ found. found ≡ spec.if_same number text.now) }
{
    let again = format!(in alloc; "{number}")?;
    Ok((again.as_str() == text).then_some(number))
}
