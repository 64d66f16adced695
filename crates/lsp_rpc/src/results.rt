//! What the result that answers `initialize` picks.
ghost use Rattle.std.specs.Prelude.{◌≡◌, Err, true, is_some, option_map};
ghost use Rattle.serde_json.specs.View.{view};
ghost use Rattle.lsp_rpc.specs.View.{picked_view};
ghost use Rattle.lsp_rpc.specs.Results as spec;
ghost use Rattle.lsp_rpc.specs.Fault.{Gives};
ghost use Rattle.lsp_types.specs.declared.rules.TheConstants as rules;

use crate::act::Picked;
use crate::shape::{given, integer_of};
use lsp_types::{Fault, SyncKind, rules};
use serde_json::Value;
use std::alloc::Global;

fn kind_of(value: &Value) -> Option<SyncKind>
    ensures { result ≡ spec.kind_at (view value.now) }
{
    match integer_of(value)? {
        0 => Some(SyncKind::Nothing),
        1 => Some(SyncKind::Full),
        2 => Some(SyncKind::Incremental),
        _ => None,
    }
}

/// A kind, or an object that may have one as its `change`.
fn sync_of(value: &Value) -> Option<SyncKind>
    ensures { result ≡ spec.sync_at (view value.now) }
{
    if !value.is_object() {
        return kind_of(value);
    }
    match given(value, "change") {
        Some(change) => kind_of(change),
        None => Some(SyncKind::Nothing),
    }
}

fn kind_in(capabilities: &Value) -> Option<SyncKind>
    ensures { result ≡ spec.kind_in (view capabilities.now) }
{
    match given(capabilities, "textDocumentSync") {
        Some(sync) => sync_of(sync),
        None => Some(SyncKind::Nothing),
    }
}

fn encoding_in(capabilities: &Value) -> Option<&str>
    ensures { option_map (λ s. s.now) result ≡ spec.encoding_in (view capabilities.now) }
{
    match given(capabilities, "positionEncoding") {
        Some(encoding) => encoding.as_str(),
        None => Some("utf-16"),
    }
}

/// What the result of an `initialize` picks (LSP 3.17, InitializeResult).
///
/// # Errors
/// Rule 501 if the result does not have the required shape. `Memory` only if it has.
pub fn picked_of(alloc: Global, answer: &Value) -> Result<Picked, Fault>
    ensures gives { Gives picked_view
        rules.BAD_INITIALIZE_RESULT result (spec.picked_at (view answer.now)) }
    ensures memory { result ≡ Err Fault.Memory → is_some (spec.picked_at (view answer.now)) ≡ true }
{
    let bad_shape = Fault::Rule(rules::BAD_INITIALIZE_RESULT);
    let capabilities = answer.get("capabilities").ok_or(bad_shape)?;
    if !capabilities.is_object() {
        return Err(bad_shape);
    }
    let encoding = encoding_in(capabilities).ok_or(bad_shape)?;
    let kind = kind_in(capabilities).ok_or(bad_shape)?;
    Ok(Picked {
        encoding: String::from_str(alloc, encoding)?,
        kind,
    })
}
