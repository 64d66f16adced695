//! Taking the params of a message apart: what is read is moved out of them. `None` means that they
//! do not have the required shape.
ghost use Rattle.std.specs.Prelude.{◌≡◌, option_map, string_bytes};
ghost use Rattle.serde_json.specs.Find.{as_str, as_array};
ghost use Rattle.serde_json.specs.View.{view, items_view};
ghost use Rattle.lsp_rpc.specs.Fault.{Gives};
ghost use Rattle.lsp_rpc.specs.Params as spec;
ghost use Rattle.lsp_rpc.specs.Shape as shape;
ghost use Rattle.lsp_rpc.specs.View.{lent_view, texts_view};
ghost use Rattle.lsp_types.specs.declared.rules.TheConstants as rules;

use crate::shape::integer_of;
use lsp_types::{Fault, rules};
use serde_json::Value;
use std::alloc::Global;
use std::borrow::Cow;
use std::mem;

/// The params do not have the shape of their method.
pub(crate) const PARAMS_FAULT: Fault = Fault::Rule(rules::BAD_METHOD_PARAMS);

/// The params, which must be there. They are copied where they are only lent.
pub(crate) fn required_params(params: Option<Cow<'_, Value>>) -> Result<Value, Fault>
    ensures { Gives view rules.BAD_METHOD_PARAMS result (option_map lent_view params.entry) }
{
    match params {
        Some(params) => Ok(params.into_owned()?),
        None => Err(PARAMS_FAULT),
    }
}

/// The member of this name, moved out of the value.
pub(crate) fn into_member(mut value: Value, name: &str) -> Option<Value>
    ensures { option_map view result ≡ shape.member name.now (view value) }
{
    let member = value.get_mut(name)?;
    Some(mem::replace(member, Value::Null))
}

/// The member, where it is neither missing nor null, moved out of the value.
pub(crate) fn into_given(value: Value, name: &str) -> Option<Value>
    ensures { option_map view result ≡ spec.given name.now (view value) }
{
    match into_member(value, name)? {
        Value::Null => None,
        member => Some(member),
    }
}

/// The string that the value is.
pub(crate) fn text_of(value: Value) -> Option<String>
    ensures { option_map (λ s. string_bytes s) result ≡ as_str (view value) }
{
    match value {
        Value::String(text) => Some(text),
        _ => None,
    }
}

/// The string that the value is, copied.
pub(crate) fn copied_text(value: &Value) -> Result<String, Fault>
    ensures { Gives (λ s. string_bytes s) rules.BAD_METHOD_PARAMS result (as_str (view value.now)) }
{
    match value {
        Value::String(text) => Ok(text.clone()?),
        _ => Err(PARAMS_FAULT),
    }
}

/// The member, which must be a string, moved out of the value.
pub(crate) fn into_text(value: Value, name: &str) -> Option<String>
    ensures { option_map (λ s. string_bytes s) result ≡ spec.required name.now as_str (view value) }
{
    text_of(into_member(value, name)?)
}

/// An integer from 0 to 2,147,483,647 (LSP 3.17, Base Types).
pub(crate) fn uinteger_of(value: &Value) -> Option<u32>
    ensures { result ≡ spec.as_uinteger (view value.now) }
{
    match integer_of(value)? {
        n if n >= 0 => Some(n.cast_unsigned()),
        _ => None,
    }
}

/// The items of the array that the value is, moved out of it.
pub(crate) fn items_of(value: Value) -> Option<Vec<Value>>
    ensures { option_map (λ v. items_view v.items) result ≡ as_array (view value) }
{
    match value {
        Value::Array(items) => Some(items),
        _ => None,
    }
}

/// The strings of the array that the value is, moved out of it.
///
/// # Errors
/// 209 where the value is not an array of strings; `Memory`.
pub(crate) fn strings_of(alloc: Global, value: Value) -> Result<Vec<String>, Fault>
    ensures { Gives (λ v. texts_view v.items)
        rules.BAD_METHOD_PARAMS result (spec.array_of as_str (view value)) }
{
    let mut found = Vec::new(alloc);
    for item in items_of(value).ok_or(PARAMS_FAULT)? {
        found.push(text_of(item).ok_or(PARAMS_FAULT)?)?;
    }
    Ok(found)
}
