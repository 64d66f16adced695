//! What a value looks like.
ghost use Rattle.std.specs.Prelude.{◌≡◌, option_map};
ghost use Rattle.serde_json.specs.Find.{as_str};
ghost use Rattle.serde_json.specs.View.{view};
ghost use Rattle.lsp_rpc.specs.Ident.{id_view};
ghost use Rattle.lsp_rpc.specs.Shape.{as_id, as_integer};
ghost use Rattle.lsp_rpc.specs.Params as params;
ghost use Rattle.lsp_rpc.specs.Shape as shape;

use crate::message::Id;
use serde_json::Value;

/// Whether the value is this string.
pub(crate) fn is_text(value: &Value, text: &str) -> bool
    ensures { result ≡ shape.is_text text.now (view value.now) }
{
    match value {
        Value::String(found) => found.as_str() == text,
        _ => false,
    }
}

/// The integer that the value is: from -2,147,483,648 to 2,147,483,647 (LSP 3.17, Base Types).
pub fn integer_of(value: &Value) -> Option<i32>
    ensures { result ≡ as_integer (view value.now) }
{
    let n = value.as_i64()?;
    if i64::from(i32::MIN) <= n && n <= i64::from(i32::MAX) {
        Some(n as i32)
    } else {
        None
    }
}

/// The integer that the member of this name is, as `integer_of` reads it.
pub fn integer_at(value: &Value, name: &str) -> Option<i32>
    ensures { result ≡ params.required name.now as_integer (view value.now) }
{
    integer_of(value.get(name)?)
}

/// The string that the member of this name is.
pub fn text_at<'a>(value: &'a Value, name: &str) -> Option<&'a str>
    ensures { option_map (λ text. text.now) result
        ≡ params.required name.now as_str (view value.now) }
{
    value.get(name)?.as_str()
}

/// The id that the value is, moved out of it.
pub(crate) fn id_in(value: Value) -> Option<Id>
    ensures { option_map id_view result ≡ as_id (view value) }
{
    match value {
        Value::String(text) => Some(Id::Text(text)),
        value => integer_of(&value).map(Id::Number),
    }
}

/// Whether the value is an object or an array, as params must be (JSON-RPC 2.0, section 4.2).
pub(crate) fn is_structure(value: &Value) -> bool
    ensures { result ≡ shape.is_structure (view value.now) }
{
    value.is_array() || value.is_object()
}

/// The member of this name, where it is neither missing nor null.
pub fn given<'a>(value: &'a Value, name: &str) -> Option<&'a Value>
    ensures { option_map (λ v. view v.now) result ≡ params.given name.now (view value.now) }
{
    let member = value.get(name)?;
    if member.is_null() { None } else { Some(member) }
}
