//! JSON values.
ghost use Rattle.std.specs.Prelude.{◌≡◌, OnOk, map, option_map, string_bytes};
ghost use Rattle.lsp_redact.specs.Messages.{list, put_if};
ghost use Rattle.serde_json.specs.Data.{no_members, object, string};
ghost use Rattle.serde_json.specs.View.{members_view, view};

use lsp_rpc::Result;
use serde_json::{Map, Value, put};
use std::alloc::Global;

/// A text as a value.
pub(crate) fn text_value(text: String) -> Value
    ensures { view result ≡ string (string_bytes text) }
{
    Value::String(text)
}

/// These values as an array.
pub(crate) fn array_of(values: Vec<Value>) -> Value
    ensures { view result ≡ list (map view values.items) }
{
    Value::Array(values)
}

/// These members as an object.
pub(crate) fn object_of(members: Map<String, Value>) -> Value
    ensures { view result ≡ object (members_view members.entries) }
{
    Value::Object(members)
}

/// No members.
pub(crate) fn no_members(alloc: Global) -> Map<String, Value>
    ensures { members_view result.entries ≡ no_members }
{
    Map::new(alloc)
}

/// Puts a member that may be left out.
pub(crate) fn put_given(
    members: &mut Map<String, Value>,
    alloc: Global,
    name: &str,
    value: Option<Value>,
) -> Result<()>
    ensures { OnOk result (members_view members.new.entries
        ≡ put_if name.now (option_map view value) (members_view members.old.entries)) }
{
    match value {
        Some(value) => Ok(put(members, alloc, name, value)?),
        None => Ok(()),
    }
}
