//! Which member of the params of a message, or of the result of `initialize`, does not have the
//! shape that it must have: the first one of the tables, as a JSON pointer (RFC 6901) from there.
ghost use Rattle.std.specs.Prelude.{◌≡◌, ◌++◌, map, option_map};
ghost use Rattle.serde_json.specs.View.{items_view, view};
ghost use Rattle.lsp_rpc.specs.Params.{given};
ghost use Rattle.lsp_rpc.specs.View.{message_view};
ghost use Rattle.lsp_facts.specs.Members as spec;
ghost use Rattle.lsp_facts.specs.Members.{Finds, part_view, row_view};

use crate::shapes::{Kind, Need, PARAMS, Part, RESULT, Row};
use lsp_rpc::{Message, Result, integer_of};
use serde_json::Value;
use std::alloc::Global;

/// The member of the params of a message that does not have its shape.
pub(crate) fn wrong_member(alloc: Global, message: &Message) -> Result<Option<String>>
    ensures { Finds result (spec.wrong_member (message_view message.now)) }
{
    match message {
        Message::Request { method, params, .. } => {
            wrong_params(alloc, method.as_str(), params.as_ref())
        }
        Message::Notification { method, params } => {
            wrong_params(alloc, method.as_str(), params.as_ref())
        }
        Message::Response { .. } => Ok(None),
    }
}

/// The member of the result of `initialize` that does not have its shape.
#[tactic(auto, unfolding(crate::specs::Members::result_rows))]
pub(crate) fn wrong_result(alloc: Global, answer: &Value) -> Result<Option<String>>
    ensures { Finds result (spec.wrong_result (view answer.now)) }
{
    wrong_in(alloc, Kind::Object, &RESULT, answer)
}

/// The same of the params of a method of this name.
#[tactic(auto, unfolding(crate::specs::Members::parts))]
fn wrong_params(alloc: Global, method: &str, params: Option<&Value>) -> Result<Option<String>>
    ensures { Finds result
        (spec.wrong_by spec.parts method.now (option_map (λ v. view v.now) params.entry)) }
{
    wrong_by(alloc, &PARAMS, method, params)
}

/// What is wrong by the first part of the method by which something is.
fn wrong_by(
    alloc: Global,
    parts: &[Part],
    method: &str,
    params: Option<&Value>,
) -> Result<Option<String>>
    ensures { Finds result (spec.wrong_by (map part_view parts.now) method.now
        (option_map (λ v. view v.now) params.entry)) }
{
    for part in parts {
        let found = wrong_part(alloc, part, method, params)?;
        if found.is_some() {
            return Ok(found);
        }
    }
    Ok(None)
}

/// What is wrong by a part, if it is one of the method.
fn wrong_part(
    alloc: Global,
    part: &Part,
    method: &str,
    params: Option<&Value>,
) -> Result<Option<String>>
    ensures { Finds result (spec.wrong_part method.now
        (option_map (λ v. view v.now) params.entry) (part_view part.now)) }
{
    let (name, array, kind, rows) = part;
    if *name != method {
        return Ok(None);
    }
    let Some(params) = params else {
        return Ok(Some(String::new(alloc)));
    };
    match array {
        Some(array) => wrong_item(alloc, array, *kind, rows, items_at(params, array)),
        None => wrong_in(alloc, *kind, rows, params),
    }
}

/// The first item of the array at a JSON pointer that is not of this kind with these members.
fn wrong_item(
    alloc: Global,
    array: &str,
    kind: Kind,
    rows: &[Row],
    items: &[Value],
) -> Result<Option<String>>
    ensures { Finds result (option_map (λ rest. array.now ++ rest)
        (spec.wrong_item kind (map row_view rows.now) 0 (items_view items.now))) }
{
    for (number, item) in items.iter().enumerate() {
        if let Some(rest) = wrong_in(alloc, kind, rows, item)? {
            return Ok(Some(format!(in alloc; "{array}/{number}{rest}")?));
        }
    }
    Ok(None)
}

/// The value itself, unless it is of this kind, or the first of its members that is wrong.
fn wrong_in(alloc: Global, kind: Kind, rows: &[Row], value: &Value) -> Result<Option<String>>
    ensures { Finds result (spec.wrong_in kind (map row_view rows.now) (view value.now)) }
{
    if !kind.fits(value) {
        return Ok(Some(String::new(alloc)));
    }
    for row in rows {
        if !row_fits(row, value) {
            let (object, name, ..) = row;
            return Ok(Some(format!(in alloc; "{object}/{name}")?));
        }
    }
    Ok(None)
}

/// Whether a value has a member as it must be.
fn row_fits(row: &Row, value: &Value) -> bool
    ensures { result ≡ spec.row_fits (row_view row.now) (view value.now) }
{
    let (object, name, need, kind) = row;
    let Some(object) = object_at(value, object) else {
        return true;
    };
    match given(object, name) {
        Some(member) => kind.fits(member),
        None => matches!(need, Need::May),
    }
}

/// The object at a JSON pointer.
fn object_at<'a>(value: &'a Value, pointer: &str) -> Option<&'a Value>
    ensures { option_map (λ v. view v.now) result ≡ spec.object_at pointer.now (view value.now) }
{
    let found = value.pointer(pointer)?;
    if found.is_object() { Some(found) } else { None }
}

/// The items of the array at a JSON pointer; none if there is no array.
fn items_at<'a>(value: &'a Value, pointer: &str) -> &'a [Value]
    ensures { items_view result.now ≡ spec.items_at pointer.now (view value.now) }
{
    let Some(found) = value.pointer(pointer) else {
        return &[];
    };
    match found.as_array() {
        Some(items) => items.as_slice(),
        None => &[],
    }
}

/// The member, where it is neither missing nor null.
fn given<'a>(value: &'a Value, name: &str) -> Option<&'a Value>
    ensures { option_map (λ v. view v.now) result ≡ given name.now (view value.now) }
{
    let member = value.get(name)?;
    if member.is_null() { None } else { Some(member) }
}

// ---- kinds

impl Kind {
    /// Whether a JSON value is of this kind.
    fn fits(self, value: &Value) -> bool
        ensures { result ≡ spec.fits self (view value.now) }
    {
        match self {
            Kind::Text => value.is_string(),
            Kind::Integer => integer_of(value).is_some(),
            Kind::Uinteger => integer_of(value).is_some_and(|n| n >= 0),
            Kind::Id => value.is_string() || integer_of(value).is_some(),
            Kind::SyncKind => is_sync_kind(value),
            Kind::Sync => value.is_object() || is_sync_kind(value),
            Kind::Array => value.is_array(),
            Kind::Object => value.is_object(),
        }
    }
}

fn is_sync_kind(value: &Value) -> bool
    ensures { result ≡ spec.fits Kind.SyncKind (view value.now) }
{
    integer_of(value).is_some_and(|n| 0 <= n && n <= 2)
}
