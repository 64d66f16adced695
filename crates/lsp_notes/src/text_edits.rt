//! Edits of texts as servers send them (LSP 3.17, TextEdit and WorkspaceEdit).
ghost use Rattle.std.specs.Prelude.{◌≡◌, IfOk, codes, nat_lt, option_and_then, option_map};
ghost use Rattle.serde_json.specs.Find.{as_array};
ghost use Rattle.serde_json.specs.View.{items_view, view};
ghost use Rattle.lsp_notes.specs.TextEdits as spec;
ghost use Rattle.lsp_notes.specs.TextEdits.{document_edits_view};
ghost use Rattle.lsp_rpc.specs.Params as shapes;
ghost use Rattle.lsp_trail.specs.Common.{edit_of, edits_of, member};

use lsp_rpc::{Result, given, integer_at, span_of, text_at};
use lsp_types::{Change, Span};
use serde_json::Value;
use std::alloc::Global;

/// How many edits of a text are looked at.
const MOST_EDITS: usize = 1024;

/// What a workspace edit has for a document.
#[derive(Drop)]
pub(crate) struct DocumentEdits {
    /// The version that it is for, if it names one.
    pub(crate) version: Option<i32>,
    /// The edits, if they are looked at.
    pub(crate) edits: Option<Vec<Change>>,
}

/// What a workspace edit has for the document of this URI: in `documentChanges`, or else in
/// `changes`.
pub(crate) fn edits_for(alloc: Global, edit: &Value, uri: &str) -> Result<Option<DocumentEdits>>
    ensures { IfOk result (λ edits. option_map document_edits_view edits
        ≡ spec.edits_for uri.now (view edit.now)) }
{
    match given(edit, "documentChanges") {
        Some(changes) => in_document_changes(alloc, changes, uri),
        None => in_changes(alloc, edit, uri),
    }
}

/// What the first item for the document of this URI has. The ranges of a second one would be those
/// of the text that the first one makes.
fn in_document_changes(alloc: Global, changes: &Value, uri: &str) -> Result<Option<DocumentEdits>>
    ensures { IfOk result (λ edits. option_map document_edits_view edits
        ≡ spec.in_document_changes uri.now (view changes.now)) }
{
    let Some(item) = item_for(changes, uri) else {
        return Ok(None);
    };
    let version = version_of_item(item);
    let edits = edits_of_item(alloc, item)?;
    Ok(Some(DocumentEdits { version, edits }))
}

fn in_changes(alloc: Global, edit: &Value, uri: &str) -> Result<Option<DocumentEdits>>
    ensures { IfOk result (λ edits. option_map document_edits_view edits
        ≡ spec.in_changes uri.now (view edit.now)) }
{
    let Some(own) = changes_for(edit, uri) else {
        return Ok(None);
    };
    let edits = text_edits_of(alloc, own)?;
    Ok(Some(DocumentEdits {
        version: None,
        edits,
    }))
}

fn changes_for<'a>(edit: &'a Value, uri: &str) -> Option<&'a Value>
    ensures { option_map (λ v. view v.now) result
        ≡ shapes.required (codes "changes") (member uri.now) (view edit.now) }
{
    edit.get("changes")?.get(uri)
}

// ---- items of `documentChanges`

fn item_for<'a>(changes: &'a Value, uri: &str) -> Option<&'a Value>
    ensures { option_map (λ v. view v.now) result
        ≡ option_and_then (spec.first_for uri.now) (as_array (view changes.now)) }
{
    first_for(items_of(changes)?, uri)
}

fn first_for<'a>(items: &'a [Value], uri: &str) -> Option<&'a Value>
    ensures { option_map (λ v. view v.now) result ≡ spec.first_for uri.now (items_view items.now) }
{
    for item in items {
        if is_for(item, uri) {
            return Some(item);
        }
    }
    None
}

/// Whether an item is for the document of this URI.
fn is_for(item: &Value, uri: &str) -> bool
    ensures { result ≡ spec.is_for uri.now (view item.now) }
{
    match uri_of_item(item) {
        Some(own) => own == uri,
        None => false,
    }
}

fn uri_of_item(item: &Value) -> Option<&str>
    ensures { option_map (λ uri. uri.now) result
        ≡ shapes.required (codes "textDocument") shapes.uri_at (view item.now) }
{
    text_at(item.get("textDocument")?, "uri")
}

fn version_of_item(item: &Value) -> Option<i32>
    ensures { result
        ≡ shapes.required (codes "textDocument") shapes.version_at (view item.now) }
{
    integer_at(item.get("textDocument")?, "version")
}

fn edits_of_item(alloc: Global, item: &Value) -> Result<Option<Vec<Change>>>
    ensures { IfOk result (λ edits. option_map (λ v. edits_of v.items) edits
        ≡ shapes.required (codes "edits") spec.text_edits_at (view item.now)) }
{
    match item.get("edits") {
        Some(edits) => text_edits_of(alloc, edits),
        None => Ok(None),
    }
}

// ---- edits of a text

/// The edits that an array lists, if each has the form of one and there are not too many.
pub(crate) fn text_edits_of(alloc: Global, value: &Value) -> Result<Option<Vec<Change>>>
    ensures { IfOk result (λ edits. option_map (λ v. edits_of v.items) edits
        ≡ spec.text_edits_at (view value.now)) }
{
    match items_of(value) {
        Some(items) => few_edits(alloc, items),
        None => Ok(None),
    }
}

fn few_edits(alloc: Global, items: &[Value]) -> Result<Option<Vec<Change>>>
    ensures { IfOk result (λ edits. option_map (λ v. edits_of v.items) edits
        ≡ spec.few_edits (items_view items.now)) }
{
    if are_many(items) {
        return Ok(None);
    }
    each_edit(alloc, items)
}

/// Whether there are too many.
fn are_many(items: &[Value]) -> bool
    ensures { result ≡ nat_lt spec.most_edits (spec.count_of (items_view items.now)) }
{
    items.len() > MOST_EDITS
}

fn each_edit(alloc: Global, items: &[Value]) -> Result<Option<Vec<Change>>>
    ensures { IfOk result (λ edits. option_map (λ v. edits_of v.items) edits
        ≡ shapes.all_of spec.text_edit_at (items_view items.now)) }
{
    let mut edits = Vec::new(alloc);
    for item in items {
        let Some(edit) = text_edit_of(alloc, item)? else {
            return Ok(None);
        };
        edits.push(edit)?;
    }
    Ok(Some(edits))
}

/// An edit, as a change of its range.
fn text_edit_of(alloc: Global, item: &Value) -> Result<Option<Change>>
    ensures { IfOk result (λ edit. option_map edit_of edit ≡ spec.text_edit_at (view item.now)) }
{
    let Some(span) = span_of_edit(item) else {
        return Ok(None);
    };
    let Some(text) = text_at(item, "newText") else {
        return Ok(None);
    };
    let text = String::from_str(alloc, text)?;
    Ok(Some(Change {
        span: Some(span),
        range_length: None,
        text,
    }))
}

fn span_of_edit(item: &Value) -> Option<Span>
    ensures { result ≡ shapes.required (codes "range") shapes.span_at (view item.now) }
{
    span_of(item.get("range")?)
}

// ---- shapes

/// The items of an array.
fn items_of(value: &Value) -> Option<&[Value]>
    ensures { option_map (λ items. items_view items.now) result ≡ as_array (view value.now) }
{
    Some(value.as_array()?.as_slice())
}
