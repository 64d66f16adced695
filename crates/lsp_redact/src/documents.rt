//! What stays of the messages about documents, as JSON (LSP 3.17, "Text Document Synchronization").
ghost use Rattle.std.specs.Prelude.{◌≡◌, IfOk, map, option_map, string_bytes};
ghost use Rattle.lsp_redact.specs.Characters.{bytes_left, shown_bytes, written_text};
ghost use Rattle.lsp_redact.specs.Messages.{change_data, change_of, changed_data, changed_of};
ghost use Rattle.lsp_redact.specs.Messages.{closed_data, identifier_data, integer, list};
ghost use Rattle.lsp_redact.specs.Messages.{opened_data, position_data, saved_data, span_data};
ghost use Rattle.lsp_redact.specs.Messages.{text_data};
ghost use Rattle.lsp_redact.specs.Names.{uri_names, uri_of, written_uri};
ghost use Rattle.lsp_redact.specs.Naming.{Writes};
ghost use Rattle.lsp_redact.specs.Shown.{shown_change};
ghost use Rattle.lsp_rpc.specs.View.{change_view, changes_view};
ghost use Rattle.serde_json.specs.View.{view};

use crate::redaction::Redaction;
use crate::values::{array_of, no_members, object_of, put_given, text_value};
use lsp_rpc::{Change, Position, Result, Span};
use serde_json::{Value, json, push, put};
use std::alloc::Global;

fn position_value(alloc: Global, position: Position) -> Result<Value>
    ensures { IfOk result (λ shown. view shown ≡ position_data position) }
{
    let Position { line, column } = position;
    Ok(json!(in alloc; {"character": column, "line": line})?)
}

fn span_value(alloc: Global, span: Span) -> Result<Value>
    ensures { IfOk result (λ shown. view shown ≡ span_data span) }
{
    let end = position_value(alloc, span.second)?;
    let start = position_value(alloc, span.first)?;
    Ok(json!(in alloc; {"end": end, "start": start})?)
}

/// The range of a change, where it has one.
fn range_value(alloc: Global, span: Option<Span>) -> Result<Option<Value>>
    ensures { IfOk result (λ shown. option_map view shown ≡ option_map span_data span) }
{
    match span {
        Some(span) => Ok(Some(span_value(alloc, span)?)),
        None => Ok(None),
    }
}

fn length_value(length: Option<i32>) -> Option<Value>
    ensures { option_map view result ≡ option_map integer length }
{
    match length {
        Some(length) => Some(Value::from(length)),
        None => None,
    }
}

/// A change with this text.
fn change_value(
    alloc: Global,
    span: Option<Span>,
    range_length: Option<i32>,
    text: String,
) -> Result<Value>
    ensures { IfOk result (λ shown. view shown
        ≡ change_of span range_length (string_bytes text)) }
{
    let mut members = no_members(alloc);
    let range = range_value(alloc, span)?;
    put_given(&mut members, alloc, "range", range)?;
    put_given(
        &mut members,
        alloc,
        "rangeLength",
        length_value(range_length),
    )?;
    put(&mut members, alloc, "text", text_value(text))?;
    Ok(object_of(members))
}

/// The params of a `didOpen`.
fn opened_value(alloc: Global, uri: String, version: i32, text: String) -> Result<Value>
    ensures { IfOk result (λ shown. view shown
        ≡ opened_data (string_bytes uri) version (string_bytes text)) }
{
    Ok(json!(in alloc; {"textDocument": {"text": text, "uri": uri, "version": version}})?)
}

/// The params of a `didChange`.
fn changed_value(alloc: Global, uri: String, version: i32, changes: Value) -> Result<Value>
    ensures { IfOk result (λ shown. view shown
        ≡ changed_of (string_bytes uri) version (view changes)) }
{
    Ok(json!(in alloc; {
        "contentChanges": changes,
        "textDocument": {"uri": uri, "version": version}
    })?)
}

/// The params of a `didClose`.
fn closed_value(alloc: Global, uri: String) -> Result<Value>
    ensures { IfOk result (λ shown. view shown ≡ closed_data (string_bytes uri)) }
{
    Ok(json!(in alloc; {"textDocument": {"uri": uri}})?)
}

fn given_text(text: Option<String>) -> Option<Value>
    ensures { option_map view result ≡ option_map text_data (option_map string_bytes text) }
{
    match text {
        Some(text) => Some(text_value(text)),
        None => None,
    }
}

/// A document by its URI (LSP 3.17, TextDocumentIdentifier).
fn identifier_value(alloc: Global, uri: String) -> Result<Value>
    ensures { IfOk result (λ shown. view shown ≡ identifier_data (string_bytes uri)) }
{
    Ok(json!(in alloc; {"uri": uri})?)
}

/// The params of a `didSave`.
fn saved_value(alloc: Global, uri: String, text: Option<String>) -> Result<Value>
    ensures { IfOk result (λ shown. view shown
        ≡ saved_data (string_bytes uri) (option_map string_bytes text)) }
{
    let mut members = no_members(alloc);
    put_given(&mut members, alloc, "text", given_text(text))?;
    let document = identifier_value(alloc, uri)?;
    put(&mut members, alloc, "textDocument", document)?;
    Ok(object_of(members))
}

impl Redaction {
    /// The params of a `didOpen`.
    pub(crate) fn opened(&mut self, uri: &str, version: i32, text: &str) -> Result<Value>
        ensures { IfOk result (λ shown. Writes self.old self.new (uri_names uri.now)
            (λ n. opened_data (written_uri (uri_of n uri.now)) version
            (shown_bytes self.old.apart text.now)) (view shown)) }
    {
        let name = self.names.uri(uri)?;
        let own = self.text(text)?;
        let params = opened_value(self.alloc, name, version, own)?;
        Ok(params)
    }

    fn change(&self, change: &Change) -> Result<Value>
        ensures { IfOk result (λ shown. view shown
            ≡ change_data (shown_change self.now.apart (change_view change.now))) }
    {
        let text = self.text(change.text.as_str())?;
        let shown = change_value(self.alloc, change.span, change.range_length, text)?;
        Ok(shown)
    }

    /// Changes, in order.
    fn changes(&self, changes: &[Change]) -> Result<Value>
        ensures { IfOk result (λ shown. view shown
            ≡ list (map change_data
            (map (shown_change self.now.apart) (changes_view changes.now)))) }
    {
        let mut shown = Vec::new(self.alloc);
        for change in changes {
            let value = self.change(change)?;
            push(&mut shown, value)?;
        }
        Ok(array_of(shown))
    }

    /// The params of a `didChange`.
    pub(crate) fn changed(&mut self, uri: &str, version: i32, changes: &[Change]) -> Result<Value>
        ensures { IfOk result (λ shown. Writes self.old self.new (uri_names uri.now)
            (λ n. changed_data (written_uri (uri_of n uri.now)) version
            (map (shown_change self.old.apart) (changes_view changes.now))) (view shown)) }
    {
        let name = self.names.uri(uri)?;
        let own = self.changes(changes)?;
        let params = changed_value(self.alloc, name, version, own)?;
        Ok(params)
    }

    /// The params of a `didClose`.
    pub(crate) fn closed(&mut self, uri: &str) -> Result<Value>
        ensures { IfOk result (λ shown. Writes self.old self.new (uri_names uri.now)
            (λ n. closed_data (written_uri (uri_of n uri.now))) (view shown)) }
    {
        let name = self.names.uri(uri)?;
        let params = closed_value(self.alloc, name)?;
        Ok(params)
    }

    /// The text of a save, where it includes one.
    fn saved_text(&self, text: Option<&String>) -> Result<Option<String>>
        ensures { IfOk result (λ shown. option_map string_bytes shown
            ≡ option_map written_text (option_map (bytes_left self.now.apart)
            (option_map (λ t. string_bytes t.now) text.entry))) }
    {
        match text {
            Some(text) => Ok(Some(self.text(text.as_str())?)),
            None => Ok(None),
        }
    }

    /// The params of a `didSave`.
    pub(crate) fn saved(&mut self, uri: &str, text: Option<&String>) -> Result<Value>
        ensures { IfOk result (λ shown. Writes self.old self.new (uri_names uri.now)
            (λ n. saved_data (written_uri (uri_of n uri.now)) (option_map written_text
            (option_map (bytes_left self.old.apart)
            (option_map (λ t. string_bytes t.now) text.entry)))) (view shown)) }
    {
        let name = self.names.uri(uri)?;
        let own = self.saved_text(text)?;
        let params = saved_value(self.alloc, name, own)?;
        Ok(params)
    }
}
