//! Names as numbers.
ghost use Rattle.std.specs.Prelude.{◌≡◌, ◌+◌, ◌++◌, ◌∷◌, [], List, IfOk, OnOk, decimal};
ghost use Rattle.std.specs.Prelude.{string_bytes};
ghost use Rattle.std.specs.List.{list_any};
ghost use Rattle.std.specs.Str.{bytes_eq};
ghost use Rattle.lsp_redact.specs.Names as spec;
ghost use Rattle.lsp_redact.specs.Names.{distinct, editor_methods, encoding_names, id_names};
ghost use Rattle.lsp_redact.specs.Names.{method_names, no_names, number_of, server_methods};
ghost use Rattle.lsp_redact.specs.Names.{shown_encoding, shown_id, shown_method, uri_names, uri_of};
ghost use Rattle.lsp_redact.specs.Names.{written_encoding, written_method, written_uri};
ghost use Rattle.lsp_redact.specs.Naming.{Shows, Stands};
ghost use Rattle.lsp_redact.specs.Messages.{id_data};
ghost use Rattle.lsp_replay.specs.Common.{id_view, Text};
ghost use Rattle.lsp_rpc.specs.Ident as ident;
ghost use Rattle.serde_json.specs.View.{view};

use crate::values::text_value;
use lsp_rpc::{Id, Memory, Result};
use lsp_types::OrderedMap;
use serde_json::Value;
use std::alloc::Global;
use std::marker::Model;

/// The number of each name of one sort, in the order in which they first come, from 1.
#[derive(Drop)]
struct Numbers {
    seen: OrderedMap<String, u64>,
}

impl Model for Numbers {
    ghost use Rattle.std.specs.Prelude.{List, map, string_bytes, ℕ};

    ghost Value = { List (List ℕ) };

    ghost use Rattle.lsp_redact.specs.Numbered.{AreNumbered};

    ghost view = { λ n. map (λ e. string_bytes e.0) n.seen };

    ghost invariant = { λ n. AreNumbered (map (λ e. e.1) n.seen) };
}

impl Numbers {
    fn new(alloc: Global) -> Self
        ensures { result ≡ [] }
    {
        Numbers {
            seen: OrderedMap::new(alloc),
        }
    }

    /// The number of a name.
    fn of(&mut self, name: &str) -> Result<u64>
        ensures seen { OnOk result ((names : List Text) → self.old ≡ distinct names
            → self.new ≡ distinct (names ++ name.now ∷ [])) }
        ensures number { IfOk result (λ number. (names more : List Text)
            → self.old ≡ distinct names
            → number ≡ number_of (names ++ name.now ∷ more) name.now) }
    {
        if let Some(number) = self.seen.get_str(name) {
            return Ok(*number);
        }
        let number = next_number(self.seen.len())?;
        let key = String::from_str(self.seen.allocator(), name)?;
        self.seen.push(key, number)?;
        Ok(number)
    }
}

/// The number after this many.
fn next_number(count: usize) -> Result<u64>
    ensures { IfOk result (λ number. number ≡ count + 1) }
{
    (count as u64).checked_add(1).ok_or(Memory)
}

/// A number with this before it.
fn numbered(alloc: Global, front: &str, number: u64) -> Result<String>
    ensures { IfOk result (λ text. string_bytes text ≡ front.now ++ decimal number) }
{
    Ok(format!(in alloc; "{front}{number}")?)
}

/// Whether the rules name this method of the editor's.
fn is_of_editor(method: &str) -> bool
    ensures { result ≡ list_any (bytes_eq method.now) editor_methods }
{
    matches!(
        method,
        "initialize"
            | "shutdown"
            | "initialized"
            | "exit"
            | "textDocument/didOpen"
            | "textDocument/didChange"
            | "textDocument/didClose"
            | "textDocument/didSave"
            | "$/cancelRequest"
    )
}

/// Whether the rules name this method of the server's.
fn is_of_server(method: &str) -> bool
    ensures { result ≡ list_any (bytes_eq method.now) server_methods }
{
    matches!(
        method,
        "window/showMessageRequest"
            | "client/registerCapability"
            | "$/cancelRequest"
            | "$/progress"
            | "window/showMessage"
            | "window/logMessage"
            | "telemetry/event"
    )
}

/// Whether the rules name this method.
pub(crate) fn is_known(method: &str) -> bool
    ensures { result ≡ spec.is_known method.now }
{
    if is_of_editor(method) {
        return true;
    }
    is_of_server(method)
}

/// Whether the rules name this encoding.
fn is_encoding(name: &str) -> bool
    ensures { result ≡ spec.is_encoding name.now }
{
    name == "utf-8" || name == "utf-16" || name == "utf-32"
}

/// The names in a log, and what each of them is shown by.
#[derive(Drop)]
pub(crate) struct Names {
    alloc: Global,
    uris: Numbers,
    ids: Numbers,
    methods: Numbers,
    encodings: Numbers,
}

impl Names {
    pub(crate) fn new(alloc: Global) -> Self
        ensures { Stands result no_names }
    {
        Names {
            alloc,
            uris: Numbers::new(alloc),
            ids: Numbers::new(alloc),
            methods: Numbers::new(alloc),
            encodings: Numbers::new(alloc),
        }
    }

    /// What a URI is shown by.
    pub(crate) fn uri(&mut self, uri: &str) -> Result<String>
        ensures { IfOk result (λ shown. Shows self.old self.new (uri_names uri.now)
            (λ names. written_uri (uri_of names uri.now)) (string_bytes shown)) }
    {
        let number = self.uris.of(uri)?;
        let shown = numbered(self.alloc, "file:///", number)?;
        Ok(shown)
    }

    /// What an id or a token is shown by that is a number: the number of the text that writes it.
    fn id_number(&mut self, id: i32) -> Result<Value>
        ensures { IfOk result (λ shown. Shows self.old self.new (id_names (ident.number id))
            (λ names. id_data (shown_id names (ident.number id))) (view shown)) }
    {
        let text = format!(in self.alloc; "{id}")?;
        let number = self.ids.of(text.as_str())?;
        Ok(Value::from(number))
    }

    /// What an id or a token is shown by that is a text.
    fn id_text(&mut self, text: &str) -> Result<Value>
        ensures { IfOk result (λ shown. Shows self.old self.new (id_names (ident.text text.now))
            (λ names. id_data (shown_id names (ident.text text.now))) (view shown)) }
    {
        let number = self.ids.of(text)?;
        let shown = numbered(self.alloc, "", number)?;
        Ok(text_value(shown))
    }

    /// What an id or a token is shown by: a number in the form that it has.
    pub(crate) fn id(&mut self, id: &Id) -> Result<Value>
        ensures { IfOk result (λ shown. Shows self.old self.new (id_names (id_view id.now))
            (λ names. id_data (shown_id names (id_view id.now))) (view shown)) }
    {
        match id {
            Id::Number(number) => self.id_number(*number),
            Id::Text(text) => self.id_text(text.as_str()),
        }
    }

    /// What a method is shown by: one that the rules name as it is.
    pub(crate) fn method(&mut self, method: &str) -> Result<String>
        ensures { IfOk result (λ shown. Shows self.old self.new (method_names (method.now ∷ []))
            (λ names. written_method (shown_method names method.now)) (string_bytes shown)) }
    {
        if is_known(method) {
            let same = String::from_str(self.alloc, method)?;
            return Ok(same);
        }
        let number = self.methods.of(method)?;
        let shown = numbered(self.alloc, "method/", number)?;
        Ok(shown)
    }

    /// What the name of an encoding is shown by: one that the rules name as it is.
    pub(crate) fn encoding(&mut self, name: &str) -> Result<String>
        ensures { IfOk result (λ shown. Shows self.old self.new (encoding_names (name.now ∷ []))
            (λ names. written_encoding (shown_encoding names name.now)) (string_bytes shown)) }
    {
        if is_encoding(name) {
            let same = String::from_str(self.alloc, name)?;
            return Ok(same);
        }
        let number = self.encodings.of(name)?;
        let shown = numbered(self.alloc, "encoding-", number)?;
        Ok(shown)
    }
}
