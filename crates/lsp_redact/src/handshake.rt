//! What stays of the messages of a handshake, as JSON (LSP 3.17, "Server lifecycle").
ghost use Rattle.std.specs.Prelude.{◌≡◌, ◌∷◌, [], IfOk, map, option_map, string_bytes};
ghost use Rattle.lsp_redact.specs.Messages.{encoding_data, kind_number, list, offer_data, offer_of};
ghost use Rattle.lsp_redact.specs.Messages.{offered_data, offered_of, picked_data, picked_of};
ghost use Rattle.lsp_redact.specs.Messages.{registered_data, registered_of, registration_data};
ghost use Rattle.lsp_redact.specs.Messages.{registration_of};
ghost use Rattle.lsp_redact.specs.Names.{encoding_names, method_names, offer_names};
ghost use Rattle.lsp_redact.specs.Names.{offered_names, shown_encoding, shown_method};
ghost use Rattle.lsp_redact.specs.Naming.{Writes};
ghost use Rattle.lsp_redact.specs.Shown.{shown_offer, shown_picked};
ghost use Rattle.lsp_rpc.specs.View.{offer_view, picked_view, texts_view};
ghost use Rattle.serde_json.specs.View.{view};

use crate::redaction::Redaction;
use crate::values::{array_of, no_members, object_of, put_given, text_value};
use lsp_rpc::{Offer, Picked, Result, SyncKind};
use serde_json::{Value, json, push, put};
use std::alloc::Global;

/// The number of a kind of synchronisation (LSP 3.17, TextDocumentSyncKind).
fn number_of(kind: SyncKind) -> u32
    ensures { result ≡ kind_number kind }
{
    match kind {
        SyncKind::Nothing => 0,
        SyncKind::Full => 1,
        SyncKind::Incremental => 2,
    }
}

/// The capabilities of an `initialize`, with these names of encodings.
fn capabilities_value(alloc: Global, encodings: Option<Value>) -> Result<Value>
    ensures { IfOk result (λ shown. view shown ≡ offered_of (option_map view encodings)) }
{
    match encodings {
        Some(names) => Ok(json!(in alloc; {"general": {"positionEncodings": names}})?),
        None => Ok(json!(in alloc; {})?),
    }
}

/// The params of an `initialize`.
fn offer_value(alloc: Global, capabilities: Value, token: Option<Value>) -> Result<Value>
    ensures { IfOk result (λ shown. view shown
        ≡ offer_of (view capabilities) (option_map view token)) }
{
    let mut members = no_members(alloc);
    put(&mut members, alloc, "capabilities", capabilities)?;
    put_given(&mut members, alloc, "workDoneToken", token)?;
    Ok(object_of(members))
}

/// The result that answers an `initialize`.
fn picked_value(alloc: Global, encoding: String, kind: u32) -> Result<Value>
    ensures { IfOk result (λ shown. view shown ≡ picked_of (string_bytes encoding) kind) }
{
    Ok(json!(in alloc; {"capabilities": {
        "positionEncoding": encoding,
        "textDocumentSync": kind
    }})?)
}

/// A registration of this method.
fn registration_value(alloc: Global, method: String) -> Result<Value>
    ensures { IfOk result (λ shown. view shown ≡ registration_of (string_bytes method)) }
{
    Ok(json!(in alloc; {"method": method})?)
}

/// The params of a `client/registerCapability`.
fn registered_value(alloc: Global, registrations: Value) -> Result<Value>
    ensures { IfOk result (λ shown. view shown ≡ registered_of (view registrations)) }
{
    Ok(json!(in alloc; {"registrations": registrations})?)
}

impl Redaction {
    /// The names of encodings that are offered.
    fn encodings(&mut self, names: &[String]) -> Result<Value>
        ensures { IfOk result (λ shown. Writes self.old self.new
            (encoding_names (texts_view names.now))
            (λ n. list (map encoding_data (map (shown_encoding n) (texts_view names.now))))
            (view shown)) }
    {
        let mut shown = Vec::new(self.alloc);
        for name in names {
            let text = self.names.encoding(name.as_str())?;
            push(&mut shown, text_value(text))?;
        }
        Ok(array_of(shown))
    }

    /// The same, where any are.
    fn given_encodings(&mut self, encodings: Option<&Vec<String>>) -> Result<Option<Value>>
        ensures { IfOk result (λ shown. Writes self.old self.new
            (offered_names (option_map (λ v. texts_view v.now.items) encodings.entry))
            (λ n. option_map (λ names. list (map encoding_data names))
            (option_map (map (shown_encoding n))
            (option_map (λ v. texts_view v.now.items) encodings.entry)))
            (option_map view shown)) }
    {
        match encodings {
            Some(names) => {
                let shown = self.encodings(names.as_slice())?;
                Ok(Some(shown))
            }
            None => Ok(None),
        }
    }

    /// The capabilities of an `initialize`.
    fn offered(&mut self, encodings: Option<&Vec<String>>) -> Result<Value>
        ensures { IfOk result (λ shown. Writes self.old self.new
            (offered_names (option_map (λ v. texts_view v.now.items) encodings.entry))
            (λ n. offered_data (option_map (map (shown_encoding n))
            (option_map (λ v. texts_view v.now.items) encodings.entry))) (view shown)) }
    {
        let names = self.given_encodings(encodings)?;
        let capabilities = capabilities_value(self.alloc, names)?;
        Ok(capabilities)
    }

    /// The params of an `initialize`.
    pub(crate) fn initialize(&mut self, offer: &Offer) -> Result<Value>
        ensures { IfOk result (λ shown. Writes self.old self.new
            (offer_names (offer_view offer.now))
            (λ n. offer_data (shown_offer n (offer_view offer.now))) (view shown)) }
    {
        let capabilities = self.offered(offer.encodings.as_ref())?;
        let token = self.given_id(offer.token.as_ref())?;
        let params = offer_value(self.alloc, capabilities, token)?;
        Ok(params)
    }

    /// The result that answers an `initialize`.
    pub(crate) fn picked(&mut self, picked: &Picked) -> Result<Value>
        ensures { IfOk result (λ shown. Writes self.old self.new
            (encoding_names ((picked_view picked.now).encoding ∷ []))
            (λ n. picked_data (shown_picked n (picked_view picked.now))) (view shown)) }
    {
        let encoding = self.names.encoding(picked.encoding.as_str())?;
        let shown = picked_value(self.alloc, encoding, number_of(picked.kind))?;
        Ok(shown)
    }

    /// The methods that a server registers for.
    fn registrations(&mut self, methods: &[String]) -> Result<Value>
        ensures { IfOk result (λ shown. Writes self.old self.new
            (method_names (texts_view methods.now))
            (λ n. list (map registration_data (map (shown_method n) (texts_view methods.now))))
            (view shown)) }
    {
        let mut shown = Vec::new(self.alloc);
        for method in methods {
            let text = self.names.method(method.as_str())?;
            let value = registration_value(self.alloc, text)?;
            push(&mut shown, value)?;
        }
        Ok(array_of(shown))
    }

    /// The params of a `client/registerCapability`.
    pub(crate) fn registered(&mut self, methods: &[String]) -> Result<Value>
        ensures { IfOk result (λ shown. Writes self.old self.new
            (method_names (texts_view methods.now))
            (λ n. registered_data (map (shown_method n) (texts_view methods.now)))
            (view shown)) }
    {
        let registrations = self.registrations(methods)?;
        let params = registered_value(self.alloc, registrations)?;
        Ok(params)
    }
}
