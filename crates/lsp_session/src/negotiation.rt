//! What the two sides agree on.
ghost use Rattle.std.specs.Prelude.{◌≡◌, Some, None, is_some, true, IfOk, IfErr, OnOk};
ghost use Rattle.std.specs.List.{list_any};
ghost use Rattle.std.specs.Str.{bytes_eq};
ghost use Rattle.serde_json.specs.View.{view};
ghost use Rattle.lsp_rpc.specs.View.{offer_view, picked_view, texts_view, act_view};
ghost use Rattle.lsp_rpc.specs.Results.{picked_at};
ghost use Rattle.lsp_session.specs.Negotiation as spec;
ghost use Rattle.lsp_types.specs.Fault.{Names};

use lsp_rpc::{Act, Encoding, Offer, Picked, SyncKind, picked_of};
use lsp_types::{Fault, rules};
use serde_json::Value;
use std::alloc::Global;

/// What an `initialize` and its result agree on.
#[derive(Clone, Copy, Debug, PartialEq, Eq)]
pub(crate) struct Agreed {
    pub(crate) encoding: Encoding,
    pub(crate) kind: SyncKind,
}

fn encoding_named(name: &str) -> Option<Encoding>
    ensures { result ≡ spec.encoding_named name.now }
{
    match name {
        "utf-8" => Some(Encoding::Utf8),
        "utf-16" => Some(Encoding::Utf16),
        "utf-32" => Some(Encoding::Utf32),
        _ => None,
    }
}

fn lists(names: &[String], name: &str) -> bool
    ensures { result ≡ list_any (bytes_eq name.now) (texts_view names.now) }
{
    for listed in names {
        if name == listed.as_str() {
            return true;
        }
    }
    false
}

fn offers(offer: &Offer, name: &str) -> bool
    ensures { result ≡ spec.offers (offer_view offer.now) name.now }
{
    if name == "utf-16" {
        return true;
    }
    match &offer.encodings {
        Some(encodings) => lists(encodings.as_slice(), name),
        None => false,
    }
}

fn check_picked(offer: &Offer, picked: &Picked) -> Result<Agreed, Fault>
    ensures ok { IfOk result (λ agreed. spec.agreed_by (picked_view picked.now) ≡ Some agreed) }
    ensures accepted { OnOk result
        (spec.pick_rule (offer_view offer.now) (Some (picked_view picked.now)) ≡ None) }
    ensures rule { IfErr result
        (Names (spec.pick_rule (offer_view offer.now) (Some (picked_view picked.now)))) }
{
    if !offers(offer, picked.encoding.as_str()) {
        return Err(Fault::Rule(rules::ENCODING_NOT_OFFERED));
    }
    match encoding_named(picked.encoding.as_str()) {
        Some(encoding) => Ok(Agreed {
            encoding,
            kind: picked.kind,
        }),
        None => Err(Fault::Rule(rules::ENCODING_OUTSIDE_PROFILE)),
    }
}

/// What a result agrees on that answers this offer. Memory is taken only where it has the shape.
pub(crate) fn agree(alloc: Global, offer: &Offer, value: &Value) -> Result<Agreed, Fault>
    ensures ok { IfOk result (λ agreed. spec.agreed_at (view value.now) ≡ Some agreed) }
    ensures accepted { OnOk result
        (spec.pick_rule (offer_view offer.now) (picked_at (view value.now)) ≡ None) }
    ensures rule { IfErr result
        (Names (spec.pick_rule (offer_view offer.now) (picked_at (view value.now)))) }
    ensures memory { result ≡ Err Fault.Memory → is_some (picked_at (view value.now)) ≡ true }
{
    let picked = picked_of(alloc, value)?;
    check_picked(offer, &picked)
}

/// Whether a method is one of text synchronisation: opens, changes or closes of documents.
pub fn is_synchronisation(method: &str) -> bool
    ensures { result ≡ spec.is_synchronisation method.now }
{
    matches!(
        method,
        "textDocument/didOpen" | "textDocument/didChange" | "textDocument/didClose"
    )
}

fn any_synchronisation(methods: &[String]) -> bool
    ensures { result ≡ list_any spec.is_synchronisation (texts_view methods.now) }
{
    for method in methods {
        if is_synchronisation(method.as_str()) {
            return true;
        }
    }
    false
}

/// Whether the act registers for opens, changes or closes of documents.
pub(crate) fn registers_synchronisation(act: &Act) -> bool
    ensures { result ≡ spec.registers_synchronisation (act_view act.now) }
{
    match act {
        Act::Register { methods } => any_synchronisation(methods.as_slice()),
        _ => false,
    }
}
