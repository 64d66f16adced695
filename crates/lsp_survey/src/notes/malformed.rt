//! The message of a content that is refused although it is a message: its params have the wrong
//! shape.
ghost use Rattle.std.specs.Prelude.{◌≡◌, IfOk, None, Option, Some, codes, if◌then◌else◌};
ghost use Rattle.std.specs.Prelude.{option_map};
ghost use Rattle.lsp_replay.specs.Common.{brought_by, id_view, IsReading, message_view, request_id};
ghost use Rattle.lsp_replay.specs.Common.{required};
ghost use Rattle.lsp_rpc.specs.Message.{Message as AMessage};
ghost use Rattle.lsp_rpc.specs.Params.{uri_at};
ghost use Rattle.lsp_survey.specs.Notes.{IsMeant};
ghost use Rattle.lsp_verdict.specs.Offences.{asks_handshake, brings_text};
ghost use Rattle.serde_json.specs.View.{view};

use lsp_rpc::{Id, Memory, Message, Result, RpcFault, copy_id, read};
use serde_json::Value;
use std::alloc::Global;

/// What a message was to do, whatever else its params have.
#[derive(Drop)]
pub(crate) struct Malformed {
    /// It is a request `initialize`.
    pub asks: bool,
    /// The URI of the document that it opens or changes.
    pub brings: Option<String>,
    /// The id of the request that it is.
    pub asked: Option<Id>,
}

/// Whether a message is a request `initialize`.
fn is_initialize(message: &Message) -> bool
    ensures { result ≡ asks_handshake (message_view message.now) }
{
    match message {
        Message::Request { method, .. } => method.as_str() == "initialize",
        Message::Notification { .. } => false,
        Message::Response { .. } => false,
    }
}

/// Whether a notification opens a document or changes it.
fn brings_text(method: &str) -> bool
    ensures { result ≡ brings_text method.now }
{
    method == "textDocument/didOpen" || method == "textDocument/didChange"
}

/// The URI of the document that params name.
fn uri_in(params: &Value) -> Option<&str>
    ensures { option_map (λ uri. uri.now) result
        ≡ required (codes "textDocument") uri_at (view params.now) }
{
    params.get("textDocument")?.get("uri")?.as_str()
}

/// The URI of the document that a notification with these params opens or changes.
fn brought_in<'a>(method: &str, params: &'a Value) -> Option<&'a str>
    ensures { option_map (λ uri. uri.now) result
        ≡ (if brings_text method.now
        then required (codes "textDocument") uri_at (view params.now) else None) }
{
    if brings_text(method) {
        uri_in(params)
    } else {
        None
    }
}

/// The URI of the document that a message opens or changes, whatever else its params have.
fn brought_by(message: &Message) -> Option<&str>
    ensures { option_map (λ uri. uri.now) result ≡ brought_by (message_view message.now) }
{
    match message {
        Message::Notification {
            method,
            params: Some(params),
        } => brought_in(method.as_str(), params),
        _ => None,
    }
}

/// The id of a request.
fn request_id(message: &Message) -> Option<&Id>
    ensures { option_map (λ id. id_view id.now) result ≡ request_id (message_view message.now) }
{
    match message {
        Message::Request { id, .. } => Some(id),
        Message::Notification { .. } => None,
        Message::Response { .. } => None,
    }
}

/// What a message was to do.
fn meant_by(alloc: Global, message: &Message) -> Result<Malformed>
    ensures { IfOk result (IsMeant (Some (message_view message.now))) }
{
    let brings = match brought_by(message) {
        Some(uri) => Some(String::from_str(alloc, uri)?),
        None => None,
    };
    let asked = match request_id(message) {
        Some(id) => Some(copy_id(id)?),
        None => None,
    };
    Ok(Malformed {
        asks: is_initialize(message),
        brings,
        asked,
    })
}

/// What the message of a refused content was to do: reads it again, for what its params still say.
pub(crate) fn meant_again(alloc: Global, content: &[u8]) -> Result<Malformed>
    ensures { IfOk result (λ meant. (m : Option AMessage) × IsReading content.now m
        × IsMeant m meant) }
{
    match read(alloc, content) {
        Ok(message) => {
            let meant = meant_by(alloc, &message);
            drop(message);
            meant
        }
        Err(RpcFault::Rule(_)) => Ok(Malformed {
            asks: false,
            brings: None,
            asked: None,
        }),
        Err(RpcFault::Memory) => Err(Memory),
    }
}
