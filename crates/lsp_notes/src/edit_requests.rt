//! The last requests of the editor that are answered by edits.
ghost use Rattle.std.specs.Prelude.{◌≡◌, [], IfOk, OnOk, Some, option_map, string_bytes};
ghost use Rattle.std.specs.List.{cons_option};
ghost use Rattle.lsp_notes.specs.EditRequests as spec;
ghost use Rattle.lsp_notes.specs.EditRequests.{most_requests};
ghost use Rattle.lsp_trail.specs.Common.{Editor, message_view, outline, version_named};
ghost use Rattle.lsp_trail.specs.Common.{version_view};
ghost use Rattle.lsp_notes.specs.Requests.{Holds, request_at};
ghost use Rattle.lsp_rpc.specs.Message.{Message as AMessage};

use crate::requests::{Request, push_request};
use lsp_outline::DocumentVersion;
use lsp_replay::EventPlace;
use lsp_rpc::{Message, Result};
use std::collections::VecDeque;

/// How many requests are held at most.
const MOST_REQUESTS: usize = 64;

/// Adds a message of the editor, the event of this place, that names this document, if it is such a
/// request. What is held of it is the document whose edits answer it; none where a workspace edit
/// does.
pub(crate) fn note_edit_request(
    asked: &mut VecDeque<Request>,
    place: EventPlace,
    message: &Message,
    named: &Option<DocumentVersion>,
) -> Result<()>
    ensures { OnOk result ((m : AMessage) → outline m ≡ outline (message_view message.now)
        → option_map version_view named.now ≡ version_named Editor m
        → Holds most_requests (cons_option (spec.request_of place Editor m) []) asked.old.items
        asked.new.items) }
{
    let Message::Request { method, .. } = message else {
        return Ok(());
    };
    if is_rename(method.as_str()) {
        return push_request(asked, MOST_REQUESTS, place, None);
    }
    if !is_formatting(method.as_str()) {
        return Ok(());
    }
    note_formatting(asked, place, named)
}

/// Adds a request for edits of a document, if it names one.
fn note_formatting(
    asked: &mut VecDeque<Request>,
    place: EventPlace,
    named: &Option<DocumentVersion>,
) -> Result<()>
    ensures { OnOk result (Holds most_requests (cons_option (option_map
        (λ uri. request_at place (Some uri)) (option_map (λ v. v.uri)
        (option_map version_view named.now))) []) asked.old.items asked.new.items) }
{
    let Some(uri) = uri_copy(named)? else {
        return Ok(());
    };
    push_request(asked, MOST_REQUESTS, place, Some(uri))
}

/// The URI of the document that is named.
fn uri_copy(named: &Option<DocumentVersion>) -> Result<Option<String>>
    ensures { IfOk result (λ uri. option_map (λ s. string_bytes s) uri
        ≡ option_map (λ v. v.uri) (option_map version_view named.now)) }
{
    match named {
        Some(named) => Ok(Some(named.uri.clone()?)),
        None => Ok(None),
    }
}

/// Whether the answer to a request of this method lists edits of the document that it names.
fn is_formatting(method: &str) -> bool
    ensures { result ≡ spec.is_formatting method.now }
{
    method == "textDocument/formatting"
        || method == "textDocument/rangeFormatting"
        || method == "textDocument/onTypeFormatting"
        || method == "textDocument/willSaveWaitUntil"
}

/// Whether it is a workspace edit.
fn is_rename(method: &str) -> bool
    ensures { result ≡ spec.is_rename method.now }
{
    method == "textDocument/rename"
}
