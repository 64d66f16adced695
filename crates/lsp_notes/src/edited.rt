//! What messages of the server have for documents: edits, and the versions that they are for.
ghost use Rattle.std.specs.Prelude.{◌≡◌, ◌++◌, ◌∷◌, [], None, Some, List, IfOk, OnOk, true};
ghost use Rattle.std.specs.Prelude.{map, option_map, option_to_list};
ghost use Rattle.lsp_docs.specs.Calls.{Call as SpecCall};
ghost use Rattle.lsp_trail.specs.Common.{Event, id_view, IsTrail, message_view, outline, params_of};
ghost use Rattle.lsp_trail.specs.Common.{Server, Stands, Terms, version_named, version_view};
ghost use Rattle.lsp_notes.specs.EditRequests.{last_requests};
ghost use Rattle.lsp_notes.specs.Refusals.{is_request};
ghost use Rattle.lsp_notes.specs.Requests.{request_view, requests_view};
ghost use Rattle.lsp_notes.specs.ServerEdits as spec;
ghost use Rattle.lsp_notes.specs.ServerEdits.{IsNow, edited_view, uris_with};
ghost use Rattle.lsp_notes.specs.TextEdits.{text_edits_at};
ghost use Rattle.lsp_rpc.specs.Message.{Message as AMessage};
ghost use Rattle.lsp_rpc.specs.Reading.{Reads};
ghost use Rattle.serde_json.specs.View.{view};

use crate::requests::{Request, request_at};
use crate::text_edits::{DocumentEdits, edits_for, text_edits_of};
use lsp_docs::Docs;
use lsp_lined::Lined;
use lsp_outline::DocumentVersion;
use lsp_replay::EventPlace;
use lsp_rpc::{Answer, Id, Memory, Message, Result, RpcFault, Side, read};
use lsp_trail::Trail;
use lsp_types::{Change, Encoding};
use serde_json::Value;
use std::alloc::Global;
use std::collections::VecDeque;

/// What a message has for a document.
#[derive(Drop)]
pub(crate) struct Edited {
    /// The URI of the document.
    pub(crate) uri: String,
    /// The place of the request that is answered, or else of the message: its texts are those since
    /// then.
    pub(crate) since: EventPlace,
    /// The version that it is for, if it names one.
    pub(crate) version: Option<i32>,
    /// The edits, if there are some that are looked at.
    pub(crate) edits: Option<Vec<Change>>,
}

/// What is known at an event: the documents after it, the trail of the events before it, the
/// encoding that is agreed then, and its place.
#[derive(Clone, Copy)]
pub(crate) struct Now<'a> {
    pub(crate) docs: &'a Docs<Lined>,
    pub(crate) trail: &'a Trail,
    pub(crate) encoding: Encoding,
    pub(crate) place: EventPlace,
}

/// What a message of the server has for documents, read from this content. These are the last
/// requests that are answered by edits, and this is what the message names.
pub(crate) fn edited_by(
    now: Now<'_>,
    asked: &VecDeque<Request>,
    message: &Message,
    content: &[u8],
    named: &Option<DocumentVersion>,
) -> Result<Vec<Edited>>
    ensures { IfOk result (λ edited. (terms : Terms) (before : List Event) (event : Event)
        (m : AMessage) → IsNow terms before event now.entry
        → requests_view asked.now.items ≡ last_requests terms before
        → Reads content.now m → outline m ≡ outline (message_view message.now)
        → option_map version_view named.now ≡ version_named Server m
        → map edited_view edited.items ≡ spec.edited_in_message terms before
        (uris_with terms before event) now.entry.place m) }
{
    match message {
        Message::Request { method, .. } => in_request(now, method.as_str(), content),
        Message::Notification { .. } => in_diagnostics(now.docs.alloc(), now.place, named),
        Message::Response { id, .. } => in_response(now, asked, id, content),
    }
}

// ---- requests

/// What a request of this method has, if it has edits made.
fn in_request(now: Now<'_>, method: &str, content: &[u8]) -> Result<Vec<Edited>>
    ensures { IfOk result (λ edited. (terms : Terms) (before : List Event) (event : Event)
        (m : AMessage) → IsNow terms before event now.entry → Reads content.now m
        → is_request m ≡ true
        → map edited_view edited.items ≡ spec.in_request (uris_with terms before event)
        now.entry.place method.now (params_of m)) }
{
    let alloc = now.docs.alloc();
    if !is_apply_edit(method) {
        return Ok(Vec::new(alloc));
    }
    match read(alloc, content) {
        Ok(message) => {
            let found = in_params(now, &message);
            drop(message);
            found
        }
        Err(RpcFault::Rule(_)) => Ok(Vec::new(alloc)),
        Err(RpcFault::Memory) => Err(Memory),
    }
}

fn is_apply_edit(method: &str) -> bool
    ensures { result ≡ spec.is_apply_edit method.now }
{
    method == "workspace/applyEdit"
}

/// What the edit among the params of a message has.
fn in_params(now: Now<'_>, message: &Message) -> Result<Vec<Edited>>
    ensures { IfOk result (λ edited. (terms : Terms) (before : List Event) (event : Event)
        → IsNow terms before event now.entry
        → map edited_view edited.items ≡ spec.in_edit (uris_with terms before event)
        now.entry.place (spec.edit_in (message_view message.now))) }
{
    match edit_of(message) {
        Some(edit) => in_workspace(now.docs, now.place, edit),
        None => Ok(Vec::new(now.docs.alloc())),
    }
}

fn edit_of(message: &Message) -> Option<&Value>
    ensures { option_map (λ v. view v.now) result ≡ spec.edit_in (message_view message.now) }
{
    match message {
        Message::Request {
            params: Some(params),
            ..
        } => params.get("edit"),
        _ => None,
    }
}

// ---- answers

/// What the response with this id, or with none, has.
fn in_response(
    now: Now<'_>,
    asked: &VecDeque<Request>,
    id: &Option<Id>,
    content: &[u8],
) -> Result<Vec<Edited>>
    ensures { IfOk result (λ edited. (terms : Terms) (before : List Event) (event : Event)
        (m : AMessage) → IsNow terms before event now.entry
        → requests_view asked.now.items ≡ last_requests terms before → Reads content.now m
        → map edited_view edited.items ≡ spec.in_whole (uris_with terms before event)
        (spec.answered terms before (option_map id_view id.now)) m) }
{
    match id {
        Some(id) => in_answer(now, asked, id, content),
        None => Ok(Vec::new(now.docs.alloc())),
    }
}

/// What the answer to the request with this id has, if edits answer it.
fn in_answer(
    now: Now<'_>,
    asked: &VecDeque<Request>,
    id: &Id,
    content: &[u8],
) -> Result<Vec<Edited>>
    ensures { IfOk result (λ edited. (terms : Terms) (before : List Event) (event : Event)
        (m : AMessage) → IsNow terms before event now.entry
        → requests_view asked.now.items ≡ last_requests terms before → Reads content.now m
        → map edited_view edited.items ≡ spec.in_whole (uris_with terms before event)
        (spec.answered_request terms before (id_view id.now)) m) }
{
    let alloc = now.docs.alloc();
    let Some(request) = answered_request(now.trail, asked, id) else {
        return Ok(Vec::new(alloc));
    };
    match read(alloc, content) {
        Ok(message) => {
            let found = in_reply(now.docs, request, &message);
            drop(message);
            found
        }
        Err(RpcFault::Rule(_)) => Ok(Vec::new(alloc)),
        Err(RpcFault::Memory) => Err(Memory),
    }
}

/// The editor's request with this id, if edits answer it.
fn answered_request<'a>(trail: &Trail, asked: &'a VecDeque<Request>, id: &Id) -> Option<&'a Request>
    ensures { (terms : Terms) (before : List Event) → IsTrail terms trail.now before
        → requests_view asked.now.items ≡ last_requests terms before
        → option_map (λ r. request_view r.now) result
        ≡ spec.answered_request terms before (id_view id.now) }
{
    let place = trail.said.asked(Side::Editor, id)?;
    request_at(asked, place)
}

/// What a message has that answers this request.
fn in_reply(docs: &Docs<Lined>, request: &Request, message: &Message) -> Result<Vec<Edited>>
    ensures { IfOk result (λ edited. (made : List SpecCall) → Stands docs.now made
        → map edited_view edited.items ≡ spec.in_whole (spec.open_uris docs.now.terms made)
        (Some (request_view request.now)) (message_view message.now)) }
{
    match result_of(message) {
        Some(value) => in_result(docs, request, value),
        None => Ok(Vec::new(docs.alloc())),
    }
}

fn result_of(message: &Message) -> Option<&Value>
    ensures { option_map (λ v. view v.now) result ≡ spec.result_in (message_view message.now) }
{
    match message {
        Message::Response {
            answer: Answer::Result(value),
            ..
        } => Some(value),
        _ => None,
    }
}

/// What the result of this request has: edits of the document that it names, or a workspace edit.
fn in_result(docs: &Docs<Lined>, request: &Request, value: &Value) -> Result<Vec<Edited>>
    ensures { IfOk result (λ edited. (made : List SpecCall) → Stands docs.now made
        → map edited_view edited.items ≡ spec.edited_by (spec.open_uris docs.now.terms made)
        request.now.place (request_view request.now).document (view value.now)) }
{
    match &request.document {
        Some(uri) => in_list(docs.alloc(), uri.as_str(), request.place, value),
        None => in_workspace(docs, request.place, value),
    }
}

/// Edits of this document, asked for by the event of this place.
fn in_list(alloc: Global, uri: &str, since: EventPlace, value: &Value) -> Result<Vec<Edited>>
    ensures { IfOk result (λ edited. map edited_view edited.items
        ≡ spec.edited uri.now since None (text_edits_at (view value.now)) ∷ []) }
{
    let edits = text_edits_of(alloc, value)?;
    let uri = String::from_str(alloc, uri)?;
    let own = Edited {
        uri,
        since,
        version: None,
        edits,
    };
    only(alloc, own)
}

fn only(alloc: Global, own: Edited) -> Result<Vec<Edited>>
    ensures { IfOk result (λ edited. map edited_view edited.items ≡ edited_view own ∷ []) }
{
    let mut found = Vec::new(alloc);
    found.push(own)?;
    Ok(found)
}

// ---- workspace edits

/// What a workspace edit has for the documents that are open, in the order in which they were
/// opened.
fn in_workspace(docs: &Docs<Lined>, since: EventPlace, edit: &Value) -> Result<Vec<Edited>>
    ensures { IfOk result (λ edited. (made : List SpecCall) → Stands docs.now made
        → map edited_view edited.items
        ≡ spec.edited_in (spec.open_uris docs.now.terms made) since (view edit.now)) }
{
    let mut found = Vec::new(docs.alloc());
    let mut uris = docs.uris();
    while let Some(uri) = uris.next() {
        push_for(&mut found, since, edit, uri)?;
    }
    Ok(found)
}

/// Adds what it has for the document of this URI, if anything.
fn push_for(found: &mut Vec<Edited>, since: EventPlace, edit: &Value, uri: &str) -> Result<()>
    ensures { OnOk result (map edited_view found.new.items ≡ map edited_view found.old.items
        ++ option_to_list (spec.edited_for since (view edit.now) uri.now)) }
{
    let alloc = *found.allocator();
    let Some(DocumentEdits { version, edits }) = edits_for(alloc, edit, uri)? else {
        return Ok(());
    };
    let uri = String::from_str(alloc, uri)?;
    found.push(Edited {
        uri,
        since,
        version,
        edits,
    })?;
    Ok(())
}

// ---- diagnostics

/// What diagnostics have that name this: a version of the document, if there is one.
fn in_diagnostics(
    alloc: Global,
    place: EventPlace,
    named: &Option<DocumentVersion>,
) -> Result<Vec<Edited>>
    ensures { IfOk result (λ edited. map edited_view edited.items
        ≡ spec.in_diagnostics place (option_map version_view named.now)) }
{
    let Some(named) = named else {
        return Ok(Vec::new(alloc));
    };
    let Some(version) = named.version else {
        return Ok(Vec::new(alloc));
    };
    let uri = String::from_str(alloc, named.uri.as_str())?;
    let own = Edited {
        uri,
        since: place,
        version: Some(version),
        edits: None,
    };
    only(alloc, own)
}
