//! Which requests about documents the server refused for their params.
ghost use Rattle.std.specs.Prelude.{◌≡◌, ◌++◌, ◌∷◌, [], List, None, IfOk, OnOk, if◌then◌else◌};
ghost use Rattle.std.specs.Prelude.{Some, map, option_and_then, option_map, string_bytes};
ghost use Rattle.std.specs.List.{cons_option};
ghost use Rattle.std.specs.Ordering.{int_eq};
ghost use Rattle.lsp_trail.specs.Common.{AreMarks, Editor, Event, Heard, heard_events, id_view};
ghost use Rattle.lsp_trail.specs.Common.{IsNoted, IsSeen, IsTrail, kept_before, MaySpeak};
ghost use Rattle.lsp_trail.specs.Common.{message_view, outline, raw_view, rule_of, said_at, Stood};
ghost use Rattle.lsp_trail.specs.Common.{Terms, version_named, version_named_at, version_view};
ghost use Rattle.lsp_notes.specs.DocumentNotes.{notes_view, with_note};
ghost use Rattle.lsp_notes.specs.Refusals as spec;
ghost use Rattle.lsp_notes.specs.Refusals.{AreRefusals, invalid_params, most_requests};
ghost use Rattle.lsp_notes.specs.Requests.{Holds, request_view, requests_view};
ghost use Rattle.lsp_rpc.specs.Message.{Message as AMessage};

use crate::document_notes::{DocumentNote, is_noted, push_note};
use crate::requests::{Request, push_request, request_at};
use lsp_lined::Lined;
use lsp_outline::DocumentVersion;
use lsp_replay::{EventPlace, Events, Seen};
use lsp_rpc::{Answer, Id, Message, Result, Side, Spoken, push_quoted};
use lsp_trail::{Marks, Trail};
use lsp_verdict::{Raw, who_of};
use std::alloc::Global;
use std::collections::VecDeque;

/// The code of an error that says that a request's params are not valid (JSON-RPC 2.0, section
/// 5.1).
const INVALID_PARAMS: i32 = -32602;

/// How many requests are held at most.
const MOST_REQUESTS: usize = 1024;

/// The last requests of the editor, and of each document the first answer that refused one about it
/// for its params, though the document was open all the time.
///
/// It stands for the events of a session.
#[derive(Drop)]
pub(crate) struct Refusals {
    asked: VecDeque<Request>,
    pub(crate) refused: Vec<DocumentNote>,
}

impl Refusals {
    /// Nothing was asked.
    pub(crate) fn new(alloc: Global) -> Refusals
        ensures { (terms : Terms) → AreRefusals terms result [] }
    {
        Refusals {
            asked: VecDeque::new(alloc),
            refused: Vec::new(alloc),
        }
    }

    /// Notes a message that is kept and says nothing of a document. The trail is of the events
    /// before it, and this is what the message names.
    pub(crate) fn note_message(
        &mut self,
        held: &Events<Lined>,
        trail: &Trail,
        raw: Raw<'_>,
        spoken: Option<&Spoken>,
        named: Option<DocumentVersion>,
    ) -> Result<()>
        ensures { OnOk result ((terms : Terms) (before : List Heard) (h : Heard)
            → IsTrail terms trail.now (heard_events before)
            → AreRefusals terms self.old (heard_events before)
            → option_map version_view named ≡ version_named_at h.note.event
            → Stood terms held.now.session held.now.docs held.now.counts (before ++ h ∷ [])
            → rule_of terms before h ≡ None → IsNoted (raw_view raw.entry) h.note
            → MaySpeak (kept_before terms before) h.note.event (option_map (λ s. s.now) spoken.entry)
            → said_at terms (heard_events before) h.note.event ≡ None
            → AreRefusals terms self.new (heard_events (before ++ h ∷ []))) }
    {
        let Raw::Content { side, .. } = raw else {
            return Ok(());
        };
        let Some(spoken) = spoken else {
            return Ok(());
        };
        let place = EventPlace::last(&held.counts, who_of(side));
        match side {
            Side::Editor => note_request(&mut self.asked, place, &spoken.message, named),
            Side::Server => {
                note_answer(
                    &mut self.refused,
                    &self.asked,
                    trail,
                    place,
                    &spoken.message,
                )
            }
        }
    }
}

/// Adds a message of the editor, the event of this place, that names this document, if it is a
/// request.
fn note_request(
    asked: &mut VecDeque<Request>,
    place: EventPlace,
    message: &Message,
    named: Option<DocumentVersion>,
) -> Result<()>
    ensures { OnOk result ((m : AMessage) → outline m ≡ outline (message_view message.now)
        → option_map version_view named ≡ version_named Editor m
        → Holds most_requests (cons_option (spec.request_of place Editor m) []) asked.old.items
        asked.new.items) }
{
    if !is_request(message) {
        return Ok(());
    }
    push_request(asked, MOST_REQUESTS, place, uri_of(named))
}

/// The URI of the document that is named.
fn uri_of(named: Option<DocumentVersion>) -> Option<String>
    ensures { option_map (λ s. string_bytes s) result
        ≡ option_map (λ v. v.uri) (option_map version_view named) }
{
    Some(named?.uri)
}

fn is_request(message: &Message) -> bool
    ensures { result ≡ spec.is_request (message_view message.now) }
{
    matches!(message, Message::Request { .. })
}

/// Notes a message of the server, the event of this place, if it refuses one of these requests
/// about a document. The trail is of the events before it.
fn note_answer(
    refused: &mut Vec<DocumentNote>,
    asked: &VecDeque<Request>,
    trail: &Trail,
    place: EventPlace,
    message: &Message,
) -> Result<()>
    ensures { OnOk result ((terms : Terms) (before : List Event)
        → IsTrail terms trail.now before
        → requests_view asked.now.items ≡ spec.last_requests terms before
        → notes_view refused.new.items ≡ with_note (notes_view refused.old.items)
        (spec.refusal_note terms before place (spec.refused_id (message_view message.now)))) }
{
    let Some(request) = refused_request(asked, trail, message) else {
        return Ok(());
    };
    let Some(uri) = open_document(&trail.marks, request) else {
        return Ok(());
    };
    note_refusal(refused, place, uri)
}

/// Notes that the event of this place refuses a request about the document of this URI.
fn note_refusal(notes: &mut Vec<DocumentNote>, place: EventPlace, uri: &str) -> Result<()>
    ensures { OnOk result (notes_view notes.new.items ≡ with_note (notes_view notes.old.items)
        (Some (spec.note_on place uri.now))) }
{
    if is_noted(notes.as_slice(), uri) {
        return Ok(());
    }
    let words = refused_words(*notes.allocator(), uri)?;
    push_note(notes, uri, words, place)
}

/// The words of a note on a refused request about the document of this URI.
fn refused_words(alloc: Global, uri: &str) -> Result<String>
    ensures { IfOk result (λ words. string_bytes words ≡ spec.refused_words uri.now) }
{
    let mut words = String::from_str(alloc, "note refused -32602 ")?;
    push_quoted(alloc, &mut words, uri)?;
    Ok(words)
}

// ---- answers

/// The request that a message of the server refuses for its params. The trail is of the events
/// before.
fn refused_request<'a>(
    asked: &'a VecDeque<Request>,
    trail: &Trail,
    message: &Message,
) -> Option<&'a Request>
    ensures { (terms : Terms) (before : List Event) → IsTrail terms trail.now before
        → requests_view asked.now.items ≡ spec.last_requests terms before
        → option_map (λ r. request_view r.now) result
        ≡ option_and_then (spec.refused_request terms before)
        (spec.refused_id (message_view message.now)) }
{
    let id = refused_id(message)?;
    let place = trail.said.asked(Side::Editor, id)?;
    request_at(asked, place)
}

/// The document that a request names, if it is open from the request on.
fn open_document<'a>(marks: &Marks, request: &'a Request) -> Option<&'a str>
    ensures { (terms : Terms) (before : List Event) → AreMarks terms marks.now.map.entries before
        → option_map (λ uri. uri.now) result
        ≡ spec.open_document terms before (request_view request.now) }
{
    match &request.document {
        Some(uri) => if_open_since(marks, request.place, uri.as_str()),
        None => None,
    }
}

fn if_open_since<'a>(marks: &Marks, place: EventPlace, uri: &'a str) -> Option<&'a str>
    ensures { (terms : Terms) (before : List Event) → AreMarks terms marks.now.map.entries before
        → option_map (λ uri. uri.now) result ≡ spec.if_open_since terms before place uri.now }
{
    if is_opened_before(marks.opened(uri), place) {
        Some(uri)
    } else {
        None
    }
}

fn is_opened_before(opened: Option<EventPlace>, place: EventPlace) -> bool
    ensures { result ≡ spec.is_opened_before place opened }
{
    match opened {
        Some(opened) => opened.event < place.event,
        None => false,
    }
}

/// The id of the request that a message of the server refuses for its params.
fn refused_id(message: &Message) -> Option<&Id>
    ensures { option_map (λ id. id_view id.now) result
        ≡ spec.refused_id (message_view message.now) }
{
    match message {
        Message::Response {
            id: Some(id),
            answer: Answer::Error { code },
        } => if_invalid(id, *code),
        _ => None,
    }
}

fn if_invalid(id: &Id, code: i32) -> Option<&Id>
    ensures { option_map (λ id. id_view id.now) result
        ≡ (if int_eq code invalid_params then Some (id_view id.now) else None) }
{
    (code == INVALID_PARAMS).then_some(id)
}
