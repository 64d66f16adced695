//! Which edits and versions of documents the server sends, and the notes on them.
ghost use Rattle.std.specs.Prelude.{◌≡◌, ◌++◌, ◌∷◌, [], None, Some, List, IfOk, OnOk, map};
ghost use Rattle.std.specs.Prelude.{option_map, string_bytes};
ghost use Rattle.std.specs.List.{cons_option};
ghost use Rattle.lsp_docs.specs.Calls.{Call as SpecCall};
ghost use Rattle.lsp_trail.specs.Common.{call_at, call_view, edits_of, Event, Heard, heard_events};
ghost use Rattle.lsp_trail.specs.Common.{Holds, IsNoted, IsSeen, IsTrail, kept_before, MaySpeak};
ghost use Rattle.lsp_trail.specs.Common.{message_view, on_document, outline, place_of, raw_view};
ghost use Rattle.lsp_trail.specs.Common.{rule_of, said_at, Server, Stands, Stood, Terms};
ghost use Rattle.lsp_trail.specs.Common.{version_named, version_named_at, version_view};
ghost use Rattle.lsp_notes.specs.DocumentNotes.{document_note, notes_view, with_note};
ghost use Rattle.lsp_notes.specs.LateEdits.{HoldsLate, lates_view};
ghost use Rattle.lsp_notes.specs.ServerEdits as spec;
ghost use Rattle.lsp_notes.specs.ServerEdits.{AreServerEdits, IsNow, NotesBy, edited_view};
ghost use Rattle.lsp_notes.specs.ServerEdits.{last_answers};
ghost use Rattle.lsp_notes.specs.TextsSince.{contents};
ghost use Rattle.lsp_rpc.specs.Message.{Message as AMessage};
ghost use Rattle.lsp_rpc.specs.Reading.{Reads};

use crate::document_notes::{DocumentNote, is_noted, push_note};
use crate::edit_requests::note_edit_request;
use crate::edited::{Edited, Now, edited_by};
use crate::late_edits::{LateAnswer, note_late, words_since};
use crate::requests::Request;
use crate::texts_since::{first_outside, overlap_each, texts_since};
use crate::unsent::words_if_unsent;
use lsp_docs::{Call, Docs};
use lsp_lined::Lined;
use lsp_outline::DocumentVersion;
use lsp_replay::{EventPlace, Events, Seen};
use lsp_rpc::{Encoding, Message, Result, Side, Spoken};
use lsp_trail::Trail;
use lsp_types::{Change, Position};
use lsp_verdict::{Raw, who_of};
use std::alloc::Global;
use std::collections::VecDeque;

/// The last requests of the editor that are answered by edits, and the last answers that came late;
/// of each document the first change that made edits late, the first edits with a position outside
/// of its texts, those that overlap in each of them, and the first version that no message had set.
///
/// It stands for the events of a session.
#[derive(Drop)]
pub(crate) struct ServerEdits {
    asked: VecDeque<Request>,
    late: VecDeque<LateAnswer>,
    pub(crate) late_edits: Vec<DocumentNote>,
    pub(crate) outside: Vec<DocumentNote>,
    pub(crate) overlaps: Vec<DocumentNote>,
    pub(crate) unsent: Vec<DocumentNote>,
}

impl ServerEdits {
    /// Nothing was sent.
    pub(crate) fn new(alloc: Global) -> ServerEdits
        ensures { (terms : Terms) → AreServerEdits terms result [] }
    {
        ServerEdits {
            asked: VecDeque::new(alloc),
            late: VecDeque::new(alloc),
            late_edits: Vec::new(alloc),
            outside: Vec::new(alloc),
            overlaps: Vec::new(alloc),
            unsent: Vec::new(alloc),
        }
    }

    /// Notes the next event, which is kept and says something of a document. The trail is of the
    /// events before it. Usually no answer came late.
    ///
    /// It looks again for what the event says: if that were passed on, it would be copied first.
    #[inline(always)]
    pub(crate) fn note_call(
        &mut self,
        held: &Events<Lined>,
        trail: &Trail,
        seen: &Seen<'_>,
    ) -> Result<()>
        ensures { OnOk result ((terms : Terms) (before : List Heard) (h : Heard)
            (call : SpecCall) → IsTrail terms trail.now (heard_events before)
            → AreServerEdits terms self.old (heard_events before)
            → IsSeen held.now.session held.now.docs held.now.counts seen.now terms before h
            → rule_of terms before h ≡ None
            → call_at (kept_before terms before) h.note.event ≡ Some call
            → AreServerEdits terms self.new (heard_events (before ++ h ∷ []))) }
    {
        if self.late.is_empty() {
            return Ok(());
        }
        let Some(call) = seen.call else {
            return Ok(());
        };
        let place = EventPlace::last(&held.counts, seen.raw.who());
        self.note_change(&held.docs, trail, place, call)
    }

    /// Notes an event that says this of a document, if the edits of an answer were made late by it.
    /// The documents are those after it, the trail is of the events before it.
    #[cold]
    #[inline(never)]
    fn note_change(
        &mut self,
        docs: &Docs<Lined>,
        trail: &Trail,
        place: EventPlace,
        call: Call<'_>,
    ) -> Result<()>
        ensures asked { self.new.asked ≡ self.old.asked }
        ensures late { self.new.late ≡ self.old.late }
        ensures others { (self.new.outside ≡ self.old.outside)
            × ((self.new.overlaps ≡ self.old.overlaps) × (self.new.unsent ≡ self.old.unsent)) }
        ensures late_edits { OnOk result ((before : List Event) (made : List SpecCall)
            → Stands docs.now made → IsTrail docs.now.terms trail.now before
            → lates_view self.old.late.items ≡ last_answers docs.now.terms before
            → notes_view self.new.late_edits.items
            ≡ with_note (notes_view self.old.late_edits.items)
            (spec.late_by docs.now.terms before made place (call_view call.entry))) }
    {
        let Call::Changes { uri, encoding, .. } = call else {
            return Ok(());
        };
        if is_noted(self.late_edits.as_slice(), uri) {
            return Ok(());
        }
        let setters = trail.marks.setters(uri)?;
        let words = words_since(docs, uri, encoding, setters.as_slice(), &self.late)?;
        push_if(&mut self.late_edits, uri, words, place)
    }

    /// Notes a message that is kept and says nothing of a document. The trail is of the events
    /// before it, and this is what the message names.
    pub(crate) fn note_message(
        &mut self,
        held: &Events<Lined>,
        trail: &Trail,
        raw: Raw<'_>,
        spoken: Option<&Spoken>,
        named: &Option<DocumentVersion>,
    ) -> Result<()>
        ensures { OnOk result ((terms : Terms) (before : List Heard) (h : Heard)
            → IsTrail terms trail.now (heard_events before)
            → AreServerEdits terms self.old (heard_events before)
            → option_map version_view named.now ≡ version_named_at h.note.event
            → Stood terms held.now.session held.now.docs held.now.counts (before ++ h ∷ [])
            → rule_of terms before h ≡ None → IsNoted (raw_view raw.entry) h.note
            → MaySpeak (kept_before terms before) h.note.event (option_map (λ s. s.now) spoken.entry)
            → said_at terms (heard_events before) h.note.event ≡ None
            → AreServerEdits terms self.new (heard_events (before ++ h ∷ []))) }
    {
        let Raw::Content { side, content, .. } = raw else {
            return Ok(());
        };
        let Some(spoken) = spoken else {
            return Ok(());
        };
        let place = EventPlace::last(&held.counts, who_of(side));
        match side {
            Side::Editor => note_edit_request(&mut self.asked, place, &spoken.message, named),
            Side::Server => {
                let now = now_at(held, trail, place);
                self.note_server(now, &spoken.message, content, named)
            }
        }
    }

    /// Notes what a message of the server has for documents, read from this content. This is what
    /// it names.
    fn note_server(
        &mut self,
        now: Now<'_>,
        message: &Message,
        content: &[u8],
        named: &Option<DocumentVersion>,
    ) -> Result<()>
        ensures { OnOk result ((terms : Terms) (before : List Event) (event : Event)
            (m : AMessage) → IsNow terms before event now.entry
            → AreServerEdits terms self.old before → Reads content.now m
            → outline m ≡ outline (message_view message.now)
            → option_map version_view named.now ≡ version_named Server m
            → NotesBy terms before event (spec.edited_in_message terms before
            (spec.uris_with terms before event) (place_of before event) m) self.old self.new) }
    {
        let edited = edited_by(now, &self.asked, message, content, named)?;
        self.note_all(now, edited.as_slice())
    }

    /// Notes what a message has for these documents.
    fn note_all(&mut self, now: Now<'_>, edited: &[Edited]) -> Result<()>
        ensures { OnOk result ((terms : Terms) (before : List Event) (event : Event)
            → IsNow terms before event now.entry
            → NotesBy terms before event (map edited_view edited.now) self.old self.new) }
    {
        for one in edited {
            self.note_edited(now, one)?;
        }
        Ok(())
    }

    /// Notes what a message has for a document.
    fn note_edited(&mut self, now: Now<'_>, edited: &Edited) -> Result<()>
        ensures { OnOk result ((terms : Terms) (before : List Event) (event : Event)
            → IsNow terms before event now.entry
            → NotesBy terms before event (edited_view edited.now ∷ []) self.old self.new) }
    {
        note_unsent(&mut self.unsent, now, edited)?;
        let Some(edits) = &edited.edits else {
            return Ok(());
        };
        let Some(texts) = texts_of(now, edited)? else {
            return Ok(());
        };
        self.note_sight(now, edited, texts.as_slice(), edits.as_slice())?;
        Ok(())
    }

    /// Notes edits of a document that has these texts.
    fn note_sight(
        &mut self,
        now: Now<'_>,
        edited: &Edited,
        texts: &[Lined],
        edits: &[Change],
    ) -> Result<()>
        ensures asked { self.new.asked ≡ self.old.asked }
        ensures late_edits { self.new.late_edits ≡ self.old.late_edits }
        ensures unsent { self.new.unsent ≡ self.old.unsent }
        ensures outside { OnOk result (notes_view self.new.outside.items
            ≡ with_note (notes_view self.old.outside.items)
            (option_map (spec.note_on (edited_view edited.now) now.entry.place)
            (spec.outside_in now.entry.encoding
            (spec.sight (contents texts.now) (edits_of edits.now))))) }
        ensures overlaps { OnOk result (notes_view self.new.overlaps.items
            ≡ with_note (notes_view self.old.overlaps.items)
            (option_map (spec.note_on (edited_view edited.now) now.entry.place)
            (spec.overlap_in now.entry.encoding
            (spec.sight (contents texts.now) (edits_of edits.now))))) }
        ensures late { OnOk result (HoldsLate (cons_option
            (spec.late_in (edited_view edited.now) now.entry.place
            (spec.sight (contents texts.now) (edits_of edits.now))) []) self.old.late.items
            self.new.late.items) }
    {
        let uri = edited.uri.as_str();
        let outside = words_if_outside(now, texts, edits)?;
        push_if(&mut self.outside, uri, outside, now.place)?;
        let overlap = words_if_overlap(now, texts, edits)?;
        push_if(&mut self.overlaps, uri, overlap, now.place)?;
        note_late(&mut self.late, uri, edited.since, now.place, texts, edits)
    }
}

/// What is known at the event of this place.
fn now_at<'a>(held: &'a Events<Lined>, trail: &'a Trail, place: EventPlace) -> Now<'a>
    ensures { (terms : Terms) (before : List Event) (event : Event)
        → held.now.docs.terms ≡ terms
        → Holds held.now.session held.now.docs (spec.kept_with terms before event)
        → IsTrail terms trail.now before → place ≡ place_of before event
        → IsNow terms before event result }
{
    Now {
        docs: &held.docs,
        trail,
        encoding: held.session.encoding().unwrap_or(Encoding::Utf16),
        place,
    }
}

/// The texts in which edits of a document are looked at, if all are known.
fn texts_of(now: Now<'_>, edited: &Edited) -> Result<Option<Vec<Lined>>>
    ensures { IfOk result (λ texts. (terms : Terms) (before : List Event) (event : Event)
        → IsNow terms before event now.entry → option_map (λ ts. contents ts.items) texts
        ≡ spec.texts_of terms before event (edited_view edited.now)) }
{
    let uri = edited.uri.as_str();
    let setters = now.trail.marks.setters(uri)?;
    texts_since(now.docs, uri, setters.as_slice(), edited.since)
}

// ---- the notes

/// Adds a note of these words, if there are any, and none on the document of this URI.
fn push_if(
    notes: &mut Vec<DocumentNote>,
    uri: &str,
    words: Option<String>,
    place: EventPlace,
) -> Result<()>
    ensures { OnOk result (notes_view notes.new.items ≡ with_note (notes_view notes.old.items)
        (option_map (document_note (on_document uri.now place)) (option_map string_bytes words))) }
{
    let Some(words) = words else {
        return Ok(());
    };
    if is_noted(notes.as_slice(), uri) {
        return Ok(());
    }
    push_note(notes, uri, words, place)
}

/// Notes a version that no message has set, if the message names one.
fn note_unsent(notes: &mut Vec<DocumentNote>, now: Now<'_>, edited: &Edited) -> Result<()>
    ensures { OnOk result ((terms : Terms) (before : List Event) (event : Event)
        → IsNow terms before event now.entry
        → notes_view notes.new.items ≡ with_note (notes_view notes.old.items)
        (spec.unsent_note terms before event now.entry.place (edited_view edited.now))) }
{
    let Some(version) = edited.version else {
        return Ok(());
    };
    let uri = edited.uri.as_str();
    let words = words_if_unsent(now.docs.alloc(), now.trail, uri, version)?;
    push_if(notes, uri, words, now.place)
}

/// The words of a note on the first position of edits that is outside in each of these texts.
fn words_if_outside(now: Now<'_>, texts: &[Lined], edits: &[Change]) -> Result<Option<String>>
    ensures { IfOk result (λ words. option_map string_bytes words
        ≡ spec.outside_in now.entry.encoding
        (spec.sight (contents texts.now) (edits_of edits.now))) }
{
    let alloc = now.docs.alloc();
    match first_outside(now.encoding, texts, edits) {
        Some(position) => Ok(Some(outside_words(alloc, position)?)),
        None => Ok(None),
    }
}

fn outside_words(alloc: Global, position: Position) -> Result<String>
    ensures { IfOk result (λ words. string_bytes words ≡ spec.outside_words position) }
{
    let Position { line, column } = position;
    let words = format!(in alloc; "note outside {line} {column}")?;
    Ok(words)
}

/// The words of a note on edits that overlap in each of these texts.
fn words_if_overlap(now: Now<'_>, texts: &[Lined], edits: &[Change]) -> Result<Option<String>>
    ensures { IfOk result (λ words. option_map string_bytes words
        ≡ spec.overlap_in now.entry.encoding
        (spec.sight (contents texts.now) (edits_of edits.now))) }
{
    let alloc = now.docs.alloc();
    if !overlap_each(alloc, now.encoding, texts, edits)? {
        return Ok(None);
    }
    let words = String::from_str(alloc, "note overlap")?;
    Ok(Some(words))
}
