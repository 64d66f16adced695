//! Which messages name a document that is not open, while one is open whose URI differs from its
//! URI in the spelling alone.
ghost use Rattle.std.specs.Prelude.{◌≡◌, ◌++◌, ◌∷◌, [], List, None, Some, IfOk, OnOk};
ghost use Rattle.std.specs.Prelude.{option_map, string_bytes};
ghost use Rattle.std.specs.List.{find};
ghost use Rattle.lsp_docs.specs.Calls.{Call as SpecCall};
ghost use Rattle.lsp_trail.specs.Common.{AreOpenings, call_view, calls, Event, Heard, heard_events};
ghost use Rattle.lsp_trail.specs.Common.{IsNoted, IsSeen, IsTrail, kept_of, on_view, ons_view};
ghost use Rattle.lsp_trail.specs.Common.{raw_view, rule_of, said_at, Stands, Stood, Terms};
ghost use Rattle.lsp_trail.specs.Common.{version_named_at, version_view};
ghost use Rattle.lsp_notes.specs.DocumentNotes.{notes_view, with_note};
ghost use Rattle.lsp_notes.specs.Spellings as spec;
ghost use Rattle.lsp_notes.specs.Spellings.{AreSpellings, HoldsOthers, IsSought};

use crate::document_notes::{DocumentNote, is_noted, push_note};
use lsp_docs::{Call, Docs};
use lsp_lined::Lined;
use lsp_outline::DocumentVersion;
use lsp_replay::{EventPlace, Events, Seen};
use lsp_rpc::{Result, push_quoted};
use lsp_trail::{DocumentEvent, Openings, Trail, if_unopened, is_spelled, stands_open};
use lsp_uris::folded;
use lsp_verdict::Raw;
use std::alloc::Global;

/// Of each URI the first message that names it, though no document of that URI is open, while one
/// is open under another spelling.
///
/// It stands for the events of a session.
#[derive(Drop)]
pub(crate) struct Spellings {
    pub(crate) named: Vec<DocumentNote>,
}

/// A URI, and its spelling folded, that open documents are compared with.
#[derive(Clone, Copy)]
pub(crate) struct Sought<'a> {
    docs: &'a Docs<Lined>,
    openings: &'a Openings,
    uri: &'a str,
    spelling: &'a [u8],
}

impl Spellings {
    /// Nothing was named.
    pub(crate) fn new(alloc: Global) -> Spellings
        ensures { (terms : Terms) → AreSpellings terms result [] }
    {
        Spellings {
            named: Vec::new(alloc),
        }
    }

    /// Notes the next event, which is kept and says this of a document. The trail is of the events
    /// before it. Usually it changes the document, which is open.
    #[inline(always)]
    pub(crate) fn note_call(
        &mut self,
        held: &Events<Lined>,
        trail: &Trail,
        seen: &Seen<'_>,
        call: Call<'_>,
    ) -> Result<()>
        ensures { OnOk result ((terms : Terms) (before : List Heard) (h : Heard)
            → IsTrail terms trail.now (heard_events before)
            → AreSpellings terms self.old (heard_events before)
            → IsSeen held.now.session held.now.docs held.now.counts seen.now terms before h
            → rule_of terms before h ≡ None → seen.now.call ≡ Some call.entry
            → AreSpellings terms self.new (heard_events (before ++ h ∷ []))) }
    {
        let Some(uri) = unopened_by(&held.docs, call) else {
            return Ok(());
        };
        let place = EventPlace::last(&held.counts, seen.raw.who());
        self.note(&held.docs, &trail.openings, place, uri)
    }

    /// Notes a message that is kept and says nothing of a document. The trail is of the events
    /// before it, and this is what the message names.
    pub(crate) fn note_message(
        &mut self,
        held: &Events<Lined>,
        trail: &Trail,
        raw: Raw<'_>,
        named: &Option<DocumentVersion>,
    ) -> Result<()>
        ensures { OnOk result ((terms : Terms) (before : List Heard) (h : Heard)
            → IsTrail terms trail.now (heard_events before)
            → AreSpellings terms self.old (heard_events before)
            → option_map version_view named.now ≡ version_named_at h.note.event
            → Stood terms held.now.session held.now.docs held.now.counts (before ++ h ∷ [])
            → rule_of terms before h ≡ None → IsNoted (raw_view raw.entry) h.note
            → said_at terms (heard_events before) h.note.event ≡ None
            → AreSpellings terms self.new (heard_events (before ++ h ∷ []))) }
    {
        let Some(named) = named else {
            return Ok(());
        };
        let Some(unopened) = if_unopened(&held.docs, named.uri.as_str()) else {
            return Ok(());
        };
        let place = EventPlace::last(&held.counts, raw.who());
        self.note(&held.docs, &trail.openings, place, unopened)
    }

    /// Notes that the event of this place names this URI, of which no document is open, if one is
    /// open under another spelling. The documents may have this one more.
    #[cold]
    #[inline(never)]
    fn note(
        &mut self,
        docs: &Docs<Lined>,
        openings: &Openings,
        place: EventPlace,
        uri: &str,
    ) -> Result<()>
        ensures { OnOk result ((before : List Event) (made : List SpecCall)
            → Stands docs.now made → AreOpenings docs.now.terms openings.now before
            → HoldsOthers docs.now.terms uri.now (calls (kept_of docs.now.terms before)) made
            → notes_view self.new.named.items ≡ with_note (notes_view self.old.named.items)
            (spec.spelling_note docs.now.terms before place uri.now)) }
    {
        if is_noted(self.named.as_slice(), uri) {
            return Ok(());
        }
        let Some(words) = words_on(docs, openings, uri)? else {
            return Ok(());
        };
        push_note(&mut self.named, uri, words, place)
    }
}

// ---- a document that is not open

/// The URI of the document of which a message says this, if none is open before it.
#[inline(always)]
fn unopened_by<'a>(docs: &Docs<Lined>, call: Call<'a>) -> Option<&'a str>
    ensures { (made : List SpecCall) → Stands docs.now made
        → option_map (λ uri. uri.now) result
        ≡ spec.unopened_by docs.now.terms made (call_view call.entry) }
{
    match call {
        Call::Opens { uri, .. } => Some(uri),
        Call::Saves { uri, .. } => if_unopened(docs, uri),
        Call::Changes { .. } | Call::Closes { .. } | Call::Shows { .. } => None,
    }
}

// ---- another one that is open

/// The words of a note on a URI, if a document is open under another spelling.
fn words_on(docs: &Docs<Lined>, openings: &Openings, uri: &str) -> Result<Option<String>>
    ensures { IfOk result (λ words. (before : List Event) (made : List SpecCall)
        → Stands docs.now made → AreOpenings docs.now.terms openings.now before
        → HoldsOthers docs.now.terms uri.now (calls (kept_of docs.now.terms before)) made
        → option_map string_bytes words ≡ option_map (λ on. spec.similar_words uri.now on.uri)
        (spec.other_spelling docs.now.terms before uri.now)) }
{
    let spelling = folded(docs.alloc(), uri)?;
    let sought = Sought {
        docs,
        openings,
        uri,
        spelling: spelling.as_slice(),
    };
    let (first, second) = openings.last_opened();
    let earlier = words_in(sought, first)?;
    let later = words_in(sought, second)?;
    Ok(earlier.or(later))
}

/// The words of the note, if one of these messages opened such a document.
fn words_in(sought: Sought<'_>, opened: &[DocumentEvent]) -> Result<Option<String>>
    ensures { IfOk result (λ words. (before : List Event) → IsSought before sought.entry
        → option_map string_bytes words
        ≡ option_map (λ on. spec.similar_words sought.entry.uri.now on.uri)
        (find (spec.is_sought before sought.entry) (ons_view opened.now))) }
{
    for on in opened {
        if is_other(sought, on)? {
            let words = similar_words(sought.docs.alloc(), sought.uri, on.uri.as_str())?;
            return Ok(Some(words));
        }
    }
    Ok(None)
}

/// Whether this message opened a document that is open, whose URI differs in the spelling alone.
fn is_other(sought: Sought<'_>, on: &DocumentEvent) -> Result<bool>
    ensures { IfOk result (λ other. (before : List Event) → IsSought before sought.entry
        → other ≡ spec.is_sought before sought.entry (on_view on.now)) }
{
    let Sought {
        docs,
        openings,
        uri,
        spelling,
    } = sought;
    let other = on.uri.as_str();
    if other == uri {
        return Ok(false);
    }
    if !is_spelled(docs.alloc(), uri.len(), spelling, other)? {
        return Ok(false);
    }
    Ok(stands_open(docs, openings, on))
}

fn similar_words(alloc: Global, uri: &str, other: &str) -> Result<String>
    ensures { IfOk result (λ words. string_bytes words ≡ spec.similar_words uri.now other.now) }
{
    let mut words = String::from_str(alloc, "note similar ")?;
    push_quoted(alloc, &mut words, uri)?;
    words.push_str(" ")?;
    push_quoted(alloc, &mut words, other)?;
    Ok(words)
}
