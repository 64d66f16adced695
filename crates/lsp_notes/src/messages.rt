//! The notes on messages: requests that were refused, other spellings, and what the server sends.
ghost use Rattle.std.specs.Prelude.{◌≡◌, ◌++◌, ◌∷◌, [], List, None, OnOk, Some, false, option_map};
ghost use Rattle.lsp_trail.specs.Common.{Event, Heard, heard_events, IsNoted, IsSeen, IsTrail};
ghost use Rattle.lsp_trail.specs.Common.{kept_before, MaySpeak, raw_view, rule_of, said_at, Stood};
ghost use Rattle.lsp_trail.specs.Common.{Terms, version_named_at, version_view};
ghost use Rattle.lsp_notes.specs.MessageNotes.{AreNoted, served_with};
ghost use Rattle.lsp_notes.specs.ServerEdits.{AreServerEdits};
ghost use Rattle.lsp_notes.specs.Spellings.{AreSpellings};

use crate::refusals::Refusals;
use crate::server_edits::ServerEdits;
use crate::spellings::Spellings;
use lsp_docs::Call;
use lsp_lined::Lined;
use lsp_outline::DocumentVersion;
use lsp_replay::{Events, Seen};
use lsp_rpc::{Result, Spoken};
use lsp_trail::{Trail, named_document};
use lsp_verdict::Raw;
use std::alloc::Global;

/// The notes on messages.
///
/// It stands for two lists of events: those that were noted, and the first of them, of which also
/// what the server sends was noted.
#[derive(Drop)]
pub struct MessageNotes {
    pub(crate) refusals: Refusals,
    pub(crate) spellings: Spellings,
    pub(crate) server_edits: ServerEdits,
}

impl MessageNotes {
    /// No event was heard.
    pub fn new(alloc: Global) -> MessageNotes
        ensures { (terms : Terms) → AreNoted terms result [] [] }
    {
        MessageNotes {
            refusals: Refusals::new(alloc),
            spellings: Spellings::new(alloc),
            server_edits: ServerEdits::new(alloc),
        }
    }

    /// Notes the next event, which is kept. The trail is of the events before it. Where an earlier
    /// event broke a rule, what the server sends is left out.
    ///
    /// Usually the event says something of a document. It takes parts of what was seen where it
    /// does not: if all were lent, all would have to stand in memory.
    ///
    /// # Errors
    /// `Memory` where memory was refused; nothing is then known of what is held.
    #[inline(always)]
    pub fn note_event(
        &mut self,
        held: &Events<Lined>,
        trail: &Trail,
        seen: &Seen<'_>,
        broken: bool,
    ) -> Result<()>
        ensures { OnOk result ((terms : Terms) (before : List Heard) (h : Heard)
            (served : List Event) → IsTrail terms trail.now (heard_events before)
            → AreNoted terms self.old (heard_events before) served
            → (broken ≡ false → served ≡ heard_events before)
            → IsSeen held.now.session held.now.docs held.now.counts seen.now terms before h
            → rule_of terms before h ≡ None
            → AreNoted terms self.new (heard_events (before ++ h ∷ []))
            (served_with broken served (heard_events (before ++ h ∷ [])))) }
    {
        let Some(call) = seen.call else {
            return self.note_message(held, trail, seen.raw, seen.spoken, broken);
        };
        self.note_call(held, trail, seen, broken, call)
    }

    /// Notes an event that says this of a document.
    #[inline(always)]
    fn note_call(
        &mut self,
        held: &Events<Lined>,
        trail: &Trail,
        seen: &Seen<'_>,
        broken: bool,
        call: Call<'_>,
    ) -> Result<()>
        ensures { OnOk result ((terms : Terms) (before : List Heard) (h : Heard)
            (served : List Event) → IsTrail terms trail.now (heard_events before)
            → AreNoted terms self.old (heard_events before) served
            → (broken ≡ false → served ≡ heard_events before)
            → IsSeen held.now.session held.now.docs held.now.counts seen.now terms before h
            → rule_of terms before h ≡ None → seen.now.call ≡ Some call.entry
            → AreNoted terms self.new (heard_events (before ++ h ∷ []))
            (served_with broken served (heard_events (before ++ h ∷ [])))) }
    {
        self.spellings.note_call(held, trail, seen, call)?;
        if broken {
            return Ok(());
        }
        self.server_edits.note_call(held, trail, seen)
    }

    /// Notes a message that says nothing of a document.
    #[cold]
    #[inline(never)]
    fn note_message(
        &mut self,
        held: &Events<Lined>,
        trail: &Trail,
        raw: Raw<'_>,
        spoken: Option<&Spoken>,
        broken: bool,
    ) -> Result<()>
        ensures { OnOk result ((terms : Terms) (before : List Heard) (h : Heard)
            (served : List Event) → IsTrail terms trail.now (heard_events before)
            → AreNoted terms self.old (heard_events before) served
            → (broken ≡ false → served ≡ heard_events before)
            → Stood terms held.now.session held.now.docs held.now.counts (before ++ h ∷ [])
            → rule_of terms before h ≡ None → IsNoted (raw_view raw.entry) h.note
            → MaySpeak (kept_before terms before) h.note.event (option_map (λ s. s.now) spoken.entry)
            → said_at terms (heard_events before) h.note.event ≡ None
            → AreNoted terms self.new (heard_events (before ++ h ∷ []))
            (served_with broken served (heard_events (before ++ h ∷ [])))) }
    {
        let named = named_document(held.docs.alloc(), raw, spoken)?;
        self.note_named(held, trail, raw, spoken, broken, &named)?;
        self.refusals.note_message(held, trail, raw, spoken, named)
    }

    /// Notes which other spellings a message names and what the server sends, where it names this
    /// document.
    fn note_named(
        &mut self,
        held: &Events<Lined>,
        trail: &Trail,
        raw: Raw<'_>,
        spoken: Option<&Spoken>,
        broken: bool,
        named: &Option<DocumentVersion>,
    ) -> Result<()>
        ensures refusals { self.new.refusals ≡ self.old.refusals }
        ensures noted { OnOk result ((terms : Terms) (before : List Heard) (h : Heard)
            (served : List Event) → IsTrail terms trail.now (heard_events before)
            → AreSpellings terms self.old.spellings (heard_events before)
            → AreServerEdits terms self.old.server_edits served
            → (broken ≡ false → served ≡ heard_events before)
            → option_map version_view named.now ≡ version_named_at h.note.event
            → Stood terms held.now.session held.now.docs held.now.counts (before ++ h ∷ [])
            → rule_of terms before h ≡ None → IsNoted (raw_view raw.entry) h.note
            → MaySpeak (kept_before terms before) h.note.event (option_map (λ s. s.now) spoken.entry)
            → said_at terms (heard_events before) h.note.event ≡ None
            → AreSpellings terms self.new.spellings (heard_events (before ++ h ∷ []))
            × AreServerEdits terms self.new.server_edits
            (served_with broken served (heard_events (before ++ h ∷ [])))) }
    {
        self.spellings.note_message(held, trail, raw, named)?;
        if broken {
            return Ok(());
        }
        self.server_edits
            .note_message(held, trail, raw, spoken, named)
    }
}
