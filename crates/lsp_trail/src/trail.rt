//! What is kept of the events of a session on the way: which of them led to what.
ghost use Rattle.std.specs.Prelude.{◌≡◌, ◌++◌, ◌∷◌, [], IfOk, List, None, OnOk, Some, option_map};
ghost use Rattle.lsp_replay.specs.Common.{Heard, heard_events, IsNoted, IsSeen, kept_before};
ghost use Rattle.lsp_replay.specs.Common.{MaySpeak, rule_of, Stood, Terms};
ghost use Rattle.lsp_verdict.specs.Given.{raw_view};
ghost use Rattle.lsp_verdict.specs.Offences.{said_at};
ghost use Rattle.lsp_trail.specs.History.{kept_call};
ghost use Rattle.lsp_trail.specs.Marking.{finds_equal, marked_in};
ghost use Rattle.lsp_trail.specs.Trails.{IsTrail, Keeps};

use crate::bases::Bases;
use crate::conversation::Conversation;
use crate::last_change::LastChange;
use crate::marks::Marks;
use crate::openings::Openings;
use crate::saves::Saves;
use crate::step::{Step, step_of};
use crate::uncompared::Uncompared;
use lsp_lined::Lined;
use lsp_replay::{EventPlace, Events, Fate, Seen};
use lsp_rpc::{Result, Spoken};
use lsp_verdict::{Raw, who_of};
use std::alloc::Global;

/// Which kept events left the documents as they are, which opened and closed them last, changed
/// them, and saved others, and which sent and answered requests and led to the phase.
#[derive(Drop)]
pub struct Trail {
    /// Which events left each document as it is.
    pub marks: Marks,
    /// Which events opened and closed documents last.
    pub openings: Openings,
    /// The texts from which documents may have drifted, and the changes since.
    pub bases: Bases,
    /// Which message changed a document last, and how.
    pub last_change: LastChange,
    /// Which messages saved documents that were not open.
    pub saves: Saves,
    /// Which snapshots were not compared when they were shown.
    pub uncompared: Uncompared,
    /// Which events asked and answered requests and led to the phase, and what the notes say of the
    /// messages.
    pub said: Conversation,
}

/// What is known of the events so far: session, documents and counts, and which events led there.
#[derive(Clone, Copy)]
pub struct Past<'a> {
    /// The session, the documents and the counts.
    pub held: &'a Events<Lined>,
    /// Which events led there.
    pub trail: &'a Trail,
}

impl Trail {
    /// Nothing was heard.
    pub fn new(alloc: Global) -> Trail
        ensures { (terms : Terms) → IsTrail terms result [] }
    {
        Trail {
            marks: Marks::new(alloc),
            openings: Openings::new(alloc),
            bases: Bases::new(alloc),
            last_change: LastChange::new(alloc),
            saves: Saves::new(alloc),
            uncompared: Uncompared::new(alloc),
            said: Conversation::new(alloc),
        }
    }

    /// Keeps the next event. One that offends leaves nothing to keep, and one that says
    /// something of a document leaves the session as it is.
    ///
    /// # Errors
    /// `Memory` where memory was refused; nothing is then known of what is kept.
    #[inline(always)]
    pub fn keep(&mut self, held: &Events<Lined>, seen: &Seen<'_>) -> Result<()>
        ensures { OnOk result ((terms : Terms) (before : List Heard) (h : Heard)
            → IsTrail terms self.old (heard_events before)
            → IsSeen held.now.session held.now.docs held.now.counts seen.now terms before h
            → IsTrail terms self.new (heard_events (before ++ h ∷ []))) }
    {
        let Fate::Kept(took) = seen.fate else {
            return Ok(());
        };
        let Some(call) = seen.call else {
            return self.keep_message(held, seen.raw, seen.spoken);
        };
        let place = EventPlace::last(&held.counts, seen.raw.who());
        self.last_change.keep(&place, call)?;
        self.saves.keep(&held.docs, &place, call)?;
        self.uncompared.keep(&place, call, took)?;
        let Some(step) = step_of(call, took) else {
            return Ok(());
        };
        self.said.renames.keep_call(&place, call)?;
        let is_equal = keep_step(
            &mut self.marks,
            &mut self.openings,
            &place,
            call.uri(),
            &step,
        )?;
        self.bases.keep(&held.docs, call, &step, is_equal)
    }

    /// Adds a message that is kept and says nothing of a document.
    #[inline(never)]
    fn keep_message(
        &mut self,
        held: &Events<Lined>,
        raw: Raw<'_>,
        spoken: Option<&Spoken>,
    ) -> Result<()>
        ensures { OnOk result ((terms : Terms) (before : List Heard) (h : Heard)
            → IsTrail terms self.old (heard_events before)
            → Stood terms held.now.session held.now.docs held.now.counts (before ++ h ∷ [])
            → rule_of terms before h ≡ None → IsNoted (raw_view raw.entry) h.note
            → MaySpeak (kept_before terms before) h.note.event (option_map (λ s. s.now) spoken.entry)
            → said_at terms (heard_events before) h.note.event ≡ None
            → IsTrail terms self.new (heard_events (before ++ h ∷ []))) }
    {
        let Raw::Content { side, content, .. } = raw else {
            return Ok(());
        };
        let Some(spoken) = spoken else {
            return Ok(());
        };
        let place = EventPlace::last(&held.counts, who_of(side));
        let phase = held.session.phase();
        let done = held.session.is_done();
        self.said
            .keep(place, side, content, &spoken.message, phase, done)
    }
}

/// Adds what a kept event, that of this place, does to the document of a URI. Answers whether a
/// snapshot is found equal by it.
#[inline(always)]
fn keep_step(
    marks: &mut Marks,
    openings: &mut Openings,
    place: &EventPlace,
    uri: &str,
    step: &Step,
) -> Result<bool>
    ensures kept { OnOk result (Keeps (Some (kept_call uri.now place.now step.now)) marks.old
        openings.old marks.new openings.new) }
    ensures equal { IfOk result (λ is_equal. is_equal
        ≡ finds_equal step.now (marked_in marks.old.map.entries uri.now)) }
{
    let is_equal = marks.keep(place, uri, step)?;
    openings.keep(place, uri, step)?;
    Ok(is_equal)
}
