//! The notes on the events of a session, each of which is told once: when it is found.
ghost use Rattle.std.specs.Prelude.{◌≡◌, ◌++◌, ◌∷◌, [], List, None, OnOk, drop};
ghost use Rattle.std.specs.Prelude.{if◌then◌else◌, is_some, map, option_map, string_bytes};
ghost use Rattle.lsp_trail.specs.Common.{act_view, Event, Exited, HasFate, Heard, heard_events};
ghost use Rattle.lsp_trail.specs.Common.{is_shutdown, IsSeen, IsTrail, MaySpeak, phase, rule_of};
ghost use Rattle.lsp_trail.specs.Common.{same_phase, Sent, StandsAfter, Terms, terms_in};
ghost use Rattle.lsp_trail.specs.Common.{verdict_view};
ghost use Rattle.lsp_facts.specs.Fact.{fact_lines};
ghost use Rattle.lsp_session.specs.State.{Stands};
ghost use Rattle.lsp_notes.specs.AllNotes as spec;
ghost use Rattle.lsp_notes.specs.AllNotes.{AreAlong, beyond, counts, end_notes, exit_along};
ghost use Rattle.lsp_notes.specs.AllNotes.{found_more, is_broken, kinds, noticed_along};
ghost use Rattle.lsp_notes.specs.AllNotes.{notes_at, refused_shutdown, sound_events, told_view};
ghost use Rattle.lsp_notes.specs.Behind.{AreBehind};
ghost use Rattle.lsp_notes.specs.DocumentNotes.{document_line, notes_view};
ghost use Rattle.lsp_notes.specs.MessageNotes.{AreNoted};
ghost use Rattle.lsp_notes.specs.Misfits.{AreMisfits, Found};

use crate::behind::Behind;
use crate::document_notes::{beyond, push_beyond};
use crate::messages::MessageNotes;
use crate::misfits::Misfits;
use crate::notes::{
    name_in, notes_of, push_count, push_exit, push_misuses, push_name, push_renamed,
    push_uncompared,
};
use lsp_facts::{Facts, push_facts};
use lsp_lined::Lined;
use lsp_replay::{EventPlace, Events, Fate, Seen};
use lsp_rpc::{Act, Result, Spoken};
use lsp_session::{Phase, Session};
use lsp_trail::{Past, Trail};
use lsp_verdict::Verdict;
use std::alloc::Global;

/// How many notes of each kind there are. Of some kinds there is one at most.
#[derive(Clone, Copy)]
pub(crate) struct NoteCounts {
    misuses: usize,
    exit: bool,
    name: bool,
    renamed: bool,
    past_ends: usize,
    range_lengths: usize,
    refused: usize,
    spelled: usize,
    late_edits: usize,
    outside: usize,
    overlaps: usize,
    unsent: usize,
}

/// The notes on the events of a session, and how many of them were told.
///
/// It stands for two lists of events: those that it was told of, and those of which the notes were
/// told.
#[derive(Drop)]
pub struct NotesAlong {
    misfits: Misfits,
    messages: MessageNotes,
    /// Whether an event broke a rule.
    broken: bool,
    behind: Behind,
    /// Whether the editor sent a `shutdown` before the exit that broke a rule.
    shutdown_refused: bool,
    told: NoteCounts,
}

impl NotesAlong {
    /// No event was heard.
    pub fn new(alloc: Global) -> NotesAlong
        ensures { (terms : Terms) → AreAlong terms result [] [] }
    {
        NotesAlong {
            misfits: Misfits::new(alloc),
            messages: MessageNotes::new(alloc),
            broken: false,
            behind: Behind::new(alloc),
            shutdown_refused: false,
            told: NoteCounts {
                misuses: 0,
                exit: false,
                name: false,
                renamed: false,
                past_ends: 0,
                range_lengths: 0,
                refused: 0,
                spelled: 0,
                late_edits: 0,
                outside: 0,
                overlaps: 0,
                unsent: 0,
            },
        }
    }

    /// Notes the next event. The trail is of the events before it.
    ///
    /// # Errors
    /// `Memory` where memory was refused; nothing is then known of what is held.
    pub fn note(&mut self, held: &Events<Lined>, trail: &Trail, seen: &Seen<'_>) -> Result<()>
        ensures { OnOk result ((terms : Terms) (before : List Heard) (h : Heard)
            → IsTrail terms trail.now (heard_events before)
            → AreAlong terms self.old before before
            → IsSeen held.now.session held.now.docs held.now.counts seen.now terms before h
            → AreAlong terms self.new before (before ++ h ∷ [])) }
    {
        note_kept(&mut self.messages, held, trail, seen, self.broken)?;
        note_changes(&mut self.misfits, &self.behind, held, seen)?;
        self.broken |= offends(seen);
        self.shutdown_refused |= refuses_shutdown(held, seen);
        self.behind.note(held, seen)
    }

    /// Adds the lines of the notes that were not told yet. The past is of all events.
    ///
    /// # Errors
    /// `Memory` where memory was refused.
    pub fn push_new(&mut self, lines: &mut String, past: Past<'_>) -> Result<()>
        ensures told { OnOk result ((before : List Heard) (h : Heard)
            → StandsAfter past.entry (heard_events (before ++ h ∷ []))
            → AreAlong (terms_in past.entry) self.old before (before ++ h ∷ [])
            → AreAlong (terms_in past.entry) self.new (before ++ h ∷ []) (before ++ h ∷ [])) }
        ensures said { OnOk result ((before : List Heard) (h : Heard)
            → StandsAfter past.entry (heard_events (before ++ h ∷ []))
            → AreAlong (terms_in past.entry) self.old before (before ++ h ∷ [])
            → string_bytes lines.new
            ≡ string_bytes lines.old ++ fact_lines (notes_at (terms_in past.entry) before h)) }
    {
        let mut notes = Facts::new(*lines.allocator());
        self.push_since(&mut notes, past)?;
        self.told = self.counts(past);
        push_facts(lines, &notes)
    }

    /// Adds the lines of the notes that only the end of a session knows, and how many notes there
    /// are.
    ///
    /// # Errors
    /// `Memory` where memory was refused.
    pub fn push_end(&self, lines: &mut String, past: Past<'_>, verdict: &Verdict) -> Result<()>
        ensures { OnOk result ((heard : List Heard) → StandsAfter past.entry (heard_events heard)
            → AreAlong (terms_in past.entry) self.now heard heard
            → string_bytes lines.new ≡ string_bytes lines.old
            ++ end_notes (verdict_view verdict.now) (noticed_along (terms_in past.entry) heard)) }
    {
        let alloc = *lines.allocator();
        let unshown = past.trail.openings.unshown()?;
        let mut last = Facts::new(alloc);
        push_uncompared(&mut last, verdict, unshown.as_slice())?;
        let all = notes_of(
            alloc,
            past,
            self.exit(past),
            &self.misfits,
            &self.messages,
            verdict,
        )?;
        push_facts(lines, &last)?;
        push_count(lines, &all)
    }

    /// Adds the notes that were not told yet.
    fn push_since(&self, notes: &mut Facts, past: Past<'_>) -> Result<()>
        ensures { OnOk result ((before heard : List Heard)
            → StandsAfter past.entry (heard_events heard)
            → AreAlong (terms_in past.entry) self.now before heard
            → notes.new ≡ notes.old ++ beyond (told_view self.now.told)
            (kinds (noticed_along (terms_in past.entry) heard))) }
    {
        let said = &past.trail.said;
        let told = self.told;
        let misuses = beyond(said.notes.misuses.as_slice(), told.misuses);
        let exit = unless(told.exit, self.exit(past));
        let name = unless(told.name, name_in(past));
        let renamed = unless(told.renamed, said.renames.renamed());
        push_misuses(notes, misuses)?;
        push_exit(notes, exit)?;
        push_name(notes, name)?;
        push_renamed(notes, renamed)?;
        push_beyond(notes, &self.misfits.past_ends, told.past_ends)?;
        push_beyond(notes, &self.misfits.range_lengths, told.range_lengths)?;
        let messages = &self.messages;
        push_beyond(notes, &messages.refusals.refused, told.refused)?;
        push_beyond(notes, &messages.spellings.named, told.spelled)?;
        let edits = &messages.server_edits;
        push_beyond(notes, &edits.late_edits, told.late_edits)?;
        push_beyond(notes, &edits.outside, told.outside)?;
        push_beyond(notes, &edits.overlaps, told.overlaps)?;
        push_beyond(notes, &edits.unsent, told.unsent)
    }

    /// How many notes of each kind there are.
    fn counts(&self, past: Past<'_>) -> NoteCounts
        ensures { (before heard : List Heard) → StandsAfter past.entry (heard_events heard)
            → AreAlong (terms_in past.entry) self.now before heard
            → told_view result ≡ counts (kinds (noticed_along (terms_in past.entry) heard)) }
    {
        let said = &past.trail.said;
        let edits = &self.messages.server_edits;
        NoteCounts {
            misuses: said.notes.misuses.len(),
            exit: self.exit(past).is_some(),
            name: name_in(past).is_some(),
            renamed: said.renames.renamed().is_some(),
            past_ends: self.misfits.past_ends.len(),
            range_lengths: self.misfits.range_lengths.len(),
            refused: self.messages.refusals.refused.len(),
            spelled: self.messages.spellings.named.len(),
            late_edits: edits.late_edits.len(),
            outside: edits.outside.len(),
            overlaps: edits.overlaps.len(),
            unsent: edits.unsent.len(),
        }
    }

    /// The event of the `exit` without a `shutdown` before it, also none that was skipped.
    fn exit(&self, past: Past<'_>) -> Option<EventPlace>
        ensures { (before heard : List Heard) → StandsAfter past.entry (heard_events heard)
            → AreAlong (terms_in past.entry) self.now before heard
            → result ≡ exit_along (terms_in past.entry) heard }
    {
        unless(self.shutdown_refused, past.trail.said.notes.abrupt_exit)
    }
}

/// Whether an event breaks a rule.
fn offends(seen: &Seen<'_>) -> bool
    ensures { (terms : Terms) (before : List Heard) (h : Heard)
        → HasFate terms before h seen.now.fate
        → result ≡ is_some (rule_of terms before h) }
{
    matches!(seen.fate, Fate::Offends { .. })
}

/// Whether an event is a `shutdown` of the editor that breaks a rule before the exit. The session
/// is the one before it.
fn refuses_shutdown(held: &Events<Lined>, seen: &Seen<'_>) -> bool
    ensures { (terms : Terms) (before : List Heard) (h : Heard)
        → IsSeen held.now.session held.now.docs held.now.counts seen.now terms before h
        → result ≡ is_some (refused_shutdown terms before h) }
{
    let Fate::Offends { .. } = seen.fate else {
        return false;
    };
    asks_shutdown(seen.spoken) & !has_exited(&held.session)
}

/// Whether a session has exited.
fn has_exited(session: &Session) -> bool
    ensures { (before : List Sent) → Stands session.now before
        → result ≡ same_phase (phase before) Exited }
{
    is_exited(session.phase())
}

fn is_exited(phase: Phase) -> bool
    ensures { result ≡ same_phase phase Exited }
{
    phase == Phase::Exited
}

/// Whether a message asks for the shutdown, if there is one.
fn asks_shutdown(spoken: Option<&Spoken>) -> bool
    ensures { (kept : List Event) (event : Event)
        → MaySpeak kept event (option_map (λ s. s.now) spoken.entry)
        → result ≡ spec.asks_shutdown event }
{
    match spoken {
        Some(spoken) => is_shutdown(&spoken.act),
        None => false,
    }
}

fn is_shutdown(act: &Act) -> bool
    ensures { result ≡ is_shutdown (act_view act.now) }
{
    matches!(act, Act::Shutdown)
}

/// Notes a message that is kept. The trail is of the events before it. Where an earlier event
/// broke a rule, what the server sends is left out: after one that is skipped, it may have other
/// texts and versions.
fn note_kept(
    messages: &mut MessageNotes,
    held: &Events<Lined>,
    trail: &Trail,
    seen: &Seen<'_>,
    broken: bool,
) -> Result<()>
    ensures { OnOk result ((terms : Terms) (before : List Heard) (h : Heard)
        → IsTrail terms trail.now (heard_events before)
        → AreNoted terms messages.old (heard_events before) (sound_events terms before)
        → broken ≡ is_broken terms before
        → IsSeen held.now.session held.now.docs held.now.counts seen.now terms before h
        → AreNoted terms messages.new (heard_events (before ++ h ∷ []))
        (sound_events terms (before ++ h ∷ []))) }
{
    let Fate::Kept(_) = seen.fate else {
        return Ok(());
    };
    messages.note_event(held, trail, seen, broken)
}

/// Notes what the changes of an event find that can be made, unless the document was behind.
fn note_changes(
    misfits: &mut Misfits,
    behind: &Behind,
    held: &Events<Lined>,
    seen: &Seen<'_>,
) -> Result<()>
    ensures { OnOk result ((terms : Terms) (before : List Heard) (h : Heard) (found : List Found)
        → AreMisfits misfits.old found → AreBehind terms behind.now before
        → IsSeen held.now.session held.now.docs held.now.counts seen.now terms before h
        → AreMisfits misfits.new (found ++ found_more terms before h)) }
{
    if behind.has(seen.call) {
        return Ok(());
    }
    match seen.fate {
        Fate::Kept(_) => misfits.note_kept(held, seen),
        Fate::Offends { rule, .. } => misfits.note_refuted(held, seen, rule),
    }
}

/// What was found, unless it was told.
fn unless<T: Copy>(told: bool, found: Option<T>) -> Option<T>
    ensures { result ≡ (if told then None else found) }
{
    if told { None } else { found }
}
