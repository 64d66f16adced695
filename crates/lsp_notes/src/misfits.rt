//! What of the changes of documents does not fit the text that they are made in, though it breaks
//! no rule.
ghost use Rattle.std.specs.Prelude.{◌≡◌, ◌++◌, ◌∷◌, [], List, Some, IfOk, OnOk, option_map};
ghost use Rattle.std.specs.Prelude.{Ok, if◌then◌else◌, pos, ℕ, string_bytes};
ghost use Rattle.std.specs.Ordering.{int_eq};
ghost use Rattle.lsp_docs.specs.Calls.{Call as SpecCall};
ghost use Rattle.lsp_trail.specs.Common.{applied, call_rule, call_view, edits_of, findings, Heard};
ghost use Rattle.lsp_trail.specs.Common.{heard_events, IsSeen, on_document, rule_of, Stands, Terms};
ghost use Rattle.lsp_notes.specs.DocumentNotes.{document_note, notes_view, with_note};
ghost use Rattle.lsp_notes.specs.Misfits as spec;
ghost use Rattle.lsp_notes.specs.Misfits.{AreMisfits, MisfitsBy, finds, found_refuted, kept_found};
ghost use Rattle.lsp_types.specs.declared.rules.TheConstants as rules;

use crate::document_notes::{DocumentNote, is_noted, push_note};
use lsp_docs::{Call, Docs, Took};
use lsp_facts::push_encodings;
use lsp_lined::Lined;
use lsp_replay::{EventPlace, Events, Fate, Seen};
use lsp_rpc::Result;
use lsp_text::{Extent, Findings, OtherLength, PastEnd, TextFault, TextStore, change_all};
use lsp_types::{Change, Encoding, Memory, Position, rules};
use std::alloc::Global;
use std::fmt::Write;

/// What of the changes of documents does not fit the text that they are made in: of each document
/// the first position past the end, and the first `rangeLength` that is not the length of its
/// range.
///
/// It stands for what the changes of a session found.
#[derive(Drop)]
pub struct Misfits {
    pub(crate) past_ends: Vec<DocumentNote>,
    pub(crate) range_lengths: Vec<DocumentNote>,
}

impl Misfits {
    /// Nothing was found.
    pub fn new(alloc: Global) -> Misfits
        ensures { AreMisfits result [] }
    {
        Misfits {
            past_ends: Vec::new(alloc),
            range_lengths: Vec::new(alloc),
        }
    }

    /// Notes what the changes of the next event found, if it is kept. Usually they found nothing.
    ///
    /// What was seen is lent to no other function: all of it would have to stand in memory then,
    /// for each event.
    ///
    /// # Errors
    /// `Memory` where memory was refused; nothing is then known of what is held.
    #[inline(always)]
    pub fn note_kept(&mut self, held: &Events<Lined>, seen: &Seen<'_>) -> Result<()>
        ensures { OnOk result ((terms : Terms) (before : List Heard) (h : Heard)
            (found : List spec.Found) → AreMisfits self.old found
            → IsSeen held.now.session held.now.docs held.now.counts seen.now terms before h
            → AreMisfits self.new (found ++ kept_found terms (heard_events before) h.note.event)) }
    {
        let Fate::Kept(took) = &seen.fate else {
            return Ok(());
        };
        let Took::Changed(found) = took else {
            return Ok(());
        };
        let Some(call) = seen.call else {
            return Ok(());
        };
        let place = EventPlace::last(&held.counts, seen.raw.who());
        self.note_call(place, call, by_number(found))
    }

    /// Notes what the changes find of the next event, which breaks this rule, if a snapshot refutes
    /// them.
    ///
    /// # Errors
    /// `Memory` where memory was refused; nothing is then known of what is held.
    pub fn note_refuted(&mut self, held: &Events<Lined>, seen: &Seen<'_>, rule: u16) -> Result<()>
        ensures { OnOk result ((terms : Terms) (before : List Heard) (h : Heard)
            (found : List spec.Found) → AreMisfits self.old found
            → IsSeen held.now.session held.now.docs held.now.counts seen.now terms before h
            → rule_of terms before h ≡ Some rule
            → AreMisfits self.new (found
            ++ found_refuted terms (heard_events before) h.note.event rule)) }
    {
        if rule != rules::SNAPSHOT_DIFFERS {
            return Ok(());
        }
        let Some(call) = seen.call else {
            return Ok(());
        };
        let found = found_by(&held.docs, call)?;
        let place = EventPlace::last(&held.counts, seen.raw.who());
        self.note_call(place, call, found)
    }

    /// Notes what a call found, the event of this place.
    #[cold]
    #[inline(never)]
    fn note_call(&mut self, place: EventPlace, call: Call<'_>, found: Findings) -> Result<()>
        ensures { OnOk result (MisfitsBy (finds place (call_view call.entry) found) self.old
            self.new) }
    {
        let Call::Changes { encoding, uri, .. } = call else {
            return Ok(());
        };
        note_past_end(&mut self.past_ends, uri, place, found.past_end)?;
        note_length(
            &mut self.range_lengths,
            uri,
            place,
            encoding,
            found.range_length,
        )
    }
}

/// These findings, copied number by number, which LLVM then keeps in registers. What is copied as
/// bytes is copied at each step on the way here, for each event, also where nothing was found.
#[inline(always)]
fn by_number(found: &Findings) -> Findings
    ensures { result ≡ found.now }
{
    Findings {
        past_end: past_end_by_number(found.past_end),
        range_length: length_by_number(found.range_length),
    }
}

#[inline(always)]
fn past_end_by_number(found: Option<PastEnd>) -> Option<PastEnd>
    ensures { result ≡ found }
{
    match found {
        Some(
            PastEnd {
                position: Position { line, column },
                extent,
            },
        ) => Some(PastEnd {
            position: Position { line, column },
            extent,
        }),
        None => None,
    }
}

#[inline(always)]
fn length_by_number(found: Option<OtherLength>) -> Option<OtherLength>
    ensures { result ≡ found }
{
    match found {
        Some(
            OtherLength {
                sent,
                utf8,
                utf16,
                utf32,
            },
        ) => Some(OtherLength {
            sent,
            utf8,
            utf16,
            utf32,
        }),
        None => None,
    }
}

/// What the changes of a call find that are refuted by a snapshot.
fn found_by(docs: &Docs<Lined>, call: Call<'_>) -> Result<Findings>
    ensures { IfOk result (λ found. (calls : List SpecCall) → Stands docs.now calls
        → call_rule docs.now.terms calls (call_view call.entry) ≡ Some rules.SNAPSHOT_DIFFERS
        → found ≡ spec.findings_of docs.now.terms calls (call_view call.entry)) }
{
    let Call::Changes {
        encoding,
        uri,
        changes,
        ..
    } = call
    else {
        return Ok(Findings::none());
    };
    let Some(store) = docs.store_of(uri) else {
        return Ok(Findings::none());
    };
    found_in(docs.alloc(), store, encoding, changes, docs.limit())
}

/// What changes of a text find, which all can be made.
fn found_in<S: TextStore>(
    alloc: Global,
    store: &S,
    encoding: Encoding,
    changes: &[Change],
    limit: u64,
) -> Result<Findings>
    ensures { IfOk result (λ found. (text : List ℕ)
        → applied limit encoding (S.content store.now) (edits_of changes.now) ≡ Ok text
        → found ≡ findings limit encoding (S.content store.now) (edits_of changes.now)) }
{
    let mut copy = store.copy(alloc)?;
    match change_all(&mut copy, encoding, changes, limit) {
        Ok(found) => Ok(found),
        Err(failed) => match failed.fault {
            TextFault::Rule(_) => Ok(Findings::none()),
            TextFault::Memory => Err(Memory),
        },
    }
}

/// Notes a position past the end that the event of this place has, if there is one.
fn note_past_end(
    notes: &mut Vec<DocumentNote>,
    uri: &str,
    place: EventPlace,
    found: Option<PastEnd>,
) -> Result<()>
    ensures { OnOk result (notes_view notes.new.items ≡ with_note (notes_view notes.old.items)
        (option_map (λ x. document_note (on_document uri.now place) (spec.past_end_words x))
        found)) }
{
    let Some(past_end) = found else {
        return Ok(());
    };
    if is_noted(notes.as_slice(), uri) {
        return Ok(());
    }
    let words = past_end_words(*notes.allocator(), past_end)?;
    push_note(notes, uri, words, place)
}

/// Notes a range's length that is not that of its text, if the event of this place has one.
fn note_length(
    notes: &mut Vec<DocumentNote>,
    uri: &str,
    place: EventPlace,
    encoding: Encoding,
    found: Option<OtherLength>,
) -> Result<()>
    ensures { OnOk result (notes_view notes.new.items ≡ with_note (notes_view notes.old.items)
        (option_map (λ x. document_note (on_document uri.now place)
        (spec.range_length_words encoding x)) found)) }
{
    let Some(length) = found else {
        return Ok(());
    };
    if is_noted(notes.as_slice(), uri) {
        return Ok(());
    }
    let words = length_words(*notes.allocator(), encoding, length)?;
    push_note(notes, uri, words, place)
}

/// The words of a position past the end.
fn past_end_words(alloc: Global, past_end: PastEnd) -> Result<String>
    ensures { IfOk result (λ words. string_bytes words ≡ spec.past_end_words past_end) }
{
    let PastEnd { position, extent } = past_end;
    let Position { line, column } = position;
    let mut words = format!(in alloc; "note past-end {line} {column}")?;
    push_extent(&mut words, extent)?;
    Ok(words)
}

/// Adds how far the text goes.
fn push_extent(words: &mut String, extent: Extent) -> Result<()>
    ensures { OnOk result (string_bytes words.new
        ≡ string_bytes words.old ++ spec.extent_words extent) }
{
    match extent {
        Extent::Units(count) => write!(words, " length {count}")?,
        Extent::Lines(count) => write!(words, " lines {count}")?,
    }
    Ok(())
}

/// The words of a range's length that is not that of its text, counted in this encoding.
fn length_words(alloc: Global, encoding: Encoding, length: OtherLength) -> Result<String>
    ensures { IfOk result (λ words. string_bytes words
        ≡ spec.range_length_words encoding length) }
{
    let sent = length.sent;
    let units = length_in(encoding, length);
    let mut words = format!(in alloc; "note range-length {sent} length {units}")?;
    push_fitting(&mut words, length)?;
    Ok(words)
}

/// How long the text is in this encoding.
fn length_in(encoding: Encoding, length: OtherLength) -> u64
    ensures { result ≡ spec.length_in encoding length }
{
    match encoding {
        Encoding::Utf8 => length.utf8,
        Encoding::Utf16 => length.utf16,
        Encoding::Utf32 => length.utf32,
    }
}

/// Adds the encodings in which it is the length, if there are any.
fn push_fitting(words: &mut String, length: OtherLength) -> Result<()>
    ensures { OnOk result (string_bytes words.new
        ≡ string_bytes words.old ++ spec.fitting_words (spec.fitting length)) }
{
    let mut names = Vec::new(*words.allocator());
    push_fit(&mut names, length, Encoding::Utf8)?;
    push_fit(&mut names, length, Encoding::Utf16)?;
    push_fit(&mut names, length, Encoding::Utf32)?;
    if names.is_empty() {
        return Ok(());
    }
    words.push_str(" fits")?;
    push_encodings(words, names.as_slice())
}

/// Adds an encoding, if what was sent is the length in it.
fn push_fit(names: &mut Vec<Encoding>, length: OtherLength, encoding: Encoding) -> Result<()>
    ensures { OnOk result (names.new.items ≡ names.old.items
        ++ (if spec.fits_in length encoding then encoding ∷ [] else [])) }
{
    if is_length(length.sent, length_in(encoding, length)) {
        names.push(encoding)?;
    }
    Ok(())
}

/// Whether this is the number of a text's units.
fn is_length(sent: i32, units: u64) -> bool
    ensures { result ≡ int_eq sent (pos units) }
{
    sent >= 0 && u64::from(sent.cast_unsigned()) == units
}
