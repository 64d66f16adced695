//! Edits that were made in a text that had changed since they were asked for.
ghost use Rattle.std.specs.Prelude.{◌≡◌, ◌++◌, [], List, IfOk, OnOk, nat_lt, not, option_map};
ghost use Rattle.std.specs.Prelude.{string_bytes};
ghost use Rattle.std.specs.List.{cons_option, flat_map};
ghost use Rattle.lsp_docs.specs.Calls.{Call as SpecCall};
ghost use Rattle.lsp_trail.specs.Common.{edits_of, edits_size, held, kept, last_setter, last_that};
ghost use Rattle.lsp_trail.specs.Common.{Stands};
ghost use Rattle.lsp_notes.specs.LateEdits as spec;
ghost use Rattle.lsp_notes.specs.LateEdits.{HoldsLate, late_view, lates_view};
ghost use Rattle.lsp_notes.specs.TextsSince.{contents};
ghost use Rattle.lsp_facts.specs.Fact.{place_words, spaced};

use crate::at_once::makes;
use crate::texts_since::version_at;
use lsp_docs::Docs;
use lsp_lined::Lined;
use lsp_replay::EventPlace;
use lsp_rpc::Result;
use lsp_trail::{VersionEvent, copies_of, push_within, room_after};
use lsp_types::{Change, Encoding};
use lsp_verdict::who_name;
use std::alloc::Global;
use std::collections::VecDeque;
use std::fmt::Write;

/// How many answers that came late are held at most.
const MOST_LATE: usize = 8;

/// How large the edits of such an answer are at most together.
const MOST_SIZE: u64 = 262_144;

/// An answer with edits of a document whose text changed since the request.
#[derive(Drop)]
pub(crate) struct LateAnswer {
    uri: String,
    /// The place of the request.
    asked: EventPlace,
    /// The place of the answer.
    answered: EventPlace,
    /// Its edits.
    edits: Vec<Change>,
}

/// Adds an answer with these edits, the event of this place, if the text changed since the request:
/// the document had these texts. There must be edits, and they must be small enough.
pub(crate) fn note_late(
    late: &mut VecDeque<LateAnswer>,
    uri: &str,
    asked: EventPlace,
    answered: EventPlace,
    texts: &[Lined],
    edits: &[Change],
) -> Result<()>
    ensures { OnOk result (HoldsLate (cons_option (spec.if_late uri.now asked answered
        (contents texts.now) (edits_of edits.now)) []) late.old.items late.new.items) }
{
    if !has_changed(texts) {
        return Ok(());
    }
    if !are_held(edits) {
        return Ok(());
    }
    let alloc = *late.allocator();
    let edits = copies_of(alloc, edits)?;
    let uri = String::from_str(alloc, uri)?;
    let answer = LateAnswer {
        uri,
        asked,
        answered,
        edits,
    };
    push_within(late, MOST_LATE, answer)
}

/// Whether a document that had these texts changed.
fn has_changed(texts: &[Lined]) -> bool
    ensures { result ≡ spec.has_changed (contents texts.now) }
{
    texts.len() > 1
}

/// Whether there are edits, and they are small enough.
fn are_held(edits: &[Change]) -> bool
    ensures { result ≡ spec.are_held (edits_of edits.now) }
{
    if edits.is_empty() {
        return false;
    }
    are_small(edits)
}

fn are_small(edits: &[Change]) -> bool
    ensures { result ≡ not (nat_lt spec.most_size (edits_size (edits_of edits.now))) }
{
    room_after(MOST_SIZE, edits).is_some()
}

/// The words of a note on a change of this document, if it is what the edits of the last answer
/// since the version before make of that version, and not of the one at the request. These messages
/// set the versions before, and the documents are those after the change.
pub(crate) fn words_since(
    docs: &Docs<Lined>,
    uri: &str,
    encoding: Encoding,
    setters: &[VersionEvent],
    late: &VecDeque<LateAnswer>,
) -> Result<Option<String>>
    ensures { IfOk result (λ words. (made : List SpecCall) → Stands docs.now made
        → option_map string_bytes words ≡ spec.words_since docs.now.terms made uri.now encoding
        setters.now (lates_view late.now.items)) }
{
    let Some(setter) = last_of(setters) else {
        return Ok(None);
    };
    let Some(answer) = late_since(late, uri, setter) else {
        return Ok(None);
    };
    words_if_late(docs, uri, encoding, setters, setter.version, answer)
}

fn last_of(setters: &[VersionEvent]) -> Option<VersionEvent>
    ensures { result ≡ last_setter setters.now }
{
    setters.last().copied()
}

/// The last of these answers that is on this document, and came after this message.
fn late_since<'a>(
    late: &'a VecDeque<LateAnswer>,
    uri: &str,
    setter: VersionEvent,
) -> Option<&'a LateAnswer>
    ensures { option_map (λ a. late_view a.now) result
        ≡ last_that (spec.is_since uri.now setter) (lates_view late.now.items) }
{
    let (first, second) = late.as_slices();
    last_in(second, uri, setter).or(last_in(first, uri, setter))
}

/// The one of one part of them that is.
fn last_in<'a>(late: &'a [LateAnswer], uri: &str, setter: VersionEvent) -> Option<&'a LateAnswer>
    ensures { option_map (λ a. a.now) result
        ≡ last_that (λ a. spec.is_since uri.now setter (late_view a)) late.now }
{
    late.iter()
        .rev()
        .find(|answer| is_since(answer, uri, setter))
}

fn is_since(answer: &LateAnswer, uri: &str, setter: VersionEvent) -> bool
    ensures { result ≡ spec.is_since uri.now setter (late_view answer.now) }
{
    answer.uri.as_str() == uri && setter.place.event < answer.answered.event
}

/// The words, if the edits of this answer were made so in the version of this number.
fn words_if_late(
    docs: &Docs<Lined>,
    uri: &str,
    encoding: Encoding,
    setters: &[VersionEvent],
    newer: i32,
    answer: &LateAnswer,
) -> Result<Option<String>>
    ensures { IfOk result (λ words. (made : List SpecCall) (setter : VersionEvent)
        → Stands docs.now made → setter.version ≡ newer → option_map string_bytes words
        ≡ spec.words_if_late docs.now.terms made uri.now encoding setters.now setter
        (late_view answer.now)) }
{
    let Some(older) = version_at(answer.asked, setters) else {
        return Ok(None);
    };
    let edits = answer.edits.as_slice();
    if !made_late(docs, uri, encoding, edits, older, newer)? {
        return Ok(None);
    }
    Ok(Some(late_words(docs.alloc(), answer)?))
}

/// Whether edits make the text that is held of the newer one of these versions, and not of the
/// older one.
fn made_late(
    docs: &Docs<Lined>,
    uri: &str,
    encoding: Encoding,
    edits: &[Change],
    older: i32,
    newer: i32,
) -> Result<bool>
    ensures { IfOk result (λ late. (made : List SpecCall) → Stands docs.now made
        → late ≡ spec.made_late encoding (edits_of edits.now) older newer
        (kept docs.now.terms uri.now made) (held docs.now.terms uri.now made)) }
{
    let Some(older) = docs.store_at(uri, older) else {
        return Ok(false);
    };
    let Some(newer) = docs.store_at(uri, newer) else {
        return Ok(false);
    };
    let Some(now) = docs.store_of(uri) else {
        return Ok(false);
    };
    let alloc = docs.alloc();
    if !makes(alloc, encoding, edits, now, newer)? {
        return Ok(false);
    }
    Ok(!makes(alloc, encoding, edits, now, older)?)
}

fn late_words(alloc: Global, answer: &LateAnswer) -> Result<String>
    ensures { IfOk result (λ words. string_bytes words
        ≡ spec.late_words (late_view answer.now)) }
{
    let mut words = String::from_str(alloc, "note late-edits")?;
    push_place(&mut words, answer.asked)?;
    push_place(&mut words, answer.answered)?;
    Ok(words)
}

fn push_place(words: &mut String, place: EventPlace) -> Result<()>
    ensures { OnOk result (string_bytes words.new
        ≡ string_bytes words.old ++ flat_map spaced (place_words place)) }
{
    let EventPlace { event, who, number } = place;
    let name = who_name(who);
    write!(words, " event {event} {name} {number}")?;
    Ok(())
}
