//! Which texts a document had since an event, and what edits are in all of them.
ghost use Rattle.std.specs.Prelude.{◌≡◌, ◌++◌, ◌∷◌, [], ◌==◌, ◌&&◌, List, Option, Some, IfOk, OnOk};
ghost use Rattle.std.specs.Prelude.{option_map, option_to_list};
ghost use Rattle.std.specs.List.{find, list_any};
ghost use Rattle.lsp_docs.specs.Calls.{Call as SpecCall};
ghost use Rattle.lsp_trail.specs.Common.{edits_of, held, kept, last_that, Stands};
ghost use Rattle.lsp_notes.specs.TextsSince as spec;
ghost use Rattle.lsp_notes.specs.TextsSince.{contents};
ghost use Rattle.lsp_text.specs.Places as places;

use lsp_docs::Docs;
use lsp_lined::Lined;
use lsp_replay::EventPlace;
use lsp_rpc::Result;
use lsp_text::{Extent, Fit, Place, TextStore};
use lsp_trail::VersionEvent;
use lsp_types::{Change, Encoding, Fault, Memory, Position, Span};
use std::alloc::Global;

/// The characters before the places where a range begins and ends.
#[derive(Clone, Copy, Debug, PartialEq, Eq)]
pub(crate) struct Stretch {
    pub(crate) first: u64,
    pub(crate) second: u64,
}

/// The version that a document had at the event of this place, by the messages that set its
/// versions.
pub(crate) fn version_at(place: EventPlace, setters: &[VersionEvent]) -> Option<i32>
    ensures { result ≡ spec.version_at place setters.now }
{
    let setter = last_before(place, setters)?;
    Some(setter.version)
}

fn last_before(place: EventPlace, setters: &[VersionEvent]) -> Option<&VersionEvent>
    ensures { option_map (λ s. s.now) result
        ≡ last_that (spec.is_set_before place) setters.now }
{
    setters
        .iter()
        .rev()
        .find(|setter| setter.place.event < place.event)
}

/// The texts that the document of this URI had since the event of this place, if all are kept or
/// held. These messages set its versions.
pub(crate) fn texts_since(
    docs: &Docs<Lined>,
    uri: &str,
    setters: &[VersionEvent],
    place: EventPlace,
) -> Result<Option<Vec<Lined>>>
    ensures { IfOk result (λ texts. (made : List SpecCall) → Stands docs.now made
        → option_map (λ ts. contents ts.items) texts
        ≡ spec.texts_since docs.now.terms uri.now made setters.now place) }
{
    match version_at(place, setters) {
        Some(version) => texts_from(docs, uri, version),
        None => Ok(None),
    }
}

/// Those at the versions from this one on, if it is kept or held.
fn texts_from(docs: &Docs<Lined>, uri: &str, version: i32) -> Result<Option<Vec<Lined>>>
    ensures { IfOk result (λ texts. (made : List SpecCall) → Stands docs.now made
        → option_map (λ ts. contents ts.items) texts
        ≡ spec.texts_in (kept docs.now.terms uri.now made) (held docs.now.terms uri.now made)
        version) }
{
    if docs.store_at(uri, version).is_none() {
        return Ok(None);
    }
    let numbers = numbers_of(docs, uri)?;
    let texts = texts_at(docs, uri, version, numbers.as_slice())?;
    Ok(Some(texts))
}

/// The numbers of the versions that are kept and held, the oldest first.
fn numbers_of(docs: &Docs<Lined>, uri: &str) -> Result<Vec<i32>>
    ensures { IfOk result (λ numbers. (made : List SpecCall) → Stands docs.now made
        → numbers.items ≡ spec.numbers_of (kept docs.now.terms uri.now made
        ++ option_to_list (held docs.now.terms uri.now made))) }
{
    let mut numbers = docs.kept_versions(uri)?;
    let Some(own) = docs.version_of(uri) else {
        return Ok(numbers);
    };
    numbers.push(own)?;
    Ok(numbers)
}

/// The texts at those of these versions that are not below this one.
fn texts_at(docs: &Docs<Lined>, uri: &str, version: i32, numbers: &[i32]) -> Result<Vec<Lined>>
    ensures { IfOk result (λ texts. (made : List SpecCall) → Stands docs.now made
        → contents texts.items ≡ spec.texts_at (kept docs.now.terms uri.now made)
        (held docs.now.terms uri.now made) (spec.not_below version numbers.now)) }
{
    let mut texts = Vec::new(docs.alloc());
    for number in numbers {
        let number = *number;
        push_text(&mut texts, docs, uri, version, number)?;
    }
    Ok(texts)
}

/// Adds the text at this number, if it is not below this version.
fn push_text(
    texts: &mut Vec<Lined>,
    docs: &Docs<Lined>,
    uri: &str,
    version: i32,
    number: i32,
) -> Result<()>
    ensures { OnOk result ((made : List SpecCall) → Stands docs.now made
        → contents texts.new.items ≡ contents texts.old.items
        ++ spec.texts_at (kept docs.now.terms uri.now made) (held docs.now.terms uri.now made)
        (spec.not_below version (number ∷ []))) }
{
    if number < version {
        return Ok(());
    }
    let Some(store) = docs.store_at(uri, number) else {
        return Ok(());
    };
    let copy = store.copy(docs.alloc())?;
    texts.push(copy)?;
    Ok(())
}

// ---- a position outside

/// The first position of edits that is outside in each of these texts: past the end, or inside a
/// character.
pub(crate) fn first_outside(
    encoding: Encoding,
    texts: &[Lined],
    edits: &[Change],
) -> Option<Position>
    ensures { result ≡ spec.first_outside encoding (contents texts.now) (edits_of edits.now) }
{
    for edit in edits {
        if let Some(position) = outside_of(encoding, texts, edit.span) {
            return Some(position);
        }
    }
    None
}

/// The first position of a range that is.
fn outside_of(encoding: Encoding, texts: &[Lined], span: Option<Span>) -> Option<Position>
    ensures { result
        ≡ find (spec.is_outside_each encoding (contents texts.now)) (spec.ends_of span) }
{
    let Span { first, second } = span?;
    if is_outside_each(encoding, texts, first) {
        return Some(first);
    }
    if is_outside_each(encoding, texts, second) {
        return Some(second);
    }
    None
}

fn is_outside_each(encoding: Encoding, texts: &[Lined], position: Position) -> bool
    ensures { result ≡ spec.is_outside_each encoding (contents texts.now) position }
{
    for text in texts {
        if !is_outside(encoding, position, text) {
            return false;
        }
    }
    true
}

/// Whether a position is outside of a text. The start of the line after the last is not.
fn is_outside(encoding: Encoding, position: Position, text: &Lined) -> bool
    ensures { result ≡ spec.is_outside encoding position text.now.content }
{
    match text.fit_of(encoding, position) {
        Fit::Within => false,
        Fit::Past(extent) => is_past(position, extent),
        Fit::Nowhere => true,
    }
}

fn is_past(position: Position, extent: Extent) -> bool
    ensures { result ≡ spec.is_past position (Some extent) }
{
    match extent {
        Extent::Units(_) => true,
        Extent::Lines(count) => !is_start_of(position, count),
    }
}

/// Whether a position is the start of the line of this number.
fn is_start_of(position: Position, line: u64) -> bool
    ensures { result ≡ (position.line == line && position.column == 0) }
{
    u64::from(position.line) == line && position.column == 0
}

// ---- edits that overlap

/// Whether in each of these texts two of the edits overlap.
pub(crate) fn overlap_each(
    alloc: Global,
    encoding: Encoding,
    texts: &[Lined],
    edits: &[Change],
) -> Result<bool>
    ensures { IfOk result (λ overlap. overlap
        ≡ spec.overlap_each encoding (contents texts.now) (edits_of edits.now)) }
{
    for text in texts {
        let stretches = stretches_in(alloc, encoding, edits, text)?;
        if !have_overlap(stretches.as_slice()) {
            return Ok(false);
        }
    }
    Ok(true)
}

/// Where the ranges of edits begin and end in a text.
fn stretches_in(
    alloc: Global,
    encoding: Encoding,
    edits: &[Change],
    text: &Lined,
) -> Result<Vec<Stretch>>
    ensures { IfOk result (λ found. found.items
        ≡ spec.stretches encoding (edits_of edits.now) text.now.content) }
{
    let mut found = Vec::new(alloc);
    for edit in edits {
        push_stretch(&mut found, encoding, text, edit.span)?;
    }
    Ok(found)
}

/// Adds where a range begins and ends, if both positions are outside of characters.
fn push_stretch(
    found: &mut Vec<Stretch>,
    encoding: Encoding,
    text: &Lined,
    span: Option<Span>,
) -> Result<()>
    ensures { OnOk result (found.new.items ≡ found.old.items
        ++ option_to_list (spec.stretch_of encoding text.now.content span)) }
{
    let Some(stretch) = stretch_of(encoding, text, span)? else {
        return Ok(());
    };
    found.push(stretch)?;
    Ok(())
}

/// Where a range begins and ends.
pub(crate) fn stretch_of(
    encoding: Encoding,
    text: &Lined,
    span: Option<Span>,
) -> Result<Option<Stretch>>
    ensures { IfOk result (λ found. found
        ≡ spec.stretch_of encoding text.now.content span) }
{
    let Some(Span { first, second }) = span else {
        return Ok(None);
    };
    let Some(first) = place_of(encoding, text, first)? else {
        return Ok(None);
    };
    let Some(second) = place_of(encoding, text, second)? else {
        return Ok(None);
    };
    Ok(Some(Stretch { first, second }))
}

/// The characters before the place of a position, unless that lies inside a character.
pub(crate) fn place_of(encoding: Encoding, text: &Lined, position: Position) -> Result<Option<u64>>
    ensures { IfOk result (λ found. found
        ≡ places.place_of encoding text.now.content position) }
{
    match text.resolve(encoding, position) {
        Ok(Place { chars }) => Ok(Some(chars)),
        Err(Fault::Rule(_)) => Ok(None),
        Err(Fault::Memory) => Err(Memory),
    }
}

/// Whether two of these overlap.
fn have_overlap(stretches: &[Stretch]) -> bool
    ensures { result ≡ spec.have_overlap stretches.now }
{
    let mut left = stretches;
    while let [first, behind @ ..] = left {
        if overlaps_any(*first, behind) {
            return true;
        }
        left = behind;
    }
    false
}

fn overlaps_any(stretch: Stretch, others: &[Stretch]) -> bool
    ensures { result ≡ list_any (spec.overlap stretch) others.now }
{
    others.iter().any(|other| overlap(stretch, *other))
}

/// Whether each of the two begins before the other ends.
fn overlap(a: Stretch, b: Stretch) -> bool
    ensures { result ≡ spec.overlap a b }
{
    a.first < b.second && b.first < a.second
}
