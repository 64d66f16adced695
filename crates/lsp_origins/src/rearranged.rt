//! Which of the suspects would have to be left out, exchanged with the next one, or taken at once
//! for them to make the text that the editor had.
ghost use Rattle.std.specs.Prelude.{◌≡◌, ◌≤◌, ◌<◌, ◌++◌, IfOk, OnOk, Some, length, min, option_map};
ghost use Rattle.std.specs.Prelude.{reverse};
ghost use Rattle.std.specs.List.{flat_map, prefix_len};
ghost use Rattle.lsp_origins.specs.Fits.{is_given_by, suspect_view, suspects_view};
ghost use Rattle.lsp_origins.specs.Rearranged as spec;

use crate::fits::{Suspect, Trial, gives};
use lsp_facts::Facts;
use lsp_replay::EventPlace;
use lsp_rpc::Result;
use lsp_trail::VersionEvent;
use lsp_types::{Position, Span};
use std::alloc::Global;

/// How a message is taken otherwise than it was sent.
#[derive(Clone, Copy, Debug, PartialEq, Eq)]
pub(crate) enum Way {
    /// Its ranges are all taken in the text before it.
    AtOnce,
    /// It comes after the next one.
    Exchanged,
    /// It is left out.
    Without,
}

/// Adds the first of the suspects with which they make the other text, if it is taken in this way.
/// Each is tried: all changes are made once for each suspect.
pub(crate) fn push_rearranged(
    facts: &mut Facts,
    trial: Trial<'_>,
    way: Way,
    suspects: &[Suspect<'_>],
    setters: &[VersionEvent],
) -> Result<()>
    ensures { OnOk result (facts.new ≡ facts.old ++ spec.rearranged_facts
        (λ sent. is_given_by trial.entry sent trial.entry.encoding) setters.now
        (suspects_view suspects.now) way) }
{
    match first_so(facts.alloc(), trial, way, suspects)? {
        Some(version) => push_named(facts, way_name(way), version, setters),
        None => Ok(()),
    }
}

/// Adds the message that set a version, if its event is known.
fn push_named(facts: &mut Facts, key: &str, version: i32, setters: &[VersionEvent]) -> Result<()>
    ensures { OnOk result (facts.new ≡ facts.old ++ spec.named key.now setters.now (Some version)) }
{
    match place_in(setters, version) {
        Some(place) => facts.version_by(key, version, place),
        None => Ok(()),
    }
}

fn place_in(setters: &[VersionEvent], version: i32) -> Option<EventPlace>
    ensures { result ≡ spec.place_in setters.now version }
{
    let setter = setters.iter().find(|setter| setter.version == version)?;
    Some(setter.place)
}

fn way_name(way: Way) -> &'static str
    ensures { result.now ≡ spec.way_name way }
{
    match way {
        Way::AtOnce => "at-once",
        Way::Exchanged => "exchanged",
        Way::Without => "without",
    }
}

/// The version of the first of them.
fn first_so(
    alloc: Global,
    trial: Trial<'_>,
    way: Way,
    suspects: &[Suspect<'_>],
) -> Result<Option<i32>>
    ensures { IfOk result (λ version. version ≡ option_map (λ s. s.number) (spec.first_so
        (λ sent. is_given_by trial.entry sent trial.entry.encoding) way
        (suspects_view suspects.now))) }
{
    for (at, suspect) in suspects.iter().enumerate() {
        if is_so(alloc, trial, way, suspects, at)? {
            return Ok(Some(suspect.version));
        }
    }
    Ok(None)
}

/// Whether they make the other text, if the one at this place is taken in this way.
fn is_so(
    alloc: Global,
    trial: Trial<'_>,
    way: Way,
    suspects: &[Suspect<'_>],
    at: usize,
) -> Result<bool>
    requires { at < length suspects.now }
    ensures { IfOk result (λ is_so. is_so ≡ spec.some_give
        (λ sent. is_given_by trial.entry sent trial.entry.encoding)
        (spec.rearranged way at (suspects_view suspects.now))) }
{
    let others = rearranged(alloc, way, suspects, at)?;
    if others.is_empty() {
        return Ok(false);
    }
    gives(trial, trial.encoding, others.as_slice())
}

/// The suspects, of which the one at this place is taken in this way.
fn rearranged<'a>(
    alloc: Global,
    way: Way,
    suspects: &[Suspect<'a>],
    at: usize,
) -> Result<Vec<Suspect<'a>>>
    requires { at < length suspects.now }
    ensures { IfOk result (λ others. suspects_view others.items
        ≡ spec.rearranged way at (suspects_view suspects.now)) }
{
    let (front, rest) = suspects.split_at(at);
    let (part, after) = rest.split_at(width_within(way, rest));
    let mut others = Vec::from_slice(alloc, front)?;
    push_instead(&mut others, way, part)?;
    others.extend_from_slice(after)?;
    Ok(others)
}

/// How many of them, of which there is one at least.
fn width_within(way: Way, suspects: &[Suspect<'_>]) -> usize
    requires { 0 < length suspects.now }
    ensures within { result ≤ length suspects.now }
    ensures is { result ≡ min (spec.width way) (length suspects.now) }
{
    match way {
        Way::Exchanged => suspects.len().min(2),
        _ => 1,
    }
}

/// Adds what is in the place of these.
fn push_instead<'a>(others: &mut Vec<Suspect<'a>>, way: Way, part: &[Suspect<'a>]) -> Result<()>
    ensures { OnOk result (suspects_view others.new.items ≡ suspects_view others.old.items
        ++ spec.instead way (suspects_view part.now)) }
{
    match way {
        Way::AtOnce => push_all_at_once(others, part),
        Way::Exchanged => push_reversed(others, part),
        Way::Without => Ok(()),
    }
}

fn push_reversed<'a>(others: &mut Vec<Suspect<'a>>, part: &[Suspect<'a>]) -> Result<()>
    ensures { OnOk result (suspects_view others.new.items ≡ suspects_view others.old.items
        ++ reverse (suspects_view part.now)) }
{
    let mut reversed = Vec::from_slice(*others.allocator(), part)?;
    reversed.reverse();
    others.extend_from_slice(reversed.as_slice())?;
    Ok(())
}

fn push_all_at_once<'a>(others: &mut Vec<Suspect<'a>>, part: &[Suspect<'a>]) -> Result<()>
    ensures { OnOk result (suspects_view others.new.items ≡ suspects_view others.old.items
        ++ flat_map spec.at_once (suspects_view part.now)) }
{
    for suspect in part {
        push_at_once(others, *suspect)?;
    }
    Ok(())
}

/// Adds a message whose ranges are all taken in the text before it, where they do not overlap.
fn push_at_once<'a>(others: &mut Vec<Suspect<'a>>, suspect: Suspect<'a>) -> Result<()>
    ensures { OnOk result (suspects_view others.new.items ≡ suspects_view others.old.items
        ++ spec.at_once (suspect_view suspect.entry)) }
{
    let parts = backwards(*others.allocator(), suspect)?;
    if are_apart(parts.as_slice()) {
        others.extend_from_slice(parts.as_slice())?;
        return Ok(());
    }
    others.push(suspect)?;
    Ok(())
}

/// The changes of a message, each as one of its own: the one that begins last in the text comes
/// first.
fn backwards<'a>(alloc: Global, suspect: Suspect<'a>) -> Result<Vec<Suspect<'a>>>
    ensures { IfOk result (λ parts. suspects_view parts.items
        ≡ spec.backwards (suspect_view suspect.entry)) }
{
    let Suspect { version, changes } = suspect;
    let mut parts = Vec::new(alloc);
    for at in 0..changes.len() {
        let changes = &changes[at..at + 1];
        put_in(&mut parts, Suspect { version, changes })?;
    }
    Ok(parts)
}

/// Puts one in front of those that do not begin behind it.
fn put_in<'a>(parts: &mut Vec<Suspect<'a>>, part: Suspect<'a>) -> Result<()>
    ensures { OnOk result (suspects_view parts.new.items
        ≡ spec.put_in (suspects_view parts.old.items) (suspect_view part.entry)) }
{
    let at = count_behind(parts.as_slice(), &part);
    parts.insert(at, part)?;
    Ok(())
}

/// How many of the first ones begin behind it.
fn count_behind(parts: &[Suspect<'_>], part: &Suspect<'_>) -> usize
    ensures value { result ≡ prefix_len (λ other. spec.begins_behind (suspect_view other)
        (suspect_view part.now)) parts.now }
    ensures bound { result ≤ length parts.now }
{
    parts
        .iter()
        .take_while(|other| is_behind(range_in(other), range_in(part)))
        .count()
}

/// Whether no range reaches into the one before it in the list.
fn are_apart(parts: &[Suspect<'_>]) -> bool
    ensures { result ≡ spec.are_apart (suspects_view parts.now) }
{
    for (at, part) in parts.iter().enumerate() {
        if !is_clear_of(part, &parts[at + 1..]) {
            return false;
        }
    }
    true
}

/// Whether the next one ends where this one begins, or before.
fn is_clear_of(part: &Suspect<'_>, more: &[Suspect<'_>]) -> bool
    ensures { result ≡ spec.is_clear_of (suspect_view part.now) (suspects_view more.now) }
{
    match more.first() {
        Some(next) => is_clear(range_in(next), range_in(part)),
        None => true,
    }
}

/// The range of a message's first change.
fn range_in(part: &Suspect<'_>) -> Option<Span>
    ensures { result ≡ spec.range_in (suspect_view part.now) }
{
    part.changes.first()?.span
}

fn is_behind(later: Option<Span>, earlier: Option<Span>) -> bool
    ensures { result ≡ spec.is_behind later earlier }
{
    let Some(later) = later else {
        return false;
    };
    match earlier {
        Some(earlier) => is_before(earlier.first, later.first),
        None => false,
    }
}

fn is_clear(earlier: Option<Span>, later: Option<Span>) -> bool
    ensures { result ≡ spec.is_clear earlier later }
{
    let Some(earlier) = earlier else {
        return false;
    };
    match later {
        Some(later) => !is_before(later.first, earlier.second),
        None => false,
    }
}

pub(crate) fn is_before(first: Position, second: Position) -> bool
    ensures { result ≡ spec.is_before first second }
{
    first.line < second.line || (first.line == second.line && first.column < second.column)
}
