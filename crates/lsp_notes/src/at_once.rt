//! What edits make of a text, if all their ranges are in it.
ghost use Rattle.std.specs.Prelude.{◌≡◌, ◌≤◌, IfOk, IfSome, OnOk, Some, false, length};
ghost use Rattle.std.specs.Prelude.{option_map, string_bytes, true};
ghost use Rattle.std.specs.Ordering.{is_lt};
ghost use Rattle.std.specs.Str.{IsUtf8, chars};
ghost use Rattle.lsp_notes.specs.AtOnce as spec;
ghost use Rattle.lsp_notes.specs.AtOnce.{splice_view, splices_view};
ghost use Rattle.lsp_text.specs.Changes.{edit_of, edits_of};
ghost use Rattle.lsp_text.specs.Lines.{lines_of};

use crate::texts_since::{Stretch, place_of, stretch_of};
use lsp_lined::Lined;
use lsp_rpc::Result;
use lsp_text::{TextStore, measure, offset_in_line};
use lsp_types::{Change, Encoding, Memory, Position};
use std::alloc::Global;
use std::cmp::Ordering;

/// What an edit replaces in a text, by its places there, and what with.
#[derive(Clone, Copy)]
struct Splice<'a> {
    at: Stretch,
    text: &'a str,
}

/// Whether edits make a text of another one, in which all their ranges are.
pub(crate) fn makes(
    alloc: Global,
    encoding: Encoding,
    edits: &[Change],
    now: &Lined,
    text: &Lined,
) -> Result<bool>
    ensures { IfOk result (λ made. made
        ≡ spec.makes encoding (edits_of edits.now) now.now.content text.now.content) }
{
    let Some(splices) = splices_of(alloc, encoding, edits, text)? else {
        return Ok(false);
    };
    let is_other = is_other_length(now, text, splices.as_slice())?;
    if is_other {
        return Ok(false);
    }
    let whole = text.to_text(alloc)?;
    match made_of(alloc, whole.as_str(), splices.as_slice())? {
        Some(made) => Ok(now.equals(made.as_str())),
        None => Ok(false),
    }
}

/// Whether what edits make of a text has another number of characters than this text. It is asked
/// first, since it takes no look at the texts.
fn is_other_length(now: &Lined, text: &Lined, splices: &[Splice<'_>]) -> Result<bool>
    ensures { IfOk result (λ other. other ≡ true → spec.is_text now.now.content
        (spec.made_from 0 text.now.content (splices_view splices.now)) ≡ false) }
{
    let Some(len) = char_len(text)? else {
        return Ok(false);
    };
    let Some(now) = char_len(now)? else {
        return Ok(false);
    };
    match length_made(len, splices) {
        Some(made) => Ok(made != now),
        None => Ok(false),
    }
}

/// How many characters a text has, if it has no more lines than a position can name.
fn char_len(text: &Lined) -> Result<Option<u64>>
    ensures { IfOk result (λ len. IfSome len (λ n. n ≡ length text.now.content)) }
{
    if u64::from(u32::MAX) < text.line_count() {
        return Ok(None);
    }
    let len = last_place(text)?;
    Ok(len)
}

/// The place of the last line that a position can name: the end of the text, if it has fewer.
fn last_place(text: &Lined) -> Result<Option<u64>>
    ensures { IfOk result (λ place. length (lines_of text.now.content) ≤ 4294967295
        → place ≡ Some (length text.now.content)) }
{
    let end = Position {
        line: u32::MAX,
        column: 0,
    };
    let place = place_of(Encoding::Utf32, text, end)?;
    Ok(place)
}

/// How many characters they make of a text that has so many, if each comes after the one before it
/// and ends within the text.
fn length_made(len: u64, splices: &[Splice<'_>]) -> Option<u64>
    ensures { IfSome result
        (λ made. spec.length_from 0 len (splices_view splices.now) ≡ Some made) }
{
    let mut here = 0;
    let mut made: u64 = 0;
    for splice in splices {
        let at = splice.at;
        if !is_within(here, len, at) {
            return None;
        }
        made = made.checked_add(at.first - here)?;
        made = made.checked_add(measure(splice.text).chars)?;
        here = at.second;
    }
    made.checked_add(len - here)
}

fn is_within(here: u64, len: u64, at: Stretch) -> bool
    ensures { result ≡ spec.is_within here len at }
{
    is_next(here, at) && at.second <= len
}

/// What edits make of a text, if none reaches into the one before it.
fn made_of(alloc: Global, whole: &str, splices: &[Splice<'_>]) -> Result<Option<String>>
    ensures { IfOk result (λ made. option_map (λ s. chars (string_bytes s)) made
        ≡ spec.made_from 0 (chars whole.now) (splices_view splices.now)) }
{
    let mut made = String::with_capacity(alloc, whole.len())?;
    let mut here = 0;
    let mut rest = whole;
    for splice in splices {
        if !is_next(here, splice.at) {
            return Ok(None);
        }
        rest = push_next(&mut made, here, rest, splice.at, splice.text)?;
        here = splice.at.second;
    }
    made.push_str(rest)?;
    Ok(Some(made))
}

/// Whether an edit begins no earlier than the one before it ends, and does not end before it
/// begins.
fn is_next(here: u64, at: Stretch) -> bool
    ensures { result ≡ spec.is_next here at }
{
    here <= at.first && at.first <= at.second
}

/// Adds what comes before an edit, and its text. Answers what is left of the text behind it.
fn push_next<'a>(
    made: &mut String,
    here: u64,
    rest: &'a str,
    at: Stretch,
    text: &str,
) -> Result<&'a str>
    ensures { IfOk result (λ left. IsUtf8 (string_bytes made.old)
        → spec.IsPut here (chars rest.now) (spec.splice_with (chars text.now) at)
        (string_bytes made.old) (string_bytes made.new) left.now) }
{
    let Stretch { first, second } = at;
    let (front, behind) = split_after(rest, first.saturating_sub(here))?;
    let (_, left) = split_after(behind, second.saturating_sub(first))?;
    made.push_str(front)?;
    made.push_str(text)?;
    Ok(left)
}

/// The first characters of a text, this many at most, and what comes after them. No text that is
/// held has more than a `u32` counts: so many are answered as refused memory.
fn split_after(text: &str, count: u64) -> Result<(&str, &str)>
    ensures { IfOk result (λ parts. spec.IsSplit count text.now parts.0.now parts.1.now) }
{
    let Ok(column) = u32::try_from(count) else {
        return Err(Memory);
    };
    let Some(offset) = offset_in_line(text, Encoding::Utf32, column) else {
        return Err(Memory);
    };
    Ok(text.split_at(offset))
}

// ---- edits by their places in a text

/// Edits in the order of a text, if their positions are outside of characters.
fn splices_of<'a>(
    alloc: Global,
    encoding: Encoding,
    edits: &'a [Change],
    text: &Lined,
) -> Result<Option<Vec<Splice<'a>>>>
    ensures { IfOk result (λ found. option_map (λ ss. splices_view ss.items) found
        ≡ option_map spec.in_order
        (spec.splices_of encoding text.now.content (edits_of edits.now))) }
{
    let mut found = Vec::with_capacity(alloc, edits.len())?;
    for edit in edits {
        let Some(splice) = splice_of(encoding, edit, text)? else {
            return Ok(None);
        };
        found.push(splice)?;
    }
    put_in_order(&mut found)?;
    Ok(Some(found))
}

fn splice_of<'a>(encoding: Encoding, edit: &'a Change, text: &Lined) -> Result<Option<Splice<'a>>>
    ensures { IfOk result (λ found. option_map splice_view found
        ≡ spec.splice_of encoding text.now.content (edit_of edit.now)) }
{
    let Some(at) = stretch_of(encoding, text, edit.span)? else {
        return Ok(None);
    };
    let text = edit.text.as_str();
    Ok(Some(Splice { at, text }))
}

/// Puts them in the order of the text; those between the same places stay as they are.
fn put_in_order(splices: &mut Vec<Splice<'_>>) -> Result<()>
    ensures { OnOk result (splices_view splices.new.items
        ≡ spec.in_order (splices_view splices.old.items)) }
{
    splices.sort_by(|first, second| order(first.at, second.at))?;
    Ok(())
}

fn order(stretch: Stretch, other: Stretch) -> Ordering
    ensures { is_lt result ≡ spec.is_first stretch other }
{
    if is_first(stretch, other) {
        return Ordering::Less;
    }
    if is_first(other, stretch) {
        return Ordering::Greater;
    }
    Ordering::Equal
}

/// Whether a stretch begins before the other one, or at the same place, and ends before it does.
fn is_first(stretch: Stretch, other: Stretch) -> bool
    ensures { result ≡ spec.is_first stretch other }
{
    stretch.first < other.first || (stretch.first == other.first && stretch.second < other.second)
}
