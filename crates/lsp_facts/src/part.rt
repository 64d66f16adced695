//! Lines of documents, of which a long one is shown as the part around a place.
ghost use Rattle.std.specs.Prelude.{◌≡◌, IfOk, length, slice_get, string_bytes};
ghost use Rattle.std.specs.Str.{chars};
ghost use lib.Utf8.{encodes};
ghost use Rattle.lsp_facts.specs.Fact as spec;

use lsp_rpc::Result;
use std::alloc::Global;

/// How many characters of a line are shown at most.
const MOST_SHOWN: usize = 200;

/// How many of them come before the place.
const SHOWN_BEFORE: usize = 100;

/// A line of a document, or the part of it around a place.
#[derive(Debug, Drop, PartialEq, Eq)]
pub struct Excerpt {
    /// How many characters of the line are left out before the text.
    pub before: u64,
    pub text: String,
    /// How many are left out after it.
    pub after: u64,
}

/// A line, or the part of it around the place behind this front of it.
pub(crate) fn part_at(alloc: Global, line: &str, front: &str) -> Result<Excerpt>
    ensures { IfOk result (λ part.
        spec.part_view part ≡ spec.part_at (length (chars front.now)) (chars line.now)) }
{
    let count = char_count(line);
    let before = left_before(count, char_count(front));
    let text = shown_text(alloc, line, before)?;
    Ok(Excerpt {
        before: before as u64,
        text,
        after: left_after(count, before) as u64,
    })
}

fn char_count(line: &str) -> usize
    ensures { result ≡ length (chars line.now) }
{
    line.chars().count()
}

/// The character of a line behind this front of it, if there is one.
pub(crate) fn char_behind(line: &str, front: &str) -> Option<char>
    ensures { result ≡ slice_get (chars line.now) (length (chars front.now)) }
{
    line.chars().nth(char_count(front))
}

/// How many characters of a line of this many are left out before the text that is shown.
fn left_before(count: usize, place: usize) -> usize
    ensures { result ≡ spec.left_before count place }
{
    if count > MOST_SHOWN {
        place.saturating_sub(SHOWN_BEFORE)
    } else {
        0
    }
}

/// How many are left out after it, where this many are before it.
fn left_after(count: usize, before: usize) -> usize
    ensures { result ≡ spec.left_after count before }
{
    count.saturating_sub(before).saturating_sub(MOST_SHOWN)
}

/// The characters of a line that are shown, where this many are left out before them.
fn shown_text(alloc: Global, line: &str, before: usize) -> Result<String>
    ensures { IfOk result (λ text. string_bytes text
        ≡ encodes (spec.shown before (chars line.now))) }
{
    let text: String = line.chars().skip(before).take(MOST_SHOWN).collect(alloc)?;
    Ok(text)
}
