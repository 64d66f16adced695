//! The places after the line ends of a block.

ghost use Rattle.std.specs.Prelude.{◌≡◌, ◌+◌, ◌-◌, ◌≤◌, ◌<◌, ◌↔◌, true, false, length, map, take};
ghost use Rattle.std.specs.Prelude.{drop, IfOk, OnOk, IsTrue, EachIndex, slice_index};
ghost use Rattle.lsp_text.specs.Lines.{starts_with_feed};
ghost use Rattle.lsp_lined.specs.Ends.{ends_in, is_end_at, places_behind, moved_place, CanMove};
ghost use Rattle.lsp_lined.specs.Ends.{IsEndAt, IsMarked, ArePlacesTo, IsCountUpTo, ends_with_return, joins};

use crate::marks::{lowest, marks_in, without};
use lsp_text::FirstLine;
use std::alloc::{AllocError, Global};
use std::simd::u8x64;

/// The places after the line ends of a short text.
pub(crate) fn places_of(alloc: Global, text: &str) -> Result<Vec<u16>, AllocError>
    requires { length text.now ≤ 65535 }
    ensures { IfOk result (λ places. places.items ≡ places_behind 0 text.now) }
{
    let bytes = text.as_bytes();
    let mut places = Vec::with_capacity(alloc, bytes.len() / 24)?;
    let mut at = 0;
    while at + 64 <= bytes.len() {
        let marks = marks_in(u8x64::from_slice(&bytes[at..]));
        push_marked(&mut places, bytes, at, marks)?;
        at += 64;
    }
    for i in at..bytes.len() {
        push_if_end(&mut places, bytes, i)?;
    }
    Ok(places)
}

/// Puts the places after the line ends among 64 bytes after others.
#[inline(always)]
fn push_marked(places: &mut Vec<u16>, bytes: &[u8], at: usize, marks: u64) -> Result<(), AllocError>
    requires short { length bytes.now ≤ 65535 }
    requires within { at + 64 ≤ length bytes.now }
    requires marks { IsMarked (take 64 (drop at bytes.now)) marks }
    ensures { OnOk result (ArePlacesTo bytes.now at places.old.items (at + 64) places.new.items) }
{
    let mut left = marks;
    while left != 0 {
        let k = lowest(left);
        push_if_end(places, bytes, at + k)?;
        left = without(left, k);
    }
    Ok(())
}

/// Puts the place after a byte after others, if it ends a line.
#[inline(always)]
fn push_if_end(places: &mut Vec<u16>, bytes: &[u8], i: usize) -> Result<(), AllocError>
    requires short { length bytes.now ≤ 65535 }
    requires within { i < length bytes.now }
    ensures { OnOk result (ArePlacesTo bytes.now i places.old.items (i + 1) places.new.items) }
{
    if !ends_at(bytes, i) {
        return Ok(());
    }
    places.push((i + 1) as u16)?;
    Ok(())
}

/// Whether a byte ends a line.
#[inline(always)]
fn ends_at(bytes: &[u8], i: usize) -> bool
    requires { i < length bytes.now }
    ensures { result ≡ is_end_at bytes.now i }
{
    bytes[i] == b'\n' || (bytes[i] == b'\r' && !is_feed_at(bytes, i + 1))
}

/// Whether an LF is at a place.
#[inline(always)]
fn is_feed_at(bytes: &[u8], i: usize) -> bool
    requires { i ≤ length bytes.now }
    ensures { result ≡ starts_with_feed (drop i bytes.now) }
{
    i < bytes.len() && bytes[i] == b'\n'
}

/// Whether the last byte of a text is a CR.
pub(crate) fn is_return_last(text: &str) -> bool
    ensures { result ≡ ends_with_return false text.now }
{
    let bytes = text.as_bytes();
    bytes.len() > 0 && bytes[bytes.len() - 1] == b'\r'
}

/// Whether a CR LF begins in one text and ends in the next.
pub(crate) fn is_joined(front: &str, rest: &str) -> bool
    ensures { result ≡ joins front.now rest.now }
{
    is_return_last(front) && is_feed_at(rest.as_bytes(), 0)
}

/// How many of the first places are at most `offset`.
pub(crate) fn places_up_to(places: &[u16], offset: u16) -> usize
    ensures { IsCountUpTo places.now offset result }
{
    let mut count = 0;
    while count < places.len() && places[count] <= offset {
        count += 1;
    }
    count
}

/// Whether no line end is in a text.
pub(crate) fn is_whole(text: &str) -> bool
    ensures { IsTrue result ↔ (ends_in text.now ≡ 0) }
{
    FirstLine::of(text).is_none()
}

/// Moves the places after `from`, where `removed` bytes without a line end went there and others
/// came.
pub(crate) fn move_places(places: &mut [u16], from: u16, removed: u16, inserted: u16)
    requires { EachIndex places.old
        (λ k. CanMove from removed inserted (slice_index places.old k)) }
    ensures { places.new ≡ map (moved_place from removed inserted) places.old }
{
    for place in places.iter_mut() {
        *place = moved(*place, from, removed, inserted);
    }
}

/// Where a place moves to.
#[inline(always)]
fn moved(place: u16, from: u16, removed: u16, inserted: u16) -> u16
    requires { CanMove from removed inserted place }
    ensures { result ≡ moved_place from removed inserted place }
{
    if place > from {
        place - removed + inserted
    } else {
        place
    }
}

/// The bytes of the line end before a place.
pub(crate) fn end_len_before(text: &str, after: usize) -> usize
    requires some { 0 < after }
    requires within { after ≤ length text.now }
    requires ended { is_end_at text.now (after - 1) ≡ true }
    ensures within { result ≤ after }
    ensures end { IsEndAt text.now (after - result) result }
{
    let bytes = text.as_bytes();
    if after >= 2 && bytes[after - 1] == b'\n' && bytes[after - 2] == b'\r' {
        2
    } else {
        1
    }
}
