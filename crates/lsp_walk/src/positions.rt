//! Positions and ranges as most programs write them: two members, in either order, without space.
ghost use Rattle.std.specs.Prelude.{◌≡◌, ◌∷◌, ◌+◌, ◌^◌, ◌<◌, ◌≤◌, ℕ, length, take, drop, IsTrue};
ghost use Rattle.std.specs.Prelude.{IfSome};
ghost use Rattle.std.specs.Int.{to_le_bytes, w64};
ghost use Rattle.serde_json.specs.Data.{Data, number, unsigned};
ghost use Rattle.lsp_walk.specs.Places.{KeepsPosition, KeepsRange, StandsKept};
ghost use Rattle.lsp_walk.specs.Walk.{IsValue, MayEndNumber, Stand, line_key, character_key};
ghost use Rattle.lsp_walk.specs.Walk.{start_key, end_key};

use crate::bytes::byte_at;
use crate::numbers::{short_integer_end, short_natural_at};
use crate::tries::Tries;

/// The eight bytes that stand there, as one number.
#[inline(always)]
fn word_at(bytes: &[u8], at: usize) -> u64
    requires { at + 8 ≤ length bytes.now }
    ensures { to_le_bytes w64 result ≡ take 8 (drop at bytes.now) }
{
    u64::from_le_bytes([
        bytes[at],
        bytes[at + 1],
        bytes[at + 2],
        bytes[at + 3],
        bytes[at + 4],
        bytes[at + 5],
        bytes[at + 6],
        bytes[at + 7],
    ])
}

/// Whether this byte stands there and then the key of a line.
#[inline(always)]
fn names_line(bytes: &[u8], from: usize, before: u8) -> bool
    requires { from ≤ length bytes.now }
    ensures { IsTrue result → Stand bytes.now from (before ∷ line_key) (from + 8) }
{
    let key = u64::from_le_bytes([before, b'"', b'l', b'i', b'n', b'e', b'"', b':']);
    if bytes.len() - from < 8 {
        return false;
    }
    word_at(bytes, from) == key
}

/// Whether this byte stands there and then the key of a character.
#[inline(always)]
fn names_character(bytes: &[u8], from: usize, before: u8) -> bool
    requires { from ≤ length bytes.now }
    ensures { IsTrue result → Stand bytes.now from (before ∷ character_key) (from + 13) }
{
    let front = u64::from_le_bytes([before, b'"', b'c', b'h', b'a', b'r', b'a', b'c']);
    let back = u64::from_le_bytes([b'r', b'a', b'c', b't', b'e', b'r', b'"', b':']);
    if bytes.len() - from < 13 {
        return false;
    }
    if word_at(bytes, from) != front {
        return false;
    }
    word_at(bytes, from + 5) == back
}

/// Whether this byte stands there and then the key of a range's start.
#[inline(always)]
fn names_start(bytes: &[u8], from: usize, before: u8) -> bool
    requires { from ≤ length bytes.now }
    ensures { IsTrue result → Stand bytes.now from (before ∷ start_key) (from + 9) }
{
    let front = u64::from_le_bytes([before, b'"', b's', b't', b'a', b'r', b't', b'"']);
    if bytes.len() - from < 9 {
        return false;
    }
    if word_at(bytes, from) != front {
        return false;
    }
    bytes[from + 8] == b':'
}

/// Whether this byte stands there, then the key of a range's end, and then a brace.
#[inline(always)]
fn names_end(bytes: &[u8], from: usize, before: u8) -> bool
    requires { from ≤ length bytes.now }
    ensures { IsTrue result → Stand bytes.now from (before ∷ end_key) (from + 7) }
{
    let word = u64::from_le_bytes([before, b'"', b'e', b'n', b'd', b'"', b':', b'{']);
    if bytes.len() - from < 8 {
        return false;
    }
    word_at(bytes, from) == word
}

/// The first letter of the first key of the object that begins there, where no space is before it.
#[inline(always)]
fn first_letter(bytes: &[u8], from: usize) -> u8
    requires { from ≤ length bytes.now }
{
    if bytes.len() - from > 2 {
        bytes[from + 2]
    } else {
        0
    }
}

/// What is kept of a number: nothing, or its value.
pub trait Kept: Copy {
    /// This is kept of the value.
    ghost keeps: { Data → Self → Type 0 };

    /// The integer of a few digits that begins there, and where it ends, in bytes, if a number may.
    /// `None` where there is something else.
    fn number_at(bytes: &[u8], from: usize) -> Option<(Self, usize)>
        requires { from ≤ length bytes.now }
        ensures read { IfSome result (λ r. MayEndNumber bytes.now r.1 → (d : Data)
            × ((depth : ℕ) → IsValue depth bytes.now from r.1 d) × keeps d r.0) }
        ensures within { IfSome result (λ r. r.1 ≤ length bytes.now) };
}

/// Nothing, where it is skipped.
impl Kept for () {
    ghost keeps = { λ d kept. Unit {0} };

    #[inline(always)]
    fn number_at(bytes: &[u8], from: usize) -> Option<((), usize)> {
        let end = short_integer_end(bytes, from)?;
        Some(((), end))
    }
}

/// Its value.
impl Kept for u32 {
    ghost keeps = { λ d n. (d ≡ number (unsigned n)) × (n < 2 ^ 31) };

    #[inline(always)]
    fn number_at(bytes: &[u8], from: usize) -> Option<(u32, usize)> {
        let (n, end) = short_natural_at(bytes, from)?;
        Some((n, end))
    }
}

/// The position that begins there with its line, and where it ends.
#[inline(always)]
fn line_first_at<K: Kept>(bytes: &[u8], from: usize) -> Option<((K, K), usize)>
    requires { from ≤ length bytes.now }
    ensures { IfSome result (StandsKept 0 (KeepsPosition K.keeps) bytes.now from) }
{
    if !names_line(bytes, from, b'{') {
        return None;
    }
    let (line, stop) = K::number_at(bytes, from + 8)?;
    if !names_character(bytes, stop, b',') {
        return None;
    }
    let (column, close) = K::number_at(bytes, stop + 13)?;
    if byte_at(bytes, close) != b'}' {
        return None;
    }
    Some(((line, column), close + 1))
}

/// The position that begins there with its character, and where it ends.
#[inline(always)]
fn character_first_at<K: Kept>(bytes: &[u8], from: usize) -> Option<((K, K), usize)>
    requires { from ≤ length bytes.now }
    ensures { IfSome result (StandsKept 0 (KeepsPosition K.keeps) bytes.now from) }
{
    if !names_character(bytes, from, b'{') {
        return None;
    }
    let (column, stop) = K::number_at(bytes, from + 13)?;
    if !names_line(bytes, stop, b',') {
        return None;
    }
    let (line, close) = K::number_at(bytes, stop + 8)?;
    if byte_at(bytes, close) != b'}' {
        return None;
    }
    Some(((line, column), close + 1))
}

/// The position that begins there, and where it ends.
#[inline(always)]
fn position_at<K: Kept>(bytes: &[u8], from: usize) -> Option<((K, K), usize)>
    requires { from ≤ length bytes.now }
    ensures { IfSome result (StandsKept 0 (KeepsPosition K.keeps) bytes.now from) }
{
    if first_letter(bytes, from) == b'l' {
        line_first_at(bytes, from)
    } else {
        character_first_at(bytes, from)
    }
}

/// The range that begins there with its start, and where it ends.
#[inline(always)]
fn start_first_at<K: Kept>(bytes: &[u8], from: usize) -> Option<(((K, K), (K, K)), usize)>
    requires { from ≤ length bytes.now }
    ensures { IfSome result (StandsKept 1 (KeepsRange K.keeps) bytes.now from) }
{
    if !names_start(bytes, from, b'{') {
        return None;
    }
    let (start, stop) = position_at(bytes, from + 9)?;
    if !names_end(bytes, stop, b',') {
        return None;
    }
    let (end, close) = position_at(bytes, stop + 7)?;
    if byte_at(bytes, close) != b'}' {
        return None;
    }
    Some(((start, end), close + 1))
}

/// The range that begins there with its end, and where it ends.
#[inline(always)]
fn end_first_at<K: Kept>(bytes: &[u8], from: usize) -> Option<(((K, K), (K, K)), usize)>
    requires { from ≤ length bytes.now }
    ensures { IfSome result (StandsKept 1 (KeepsRange K.keeps) bytes.now from) }
{
    if !names_end(bytes, from, b'{') {
        return None;
    }
    let (end, stop) = position_at(bytes, from + 7)?;
    if !names_start(bytes, stop, b',') {
        return None;
    }
    let (start, close) = position_at(bytes, stop + 9)?;
    if byte_at(bytes, close) != b'}' {
        return None;
    }
    Some(((start, end), close + 1))
}

/// The range that begins there as most programs write it, its start and its end, each with its line
/// and its character, and where it ends, in bytes. `None` where it is written otherwise.
#[inline(always)]
pub fn range_at<K: Kept>(bytes: &[u8], from: usize) -> Option<(((K, K), (K, K)), usize)>
    requires { from ≤ length bytes.now }
    ensures { IfSome result (StandsKept 1 (KeepsRange K.keeps) bytes.now from) }
{
    if first_letter(bytes, from) == b's' {
        start_first_at(bytes, from)
    } else {
        end_first_at(bytes, from)
    }
}

/// Whether a position or a range begins there, by its first key.
#[inline(always)]
fn begins_place(bytes: &[u8], from: usize) -> bool
    requires { from ≤ length bytes.now }
{
    match first_letter(bytes, from) {
        b'l' => names_line(bytes, from, b'{'),
        b'c' => names_character(bytes, from, b'{'),
        b's' => names_start(bytes, from, b'{'),
        b'e' => names_end(bytes, from, b'{'),
        _ => false,
    }
}

/// Where the position or range ends that begins there.
#[inline(never)]
fn place_end(bytes: &[u8], from: usize, depth: usize) -> Option<usize>
    requires from { from ≤ length bytes.now }
    requires depth { 0 < depth }
    ensures { IfSome result (λ end. (d : Data) × IsValue depth bytes.now from end d) }
{
    match first_letter(bytes, from) {
        b'l' | b'c' => {
            let (_, end): ((_, ()), usize) = position_at(bytes, from)?;
            Some(end)
        }
        _ => {
            if depth < 2 {
                return None;
            }
            let (_, end): (((_, _), (_, ())), usize) = range_at(bytes, from)?;
            Some(end)
        }
    }
}

/// Where the position or range ends that begins there, while these are tried.
#[inline(always)]
pub(crate) fn plain_place_end(
    bytes: &[u8],
    from: usize,
    depth: usize,
    tries: &mut Tries,
) -> Option<usize>
    requires from { from ≤ length bytes.now }
    requires depth { 0 < depth }
    ensures { IfSome result (λ end. (d : Data) × IsValue depth bytes.now from end d) }
{
    if !tries.places || !begins_place(bytes, from) {
        return None;
    }
    let end = place_end(bytes, from, depth);
    tries.places = end.is_some();
    end
}
