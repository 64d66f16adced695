//! Bytes of two slices, compared 256 at a time, or 64 at a time from the end.

ghost use Rattle.std.specs.Prelude.{◌≡◌, ◌+◌, ◌≤◌, ◌↔◌, ◌++◌, List, ℕ, length, take, drop, IsTrue};
ghost use Rattle.std.specs.Prelude.{MatchOption};
ghost use Rattle.lsp_text.specs.Parting.{AreSameTo, AreSameEnds, AreSameFrom};
ghost use Rattle.lsp_text.specs.SameText.{BeginsOtherwise};

use std::simd::u8x64;

/// How many bytes are compared at once.
const STRETCH: usize = 256;

/// What comes after the front of a text, if it begins with that. Quick where the front is long.
pub fn after_front<'a>(text: &'a str, front: &str) -> Option<&'a str>
    ensures { MatchOption result (BeginsOtherwise front.now text.now)
        (λ rest. text.now ≡ front.now ++ rest.now) }
{
    if !begins_with(text.as_bytes(), front.as_bytes()) {
        return None;
    }
    let (_, rest) = text.split_at(front.len());
    Some(rest)
}

/// Whether bytes begin with others.
pub(crate) fn begins_with(bytes: &[u8], front: &[u8]) -> bool
    ensures yes { IsTrue result → bytes.now ≡ front.now ++ drop (length front.now) bytes.now }
    ensures no { (rest : List ℕ) → bytes.now ≡ front.now ++ rest → IsTrue result }
{
    let same = same_stretches(bytes, front);
    bytes[same..].starts_with(&front[same..])
}

/// The bytes of the stretches from the front that are the same in two slices.
pub(crate) fn same_stretches(a: &[u8], b: &[u8]) -> usize
    ensures { AreSameTo a.now b.now result }
{
    let both = a.len().min(b.len());
    let mut at = 0;
    while at + STRETCH <= both && is_same_stretch(a, b, at) {
        at += STRETCH;
    }
    at
}

/// Whether the stretches at an offset are the same: no byte differs in any of their four parts.
#[inline(always)]
fn is_same_stretch(a: &[u8], b: &[u8], at: usize) -> bool
    requires a { at + STRETCH ≤ length a.now }
    requires b { at + STRETCH ≤ length b.now }
    ensures { IsTrue result ↔ (take STRETCH (drop at a.now) ≡ take STRETCH (drop at b.now)) }
{
    let first = u8x64::from_slice(&a[at..]).simd_ne(u8x64::from_slice(&b[at..]));
    let second = u8x64::from_slice(&a[at + 64..]).simd_ne(u8x64::from_slice(&b[at + 64..]));
    let third = u8x64::from_slice(&a[at + 128..]).simd_ne(u8x64::from_slice(&b[at + 128..]));
    let fourth = u8x64::from_slice(&a[at + 192..]).simd_ne(u8x64::from_slice(&b[at + 192..]));
    (first | second | (third | fourth)).to_bitmask() == 0
}

/// How many bytes are compared at once from the end.
const BLOCK: usize = 64;

/// How many bytes at the ends of two texts are the same. They begin with a whole character.
pub fn same_back(a: &str, b: &str) -> usize
    ensures { AreSameFrom a.now b.now result }
{
    let mut same = same_end(a.as_bytes(), b.as_bytes());
    while !a.is_char_boundary(a.len() - same) {
        same -= 1;
    }
    same
}

/// How many bytes are the same at the ends of two slices.
fn same_end(a: &[u8], b: &[u8]) -> usize
    ensures { AreSameEnds a.now b.now result }
{
    let both = a.len().min(b.len());
    let mut same = 0;
    'blocks: while same + BLOCK <= both
        && is_same_block(a, a.len() - same - BLOCK, b, b.len() - same - BLOCK)
    {
        same += BLOCK;
    }
    'bytes: while same < both && a[a.len() - 1 - same] == b[b.len() - 1 - same] {
        same += 1;
    }
    same
}

/// Whether the blocks at two offsets are the same.
#[inline(always)]
fn is_same_block(a: &[u8], at: usize, b: &[u8], there: usize) -> bool
    requires a { at + BLOCK ≤ length a.now }
    requires b { there + BLOCK ≤ length b.now }
    ensures { IsTrue result ↔ (take BLOCK (drop at a.now) ≡ take BLOCK (drop there b.now)) }
{
    let block = u8x64::from_slice(&a[at..]);
    block.simd_ne(u8x64::from_slice(&b[there..])).to_bitmask() == 0
}
