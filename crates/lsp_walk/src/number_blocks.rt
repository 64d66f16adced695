//! Arrays of numbers, sixteen bytes at once.
ghost use Rattle.std.specs.Prelude.{◌≡◌, ◌==◌, ℕ, ◌≤◌, length, map, IsTrue};
ghost use Rattle.std.specs.Simd.Lanes.{mask_l};
ghost use Rattle.lsp_walk.specs.Walk.{SomeItems, NumberMayBegin, fault_lanes};

use crate::bytes::byte_at;
use std::simd::prelude::*;

/// How many bytes are looked at together.
const LANES: usize = 16;

/// A bit for each byte of a block that stands in no array of plain numbers: what is neither a digit
/// nor a comma, and a comma before another one or before a zero that begins a longer number. The
/// blocks that begin one and two bytes later tell what comes next.
#[inline(always)]
fn faults(here: u8x16, next: u8x16, after: u8x16) -> u64
    requires { (length here ≡ LANES) × (length next ≡ LANES) × (length after ≡ LANES) }
    ensures { result ≡ mask_l (fault_lanes here next after) }
{
    let comma = u8x16::splat(b',');
    let zero = u8x16::splat(b'0');
    let beside = here.simd_lt(zero) & here.simd_ne(comma);
    let zeros = next.simd_eq(zero) & after.simd_ne(comma);
    (here.simd_gt(u8x16::splat(b'9'))
        | (beside | (here.simd_eq(comma) & (next.simd_eq(comma) | zeros)))).to_bitmask()
}

/// A bit for each comma.
#[inline(always)]
fn commas(block: u8x16) -> u64
    requires { length block ≡ LANES }
    ensures { result ≡ mask_l (map (λ x. x == 44) block) }
{
    block.simd_eq(u8x16::splat(b',')).to_bitmask()
}

/// Whether an item may begin there that is a number of digits, without a zero before others.
#[inline(always)]
fn begins_number(bytes: &[u8], at: usize) -> bool
    ensures { IsTrue result → NumberMayBegin bytes.now at }
{
    let first = byte_at(bytes, at);
    first.is_ascii_digit() && (first != b'0' || byte_at(bytes, at + 1) == b',')
}

/// Where the items end that are numbers of digits with nothing but commas between them, as far as
/// whole blocks hold such.
#[inline(never)]
pub(crate) fn number_blocks_end(bytes: &[u8], from: usize) -> usize
    requires { from ≤ length bytes.now }
    ensures passed { (depth begin : ℕ)
        → SomeItems depth bytes.now begin from → SomeItems depth bytes.now begin result }
    ensures forward { from ≤ result }
    ensures within { result ≤ length bytes.now }
{
    if !begins_number(bytes, from) {
        return from;
    }
    let mut at = from;
    'lanes: while bytes.len() - at >= LANES + 2 {
        let here = u8x16::from_slice(&bytes[at..]);
        let next = u8x16::from_slice(&bytes[at + 1..]);
        let after = u8x16::from_slice(&bytes[at + 2..]);
        if faults(here, next, after) != 0 {
            return at;
        }
        let commas = commas(here);
        if commas == 0 {
            return at;
        }
        at += 64 - commas.leading_zeros() as usize;
    }
    at
}
