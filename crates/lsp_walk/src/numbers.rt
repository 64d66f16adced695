//! The numbers that numerals of JSON write, as `serde_json` reads them.
ghost use Rattle.std.specs.Prelude.{◌≡◌, ◌⊎◌, ℕ, ◌+◌, ◌<◌, ◌≤◌, ◌==◌, drop, get_or, length, not};
ghost use Rattle.std.specs.Prelude.{◌^◌, slice_index, Some, true, false, IsTrue, IfSome, is_some};
ghost use Rattle.std.specs.Char.{is_ascii_digit};
ghost use Rattle.std.specs.List.{prefix_len};
ghost use Rattle.json.specs.Run.{is_no_digit};
ghost use Rattle.serde_json.specs.Data.{unsigned};
ghost use Rattle.serde_json.specs.Read.{number_of, number_from};
ghost use Rattle.lsp_walk.specs.Walk.{IsNumeral, IsNatural, AreFewDigits, MayEndNumber};

use crate::bytes::{byte_at, is_delimiter};
use crate::runs::{Run, near_run_end, run_end};
use fast_float::Numeral;
use std::simd::prelude::*;

/// Integers of this many digits fit 64 bits.
const SHORT: usize = 18;

/// Integers of this many digits fit 32 bits.
const FEW: usize = 9;

/// Whether a numeral begins with a minus sign.
#[inline(always)]
pub fn has_minus(digits: &[u8]) -> bool
    ensures value { result ≡ (slice_index digits.now 0 == 45) }
    ensures some { IsTrue result → 0 < length digits.now }
{
    !digits.is_empty() && digits[0] == b'-'
}

/// Whether the numeral is a 64-bit integer or a finite float.
#[inline(always)]
fn fits(negative: bool, numeral: &Numeral<'_>) -> bool
    ensures { IsTrue result → is_some (number_from negative numeral.now) ≡ true }
{
    let fits_integer = !negative && numeral.to_u64().is_some();
    fits_integer || numeral.to_float::<f64>(negative).is_finite()
}

/// Whether `serde_json` reads the number.
fn is_in_range(digits: &str) -> bool
    ensures { IsTrue result → is_some (number_of digits.now) ≡ true }
{
    let digits = digits.as_bytes();
    if has_minus(digits) {
        fits(true, &Numeral::scan(&digits[1..]))
    } else {
        fits(false, &Numeral::scan(digits))
    }
}

/// What is no digit ends a run of digits.
struct Digits;

impl Run for Digits {
    ghost is_stop = { is_no_digit };

    #[inline(always)]
    fn is_stop(byte: u8) -> bool {
        !byte.is_ascii_digit()
    }

    #[inline(always)]
    fn stops(block: u8x16) -> u64 {
        (block.simd_lt(u8x16::splat(b'0')) | block.simd_gt(u8x16::splat(b'9'))).to_bitmask()
    }
}

/// Whether these digits write an integer that fits, without a zero before others.
#[inline(always)]
fn is_integer(digits: &[u8]) -> bool
    ensures some { IsTrue result → 0 < length digits.now }
    ensures short { IsTrue result → length digits.now ≤ 18 }
    ensures first { IsTrue result
        → (length digits.now ≡ 1) ⊎ ((slice_index digits.now 0 == 48) ≡ false) }
{
    // Most have one digit.
    digits.len() == 1 || (digits.len() > 1 && digits.len() <= SHORT && digits[0] != b'0')
}

/// The first place from there on where a number ends.
fn word_end(bytes: &[u8], from: usize) -> Option<usize>
    requires { from ≤ length bytes.now }
    ensures forward { IfSome result (λ end. from ≤ end) }
    ensures within { IfSome result (λ end. end < length bytes.now) }
    ensures ended { IfSome result (MayEndNumber bytes.now) }
{
    for end in from..bytes.len() {
        if is_delimiter(bytes[end]) {
            return Some(end);
        }
    }
    None
}

/// Where the number of whatever form ends that begins there. `None` where `serde_json` reads none.
#[inline(never)]
fn any_number_end(bytes: &[u8], from: usize) -> Option<usize>
    requires { from ≤ length bytes.now }
    ensures { IfSome result (IsNumeral bytes.now from) }
{
    let end = word_end(bytes, from)?;
    let digits = std::str::from_utf8(&bytes[from..end]).ok()?;
    if json::is_number(digits) && is_in_range(digits) {
        Some(end)
    } else {
        None
    }
}

/// Where the integer without a sign ends that begins there, where one block of bytes shows it and
/// if a number may end there.
#[inline(always)]
pub(crate) fn short_integer_end(bytes: &[u8], from: usize) -> Option<usize>
    requires { from ≤ length bytes.now }
    ensures number { IfSome result (λ end.
        MayEndNumber bytes.now end → IsNumeral bytes.now from end) }
    ensures within { IfSome result (λ end. end ≤ length bytes.now) }
{
    let end = near_run_end::<Digits>(bytes, from)?;
    if is_integer(&bytes[from..end]) {
        Some(end)
    } else {
        None
    }
}

/// Where the number ends that begins there, whose first digits end at `end`. `None` where
/// `serde_json` reads none.
#[inline(always)]
fn end_past_digits(bytes: &[u8], from: usize, end: usize) -> Option<usize>
    requires digits { end ≡ from + prefix_len (λ x. not (is_no_digit x)) (drop from bytes.now) }
    requires within { (from ≤ end) × (end ≤ length bytes.now) }
    ensures { IfSome result (IsNumeral bytes.now from) }
{
    if is_integer(&bytes[from..end]) && is_delimiter(byte_at(bytes, end)) {
        return Some(end);
    }
    any_number_end(bytes, from)
}

/// Where the number ends that begins there, in bytes. `None` where `serde_json` reads none.
#[inline(always)]
pub fn number_end(bytes: &[u8], from: usize) -> Option<usize>
    requires { from ≤ length bytes.now }
    ensures { IfSome result (IsNumeral bytes.now from) }
{
    match near_run_end::<Digits>(bytes, from) {
        Some(end) => end_past_digits(bytes, from, end),
        None => long_number_end(bytes, from),
    }
}

/// Where the number of whatever length ends that begins there. `None` where `serde_json` reads
/// none.
#[inline(never)]
fn long_number_end(bytes: &[u8], from: usize) -> Option<usize>
    requires { from ≤ length bytes.now }
    ensures { IfSome result (IsNumeral bytes.now from) }
{
    let end = run_end::<Digits>(bytes, from);
    end_past_digits(bytes, from, end)
}

/// Where the number of one or two digits ends that begins there, where a comma comes next.
#[inline(always)]
pub(crate) fn tiny_number_end(bytes: &[u8], from: usize) -> Option<usize>
    ensures number { IfSome result (IsNumeral bytes.now from) }
    ensures comma { IfSome result (λ end. get_or bytes.now end 0 ≡ 44) }
    ensures digit { IfSome result (λ _. is_ascii_digit (get_or bytes.now from 0) ≡ true) }
{
    let first = byte_at(bytes, from);
    if !first.is_ascii_digit() {
        return None;
    }
    let second = byte_at(bytes, from + 1);
    if second == b',' {
        return Some(from + 1);
    }
    if first == b'0' {
        return None;
    }
    if !second.is_ascii_digit() {
        return None;
    }
    if byte_at(bytes, from + 2) != b',' {
        return None;
    }
    Some(from + 2)
}

/// The integer that a numeral without a sign writes.
#[inline(always)]
fn natural(numeral: &Numeral<'_>) -> Option<u64>
    ensures { IfSome result (λ n. number_from false numeral.now ≡ Some (unsigned n)) }
{
    numeral.to_u64()
}

/// The number that a numeral writes, where it is an integer that is not negative.
fn natural_of(digits: &[u8]) -> Option<u64>
    ensures { IfSome result (λ n. number_of digits.now ≡ Some (unsigned n)) }
{
    if has_minus(digits) {
        return None;
    }
    natural(&Numeral::scan(digits))
}

/// The integer of whatever length that begins there and is not negative, and where it ends.
#[inline(never)]
fn long_natural_at(bytes: &[u8], from: usize) -> Option<(u64, usize)>
    requires { from ≤ length bytes.now }
    ensures { IfSome result (λ r. IsNatural bytes.now from r.1 r.0) }
{
    let end = number_end(bytes, from)?;
    let n = natural_of(&bytes[from..end])?;
    Some((n, end))
}

/// What up to nine digits write that begin there, and where they end.
#[inline(always)]
fn few_digits(bytes: &[u8], from: usize) -> (u32, usize)
    requires { from ≤ length bytes.now }
    ensures { AreFewDigits bytes.now from result.1 result.0 }
{
    let mut n = 0;
    let mut end = from;
    'digits: while end < bytes.len() && end - from < FEW && bytes[end].is_ascii_digit() {
        n = n * 10 + u32::from(bytes[end] - b'0');
        end += 1;
    }
    (n, end)
}

/// The integer of at most nine digits that begins there, and where it ends, if a number may.
#[inline(always)]
pub(crate) fn short_natural_at(bytes: &[u8], from: usize) -> Option<(u32, usize)>
    requires { from ≤ length bytes.now }
    ensures read { IfSome result (λ r.
        MayEndNumber bytes.now r.1 → IsNatural bytes.now from r.1 r.0) }
    ensures fits { IfSome result (λ r. r.0 < 2 ^ 31) }
    ensures within { IfSome result (λ r. r.1 ≤ length bytes.now) }
{
    let (n, end) = few_digits(bytes, from);
    if is_integer(&bytes[from..end]) {
        Some((n, end))
    } else {
        None
    }
}

/// The digit that begins there, where a number may end after it, and where it ends, in bytes.
/// `None` where there is something else.
#[inline(always)]
pub fn digit_at(bytes: &[u8], from: usize) -> Option<(u32, usize)>
    requires { from ≤ length bytes.now }
    ensures read { IfSome result (λ r. IsNatural bytes.now from r.1 r.0) }
    ensures fits { IfSome result (λ r. r.0 < 10) }
{
    let digit = byte_at(bytes, from);
    if !digit.is_ascii_digit() {
        return None;
    }
    if !is_delimiter(byte_at(bytes, from + 1)) {
        return None;
    }
    Some((u32::from(digit - b'0'), from + 1))
}

/// The integer that begins there and is not negative, and where it ends, in bytes. `None` where
/// there is none, or one that does not fit 64 bits.
#[inline(always)]
pub fn natural_at(bytes: &[u8], from: usize) -> Option<(u64, usize)>
    requires { from ≤ length bytes.now }
    ensures { IfSome result (λ r. IsNatural bytes.now from r.1 r.0) }
{
    match short_natural_at(bytes, from) {
        Some((n, end)) if is_delimiter(byte_at(bytes, end)) => Some((u64::from(n), end)),
        _ => long_natural_at(bytes, from),
    }
}
