//! Bytes of UTF-8 counted 32 at a time, and 64 where they are ASCII.

ghost use Rattle.std.specs.Prelude.{◌≡◌, ◌<◌, ◌≤◌, ◌+◌, ◌↔◌, length, take, map, count_by, nat_lt};
ghost use Rattle.std.specs.Prelude.{IsTrue};
ghost use Rattle.std.specs.List.{sum_by};
ghost use Rattle.lsp_text.specs.Offsets.{byte_units};

use crate::counts::TextCounts;
use lsp_types::Encoding;
use std::simd::{u8x32, u8x64};

/// The least byte that continues a character.
const CONTINUATION: u8 = 0x80;

/// The least byte that begins a character of several bytes.
const LEAD: u8 = 0xC0;

/// The least byte that begins a character of four bytes.
const LEAD_OF_FOUR: u8 = 0xF0;

/// The characters and the units of UTF-16 that bytes bring, in one pass.
pub(crate) fn count(bytes: &[u8]) -> TextCounts
    ensures chars { result.chars ≡ sum_by (byte_units Encoding.Utf32) bytes.now }
    ensures utf16 { result.utf16 ≡ sum_by (byte_units Encoding.Utf16) bytes.now }
{
    let mut at = ascii_front(bytes);
    let mut chars = at as u64;
    let mut utf16 = at as u64;
    while at + 32 <= bytes.len() {
        let block = u8x32::from_slice(&bytes[at..]);
        chars += units_in(block, Encoding::Utf32) as u64;
        utf16 += units_in(block, Encoding::Utf16) as u64;
        at += 32;
    }
    for byte in &bytes[at..] {
        chars += units_of_byte(*byte, Encoding::Utf32) as u64;
        utf16 += units_of_byte(*byte, Encoding::Utf16) as u64;
    }
    TextCounts { chars, utf16 }
}

/// The bytes of the blocks at the front that hold ASCII alone.
fn ascii_front(bytes: &[u8]) -> usize
    ensures within { result ≤ length bytes.now }
    ensures ascii { count_by (λ x. nat_lt x CONTINUATION) (take result bytes.now) ≡ result }
{
    let mut at = 0;
    while at + 64 <= bytes.len() && is_ascii(u8x64::from_slice(&bytes[at..])) {
        at += 64;
    }
    at
}

/// Whether 64 bytes are ASCII.
fn is_ascii(block: u8x64) -> bool
    requires { length block ≡ 64 }
    ensures { IsTrue result ↔ (count_by (λ x. nat_lt x CONTINUATION) block ≡ 64) }
{
    block.simd_ge(u8x64::splat(CONTINUATION)).to_bitmask() == 0
}

/// The units that a byte brings.
fn units_of_byte(byte: u8, encoding: Encoding) -> u32
    ensures { result ≡ byte_units encoding byte }
{
    match encoding {
        Encoding::Utf8 => 1,
        Encoding::Utf16 => !is_continuation(byte) as u32 + (byte >= LEAD_OF_FOUR) as u32,
        Encoding::Utf32 => !is_continuation(byte) as u32,
    }
}

/// Whether a byte continues a character.
pub(crate) fn is_continuation(byte: u8) -> bool
    ensures { IsTrue result ↔ ((128 ≤ byte) × (byte < 192)) }
{
    (CONTINUATION..LEAD).contains(&byte)
}

/// The units that 32 bytes bring.
pub(crate) fn units_in(block: u8x32, encoding: Encoding) -> u32
    requires { length block ≡ 32 }
    ensures { result ≡ sum_by (byte_units encoding) block }
{
    match encoding {
        Encoding::Utf8 => 32,
        Encoding::Utf16 => utf16_starts(block).strict_reduce_sum() as u32,
        Encoding::Utf32 => starts(block).strict_reduce_sum() as u32,
    }
}

/// The units that 64 bytes bring, in two halves: one sum over the lanes serves both.
pub(crate) fn units_in_both(first: u8x32, second: u8x32, encoding: Encoding) -> u32
    requires first { length first ≡ 32 }
    requires second { length second ≡ 32 }
    ensures { result ≡ sum_by (byte_units encoding) first + sum_by (byte_units encoding) second }
{
    match encoding {
        Encoding::Utf8 => 64,
        Encoding::Utf16 => {
            let units = utf16_starts(first).strict_add(utf16_starts(second));
            units.strict_reduce_sum() as u32
        }
        Encoding::Utf32 => {
            let units = starts(first).strict_add(starts(second));
            units.strict_reduce_sum() as u32
        }
    }
}

/// For each byte the units of UTF-16 of the character that it begins, or 0.
fn utf16_starts(block: u8x32) -> u8x32
    requires { length block ≡ 32 }
    ensures { result ≡ map (byte_units Encoding.Utf16) block }
{
    let wide = block.simd_ge(u8x32::splat(LEAD_OF_FOUR));
    starts(block).strict_add(wide.select(u8x32::splat(1), u8x32::splat(0)))
}

/// For each byte 1 where it begins a character, else 0.
fn starts(block: u8x32) -> u8x32
    requires { length block ≡ 32 }
    ensures { result ≡ map (byte_units Encoding.Utf32) block }
{
    let ascii = block.simd_lt(u8x32::splat(CONTINUATION));
    let leads = block.simd_ge(u8x32::splat(LEAD));
    (ascii | leads).select(u8x32::splat(1), u8x32::splat(0))
}
