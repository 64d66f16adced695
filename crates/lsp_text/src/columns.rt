//! Columns of a line, which count units of an encoding, as offsets in its bytes.

ghost use Rattle.std.specs.Prelude.{◌≡◌, ◌≢◌, ◌≤◌, ℕ, None, MatchOption};
ghost use Rattle.std.specs.List.{sum_by};
ghost use Rattle.std.specs.Str.{chars};
ghost use Rattle.lsp_text.specs.Places.{units, units_of_char, place_in_line};
ghost use Rattle.lsp_text.specs.Offsets.{IsOffset, IsSkipped, IsPassed, byte_units};
ghost use Rattle.lsp_types.specs.declared.position.Encoding as encodings;

use crate::lanes::{is_continuation, units_in, units_in_both};
use lsp_types::Encoding;
use std::simd::u8x32;

/// The bytes of a line that a column leaves after it, and the column in what is left.
#[derive(Clone, Copy)]
struct Skipped {
    bytes: usize,
    left: u32,
}

/// The bytes of a line before a column, or `None` where the column lies inside a character.
pub fn offset_in_line(line: &str, encoding: Encoding, column: u32) -> Option<usize>
    ensures { MatchOption result (place_in_line encoding (chars line.now) column ≡ None)
        (IsOffset encoding line.now column) }
{
    match encoding {
        Encoding::Utf8 => offset_of_byte(line, column),
        Encoding::Utf16 | Encoding::Utf32 => offset_past_blocks(line, encoding, column),
    }
}

/// The same under UTF-8, where a column counts bytes.
fn offset_of_byte(line: &str, column: u32) -> Option<usize>
    ensures { MatchOption result (place_in_line Encoding.Utf8 (chars line.now) column ≡ None)
        (IsOffset Encoding.Utf8 line.now column) }
{
    let offset = line.len().min(column as usize);
    if line.is_char_boundary(offset) {
        Some(offset)
    } else {
        None
    }
}

/// The same in a line of this many units, counted from its end where the column is nearer to that.
pub fn offset_in_counted(line: &str, encoding: Encoding, column: u32, width: u32) -> Option<usize>
    requires width { width ≡ units encoding (chars line.now) }
    requires within { column ≤ width }
    ensures { MatchOption result (place_in_line encoding (chars line.now) column ≡ None)
        (IsOffset encoding line.now column) }
{
    match encoding {
        Encoding::Utf8 => offset_of_byte(line, column),
        Encoding::Utf16 | Encoding::Utf32 => offset_from_nearer(line, encoding, column, width),
    }
}

/// The same, counted from the nearer end.
fn offset_from_nearer(line: &str, encoding: Encoding, column: u32, width: u32) -> Option<usize>
    requires wide { encoding ≢ Encoding.Utf8 }
    requires width { width ≡ units encoding (chars line.now) }
    requires within { column ≤ width }
    ensures { MatchOption result (place_in_line encoding (chars line.now) column ≡ None)
        (IsOffset encoding line.now column) }
{
    if column < width - column {
        return offset_past_blocks(line, encoding, column);
    }
    let skipped = skip_to_end(line, encoding, column, width);
    let (_, rest) = line.split_at(skipped.bytes);
    let offset = offset_past_blocks(rest, encoding, skipped.left)?;
    Some(skipped.bytes + offset)
}

/// The bytes before the blocks at the end that the column lies in or before, and the rest of the
/// character in which they end.
fn skip_to_end(line: &str, encoding: Encoding, column: u32, width: u32) -> Skipped
    requires wide { encoding ≢ Encoding.Utf8 }
    requires width { width ≡ units encoding (chars line.now) }
    requires within { column ≤ width }
    ensures { IsSkipped encoding line.now column result.bytes result.left }
{
    let passed = pass_to_end(line.as_bytes(), encoding, column, width);
    Skipped {
        bytes: boundary_from(line, passed.bytes),
        left: passed.left,
    }
}

/// The bytes before the fewest pairs of blocks at the end that bring the units after a column.
fn pass_to_end(bytes: &[u8], encoding: Encoding, column: u32, width: u32) -> Skipped
    requires width { width ≡ sum_by (byte_units encoding) bytes.now }
    requires within { column ≤ width }
    ensures { IsPassed encoding bytes.now column result.bytes result.left }
{
    let after = width - column;
    let mut at = bytes.len();
    let mut behind = 0;
    while behind < after {
        if at < 64 {
            return Skipped {
                bytes: 0,
                left: column,
            };
        }
        at -= 64;
        let first = u8x32::from_slice(&bytes[at..]);
        let second = u8x32::from_slice(&bytes[at + 32..]);
        behind += units_in_both(first, second, encoding);
    }
    Skipped {
        bytes: at,
        left: behind - after,
    }
}

/// The same by whole blocks, and then by characters.
fn offset_past_blocks(line: &str, encoding: Encoding, column: u32) -> Option<usize>
    requires { encoding ≢ Encoding.Utf8 }
    ensures { MatchOption result (place_in_line encoding (chars line.now) column ≡ None)
        (IsOffset encoding line.now column) }
{
    let skipped = skip_blocks(line, encoding, column);
    let (_, rest) = line.split_at(skipped.bytes);
    let offset = offset_by_chars(rest, encoding, skipped.left)?;
    Some(skipped.bytes + offset)
}

/// Whole blocks before a column, and the rest of the character in which they end.
fn skip_blocks(line: &str, encoding: Encoding, column: u32) -> Skipped
    requires { encoding ≢ Encoding.Utf8 }
    ensures { IsSkipped encoding line.now column result.bytes result.left }
{
    let passed = pass_blocks(line.as_bytes(), encoding, column);
    Skipped {
        bytes: boundary_from(line, passed.bytes),
        left: passed.left,
    }
}

/// The end of the character inside which a place lies, or the place itself.
fn boundary_from(line: &str, place: usize) -> usize
    ensures { (enc : encodings.Encoding) (column left : ℕ) → enc ≢ Encoding.Utf8
        → IsPassed enc line.now column place left → IsSkipped enc line.now column result left }
{
    let bytes = line.as_bytes();
    let mut at = place;
    while at < bytes.len() && is_continuation(bytes[at]) {
        at += 1;
    }
    at
}

/// Whole blocks before a column.
fn pass_blocks(bytes: &[u8], encoding: Encoding, column: u32) -> Skipped
    ensures { IsPassed encoding bytes.now column result.bytes result.left }
{
    let passed = pass_pairs(bytes, encoding, column);
    let mut at = passed.bytes;
    let mut left = passed.left;
    while at + 32 <= bytes.len() {
        let width = units_in(u8x32::from_slice(&bytes[at..]), encoding);
        if left < width {
            break;
        }
        left -= width;
        at += 32;
    }
    Skipped { bytes: at, left }
}

/// Whole pairs of blocks before a column.
fn pass_pairs(bytes: &[u8], encoding: Encoding, column: u32) -> Skipped
    ensures { IsPassed encoding bytes.now column result.bytes result.left }
{
    let mut at = 0;
    let mut left = column;
    while at + 64 <= bytes.len() {
        let first = u8x32::from_slice(&bytes[at..]);
        let second = u8x32::from_slice(&bytes[at + 32..]);
        let width = units_in_both(first, second, encoding);
        if left < width {
            break;
        }
        left -= width;
        at += 64;
    }
    Skipped { bytes: at, left }
}

/// The units of a character.
pub(crate) fn units_of(c: char, encoding: Encoding) -> u32
    ensures { result ≡ units_of_char encoding c }
{
    match encoding {
        Encoding::Utf8 => c.len_utf8() as u32,
        Encoding::Utf16 => c.len_utf16() as u32,
        Encoding::Utf32 => 1,
    }
}

/// The bytes of a text before a column, character by character.
fn offset_by_chars(text: &str, encoding: Encoding, column: u32) -> Option<usize>
    ensures { MatchOption result (place_in_line encoding (chars text.now) column ≡ None)
        (IsOffset encoding text.now column) }
{
    let mut left = column;
    let mut offset = 0;
    for c in text.chars() {
        if left == 0 {
            return Some(offset);
        }
        let width = units_of(c, encoding);
        if left < width {
            return None;
        }
        left -= width;
        offset += c.len_utf8();
    }
    Some(offset)
}
