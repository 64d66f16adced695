//! The text of strings, with what their escapes write (RFC 8259, section 7).
ghost use Rattle.std.specs.Prelude.{◌≡◌, ℕ, List, ◌+◌, ◌-◌, ◌<◌, ◌≤◌, ◌++◌, length, take, drop};
ghost use Rattle.std.specs.Prelude.{get_or, true, None, Some, IfSome, map, string_bytes};
ghost use Rattle.std.specs.Char.{digit_value, encode_utf8};
ghost use Rattle.std.specs.List.{prefix_len};
ghost use Rattle.std.specs.Simd.Lanes.{mask_l, chunk};
ghost use Rattle.std.specs.Str.{IsUtf8, IsCharBoundary};
ghost use Rattle.json.specs.Run.{is_plain, is_stop, Escape};
ghost use Rattle.json.specs.Text.{code_unit, short_escape, after_backslash, after_u, after_high};
ghost use Rattle.json.specs.Lex.{lex, in_string, in_escape};
ghost use Rattle.lsp_walk.specs.Texts.{IsPart, WritesPart, one_byte};
ghost use Rattle.lsp_walk.specs.Walk.{IsText};

use crate::bytes::byte_at;
use crate::runs::{Run, run_end};
use std::alloc::Global;
use std::simd::prelude::*;

/// How many bytes are tested and copied together, as long as two such blocks fit.
const BLOCK: usize = 64;

/// How many bytes of a text are written before they are put behind the copy.
const ROOM: usize = 1024;

/// A bit for each of these bytes: whether it ends a run of those that stand for themselves in a
/// string.
#[inline(always)]
fn stops<const N: usize>(block: Simd<u8, N>) -> u64
    requires { (length block ≡ N) × (N ≤ 64) }
    ensures { result ≡ mask_l (map is_stop block.entry) }
{
    (block.simd_eq(Simd::splat(b'"'))
        | block.simd_eq(Simd::splat(b'\\'))
        | block.simd_lt(Simd::splat(0x20))).to_bitmask()
}

/// What does not stand for itself in a string ends a run of what does.
struct Plain;

impl Run for Plain {
    ghost is_stop = { is_stop };

    #[inline(always)]
    fn is_stop(byte: u8) -> bool {
        byte == b'"' || byte == b'\\' || byte < 0x20
    }

    #[inline(always)]
    fn stops(block: u8x16) -> u64 {
        stops(block)
    }
}

/// Where the bytes end that stand for themselves in a string.
#[inline(always)]
fn plain_end(bytes: &[u8], from: usize) -> usize
    requires { from ≤ length bytes.now }
    ensures value { result ≡ from + prefix_len is_plain (drop from bytes.now) }
    ensures within { result ≤ length bytes.now }
{
    run_end::<Plain>(bytes, from)
}

/// The value of a hex digit, or 36.
fn digit(byte: u8) -> u32
    ensures value { result ≡ digit_value byte }
    ensures ascii { result < 16 → byte < 128 }
    ensures plain { result < 16 → is_plain byte ≡ true }
{
    match byte {
        b'0'..=b'9' => (byte - b'0') as u32,
        b'A'..=b'Z' => (byte - b'A') as u32 + 10,
        b'a'..=b'z' => (byte - b'a') as u32 + 10,
        _ => 36,
    }
}

/// What four hex digits write.
fn code_unit_at(bytes: &[u8], at: usize) -> Option<u32>
    requires { at + 4 ≤ length bytes.now }
    ensures value { result ≡ code_unit (get_or bytes.now at 0) (get_or bytes.now (at + 1) 0)
        (get_or bytes.now (at + 2) 0) (get_or bytes.now (at + 3) 0) }
    ensures bounds { IfSome result (λ u. (u < 65536) × (get_or bytes.now (at + 3) 0 < 128)) }
    ensures passed { IfSome result (λ _.
        lex in_string (drop at bytes.now) ≡ lex in_string (drop (at + 4) bytes.now)) }
{
    let (a, b, c, d) = (
        digit(bytes[at]),
        digit(bytes[at + 1]),
        digit(bytes[at + 2]),
        digit(bytes[at + 3]),
    );
    if (a < 16) & (b < 16) & (c < 16) & (d < 16) {
        Some(a * 4096 + b * 256 + c * 16 + d)
    } else {
        None
    }
}

/// What a backslash and each byte write, where they write one byte, and else 0.
#[rattlefmt::skip]
static SHORT_ESCAPES: [u8; 256] = [
    0, 0, 0, 0, 0, 0, 0, 0, 0, 0, 0, 0, 0, 0, 0, 0,
    0, 0, 0, 0, 0, 0, 0, 0, 0, 0, 0, 0, 0, 0, 0, 0,
    0, 0, 34, 0, 0, 0, 0, 0, 0, 0, 0, 0, 0, 0, 0, 47,
    0, 0, 0, 0, 0, 0, 0, 0, 0, 0, 0, 0, 0, 0, 0, 0,
    0, 0, 0, 0, 0, 0, 0, 0, 0, 0, 0, 0, 0, 0, 0, 0,
    0, 0, 0, 0, 0, 0, 0, 0, 0, 0, 0, 0, 92, 0, 0, 0,
    0, 0, 8, 0, 0, 0, 12, 0, 0, 0, 0, 0, 0, 0, 10, 0,
    0, 0, 13, 0, 9, 0, 0, 0, 0, 0, 0, 0, 0, 0, 0, 0,
    0, 0, 0, 0, 0, 0, 0, 0, 0, 0, 0, 0, 0, 0, 0, 0,
    0, 0, 0, 0, 0, 0, 0, 0, 0, 0, 0, 0, 0, 0, 0, 0,
    0, 0, 0, 0, 0, 0, 0, 0, 0, 0, 0, 0, 0, 0, 0, 0,
    0, 0, 0, 0, 0, 0, 0, 0, 0, 0, 0, 0, 0, 0, 0, 0,
    0, 0, 0, 0, 0, 0, 0, 0, 0, 0, 0, 0, 0, 0, 0, 0,
    0, 0, 0, 0, 0, 0, 0, 0, 0, 0, 0, 0, 0, 0, 0, 0,
    0, 0, 0, 0, 0, 0, 0, 0, 0, 0, 0, 0, 0, 0, 0, 0,
    0, 0, 0, 0, 0, 0, 0, 0, 0, 0, 0, 0, 0, 0, 0, 0,
];

/// What a backslash and this byte write, where they write one byte, and else 0.
#[inline(always)]
fn short_escape(byte: u8) -> u8
    ensures { result ≡ one_byte (short_escape byte) }
{
    SHORT_ESCAPES[byte as usize]
}

/// The second half of a surrogate pair.
fn low_half(bytes: &[u8], at: usize, high: u32) -> Option<(char, usize)>
    requires { (at ≤ length bytes.now) × (0xd800 ≤ high) × (high < 0xdc00) }
    ensures value { Escape bytes.now (after_high high) at result }
    ensures passed { IfSome result (λ r.
        lex in_string (drop at bytes.now) ≡ lex in_string (drop r.1 bytes.now)) }
{
    if bytes.len() - at < 6 || !((bytes[at] == b'\\') & (bytes[at + 1] == b'u')) {
        return None;
    }
    let low = code_unit_at(bytes, at + 2)?;
    if !((0xdc00 <= low) & (low < 0xe000)) {
        return None;
    }
    let c = char::from_u32(0x10000 + (high - 0xd800) * 1024 + (low - 0xdc00))?;
    Some((c, at + 6))
}

/// What follows `\u`: its character, and where the text continues.
fn unicode(bytes: &[u8], at: usize) -> Option<(char, usize)>
    requires { at ≤ length bytes.now }
    ensures value { Escape bytes.now after_u at result }
    ensures passed { IfSome result (λ r.
        lex in_string (drop at bytes.now) ≡ lex in_string (drop r.1 bytes.now)) }
{
    if bytes.len() - at < 4 {
        return None;
    }
    let unit = code_unit_at(bytes, at)?;
    if (0xd800 <= unit) & (unit < 0xdc00) {
        return low_half(bytes, at + 4, unit);
    }
    let c = char::from_u32(unit)?;
    Some((c, at + 4))
}

/// What follows a backslash: its character, and where the text continues.
fn escape(bytes: &[u8], at: usize) -> Option<(char, usize)>
    requires { at ≤ length bytes.now }
    ensures value { Escape bytes.now after_backslash at result }
    ensures passed { IfSome result (λ r.
        lex in_escape (drop at bytes.now) ≡ lex in_string (drop r.1 bytes.now)) }
{
    if at == bytes.len() {
        return None;
    }
    if bytes[at] == b'u' {
        return unicode(bytes, at + 1);
    }
    let c = short_escape(bytes[at]);
    if c == 0 {
        return None;
    }
    Some((c as char, at + 1))
}

/// Where the text of a string ends that begins there, past its closing quote.
#[inline(always)]
pub(crate) fn text_end(bytes: &[u8], from: usize) -> Option<usize>
    requires { from ≤ length bytes.now }
    ensures { IfSome result (λ end. (s : List ℕ) × IsText bytes.now from end s) }
{
    let mut at = from;
    'runs: loop {
        let stop = plain_end(bytes, at);
        let mark = byte_at(bytes, stop);
        if mark == b'"' {
            return Some(stop + 1);
        }
        if mark != b'\\' {
            return None;
        }
        let (_, next) = escape(bytes, stop + 1)?;
        at = next;
    }
}

/// The text of a string that begins there, where it has no escape, and where it ends, past its
/// closing quote.
#[inline(always)]
pub(crate) fn plain_text(text: &str, from: usize) -> Option<(&str, usize)>
    requires { IsCharBoundary text.now from }
    ensures { IfSome result (λ r. IsText text.now from r.1 r.0.now) }
{
    let bytes = text.as_bytes();
    let stop = plain_end(bytes, from);
    if byte_at(bytes, stop) != b'"' {
        return None;
    }
    Some((&text[from..stop], stop + 1))
}

/// Writes a character behind the first bytes of the room, and gives how many there are then.
#[inline(always)]
fn write_char(room: &mut [u8], len: usize, c: char) -> usize
    requires { len + 4 ≤ length room.old }
    ensures written { take result room.new ≡ take len room.old ++ encode_utf8 c }
    ensures utf8 { IsUtf8 (encode_utf8 c) }
    ensures within { result ≤ length room.new }
    ensures len { length room.new ≡ length room.old }
{
    let mut utf8 = [0; 4];
    let bytes = c.encode_utf8(&mut utf8).as_bytes();
    let end = len + bytes.len();
    room[len..end].copy_from_slice(bytes);
    end
}

/// Writes what the escape there writes behind the first bytes of the room: where the text
/// continues, and how many bytes there are then.
#[inline(never)]
fn write_escape(room: &mut [u8], len: usize, bytes: &[u8], at: usize) -> Option<(usize, usize)>
    requires room { len + 4 ≤ length room.old }
    requires mark { (at < length bytes.now) × (get_or bytes.now at 0 ≡ 92) }
    ensures part { IfSome result (λ r. WritesPart bytes.now at r.0 room.old len room.new r.1) }
    ensures forward { IfSome result (λ r. at < r.0) }
    ensures len { length room.new ≡ length room.old }
{
    let (c, next) = escape(bytes, at + 1)?;
    let end = write_char(room, len, c);
    Some((next, end))
}

/// Copies the 64 bytes there behind the first ones of the room, plain or not.
#[inline(always)]
fn copy_block(room: &mut [u8], len: usize, bytes: &[u8], at: usize)
    requires { (len + BLOCK ≤ length room.old) × (at + BLOCK ≤ length bytes.now) }
    ensures written { take (len + BLOCK) room.new
        ≡ take len room.old ++ chunk at BLOCK bytes.now }
    ensures len { length room.new ≡ length room.old }
{
    u8x64::from_slice(&bytes[at..]).copy_to_slice(&mut room[len..]);
}

/// Writes what the 64 bytes there stand for behind the first bytes of the room, and gives where the
/// text continues and how many bytes the room then holds. An escape that begins among the 64 is
/// written whole. It stops early after a `\u` escape and before a byte that is not part of the
/// text.
///
/// The 64 bytes are tested once: `stops` has a bit for each that ends a run of plain ones. A run is
/// copied before it is known where it ends, with all of the 64 bytes that begin there, and what is
/// written next overwrites those behind its end. After an escape the bits are shifted, so that the
/// first again stands for the byte at `at`.
#[inline(always)]
fn write_block(room: &mut [u8], len: usize, bytes: &[u8], at: usize) -> Option<(usize, usize)>
    requires room { len + 128 ≤ length room.old }
    requires more { at + 128 < length bytes.now }
    ensures part { IfSome result (λ r. WritesPart bytes.now at r.0 room.old len room.new r.1) }
    ensures len { length room.new ≡ length room.old }
{
    let end = at + BLOCK;
    let mut stops = stops(u8x64::from_slice(&bytes[at..]));
    copy_block(room, len, bytes, at);
    let mut at = at;
    let mut len = len;
    while stops != 0 {
        let plain = stops.trailing_zeros() as usize;
        at += plain;
        len += plain;
        if bytes[at] != b'\\' {
            return Some((at, len));
        }
        let escaped = short_escape(bytes[at + 1]);
        if escaped == 0 {
            return write_escape(room, len, bytes, at);
        }
        room[len] = escaped;
        at += 2;
        len += 1;
        // Two shifts, since `plain + 2` may exceed 63.
        stops = (stops >> plain) >> 2;
        copy_block(room, len, bytes, at);
    }
    if at < end {
        len += end - at;
        at = end;
    }
    Some((at, len))
}

/// Writes the text that is there into the room, as far as two blocks fit on both sides: where it
/// continues, and how many bytes were written.
#[inline(never)]
fn write_blocks(room: &mut [u8], bytes: &[u8], from: usize) -> Option<(usize, usize)>
    requires { from ≤ length bytes.now }
    ensures part { IfSome result (λ r. IsPart bytes.now from r.0 (take r.1 room.new)) }
    ensures within { IfSome result (λ r. r.1 ≤ length room.new) }
    ensures len { length room.new ≡ length room.old }
{
    let mut at = from;
    let mut len = 0;
    'blocks: while bytes.len() - at > 2 * BLOCK && room.len() - len >= 2 * BLOCK {
        let (next, end) = write_block(room, len, bytes, at)?;
        if next == at {
            break;
        }
        at = next;
        len = end;
    }
    Some((at, len))
}

/// Puts these bytes behind the copy, whose size is doubled until they fit.
#[inline(always)]
fn extend(copy: &mut Vec<u8>, more: &[u8]) -> Option<()>
    ensures { IfSome result (λ _. copy.new.items ≡ copy.old.items ++ more.now) }
{
    // A size of just what is needed would be about that of the content, whatever the text, and the
    // C library gives back memory of two such sizes at once, only to ask for it again.
    let len = copy.len() + more.len();
    let mut size = copy.capacity().max(1);
    'doubled: while size < len {
        size = size.saturating_mul(2);
    }
    copy.reserve(size - copy.len()).ok()?;
    copy.extend_from_slice(more).ok()
}

/// Puts the text that is there behind the copy, as far as blocks fit, and gives where it continues.
#[inline(never)]
fn copy_rooms(bytes: &[u8], from: usize, copy: &mut Vec<u8>) -> Option<usize>
    requires { from ≤ length bytes.now }
    ensures part { IfSome result (λ next. (start : ℕ)
        → IsPart bytes.now start from copy.old.items
        → IsPart bytes.now start next copy.new.items) }
    ensures bounds { IfSome result (λ next. (from ≤ next) × (next ≤ length bytes.now)) }
{
    let mut room = [0; ROOM];
    let mut at = from;
    'rooms: loop {
        let (next, end) = write_blocks(&mut room, bytes, at)?;
        extend(copy, &room[..end])?;
        // The room was not filled: the text ends there, or no block fits behind it.
        if next - at < ROOM / 2 {
            return Some(next);
        }
        at = next;
    }
}

/// The same, but only behind a longer copy: a room is filled with zeros first, and most texts with
/// an escape are a line feed and some spaces.
#[inline(always)]
fn copy_blocks(bytes: &[u8], from: usize, copy: &mut Vec<u8>) -> Option<usize>
    requires { from ≤ length bytes.now }
    ensures part { IfSome result (λ next. (start : ℕ)
        → IsPart bytes.now start from copy.old.items
        → IsPart bytes.now start next copy.new.items) }
    ensures bounds { IfSome result (λ next. (from ≤ next) × (next ≤ length bytes.now)) }
{
    if copy.len() < BLOCK / 2 || bytes.len() - from <= 2 * BLOCK {
        return Some(from);
    }
    copy_rooms(bytes, from, copy)
}

/// Puts the text that is there behind the copy, up to a byte that does not stand for itself, and
/// gives where that is.
#[inline(always)]
fn copy_part(bytes: &[u8], from: usize, copy: &mut Vec<u8>) -> Option<usize>
    requires { from ≤ length bytes.now }
    ensures part { IfSome result (λ next. (start : ℕ)
        → IsPart bytes.now start from copy.old.items
        → IsPart bytes.now start next copy.new.items) }
    ensures bounds { IfSome result (λ next. (from ≤ next) × (next ≤ length bytes.now)) }
{
    let at = copy_blocks(bytes, from, copy)?;
    let stop = plain_end(bytes, at);
    copy.extend_from_slice(&bytes[at..stop]).ok()?;
    Some(stop)
}

/// Puts a character behind the copy.
#[inline(always)]
fn push_char(copy: &mut Vec<u8>, c: char) -> Option<()>
    ensures written { IfSome result (λ _. copy.new.items ≡ copy.old.items ++ encode_utf8 c) }
    ensures utf8 { IsUtf8 (encode_utf8 c) }
{
    if (c as u32) < 0x80 {
        return copy.push(c as u8).ok();
    }
    let mut utf8 = [0; 4];
    copy.extend_from_slice(c.encode_utf8(&mut utf8).as_bytes())
        .ok()
}

/// The text of a string that begins there, its escapes read, and where it ends, past its closing
/// quote. Its first bytes stand for themselves, up to `stop`.
#[inline(never)]
fn unescaped(alloc: Global, text: &str, from: usize, stop: usize) -> Option<(String, usize)>
    requires boundary { IsCharBoundary text.now from }
    requires front { stop ≡ from + prefix_len is_plain (drop from text.now) }
    requires within { stop ≤ length text.now }
    ensures { IfSome result (λ r. IsText text.now from r.1 (string_bytes r.0)) }
{
    let bytes = text.as_bytes();
    let mut copy = Vec::new(alloc);
    copy.extend_from_slice(&bytes[from..stop]).ok()?;
    let mut at = stop;
    'runs: loop {
        let mark = byte_at(bytes, at);
        if mark == b'"' {
            return Some((unsafe { String::from_utf8_unchecked(copy) }, at + 1));
        }
        if mark != b'\\' {
            return None;
        }
        let (c, next) = escape(bytes, at + 1)?;
        push_char(&mut copy, c)?;
        at = copy_part(bytes, next, &mut copy)?;
    }
}

/// The text of a string that begins there, copied, and where it ends, past its closing quote. Most
/// have no escape, and are copied at once.
#[inline(never)]
pub(crate) fn text_copy(alloc: Global, text: &str, from: usize) -> Option<(String, usize)>
    requires { IsCharBoundary text.now from }
    ensures { IfSome result (λ r. IsText text.now from r.1 (string_bytes r.0)) }
{
    let bytes = text.as_bytes();
    let stop = plain_end(bytes, from);
    if byte_at(bytes, stop) == b'"' {
        let copy = String::from_str(alloc, &text[from..stop]).ok()?;
        return Some((copy, stop + 1));
    }
    unescaped(alloc, text, from, stop)
}
