//! The place at which two texts first differ.

ghost use Rattle.std.specs.Prelude.{◌≡◌, ◌+◌, ◌-◌, ◌^◌, ◌≤◌, ◌↔◌, Some, length, take, drop, min};
ghost use Rattle.std.specs.Prelude.{IsTrue, IfNone, IfSome, MatchOption};
ghost use Rattle.std.specs.Str.{chars, IsCharBoundary};
ghost use Rattle.lsp_text.specs.Lines.{spelled, line_at};
ghost use Rattle.lsp_text.specs.Difference.{IsFirstDifference, DifferFirst, line_around};
ghost use Rattle.lsp_text.specs.Difference.{line_before_place, position_at};
ghost use Rattle.lsp_text.specs.Parting.{AreSameTo, IsParting, IsInsideEnd, IsSearchEnd};
ghost use Rattle.lsp_text.specs.Parting.{IsLineStart};

use crate::cut::FirstLine;
use crate::plain::count_lines;
use crate::reading::width_of;
use crate::stretches::same_stretches;
use lsp_types::{Encoding, Position};
use memchr::memrchr2;

/// Where a held text and another one first differ: at the first character that is not the same in
/// both, or where one of them ends and the other continues. The characters before that place are
/// the same.
#[derive(Clone, Copy, Debug, PartialEq, Eq)]
pub struct Difference<'a, 'b> {
    /// The place in the held text. The column counts units of the encoding. Where the place lies
    /// between a CR and an LF, these end the place's line together, and the column counts the CR,
    /// as one unit. A number above 2^32 - 1 is given as that one.
    pub at: Position,
    /// The line of the held text in which the place lies, its line end included. The end of a text
    /// lies in the last line, which is empty after a line end.
    pub held: &'a str,
    /// The characters of that line before the place.
    pub held_front: &'a str,
    /// The same of the other text. Its number differs where the place lies between a CR and an LF
    /// in one of the texts, and so after a CR that ends a line by itself in the other.
    pub other: &'b str,
    /// The characters of that line before the place. There are none where the held text has an LF
    /// at the place, behind a CR that is the same in both.
    pub other_front: &'b str,
}

/// Where a held text and another one first differ, or `None` where they are equal. It goes once
/// over the bytes that are the same, once more to count the lines that end there, and over one line
/// of each text.
pub fn first_difference<'a, 'b>(
    held: &'a str,
    other: &'b str,
    encoding: Encoding,
) -> Option<Difference<'a, 'b>>
    ensures equal { IfNone result (chars held.now ≡ chars other.now) }
    ensures at { IfSome result
        (λ d. DifferFirst (chars held.now) (chars other.now)
        (λ n. d.at ≡ position_at encoding (chars held.now) n)) }
    ensures held { IfSome result
        (λ d. DifferFirst (chars held.now) (chars other.now)
        (λ n. chars d.held.now ≡ line_around (chars held.now) n)) }
    ensures held_front { IfSome result
        (λ d. DifferFirst (chars held.now) (chars other.now)
        (λ n. chars d.held_front.now ≡ line_before_place (chars held.now) n)) }
    ensures other { IfSome result
        (λ d. DifferFirst (chars held.now) (chars other.now)
        (λ n. chars d.other.now ≡ line_around (chars other.now) n)) }
    ensures other_front { IfSome result
        (λ d. DifferFirst (chars held.now) (chars other.now)
        (λ n. chars d.other_front.now ≡ line_before_place (chars other.now) n)) }
{
    let offset = parting(held, other)?;
    Some(Difference {
        at: position_of(held, offset, encoding),
        held: line_of(held, offset),
        held_front: front_of(held, offset),
        other: line_of(other, offset),
        other_front: front_of(other, offset),
    })
}

/// The bytes before the first character at which two texts differ.
pub fn parting(held: &str, other: &str) -> Option<usize>
    ensures { MatchOption result (chars held.now ≡ chars other.now) (IsParting held.now other.now) }
{
    let at = differing_byte(held.as_bytes(), other.as_bytes())?;
    Some(held.floor_char_boundary(at))
}

/// The first byte at which two slices differ.
fn differing_byte(a: &[u8], b: &[u8]) -> Option<usize>
    ensures { MatchOption result (a.now ≡ b.now) (IsFirstDifference a.now b.now) }
{
    let both = a.len().min(b.len());
    let mut at = same_stretches(a, b);
    while at < both && a[at] == b[at] {
        at += 1;
    }
    if at == both && a.len() == b.len() {
        None
    } else {
        Some(at)
    }
}

/// Where the place after this many bytes lies, in lines and in units of the encoding.
fn position_of(text: &str, offset: usize, encoding: Encoding) -> Position
    requires { IsCharBoundary text.now offset }
    ensures { result ≡ position_at encoding (chars text.now)
        (length (chars (take offset text.now))) }
{
    let (lines, _) = text.split_at(line_start(text, offset));
    Position {
        line: capped(count_lines(lines) - 1),
        column: capped(width_of(front_of(text, offset), encoding)),
    }
}

/// The characters of its line before the place after this many bytes.
fn front_of(text: &str, offset: usize) -> &str
    requires { IsCharBoundary text.now offset }
    ensures { chars result.now
        ≡ line_before_place (chars text.now) (length (chars (take offset text.now))) }
{
    let start = line_start(text, offset);
    let (_, line) = text.split_at(start);
    let (front, _) = line.split_at(offset - start);
    front
}

/// A number of 32 bits, or the greatest of these.
fn capped(n: u64) -> u32
    ensures { result ≡ min n (2 ^ 32 - 1) }
{
    n.min(u32::MAX as u64) as u32
}

/// The line in which the place after this many bytes lies, with its line end.
fn line_of(text: &str, offset: usize) -> &str
    requires { IsCharBoundary text.now offset }
    ensures { chars result.now
        ≡ line_around (chars text.now) (length (chars (take offset text.now))) }
{
    let (_, line) = text.split_at(line_start(text, offset));
    first_line(line)
}

/// The first line of a text, with its line end.
fn first_line(text: &str) -> &str
    ensures { chars result.now ≡ spelled (line_at 0 (chars text.now)) }
{
    let Some(line) = FirstLine::of(text) else {
        return text;
    };
    let (whole, _) = text.split_at(line.text.len() + line.end.len());
    whole
}

/// The bytes before the line in which the place after this many bytes lies.
fn line_start(text: &str, offset: usize) -> usize
    requires { IsCharBoundary text.now offset }
    ensures { IsLineStart text.now offset result }
{
    let bytes = text.as_bytes();
    match memrchr2(b'\r', b'\n', &bytes[..search_end(bytes, offset)]) {
        None => 0,
        Some(last) => last + 1,
    }
}

/// The bytes before a place in which a line end is looked for: not its own CR where it lies before
/// an LF.
fn search_end(bytes: &[u8], offset: usize) -> usize
    requires { offset ≤ length bytes.now }
    ensures { IsSearchEnd bytes.now offset result }
{
    if is_inside_end(bytes, offset) {
        offset - 1
    } else {
        offset
    }
}

/// Whether a place lies between a CR and an LF.
fn is_inside_end(bytes: &[u8], offset: usize) -> bool
    ensures { IsTrue result ↔ IsInsideEnd bytes.now offset }
{
    0 < offset && offset < bytes.len() && bytes[offset - 1] == b'\r' && bytes[offset] == b'\n'
}
