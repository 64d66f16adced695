//! What is read of a text by itself: a line by its number, the units of a text, the character
//! inside which a position lies, and the bytes that a change would lead to.

ghost use Rattle.std.specs.Prelude.{◌≡◌, true, Some, option_map, slice_get, is_some, MatchOption};
ghost use Rattle.std.specs.Str.{chars};
ghost use Rattle.lsp_text.specs.Lines.{lines_of};
ghost use Rattle.lsp_text.specs.Places.{units, place_in_line, place_of};
ghost use Rattle.lsp_text.specs.InsideCharacter.{FallsInside, LiesInside};
ghost use Rattle.lsp_text.specs.Sizes.{IsSizeWith, IsNeverMade};

use crate::columns::units_of;
use crate::counts::measure;
use crate::cut::FirstLine;
use crate::plain::offset_of;
use lsp_types::{Encoding, Position, Span};

/// The line of this number, from 0, without its line end, or `None` where the text has no such line
/// (LSP 3.17, "Text Documents").
pub fn line_at(text: &str, number: u32) -> Option<&str>
    ensures { option_map (λ line. chars line.now) result
        ≡ option_map (λ line. line.text) (slice_get (lines_of (chars text.now)) number) }
{
    let mut rest = text;
    for i in 0..number {
        let Some(line) = FirstLine::of(rest) else {
            return None;
        };
        rest = line.rest;
    }
    match FirstLine::of(rest) {
        None => Some(rest),
        Some(line) => Some(line.text),
    }
}

/// The units of a text (LSP 3.17, "PositionEncodingKind").
pub fn width_of(text: &str, encoding: Encoding) -> u64
    ensures { result ≡ units encoding (chars text.now) }
{
    match encoding {
        Encoding::Utf8 => text.len() as u64,
        Encoding::Utf16 => measure(text).utf16,
        Encoding::Utf32 => measure(text).chars,
    }
}

/// The character inside which a position lies, or `None` where the position denotes a place: at an
/// edge of a character, past the end of its line, or past the last line.
pub fn char_inside(text: &str, encoding: Encoding, position: Position) -> Option<char>
    ensures { MatchOption result (is_some (place_of encoding (chars text.now) position) ≡ true)
        (LiesInside encoding (chars text.now) position) }
{
    let Some(line) = line_at(text, position.line) else {
        return None;
    };
    char_in_line(line, encoding, position.column)
}

/// The same in a line.
fn char_in_line(line: &str, encoding: Encoding, column: u32) -> Option<char>
    ensures { MatchOption result (is_some (place_in_line encoding (chars line.now) column) ≡ true)
        (FallsInside encoding (chars line.now) column) }
{
    let mut left = column;
    for c in line.chars() {
        if left == 0 {
            return None;
        }
        let width = units_of(c, encoding);
        if left < width {
            return Some(c);
        }
        left -= width;
    }
    None
}

/// The bytes of UTF-8 that a text would have with a change: with an insertion in place of a
/// span, or of the whole text where there is none. `None` where no limit lets the change be made: a
/// position lies inside a character, or the span is reversed.
pub fn size_with(text: &str, encoding: Encoding, span: Option<Span>, insertion: &str) -> Option<u64>
    ensures { MatchOption result (IsNeverMade encoding (chars text.now) span (chars insertion.now))
        (IsSizeWith encoding (chars text.now) span (chars insertion.now)) }
{
    match span {
        Some(span) => size_between(text, encoding, span, insertion),
        None => Some(insertion.len() as u64),
    }
}

/// The same with an insertion in place of a span.
fn size_between(text: &str, encoding: Encoding, span: Span, insertion: &str) -> Option<u64>
    ensures { MatchOption result
        (IsNeverMade encoding (chars text.now) (Some span) (chars insertion.now))
        (IsSizeWith encoding (chars text.now) (Some span) (chars insertion.now)) }
{
    let first = offset_of(text, encoding, span.first)?;
    let second = offset_of(text, encoding, span.second)?;
    if second < first {
        return None;
    }
    Some((first + insertion.len() + (text.len() - second)) as u64)
}
