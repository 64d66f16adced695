//! What of a change does not fit the text that it is made in: no rule refuses it.

ghost use Rattle.std.specs.Prelude.{◌≡◌};
ghost use Rattle.std.specs.Option.{option_or};
ghost use Rattle.std.specs.Str.{chars};
ghost use Rattle.lsp_text.specs.Findings as spec;
ghost use Rattle.lsp_text.specs.Findings.{extent_of, text_extent, past_by, past_of, length_of};
ghost use Rattle.lsp_text.specs.Findings.{nothing, noted};

use crate::plain::count_lines;
use crate::reading::{line_at, width_of};
use lsp_types::{Encoding, Position, Span};

/// How far a text goes, where a position lies past its end.
#[derive(Clone, Copy, Debug, PartialEq, Eq)]
pub enum Extent {
    /// It has so many lines, and the position's is not one of them.
    Lines(u64),
    /// The position's line has so many units of the encoding, fewer than the column.
    Units(u64),
}

/// How a position fits a text.
#[derive(Clone, Copy, Debug, PartialEq, Eq)]
pub enum Fit {
    /// It is a place of the text.
    Within,
    /// It lies past the end: it denotes the end of its line, or of the text.
    Past(Extent),
    /// It lies inside a character, and denotes no place.
    Nowhere,
}

/// A position past the end of a text.
#[derive(Clone, Copy, Debug, PartialEq, Eq)]
pub struct PastEnd {
    pub position: Position,
    pub extent: Extent,
}

/// A range's length, which is not negative and not that of the text in the range, and how long that
/// is in each encoding.
#[derive(Clone, Copy, Debug, PartialEq, Eq)]
pub struct OtherLength {
    pub sent: i32,
    pub utf8: u64,
    pub utf16: u64,
    pub utf32: u64,
}

/// What changes found first: a position past the end, and a range's length that is not that of the
/// text in the range.
#[derive(Clone, Copy, Debug, PartialEq, Eq)]
pub struct Findings {
    pub past_end: Option<PastEnd>,
    pub range_length: Option<OtherLength>,
}

impl Findings {
    /// Nothing was found.
    pub fn none() -> Findings
        ensures { result ≡ nothing }
    {
        Findings {
            past_end: None,
            range_length: None,
        }
    }

    /// Takes what a later change found where nothing was found before.
    #[inline(always)]
    pub fn note(&mut self, more: Findings)
        ensures { self.new ≡ noted self.old more }
    {
        if more.past_end.is_some() || more.range_length.is_some() {
            self.add(more);
        }
    }

    #[cold]
    #[inline(never)]
    fn add(&mut self, more: Findings)
        ensures { self.new ≡ noted self.old more }
    {
        self.past_end = self.past_end.or(more.past_end);
        self.range_length = self.range_length.or(more.range_length);
    }
}

/// How a position fits that denotes a place of a text, which goes so far where it lies past the
/// end.
pub fn fit_by(extent: Option<Extent>) -> Fit
    ensures { result ≡ spec.fit_by extent }
{
    match extent {
        Some(extent) => Fit::Past(extent),
        None => Fit::Within,
    }
}

/// How far a line of this many units goes, where a column is greater.
#[inline(always)]
pub fn extent_past(width: u64, column: u32) -> Option<Extent>
    ensures { result ≡ extent_of width column }
{
    if width < column as u64 {
        Some(Extent::Units(width))
    } else {
        None
    }
}

/// The first position of a span that lies past the end, where these are how far the text goes.
#[inline(always)]
pub fn past_end_of(span: Span, first: Option<Extent>, second: Option<Extent>) -> Option<PastEnd>
    ensures { result ≡ option_or (past_by span.first first) (past_by span.second second) }
{
    if let Some(extent) = first {
        let position = span.first;
        return Some(PastEnd { position, extent });
    }
    if let Some(extent) = second {
        let position = span.second;
        return Some(PastEnd { position, extent });
    }
    None
}

/// Whether this is the number of a text's units, or no length at all: a negative one is no
/// `uinteger`.
#[inline(always)]
pub fn is_no_other(sent: i32, width: u64) -> bool
    ensures { result ≡ spec.is_no_other sent width }
{
    sent < 0 || u64::from(sent.cast_unsigned()) == width
}

/// What the replacement of a span finds in a text, of which this is the text in the span.
pub(crate) fn found_in_text(
    text: &str,
    range: &str,
    encoding: Encoding,
    span: Span,
    sent: Option<i32>,
) -> Findings
    ensures past { result.past_end ≡ past_of encoding (chars text.now) span }
    ensures length { result.range_length ≡ length_of encoding (chars range.now) sent }
{
    let first = extent_in_text(text, encoding, span.first);
    let second = extent_in_text(text, encoding, span.second);
    Findings {
        past_end: past_end_of(span, first, second),
        range_length: length_other_than(range, encoding, sent),
    }
}

/// How far a text goes, where a position lies past its end.
fn extent_in_text(text: &str, encoding: Encoding, position: Position) -> Option<Extent>
    ensures { result ≡ text_extent encoding (chars text.now) position }
{
    let Some(line) = line_at(text, position.line) else {
        return Some(Extent::Lines(count_lines(text)));
    };
    extent_past(width_of(line, encoding), position.column)
}

/// The length that is sent, where it is not that of a text.
fn length_other_than(text: &str, encoding: Encoding, sent: Option<i32>) -> Option<OtherLength>
    ensures { result ≡ length_of encoding (chars text.now) sent }
{
    let sent = sent?;
    if is_no_other(sent, width_of(text, encoding)) {
        return None;
    }
    Some(OtherLength {
        sent,
        utf8: width_of(text, Encoding::Utf8),
        utf16: width_of(text, Encoding::Utf16),
        utf32: width_of(text, Encoding::Utf32),
    })
}
