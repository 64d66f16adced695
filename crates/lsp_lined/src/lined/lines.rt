//! The lines of a text, and the count of the bytes lent from them.

ghost use Rattle.std.specs.Prelude.{◌≡◌, ◌+◌, ◌<◌, ◌-◌, ◌↔◌, None, length, take, drop};
ghost use Rattle.std.specs.Prelude.{MatchOption, IfOk, OnOk, OnErr, IsTrue};
ghost use Rattle.std.specs.List.{replace_range};
ghost use Rattle.std.specs.Str.{chars, IsUtf8, IsCharBoundary};
ghost use Rattle.std.specs.String.{string_bytes};
ghost use Rattle.lsp_types.specs.declared.line_ends.LineEnds.TheVariants.{Ignored};
ghost use Rattle.lsp_text.specs.Lines.{lines_of};
ghost use Rattle.lsp_text.specs.SameText.{SameText};
ghost use Rattle.lsp_text.specs.Places.{units};
ghost use Rattle.lsp_text.specs.Offsets.{IsAtLine};
ghost use Rattle.lsp_lined.specs.Steps.{raised, line_bytes, line_number};
ghost use Rattle.lsp_lined.specs.Ends.{IsNear};
ghost use Rattle.lsp_text.specs.Spans.{CanReplace};
ghost use Rattle.lsp_lined.specs.Sums.{sums_of};
ghost use Rattle.lsp_text.specs.Findings.{extent_of};
ghost use Rattle.lsp_lined.specs.Windows.{text_with};
ghost use Rattle.lsp_lined.specs.LentLines.{IsLentLine, IsHeldLine, IsEndOf, IsOffsetIn};
ghost use Rattle.lsp_lined.specs.LentLines.{NoOffsetIn, line_of};

use crate::lined::window::Windowed;
use crate::sums::{Measure, Sums};
use crate::walk::{Differs, Front, LinesAhead};
use lsp_text::{
    Extent, LinesLeft, extent_past, is_taken, offset_in_line, width_of, without_last_end,
};
use lsp_types::{Encoding, Position};
use std::alloc::{AllocError, Global};
use std::marker::Model;

/// A text in blocks, with a window on it.
pub(crate) struct Lines {
    held: Windowed,
}

impl Model for Lines {
    ghost use Rattle.std.specs.Prelude.{List, ℕ};
    ghost use Rattle.lsp_lined.specs.Windows.{text_with, IsWindowed};

    ghost Value = { List ℕ };

    ghost view = { λ a. text_with a.held };

    ghost invariant = { λ a. IsWindowed a.held };
}

impl Drop for Lines {
    fn drop(self) {
        let Lines { held: _ } = self;
    }
}

impl Lines {
    /// The lines of a text.
    pub(super) fn of(alloc: Global, text: &str) -> Result<Lines, AllocError>
        ensures { IfOk result (λ lines. lines ≡ text.now) }
    {
        Ok(Lines {
            held: Windowed::of(alloc, text)?,
        })
    }

    /// The same lines, held by one more.
    pub(super) fn share(&self) -> Result<Lines, AllocError>
        ensures { IfOk result (λ lines. lines ≡ self.now) }
    {
        Ok(Lines {
            held: self.held.share()?,
        })
    }

    /// How many lines there are.
    pub(crate) fn count(&self) -> u64
        ensures { result ≡ length (lines_of (chars self.now)) }
    {
        self.held.sums.ends + 1
    }

    /// The bytes of the text.
    pub(crate) fn byte_len(&self) -> u64
        ensures value { result ≡ length self.now }
        ensures utf8 { IsUtf8 self.now }
    {
        self.held.sums.bytes
    }

    /// The line that a position falls in, at most the last.
    pub(crate) fn number_of(&self, position: Position) -> u64
        ensures { result ≡ line_number (chars self.now) position }
    {
        (position.line as u64).min(self.held.sums.ends)
    }

    /// Lends a line and its end, and counts their bytes.
    pub(crate) fn read(&self, i: u64, steps: &mut Steps) -> LentLine<'_>
        requires { i < length (lines_of (chars self.now)) }
        ensures value { IsLentLine self.now i result }
        ensures counted { steps.new ≡ raised steps.old (line_bytes (chars self.now) i) }
    {
        let line = self.peek(i);
        steps.add(line.after - line.start);
        line
    }

    /// Lends a line and its end, uncounted.
    fn peek(&self, i: u64) -> LentLine<'_>
        requires { i < length (lines_of (chars self.now)) }
        ensures { IsLentLine self.now i result }
    {
        let held = &self.held;
        if i == 0 {
            return self.line_from(0, 0, "", true);
        }
        let before = held.line_end(i - 1);
        self.line_from(i, before.after, before.rest, before.is_plain)
    }

    /// The same of a line that begins at a place, with what comes after the place in its block.
    fn line_from<'a>(&'a self, i: u64, start: usize, near: &'a str, is_plain: bool) -> LentLine<'a>
        requires number { i < length (lines_of (chars self.now)) }
        requires at { IsAtLine self.now i start (drop start self.now) }
        requires near { IsNear (drop start self.now) near.now is_plain }
        ensures { IsLentLine self.now i result }
    {
        let (end, after) = self.end_of(i);
        LentLine {
            held: &self.held,
            start,
            end,
            after,
            near,
            is_plain,
        }
    }

    /// Where the end of a line begins and where it ends.
    fn end_of(&self, i: u64) -> (usize, usize)
        requires { i < length (lines_of (chars self.now)) }
        ensures { IsEndOf self.now i result.0 result.1 }
    {
        if i == self.held.sums.ends {
            let len = self.held.sums.bytes as usize;
            return (len, len);
        }
        let end = self.held.line_end(i);
        (end.at, end.after)
    }

    /// How large the text is, in each unit.
    pub(super) fn sums(&self) -> Sums
        ensures value { result ≡ sums_of self.now }
        ensures utf8 { IsUtf8 self.now }
    {
        self.held.sums
    }

    /// The characters before a place.
    pub(super) fn chars_before(&self, offset: usize) -> u64
        requires { IsCharBoundary self.now offset }
        ensures { result ≡ length (chars (take offset self.now)) }
    {
        self.held.units_before(Encoding::Utf32, offset)
    }

    /// Whether the lines spell a text.
    pub(super) fn spell(&self, text: &str) -> bool
        ensures value { IsTrue result ↔ (self.now ≡ text.now) }
        ensures utf8 { IsUtf8 self.now }
    {
        let mut front = Front { rest: text };
        match self.held.walk(&mut front) {
            Ok(()) => front.rest.is_empty(),
            Err(Differs) => false,
        }
    }

    /// Whether the lines are those of a text, whatever their ends.
    pub(super) fn have(&self, text: &str) -> bool
        ensures value { IsTrue result ↔ SameText Ignored self.now text.now }
        ensures utf8 { IsUtf8 self.now }
    {
        let whole = without_last_end(text);
        let mut ahead = LinesAhead {
            left: LinesLeft::Rest(whole),
            is_same: true,
        };
        match self.held.walk(&mut ahead) {
            Ok(()) => is_taken(Some(ahead.left), whole),
            Err(Differs) => false,
        }
    }

    /// The text of the lines, in a `String` of its own.
    pub(super) fn to_text(&self, alloc: Global) -> Result<String, AllocError>
        ensures { IfOk result (λ text. string_bytes text ≡ self.now) }
    {
        let mut text = String::with_capacity(alloc, self.held.sums.bytes as usize)?;
        self.held.walk(&mut text)?;
        Ok(text)
    }

    /// Makes these the lines of a text: by a patch where that is worth it, or else in new blocks.
    pub(super) fn renew(&mut self, text: &str) -> Result<(), AllocError>
        ensures ok { OnOk result (self.new ≡ text.now) }
        ensures err { OnErr result (self.new ≡ self.old) }
    {
        if !self.held.renew(text)? {
            *self = Lines::of(self.held.alloc, text)?;
        }
        Ok(())
    }

    /// Replaces some bytes by a text.
    pub(crate) fn replace(&mut self, from: usize, to: usize, text: &str) -> Result<(), AllocError>
        requires { CanReplace self.old from to }
        ensures ok { OnOk result (self.new ≡ replace_range self.old from to text.now) }
        ensures err { OnErr result (self.new ≡ self.old) }
    {
        // No memory holds that many bytes.
        if text.len() as u64 >= u64::MAX - self.held.sums.bytes {
            return Err(AllocError);
        }
        self.held.replace(from, to, text)
    }
}

/// A line with its end that is lent: where it begins, where its end begins, and where that ends.
/// Also what comes after its start near by, and whether each of those characters has one byte.
#[derive(Drop)]
pub(crate) struct LentLine<'a> {
    held: &'a Windowed,
    start: usize,
    end: usize,
    after: usize,
    near: &'a str,
    is_plain: bool,
}

impl<'a> LentLine<'a> {
    /// The bytes of the text before a column of the line, or `None` where it lies inside a
    /// character.
    #[inline(always)]
    pub(crate) fn offset_of(&self, encoding: Encoding, column: u32) -> Option<usize>
        requires { IsHeldLine self.now }
        ensures { MatchOption result (NoOffsetIn encoding self.now column)
            (IsOffsetIn encoding self.now column) }
    {
        let len = self.end - self.start;
        if self.near.len() < len {
            return self.offset_of_far(encoding, column);
        }
        if self.is_plain {
            return Some(self.start + len.min(column as usize));
        }
        let (line, _) = self.near.split_at(len);
        let offset = offset_in_line(line, encoding, column)?;
        Some(self.start + offset)
    }

    /// How far the line goes, where a column is greater than its units. The offset is the place of
    /// the column: where it is before the end of the line, the column is not greater.
    #[inline(always)]
    pub(crate) fn extent(&self, encoding: Encoding, column: u32, offset: usize) -> Option<Extent>
        requires line { IsHeldLine self.now }
        requires place { IsOffsetIn encoding self.now column offset }
        ensures { result ≡ extent_of (units encoding (chars (line_of self.now))) column }
    {
        if offset < self.end {
            return None;
        }
        extent_past(self.width(encoding), column)
    }

    /// The units of the line.
    #[inline(always)]
    fn width(&self, encoding: Encoding) -> u64
        requires { IsHeldLine self.now }
        ensures { result ≡ units encoding (chars (line_of self.now)) }
    {
        let size = self.end - self.start;
        if self.near.len() < size {
            return self.far_width(encoding);
        }
        if self.is_plain {
            return size as u64;
        }
        let (line, _) = self.near.split_at(size);
        width_of(line, encoding)
    }

    /// The units of a line that goes over several blocks.
    #[inline(never)]
    fn far_width(&self, encoding: Encoding) -> u64
        requires { IsHeldLine self.now }
        ensures { result ≡ units encoding (chars (line_of self.now)) }
    {
        let before = self.units_before(encoding, self.start);
        let through = self.units_before(encoding, self.end);
        through - before
    }

    /// The bytes before a column of a line that goes over several blocks.
    fn offset_of_far(&self, encoding: Encoding, column: u32) -> Option<usize>
        requires { IsHeldLine self.now }
        ensures { MatchOption result (NoOffsetIn encoding self.now column)
            (IsOffsetIn encoding self.now column) }
    {
        let before = self.units_before(encoding, self.start);
        let through = self.units_before(encoding, self.end);
        if through - before <= column as u64 {
            return Some(self.end);
        }
        self.held.offset_of(encoding, before + column as u64)
    }

    /// The units of the text before a place.
    fn units_before(&self, encoding: Encoding, place: usize) -> u64
        requires line { IsHeldLine self.now }
        requires place { IsCharBoundary (text_with self.now.held.now) place }
        ensures { result ≡ units encoding (chars (take place (text_with self.now.held.now))) }
    {
        if place == 0 {
            return 0;
        }
        if place as u64 == self.held.sums.bytes {
            return self.held.sums.by(Measure::Units(encoding));
        }
        self.held.units_before(encoding, place)
    }
}

/// The bytes lent to edits, and those that they inserted.
pub(crate) struct Steps {
    bytes: u64,
}

impl Model for Steps {
    ghost use Rattle.std.specs.Prelude.{ℕ};

    ghost Value = { ℕ };

    ghost view = { λ a. a.bytes };
}

impl Drop for Steps {
    fn drop(self) {
        let Steps { bytes: _ } = self;
    }
}

impl Steps {
    /// No steps yet.
    pub(super) fn none() -> Steps
        ensures { result ≡ 0 }
    {
        Steps { bytes: 0 }
    }

    /// Counts bytes.
    pub(crate) fn add(&mut self, bytes: usize)
        ensures { self.new ≡ raised self.old bytes }
    {
        self.bytes = self.bytes.saturating_add(bytes as u64);
    }

    /// How many there are.
    pub(crate) fn count(&self) -> u64
        ensures { result ≡ self.now }
    {
        self.bytes
    }
}
