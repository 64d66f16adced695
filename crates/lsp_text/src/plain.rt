//! A text in one `String`, cut into lines again at each position.

ghost use Rattle.std.specs.Prelude.{◌≡◌, None, length, MatchOption};
ghost use Rattle.std.specs.Str.{chars};
ghost use Rattle.lsp_text.specs.Lines.{lines_of};
ghost use Rattle.lsp_text.specs.Places.{place_of};
ghost use Rattle.lsp_text.specs.Offsets.{IsTextOffset};

use crate::columns::offset_in_line;
use crate::counts::measure;
use crate::cut::FirstLine;
use crate::findings::{Findings, found_in_text};
use crate::same::same_lines;
use crate::store::{Place, TextStore};
use lsp_types::{Encoding, Fault, Memory, Position, Span, rules};
use std::alloc::Global;
use std::marker::Model;

/// A text in one `String`. A position costs a look at the lines up to its own, and an edit moves
/// the bytes after it.
#[derive(Drop)]
pub struct Plain {
    text: String,
}

impl Model for Plain {
    ghost use Rattle.std.specs.Prelude.{List, ℕ};
    ghost use Rattle.std.specs.Str.{chars};
    ghost use Rattle.std.specs.String.{string_bytes};

    ghost Value = { List ℕ };

    ghost view = { λ a. chars (string_bytes a.text) };
}

impl TextStore for Plain {
    ghost content = { λ s. s };

    fn from_text(alloc: Global, text: &str) -> Result<Plain, Memory> {
        let text = String::from_str(alloc, text)?;
        Ok(Plain { text })
    }

    fn resolve(&self, encoding: Encoding, position: Position) -> Result<Place, Fault> {
        let text = self.text.as_str();
        match offset_of(text, encoding, position) {
            None => Err(Fault::Rule(rules::POSITION_INSIDE_CHARACTER)),
            Some(offset) => {
                let (front, _) = text.split_at(offset);
                Ok(Place {
                    chars: measure(front).chars,
                })
            }
        }
    }

    fn replace_noting(
        &mut self,
        encoding: Encoding,
        span: Span,
        range_length: Option<i32>,
        text: &str,
        limit: u64,
        found: &mut Findings,
    ) -> Result<(), Fault> {
        let held = self.text.as_str();
        let Some(first) = offset_of(held, encoding, span.first) else {
            return Err(Fault::Rule(rules::POSITION_INSIDE_CHARACTER));
        };
        let Some(second) = offset_of(held, encoding, span.second) else {
            return Err(Fault::Rule(rules::POSITION_INSIDE_CHARACTER));
        };
        if second < first {
            return Err(Fault::Rule(rules::RANGE_REVERSED));
        }
        if limit < (first + text.len() + (held.len() - second)) as u64 {
            return Err(Fault::Rule(rules::DOCUMENT_OVER_LIMIT));
        }
        let (front, _) = held.split_at(second);
        let (_, range) = front.split_at(first);
        let more = found_in_text(held, range, encoding, span, range_length);
        self.text.replace_range(first..second, text)?;
        found.note(more);
        Ok(())
    }

    fn replace_all(&mut self, text: &str, limit: u64) -> Result<(), Fault> {
        if limit < text.len() as u64 {
            return Err(Fault::Rule(rules::DOCUMENT_OVER_LIMIT));
        }
        let len = self.text.as_str().len();
        self.text.replace_range(0..len, text)?;
        Ok(())
    }

    fn equals(&self, text: &str) -> bool {
        self.text.as_str() == text
    }

    fn same_lines(&self, text: &str) -> bool {
        same_lines(self.text.as_str(), text)
    }

    fn to_text(&self, alloc: Global) -> Result<String, Memory> {
        Ok(String::from_str(alloc, self.text.as_str())?)
    }

    fn byte_len(&self) -> u64 {
        self.text.as_str().len() as u64
    }

    fn line_count(&self) -> u64 {
        count_lines(self.text.as_str())
    }

    fn copy(&self, alloc: Global) -> Result<Plain, Memory> {
        Plain::from_text(alloc, self.text.as_str())
    }
}

/// The lines of a text.
pub(crate) fn count_lines(text: &str) -> u64
    ensures { result ≡ length (lines_of (chars text.now)) }
{
    let mut count = 1;
    let mut rest = text;
    while let Some(line) = FirstLine::of(rest) {
        count += 1;
        rest = line.rest;
    }
    count
}

/// The bytes of a text before a position, or `None` where it lies inside a character.
pub(crate) fn offset_of(text: &str, encoding: Encoding, position: Position) -> Option<usize>
    ensures { MatchOption result (place_of encoding (chars text.now) position ≡ None)
        (IsTextOffset encoding text.now position) }
{
    let mut start = 0;
    let mut rest = text;
    for i in 0..position.line {
        match FirstLine::of(rest) {
            None => return Some(text.len()),
            Some(line) => {
                start += line.text.len() + line.end.len();
                rest = line.rest;
            }
        }
    }
    let line = match FirstLine::of(rest) {
        None => rest,
        Some(line) => line.text,
    };
    let offset = offset_in_line(line, encoding, position.column)?;
    Some(start + offset)
}
