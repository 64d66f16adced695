//! A text store that keeps a text in blocks with their sums, so that an edit moves few bytes and
//! copies of the text share the rest.
//!
//! A text is cut into *blocks* of at most 4 KB, anywhere but inside a character or between CR and
//! LF, and blocks are in *chunks*, which are in larger chunks. Each block and each chunk knows its
//! *sums*: its line ends, bytes, characters and units of UTF-16. A place is found by any of these:
//! level by level, and then in one block, which also keeps the places after its line ends. Line `i`
//! begins after line end `i - 1`. A long line goes over several blocks; beyond their sums, nothing
//! is kept for it. An edit replaces bytes by others: in one block where it can, else in blocks cut
//! again from the one before the edit to the one after it, so that a CR and a LF that it joins are
//! in one block.
//!
//! A text of at most 2 KB is one block, with no chunks, until an edit finds no room in it. A text
//! whose blocks have room in one chunk is that chunk. A longer one is chunks in larger chunks.
//!
//! Editors mostly make one edit near another. From the second of these on, they are made in a
//! *window*: a short block apart from the chunks, which replaces some of their bytes. The chunks
//! stay as they are meanwhile, and copies of the text share all of them. An edit elsewhere first
//! puts the changed bytes of the window into the chunks.
//!
//! When a text is sent whole, only the part that differs from the held text is replaced, if that is
//! at most half of the new text.
//!
//! The text `a`, 4,990 times `x`, LF, `b`, once a LF was put after the CR that followed the `a`:
//!
//! ```text
//!   Lines           2 ends, 4995 bytes, and no window
//!     |
//!   chunk           the sums of its blocks: 8 at first, at most 16
//!     |-- block   "a" CR LF "xx..x"   1 end, up to place 3        line 0, and where line 1 begins
//!     |-- block   "xx..x"             no end                      all of it in line 1
//!     `-- block   "xx..x" LF "b"      1 end                       where line 1 ends, and line 2
//! ```

pub(crate) mod lines;
mod patch;
mod tree;
mod window;

ghost use Rattle.std.specs.Prelude.{◌≡◌, ◌*◌, length, IfOk, OnOk, OnErr, IfErr, Ok};
ghost use Rattle.std.specs.Str.{chars};
ghost use Rattle.lsp_text.specs.Edits.{replaced, limited, IsFaultOf};
ghost use Rattle.lsp_lined.specs.Steps.{RisesWithin, touched};
ghost use Rattle.lsp_text.specs.Findings as spec;
ghost use Rattle.lsp_text.specs.Findings.{noted, found_in};

use crate::edit::{edit, find_in, read_at};
use crate::removed::length_other_than_removed;
use lines::{Lines, Steps};
use lsp_text::{Findings, Fit, Place, TextStore, fit_by};
use lsp_types::{Encoding, Fault, Memory, Position, Span, rules};
use std::alloc::Global;
use std::marker::Model;

/// A text in blocks with their sums, and a count of the bytes that its edits looked at and
/// inserted. An edit is lent no lines but those of its span.
#[derive(Drop)]
pub struct Lined {
    lines: Lines,
    steps: Steps,
}

impl Model for Lined {
    ghost use Rattle.std.specs.Str.{chars};
    ghost use Rattle.lsp_lined.specs.Counted.{Counted};

    ghost Value = { Counted };

    ghost view = { λ a. record { content = chars a.lines; steps = a.steps } };
}

impl Lined {
    /// The bytes of held lines lent to edits, and the bytes inserted by them, up to 2^64 - 1. A new
    /// store and a copy have none yet.
    pub fn steps(&self) -> u64
        ensures { result ≡ self.now.steps }
    {
        self.steps.count()
    }

    /// How a position fits the text (LSP 3.17, "Position"): whether it is a place of it, lies past
    /// the end of its line or of the text, or lies inside a character.
    pub fn fit_of(&self, encoding: Encoding, position: Position) -> Fit
        ensures { result ≡ spec.fit_in encoding self.now.content position }
    {
        let line = read_at(&self.lines, position, &mut Steps::none());
        match find_in(&self.lines, &line, encoding, position) {
            None => Fit::Nowhere,
            Some(spotted) => fit_by(spotted.extent),
        }
    }
}

impl TextStore for Lined {
    ghost content = { λ s. s.content };

    fn from_text(alloc: Global, text: &str) -> Result<Lined, Memory>
        ensures content { IfOk result (λ store. store.content ≡ chars text.now) }
        ensures steps { IfOk result (λ store. store.steps ≡ 0) }
    {
        Ok(Lined {
            lines: Lines::of(alloc, text)?,
            steps: Steps::none(),
        })
    }

    fn resolve(&self, encoding: Encoding, position: Position) -> Result<Place, Fault> {
        let line = read_at(&self.lines, position, &mut Steps::none());
        match find_in(&self.lines, &line, encoding, position) {
            None => Err(Fault::Rule(rules::POSITION_INSIDE_CHARACTER)),
            Some(spotted) => Ok(Place {
                chars: self.lines.chars_before(spotted.offset),
            }),
        }
    }

    fn replace(
        &mut self,
        encoding: Encoding,
        span: Span,
        text: &str,
        limit: u64,
    ) -> Result<(), Fault>
        ensures ok { OnOk result (replaced encoding self.old.content span (chars text.now) limit
            ≡ Ok self.new.content) }
        ensures fault { IfErr result
            (IsFaultOf (replaced encoding self.old.content span (chars text.now) limit)) }
        ensures err { OnErr result (self.new.content ≡ self.old.content) }

        // The steps rise by about what the edit has to touch.
        ensures counted { OnOk result
            (RisesWithin self.old.steps self.new.steps (length text.now)
            (4 * touched self.old.content span (chars text.now))) }
        ensures err_counted { OnErr result
            (RisesWithin self.old.steps self.new.steps 0
            (4 * touched self.old.content span (chars text.now))) }
    {
        self.replace_noting(encoding, span, None, text, limit, &mut Findings::none())
    }

    fn replace_noting(
        &mut self,
        encoding: Encoding,
        span: Span,
        range_length: Option<i32>,
        text: &str,
        limit: u64,
        found: &mut Findings,
    ) -> Result<(), Fault>
        ensures found { OnOk result (found.new
            ≡ noted found.old (found_in encoding self.old.content span range_length)) }
        ensures err_found { OnErr result (found.new ≡ found.old) }
        ensures ok { OnOk result (replaced encoding self.old.content span (chars text.now) limit
            ≡ Ok self.new.content) }
        ensures fault { IfErr result
            (IsFaultOf (replaced encoding self.old.content span (chars text.now) limit)) }
        ensures err { OnErr result (self.new.content ≡ self.old.content) }

        // The steps rise by about what the edit has to touch.
        ensures counted { OnOk result
            (RisesWithin self.old.steps self.new.steps (length text.now)
            (4 * touched self.old.content span (chars text.now))) }
        ensures err_counted { OnErr result
            (RisesWithin self.old.steps self.new.steps 0
            (4 * touched self.old.content span (chars text.now))) }
    {
        let sums = self.lines.sums();
        let past_end = edit(
            &mut self.lines,
            &mut self.steps,
            encoding,
            span,
            text,
            limit,
        )?;
        let range_length = length_other_than_removed(
            sums,
            self.lines.sums(),
            text,
            encoding,
            range_length,
        );
        found.note(Findings {
            past_end,
            range_length,
        });
        Ok(())
    }

    fn replace_all(&mut self, text: &str, limit: u64) -> Result<(), Fault>
        ensures ok { OnOk result (limited limit (chars text.now) ≡ Ok self.new.content) }
        ensures fault { IfErr result (IsFaultOf (limited limit (chars text.now))) }
        ensures err { OnErr result (self.new.content ≡ self.old.content) }
        ensures steps { self.new.steps ≡ self.old.steps }
    {
        if limit < text.len() as u64 {
            return Err(Fault::Rule(rules::DOCUMENT_OVER_LIMIT));
        }
        self.lines.renew(text)?;
        Ok(())
    }

    fn equals(&self, text: &str) -> bool {
        self.lines.spell(text)
    }

    fn same_lines(&self, text: &str) -> bool {
        self.lines.have(text)
    }

    fn to_text(&self, alloc: Global) -> Result<String, Memory> {
        Ok(self.lines.to_text(alloc)?)
    }

    fn byte_len(&self) -> u64 {
        self.lines.byte_len()
    }

    fn line_count(&self) -> u64 {
        self.lines.count()
    }

    fn copy(&self, alloc: Global) -> Result<Lined, Memory>
        ensures content { IfOk result (λ store. store.content ≡ self.now.content) }
        ensures steps { IfOk result (λ store. store.steps ≡ 0) }
    {
        Ok(Lined {
            lines: self.lines.share()?,
            steps: Steps::none(),
        })
    }
}
