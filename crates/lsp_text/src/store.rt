//! A text that is read by positions and edited.

ghost use Rattle.std.specs.Prelude.{◌≡◌, ◌↔◌, ℕ, List, length, IfOk, OnOk, OnErr, IfErr, IsTrue};
ghost use Rattle.std.specs.Str.{chars};
ghost use Rattle.std.specs.String.{string_bytes};
ghost use Rattle.lsp_text.specs.Lines.{lines_of};
ghost use Rattle.lsp_text.specs.Places.{units, place_of};
ghost use Rattle.lsp_text.specs.Edits.{replaced, limited, IsFaultOf, IsPlaceOr605};
ghost use Rattle.lsp_text.specs.SameText.{SameText};
ghost use Rattle.lsp_text.specs.Findings.{noted, found_in};

use crate::findings::Findings;
use lsp_types::{Encoding, Fault, LineEnds, Memory, Position, Span};
use std::alloc::Global;

/// A place in a text, between two characters or at its ends: the characters (Unicode scalar values)
/// before it.
#[derive(Clone, Copy, Debug, PartialEq, Eq)]
pub struct Place {
    pub chars: u64,
}

/// A text, seen as its characters, however it is kept. Its lines are those of LSP 3.17, "Text
/// Documents": they end with CR LF, LF or CR, and lines and columns are counted from zero. A
/// refused call leaves the text as it was. `from_text`, `replace`, `replace_all`, `to_text` and
/// `copy` may answer `Memory`, only where a growth was refused; the other calls take no memory.
pub trait TextStore: Drop {
    /// Its characters.
    ghost content: { Self → List ℕ };

    /// A store of a text.
    fn from_text(alloc: Global, text: &str) -> Result<Self, Memory>
        ensures { IfOk result (λ store. content store ≡ chars text.now) };

    /// The place that a position denotes (LSP 3.17, "Position" and "PositionEncodingKind"). The
    /// column counts units of the encoding: bytes of UTF-8, units of UTF-16, or characters. A
    /// column past its line denotes the line's end, before its line end, and a line past the last
    /// one the end of the text. A column inside a character is refused by rule 605.
    fn resolve(&self, encoding: Encoding, position: Position) -> Result<Place, Fault>
        ensures { IsPlaceOr605 (place_of encoding (content self.now) position) result };

    /// Replaces the characters of a span by a text. Rule 605 refuses a position inside a
    /// character, then 606 a first place after the second, then 607 a result of more bytes of UTF-8
    /// than the limit.
    fn replace(
        &mut self,
        encoding: Encoding,
        span: Span,
        text: &str,
        limit: u64,
    ) -> Result<(), Fault>
        ensures ok { OnOk result (replaced encoding (content self.old) span (chars text.now) limit
            ≡ Ok (content self.new)) }
        ensures fault { IfErr result
            (IsFaultOf (replaced encoding (content self.old) span (chars text.now) limit)) }
        ensures err { OnErr result (content self.new ≡ content self.old) }
    {
        self.replace_noting(encoding, span, None, text, limit, &mut Findings::none())
    }

    /// The same, which notes a position past the end, and a length that is not that of the text in
    /// the span. A refused call notes nothing.
    fn replace_noting(
        &mut self,
        encoding: Encoding,
        span: Span,
        range_length: Option<i32>,
        text: &str,
        limit: u64,
        found: &mut Findings,
    ) -> Result<(), Fault>
        ensures found { OnOk result (found.new
            ≡ noted found.old (found_in encoding (content self.old) span range_length)) }
        ensures err_found { OnErr result (found.new ≡ found.old) }
        ensures ok { OnOk result (replaced encoding (content self.old) span (chars text.now) limit
            ≡ Ok (content self.new)) }
        ensures fault { IfErr result
            (IsFaultOf (replaced encoding (content self.old) span (chars text.now) limit)) }
        ensures err { OnErr result (content self.new ≡ content self.old) };

    /// Replaces the whole text. Rule 607 refuses one of more bytes of UTF-8 than
    /// the limit.
    fn replace_all(&mut self, text: &str, limit: u64) -> Result<(), Fault>
        ensures ok { OnOk result (limited limit (chars text.now) ≡ Ok (content self.new)) }
        ensures fault { IfErr result (IsFaultOf (limited limit (chars text.now))) }
        ensures err { OnErr result (content self.new ≡ content self.old) };

    /// Whether it holds this text.
    fn equals(&self, text: &str) -> bool
        ensures { IsTrue result ↔ (content self.now ≡ chars text.now) };

    /// Whether it holds the same text up to line ends ([`crate::same_lines`]).
    fn same_lines(&self, text: &str) -> bool
        ensures { IsTrue result ↔ SameText LineEnds.Ignored (content self.now) (chars text.now) };

    /// Its text.
    fn to_text(&self, alloc: Global) -> Result<String, Memory>
        ensures { IfOk result (λ text. chars (string_bytes text) ≡ content self.now) };

    /// Its bytes of UTF-8.
    fn byte_len(&self) -> u64
        ensures { result ≡ units Encoding.Utf8 (content self.now) };

    /// Its lines, one more than its line ends.
    fn line_count(&self) -> u64
        ensures { result ≡ length (lines_of (content self.now)) };

    /// Another store of the same text.
    fn copy(&self, alloc: Global) -> Result<Self, Memory>
        ensures { IfOk result (λ store. content store ≡ content self.now) };
}
