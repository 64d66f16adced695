//! What is said about texts of documents and changes of them.

ghost use Rattle.std.specs.Prelude.{◌≡◌, ◌<◌, ◌^◌, ◌+◌, [], ◌∷◌, ◌++◌, Some, IfOk, OnOk};
ghost use Rattle.std.specs.Prelude.{string_bytes};
ghost use Rattle.std.specs.List.{flat_map};
ghost use Rattle.std.specs.Str.{chars};
ghost use Rattle.std.specs.Fmt.{signed_decimal};
ghost use Rattle.lsp_types.specs.declared.line_ends.LineEnds.TheVariants.{Ignored};
ghost use Rattle.lsp_replay.specs.Common.{encoding_name, same_text};
ghost use Rattle.lsp_facts.specs.Fact.{code_word, counts_in, differing_codes, fails};
ghost use Rattle.lsp_facts.specs.Fact.{position_words, spaced};
ghost use Rattle.lsp_facts.specs.DocumentFacts as spec;
ghost use Rattle.lsp_facts.specs.DocumentFacts.{edges};

use crate::edges::edges;
use crate::facts::Facts;
use lsp_rpc::Result;
use lsp_text::{line_at, same_lines, width_of};
use lsp_types::{Encoding, Position, Span};
use lsp_verdict::encoding_name;
use std::alloc::Global;
use std::fmt::Write;

impl Facts {
    /// The encoding in which columns and lengths are counted.
    pub(crate) fn encoding(&mut self, encoding: Encoding) -> Result<()>
        ensures { OnOk result (self.new ≡ self.old ++ counts_in encoding ∷ []) }
    {
        self.word("encoding", encoding_name(Some(encoding)))
    }

    /// The change after this many others, and the encoding in which its columns are counted.
    pub(crate) fn change(
        &mut self,
        encoding: Encoding,
        count: usize,
        span: Option<Span>,
    ) -> Result<()>
        requires { count + 1 < 2 ^ 64 }
        ensures { OnOk result (self.new
            ≡ self.old ++ counts_in encoding ∷ fails (count + 1) span ∷ []) }
    {
        self.encoding(encoding)?;
        let line = change_line(self.alloc(), count as u64 + 1, span)?;
        self.push(line)
    }

    /// Where two texts first differ.
    pub(crate) fn place(&mut self, place: Position) -> Result<()>
        ensures { OnOk result (self.new ≡ self.old ++ spec.differs_at place ∷ []) }
    {
        let mut words = String::from_str(self.alloc(), "at")?;
        push_position(&mut words, place)?;
        self.push_end(words)
    }

    /// The characters at which two texts differ; where a text ends, there is none.
    pub(crate) fn codes(&mut self, held: Option<char>, other: Option<char>) -> Result<()>
        ensures { OnOk result (self.new ≡ self.old ++ differing_codes held other ∷ []) }
    {
        let mut words = String::from_str(self.alloc(), "codes")?;
        push_code(&mut words, held)?;
        push_code(&mut words, other)?;
        self.push_end(words)
    }

    /// The versions that are kept in addition to the held one.
    pub(crate) fn kept(&mut self, versions: &[i32]) -> Result<()>
        ensures { OnOk result (self.new ≡ self.old ++ spec.keeps versions.now ∷ []) }
    {
        let mut words = String::from_str(self.alloc(), "kept")?;
        for version in versions {
            push_version(&mut words, *version)?;
        }
        self.push_end(words)
    }

    /// The character into which a column falls.
    pub(crate) fn inside(&mut self, c: char) -> Result<()>
        ensures { OnOk result (self.new ≡ self.old ++ spec.falls_inside c ∷ []) }
    {
        let mut text = String::new(self.alloc());
        text.push(c)?;
        self.text("inside", text.as_str())
    }

    /// The encodings in which a position lies at the edge of a character, where there are any.
    pub(crate) fn fits(&mut self, text: &str, position: Position) -> Result<()>
        ensures { OnOk result (self.new ≡ self.old
            ++ spec.fits_fact (edges (chars text.now) position)) }
    {
        let names = edges(self.alloc(), text, position)?;
        self.fitting(names.as_slice())
    }

    /// The encodings that fit, where there are any.
    pub fn fitting(&mut self, names: &[Encoding]) -> Result<()>
        ensures { OnOk result (self.new ≡ self.old ++ spec.fits_fact names.now) }
    {
        self.encodings("fits", names)
    }

    /// A key and encodings, where there are any.
    pub(crate) fn encodings(&mut self, key: &str, names: &[Encoding]) -> Result<()>
        ensures { OnOk result (self.new ≡ self.old ++ spec.encodings_fact key.now names.now) }
    {
        if names.is_empty() {
            return Ok(());
        }
        let mut words = String::from_str(self.alloc(), key)?;
        push_encodings(&mut words, names)?;
        self.push_end(words)
    }

    /// What is said of two texts that differ in line ends alone, where they do.
    pub(crate) fn line_ends(&mut self, was_equal: bool, held: &str, other: &str) -> Result<()>
        ensures { OnOk result (self.new ≡ self.old
            ++ spec.ends_facts was_equal (chars held.now) (chars other.now)) }
    {
        if !are_same_lines(held, other) {
            return Ok(());
        }
        self.ends(held, other)?;
        self.offer(was_equal)
    }

    /// The option that ignores line ends, unless texts of the document were equal before.
    fn offer(&mut self, was_equal: bool) -> Result<()>
        ensures { OnOk result (self.new ≡ self.old ++ spec.offer_facts was_equal) }
    {
        if was_equal {
            return Ok(());
        }
        self.word("line-ends", "option --ignore-line-ends")
    }

    /// The length of the line of a position, where the text has that line.
    pub(crate) fn length(
        &mut self,
        text: &str,
        encoding: Encoding,
        position: Position,
    ) -> Result<()>
        ensures { OnOk result (self.new ≡ self.old
            ++ spec.line_length encoding (chars text.now) position) }
    {
        let Some(line) = line_at(text, position.line) else {
            return Ok(());
        };
        self.number("length", width_of(line, encoding))
    }

    /// The length of the line in which a span begins, where there is one and the text has that
    /// line.
    pub(crate) fn first_length(
        &mut self,
        text: &str,
        encoding: Encoding,
        span: Option<Span>,
    ) -> Result<()>
        ensures { OnOk result (self.new ≡ self.old
            ++ spec.first_length encoding (chars text.now) span) }
    {
        match span {
            Some(span) => self.length(text, encoding, span.first),
            None => Ok(()),
        }
    }
}

/// Adds the names of encodings.
///
/// # Errors
/// `Memory` where memory was refused.
pub fn push_encodings(words: &mut String, encodings: &[Encoding]) -> Result<()>
    ensures { OnOk result (string_bytes words.new ≡ string_bytes words.old
        ++ flat_map (λ e. spaced (encoding_name (Some e))) encodings.now) }
{
    for encoding in encodings {
        push_encoding(words, *encoding)?;
    }
    Ok(())
}

/// Adds the number of a character, or that there is none.
fn push_code(words: &mut String, c: Option<char>) -> Result<()>
    ensures { OnOk result (string_bytes words.new
        ≡ string_bytes words.old ++ spaced (code_word c)) }
{
    let Some(c) = c else {
        words.push_str(" end")?;
        return Ok(());
    };
    let code = c as u32;
    write!(words, " U+{code:04X}")?;
    Ok(())
}

fn push_encoding(words: &mut String, encoding: Encoding) -> Result<()>
    ensures { OnOk result (string_bytes words.new
        ≡ string_bytes words.old ++ spaced (encoding_name (Some encoding))) }
{
    let name = encoding_name(Some(encoding));
    write!(words, " {name}")?;
    Ok(())
}

fn push_version(words: &mut String, version: i32) -> Result<()>
    ensures { OnOk result (string_bytes words.new
        ≡ string_bytes words.old ++ spaced (signed_decimal version)) }
{
    write!(words, " {version}")?;
    Ok(())
}

/// The line of the change of this number, from 1.
fn change_line(alloc: Global, which: u64, span: Option<Span>) -> Result<String>
    ensures { IfOk result (λ line. string_bytes line ≡ fails which span) }
{
    let Some(span) = span else {
        return Ok(format!(in alloc; "change {which} whole\n")?);
    };
    let mut line = format!(in alloc; "change {which}")?;
    push_position(&mut line, span.first)?;
    push_position(&mut line, span.second)?;
    line.push_str("\n")?;
    Ok(line)
}

fn push_position(words: &mut String, position: Position) -> Result<()>
    ensures { OnOk result (string_bytes words.new
        ≡ string_bytes words.old ++ position_words position) }
{
    let Position { line, column } = position;
    write!(words, " {line} {column}")?;
    Ok(())
}

/// Whether two texts are the same up to their line ends.
fn are_same_lines(held: &str, other: &str) -> bool
    ensures { result ≡ same_text Ignored (chars held.now) (chars other.now) }
{
    same_lines(held, other)
}
