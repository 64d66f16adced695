//! Snapshots, and how they compare with a text.

ghost use Rattle.std.specs.Prelude.{◌≡◌, [], ◌++◌, ◌∷◌, length, not, IfOk, OnOk, OnErr, unwrap_or};
ghost use Rattle.std.specs.List.{list_any};
ghost use Rattle.std.specs.Option.{option_copied};
ghost use Rattle.std.specs.Str.{chars};
ghost use Rattle.lsp_text.specs.SameText.{same_text};
ghost use Rattle.lsp_docs.specs.Stored.{are_mixed, text_of, texts_of};

use crate::revision::has_text;
use lsp_text::{TextStore, same_lines};
use lsp_types::LineEnds;
use std::alloc::{AllocError, Global};
use std::marker::Model;

/// The outcome for a snapshot at its place.
#[derive(Clone, Copy, Debug, PartialEq, Eq)]
pub enum Match {
    /// It was compared, and its text is the one held at its version.
    Equal,
    /// Its version is still to come.
    Waits,
    /// Its version was skipped: it lies between kept ones, and is never compared.
    Missed,
}

/// The texts of the snapshots of one version, in the order in which they were shown.
#[derive(Drop)]
pub(crate) struct Texts {
    texts: Vec<String>,
    /// Whether two of them differ. If so, one of them is another text than any given one.
    mixed: bool,
    /// Whether two of them differ in more than their line ends.
    mixed_lines: bool,
}

impl Model for Texts {
    ghost use Rattle.std.specs.Prelude.{◌≡◌, List};
    ghost use Rattle.lsp_docs.specs.Calls.{Text};
    ghost use Rattle.lsp_docs.specs.Stored.{AreMixed, texts_of};

    ghost Value = { List Text };

    ghost view = { λ t. texts_of t.texts.items };

    ghost invariant = { λ t. AreMixed (texts_of t.texts.items) t.mixed t.mixed_lines };
}

impl Texts {
    /// One text.
    pub(crate) fn of(alloc: Global, text: String) -> Result<Self, AllocError>
        ensures { IfOk result (λ texts. texts ≡ text_of text ∷ []) }
    {
        let mut texts = Vec::new(alloc);
        texts.push(text)?;
        Ok(Texts {
            texts,
            mixed: false,
            mixed_lines: false,
        })
    }

    /// Adds a text after the others.
    pub(crate) fn push(&mut self, text: String) -> Result<(), AllocError>
        ensures ok { OnOk result (self.new ≡ self.old ++ text_of text ∷ []) }
        ensures err { OnErr result (self.new ≡ self.old) }
    {
        let added = text.as_str();
        let mixed = self.any_is_not(LineEnds::Exact, added);
        let mixed_lines = self.any_is_not(LineEnds::Ignored, added);
        self.texts.push(text)?;
        self.mixed = mixed;
        self.mixed_lines = mixed_lines;
        Ok(())
    }

    /// How many there are.
    pub(crate) fn len(&self) -> usize
        ensures { result ≡ length self.now }
    {
        self.texts.len()
    }

    /// The texts.
    pub(crate) fn as_slice(&self) -> &[String]
        ensures { texts_of result.now ≡ self.now }
    {
        self.texts.as_slice()
    }

    /// Whether one is another text than the store has. At most one is compared.
    pub(crate) fn any_differs<S: TextStore>(&self, line_ends: LineEnds, store: &S) -> bool
        ensures { result ≡ list_any (λ t. not (same_text line_ends (S.content store.now) t))
            self.now }
    {
        if self.are_mixed(line_ends) {
            return true;
        }
        match self.texts.first() {
            Some(first) => is_other(line_ends, first, store),
            None => false,
        }
    }

    /// Whether one is another text than this one. At most one is compared.
    pub(crate) fn any_is_not(&self, line_ends: LineEnds, text: &str) -> bool
        ensures { result ≡ list_any (λ t. not (same_text line_ends (chars text.now) t)) self.now }
    {
        if self.are_mixed(line_ends) {
            return true;
        }
        match self.texts.first() {
            Some(first) => is_other_text(line_ends, first, text),
            None => false,
        }
    }

    /// Whether two of them are not the same.
    fn are_mixed(&self, line_ends: LineEnds) -> bool
        ensures { result ≡ are_mixed line_ends self.now }
    {
        match line_ends {
            LineEnds::Exact => self.mixed,
            LineEnds::Ignored => self.mixed_lines,
        }
    }
}

/// Whether one of the texts that are due differs from that of the store.
pub(crate) fn refutes<S: TextStore>(due: Option<&Texts>, line_ends: LineEnds, store: &S) -> bool
    ensures { result ≡ list_any (λ t. not (same_text line_ends (S.content store.now) t))
        (unwrap_or (option_copied due.entry) []) }
{
    match due {
        Some(texts) => texts.any_differs(line_ends, store),
        None => false,
    }
}

/// Whether it is another text than the store has.
fn is_other<S: TextStore>(line_ends: LineEnds, text: &String, store: &S) -> bool
    ensures { result ≡ not (same_text line_ends (S.content store.now) (text_of text.now)) }
{
    !has_text(line_ends, store, text.as_str())
}

/// Whether it is another text than this one, apart from line ends where these do not count.
pub fn is_other_text(line_ends: LineEnds, other: &String, text: &str) -> bool
    ensures { result ≡ not (same_text line_ends (chars text.now) (text_of other.now)) }
{
    match line_ends {
        LineEnds::Exact => other.as_str() != text,
        LineEnds::Ignored => !same_lines(text, other.as_str()),
    }
}
