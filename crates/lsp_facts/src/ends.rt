//! In which line ends two texts differ, where they differ in these alone.

ghost use Rattle.std.specs.Prelude.{◌≡◌, [], ◌∷◌, ◌++◌, List, ℕ, MatchOption, OnOk, option_map};
ghost use Rattle.std.specs.Str.{bytes_eq, chars};
ghost use Rattle.lsp_facts.specs.EndsApart as spec;
ghost use Rattle.lsp_facts.specs.EndsApart.{conversion_view, ends_in};

use crate::facts::{Facts, line_words};
use lsp_rpc::Result;
use lsp_text::FirstLine;

/// The line ends of a text, and those that another has in their place.
#[derive(Clone, Copy)]
pub struct Conversion<'a> {
    pub from: &'a str,
    pub to: &'a str,
}

impl Facts {
    /// In which line ends two texts differ.
    pub(crate) fn ends(&mut self, held: &str, other: &str) -> Result<()>
        ensures { OnOk result (self.new ≡ self.old
            ++ spec.ends_apart (chars held.now) (chars other.now) ∷ []) }
    {
        match conversion_of(held, other) {
            Some(found) => self.converted(found.from, found.to),
            None => self.last_or_mixed(held, other),
        }
    }

    /// That the line ends of one text are others in the other.
    fn converted(&mut self, from: &str, to: &str) -> Result<()>
        ensures { OnOk result (self.new ≡ self.old
            ++ spec.converts (chars from.now) (chars to.now) ∷ []) }
    {
        let front = line_words(self.alloc(), "ends converted", from)?;
        let words = line_words(self.alloc(), front.as_str(), to)?;
        self.push_end(words)
    }

    /// That two texts differ only in the line end at the very end, or in others.
    fn last_or_mixed(&mut self, held: &str, other: &str) -> Result<()>
        ensures { OnOk result (self.new ≡ self.old
            ++ spec.last_or_mixed (chars held.now) (chars other.now) ∷ []) }
    {
        if differ_last(held, other) {
            return self.word("ends", "last");
        }
        self.word("ends", "mixed")
    }
}

/// The kinds of two texts' line ends, where each text has one kind, as often as the other.
fn conversion_of<'a>(held: &'a str, other: &'a str) -> Option<Conversion<'a>>
    ensures { option_map conversion_view result
        ≡ spec.conversion_of (ends_in (chars held.now)) (ends_in (chars other.now)) }
{
    let first = FirstLine::of(held)?;
    let second = FirstLine::of(other)?;
    if !are_converted(first.end, second.end, first.rest, second.rest) {
        return None;
    }
    Some(Conversion {
        from: first.end,
        to: second.end,
    })
}

/// Whether each line end of one text is of this kind, each of another of that, and there are as
/// many.
fn are_converted(from: &str, to: &str, held: &str, other: &str) -> bool
    ensures { result ≡ spec.are_converted (chars from.now) (chars to.now)
        (ends_in (chars held.now)) (ends_in (chars other.now)) }
{
    let mut ahead = other;
    let mut rest = held;
    while let Some(line) = FirstLine::of(rest) {
        let Some(second) = FirstLine::of(ahead) else {
            return false;
        };
        if !is_same(line.end, from) {
            return false;
        }
        if !is_same(second.end, to) {
            return false;
        }
        rest = line.rest;
        ahead = second.rest;
    }
    FirstLine::of(ahead).is_none()
}

/// Whether two texts are the same but for the line end at the very end.
fn differ_last(held: &str, other: &str) -> bool
    ensures { result ≡ spec.differ_last (chars held.now) (chars other.now) }
{
    is_same(without_last(other), without_last(held))
}

/// A text without the line end at its very end, if it has one there.
fn without_last(text: &str) -> &str
    ensures { chars result.now ≡ spec.without_last (chars text.now) }
{
    if let Some(front) = before(text, "\r\n") {
        return front;
    }
    if let Some(front) = before(text, "\n") {
        return front;
    }
    if let Some(front) = before(text, "\r") {
        return front;
    }
    text
}

/// What comes before the end of a text, if it ends so.
fn before<'a>(text: &'a str, end: &str) -> Option<&'a str>
    ensures { MatchOption result ((front : List ℕ) → text.now ≡ front ++ end.now → ⊥)
        (λ front. text.now ≡ front.now ++ end.now) }
{
    text.strip_suffix(end)
}

/// Whether two texts are the same, character by character.
fn is_same(text: &str, other: &str) -> bool
    ensures { result ≡ bytes_eq (chars other.now) (chars text.now) }
{
    text == other
}
