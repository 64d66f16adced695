//! Texts that are the same up to their line ends (LSP 3.17, "Text Documents").

ghost use Rattle.std.specs.Prelude.{◌≡◌, ◌↔◌, ◌++◌, ◌∷◌, [], List, ℕ, true, IsTrue, MatchOption};
ghost use Rattle.std.specs.Prelude.{IfOk, string_bytes};
ghost use Rattle.std.specs.Str.{chars};
ghost use Rattle.lsp_types.specs.declared.line_ends.LineEnds.TheVariants.{Ignored};
ghost use Rattle.lsp_text.specs.Lines.{has_no_line_end};
ghost use Rattle.lsp_text.specs.SameText.{SameText, compared, with_feeds, due, BeginsOtherwise};
ghost use Rattle.lsp_text.specs.SameText.{EndsOtherwise, IsTaken, StartsOtherwise};

use crate::cut::FirstLine;
use lsp_types::Memory;
use std::alloc::Global;

/// What is left of a text while lines are taken off its front, whatever ends they have there.
#[derive(Clone, Copy)]
pub enum LinesLeft<'a> {
    /// This text, and the end of its last line.
    Rest(&'a str),
    /// Nothing: the end of the last line was taken too.
    Nothing,
}

/// Whether two texts are the same up to their line ends: line by line, where a line end at the end
/// of a text begins no line.
pub fn same_lines(held: &str, text: &str) -> bool
    ensures { IsTrue result ↔ SameText Ignored (chars held.now) (chars text.now) }
{
    let whole = without_last_end(text);
    is_taken(take_lines(LinesLeft::Rest(whole), held), whole)
}

/// What is compared of a text where line ends do not count: its lines, with an LF between them.
///
/// # Errors
/// `Memory` where memory was refused.
pub fn compared_lines(alloc: Global, text: &str) -> Result<String, Memory>
    ensures { IfOk result (λ lines.
        chars (string_bytes lines) ≡ compared Ignored (chars text.now)) }
{
    with_feeds(alloc, without_last_end(text))
}

/// A text with an LF for each of its line ends.
fn with_feeds(alloc: Global, text: &str) -> Result<String, Memory>
    ensures { IfOk result (λ feeds. string_bytes feeds ≡ with_feeds text.now) }
{
    let mut feeds = String::new(alloc);
    let mut rest = text;
    while let Some(line) = FirstLine::of(rest) {
        feeds.push_str(line.text)?;
        feeds.push_str("\n")?;
        rest = line.rest;
    }
    feeds.push_str(rest)?;
    Ok(feeds)
}

/// A text without the line end at its end, if it has one there.
pub fn without_last_end(text: &str) -> &str
    ensures { compared Ignored text.now ≡ with_feeds result.now }
{
    before_last_end(text).unwrap_or(text)
}

/// What is left after these lines, or `None` where something else comes first. They do not end
/// inside a CR LF.
pub fn take_lines<'a>(left: LinesLeft<'a>, lines: &str) -> Option<LinesLeft<'a>>
    ensures { MatchOption result (BeginsOtherwise (with_feeds lines.now) (due left.entry))
        (λ next. due left.entry ≡ with_feeds lines.now ++ due next) }
{
    let mut ahead = left;
    let mut rest = lines;
    while let Some(line) = FirstLine::of(rest) {
        ahead = take_line(ahead, line.text)?;
        rest = line.rest;
    }
    take_text(ahead, rest)
}

/// Whether all of a text was taken, where this is left of it. Its last line end was cut off
/// ([`without_last_end`]), and what was taken may have that end or not.
pub fn is_taken(left: Option<LinesLeft<'_>>, whole: &str) -> bool
    ensures { (taken : List ℕ) → IsTaken taken whole.now left.entry
        → (IsTrue result ↔ (compared Ignored taken ≡ with_feeds whole.now)) }
{
    let Some(last) = left else {
        return false;
    };
    match last {
        LinesLeft::Rest(rest) => rest.is_empty() && before_last_end(whole).is_none(),
        LinesLeft::Nothing => true,
    }
}

/// What is left after a line with its end.
fn take_line<'a>(left: LinesLeft<'a>, line: &str) -> Option<LinesLeft<'a>>
    requires { has_no_line_end line.now ≡ true }
    ensures { MatchOption result (BeginsOtherwise (line.now ++ 10 ∷ []) (due left.entry))
        (λ next. due left.entry ≡ (line.now ++ 10 ∷ []) ++ due next) }
{
    take_end(take_text(left, line)?)
}

/// What is left after a text that has no line end.
fn take_text<'a>(left: LinesLeft<'a>, text: &str) -> Option<LinesLeft<'a>>
    requires { has_no_line_end text.now ≡ true }
    ensures { MatchOption result (BeginsOtherwise text.now (due left.entry))
        (λ next. due left.entry ≡ text.now ++ due next) }
{
    match left {
        LinesLeft::Rest(whole) => Some(LinesLeft::Rest(after(whole, text)?)),
        LinesLeft::Nothing if text.is_empty() => Some(LinesLeft::Nothing),
        LinesLeft::Nothing => None,
    }
}

/// What is left after a line end.
fn take_end(left: LinesLeft<'_>) -> Option<LinesLeft<'_>>
    ensures { MatchOption result (BeginsOtherwise (10 ∷ []) (due left.entry))
        (λ next. due left.entry ≡ 10 ∷ due next) }
{
    let LinesLeft::Rest(text) = left else {
        return None;
    };
    if text.is_empty() {
        return Some(LinesLeft::Nothing);
    }
    Some(LinesLeft::Rest(after_end(text)?))
}

/// What comes after the line end that a text begins with.
fn after_end(text: &str) -> Option<&str>
    ensures { MatchOption result (StartsOtherwise text.now)
        (λ rest. with_feeds text.now ≡ 10 ∷ with_feeds rest.now) }
{
    if let Some(rest) = after(text, "\r\n") {
        return Some(rest);
    }
    if let Some(rest) = after(text, "\n") {
        return Some(rest);
    }
    after(text, "\r")
}

/// What comes before the line end that a text ends with.
pub fn before_last_end(text: &str) -> Option<&str>
    ensures { MatchOption result (EndsOtherwise (with_feeds text.now))
        (λ front. with_feeds text.now ≡ with_feeds front.now ++ 10 ∷ []) }
{
    if let Some(front) = before(text, "\r\n") {
        return Some(front);
    }
    if let Some(front) = before(text, "\n") {
        return Some(front);
    }
    before(text, "\r")
}

/// What comes after the text that one begins with.
fn after<'a>(text: &'a str, front: &str) -> Option<&'a str>
    ensures { MatchOption result (BeginsOtherwise front.now text.now)
        (λ rest. text.now ≡ front.now ++ rest.now) }
{
    text.strip_prefix(front)
}

/// What comes before the text that one ends with.
fn before<'a>(text: &'a str, end: &str) -> Option<&'a str>
    ensures { MatchOption result ((front : List ℕ) → text.now ≡ front ++ end.now → ⊥)
        (λ front. text.now ≡ front.now ++ end.now) }
{
    text.strip_suffix(end)
}
