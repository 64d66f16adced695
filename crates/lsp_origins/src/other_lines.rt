//! With which other line ends the suspects make the text that the editor had.
ghost use Rattle.std.specs.Prelude.{◌≡◌, ◌++◌, false, IfOk, OnOk, length, nat_lt};
ghost use Rattle.std.specs.Prelude.{if◌then◌else◌, option_map, string_bytes};
ghost use Rattle.std.specs.List.{find, list_any};
ghost use Rattle.std.specs.Str.{chars};
ghost use Rattle.lsp_trail.specs.Common.{edit_of, edits_of, splice};
ghost use Rattle.lsp_origins.specs.Fits.{suspects_view};
ghost use Rattle.lsp_origins.specs.OtherLines as spec;
ghost use Rattle.lsp_origins.specs.OtherLines.{edits_in};

use crate::fits::{Suspect, Trial};
use lsp_docs::has_text;
use lsp_facts::{Facts, is_past};
use lsp_rpc::{Encoding, Result};
use lsp_text::{Plain, TextStore};
use lsp_types::{Change, Fault, Position};
use std::alloc::Global;

/// How many changes are tried at most: the whole text is read for each.
const MOST_TRIED: usize = 256;

/// What ends a line.
#[derive(Clone, Copy, Debug, PartialEq, Eq)]
pub(crate) enum LinesBy {
    /// LF alone.
    Lf,
    /// What ends one in LSP, U+2028 and U+2029.
    EcmaScript,
    /// These, and VT, FF, FS, GS, RS and NEL: where `splitlines` of Python splits.
    Python,
}

/// Adds the first other lines with which the suspects make the other text.
pub(crate) fn push_lines_by(
    facts: &mut Facts,
    trial: Trial<'_>,
    suspects: &[Suspect<'_>],
) -> Result<()>
    ensures { OnOk result (facts.new ≡ facts.old
        ++ spec.facts_of_trial trial.entry (suspects_view suspects.now)) }
{
    if are_many(suspects) {
        return Ok(());
    }
    match first_lines(trial, suspects)? {
        Some(by) => facts.word("lines-by", lines_name(by)),
        None => Ok(()),
    }
}

/// Whether these messages have more changes than are tried.
fn are_many(suspects: &[Suspect<'_>]) -> bool
    ensures { result ≡ nat_lt spec.most_tried (length (edits_in (suspects_view suspects.now))) }
{
    let mut left = MOST_TRIED;
    for suspect in suspects {
        if left < suspect.changes.len() {
            return true;
        }
        left -= suspect.changes.len();
    }
    false
}

fn lines_name(by: LinesBy) -> &'static str
    ensures { result.now ≡ spec.lines_name by }
{
    match by {
        LinesBy::Lf => "lf",
        LinesBy::EcmaScript => "ecmascript",
        LinesBy::Python => "python",
    }
}

/// The first of the three.
fn first_lines(trial: Trial<'_>, suspects: &[Suspect<'_>]) -> Result<Option<LinesBy>>
    ensures { IfOk result (λ by. by ≡ find (spec.gives_by trial.entry (suspects_view suspects.now))
        spec.all_lines) }
{
    if gives_by(trial, LinesBy::Lf, suspects)? {
        return Ok(Some(LinesBy::Lf));
    }
    if gives_by(trial, LinesBy::EcmaScript, suspects)? {
        return Ok(Some(LinesBy::EcmaScript));
    }
    if gives_by(trial, LinesBy::Python, suspects)? {
        return Ok(Some(LinesBy::Python));
    }
    Ok(None)
}

/// Whether the suspects make the other text, if their positions count these lines.
fn gives_by(trial: Trial<'_>, by: LinesBy, suspects: &[Suspect<'_>]) -> Result<bool>
    ensures { IfOk result (λ is_given. is_given
        ≡ spec.gives_by trial.entry (suspects_view suspects.now) by) }
{
    let alloc = trial.docs.alloc();
    let text = trial.text.to_text(alloc)?;
    if !may_differ(by, text.as_str(), suspects) {
        return Ok(false);
    }
    let Some(made) = make_all(alloc, by, trial.encoding, text, suspects)? else {
        return Ok(false);
    };
    let store = Plain::from_text(alloc, made.as_str())?;
    Ok(has_text(trial.docs.line_ends(), &store, trial.other))
}

/// Whether a text, or one that the suspects insert, has a character that may end a line of these
/// alone, or of LSP alone.
fn may_differ(by: LinesBy, text: &str, suspects: &[Suspect<'_>]) -> bool
    ensures { result ≡ spec.may_differ by (chars text.now) (suspects_view suspects.now) }
{
    if has_other(by, text) {
        return true;
    }
    any_inserts_other(by, suspects)
}

fn any_inserts_other(by: LinesBy, suspects: &[Suspect<'_>]) -> bool
    ensures { result ≡ list_any (λ suspect. list_any (λ change. spec.has_other by
        (edit_of change).text) suspect.changes.now) suspects.now }
{
    suspects
        .iter()
        .any(|suspect| inserts_other(by, suspect.changes))
}

fn inserts_other(by: LinesBy, changes: &[Change]) -> bool
    ensures { result ≡ list_any (λ change. spec.has_other by (edit_of change).text) changes.now }
{
    changes
        .iter()
        .any(|change| has_other(by, change.text.as_str()))
}

fn has_other(by: LinesBy, text: &str) -> bool
    ensures { result ≡ spec.has_other by (chars text.now) }
{
    text.chars().any(|char| is_other(by, char))
}

fn is_other(by: LinesBy, char: char) -> bool
    ensures { result ≡ spec.is_other by char }
{
    match by {
        LinesBy::Lf => char == '\r',
        LinesBy::EcmaScript => is_separator(char),
        LinesBy::Python => is_separator(char) || is_break(char),
    }
}

/// The text that the changes of messages make, if all can be made.
fn make_all(
    alloc: Global,
    by: LinesBy,
    encoding: Encoding,
    text: String,
    suspects: &[Suspect<'_>],
) -> Result<Option<String>>
    ensures { IfOk result (λ made. option_map (λ s. chars (string_bytes s)) made
        ≡ spec.made_so by encoding (chars (string_bytes text))
        (edits_in (suspects_view suspects.now))) }
{
    let mut made = text;
    for suspect in suspects {
        match make(alloc, by, encoding, made, suspect.changes)? {
            Some(next) => made = next,
            None => return Ok(None),
        }
    }
    Ok(Some(made))
}

/// The text that changes make, if all can be made.
fn make(
    alloc: Global,
    by: LinesBy,
    encoding: Encoding,
    text: String,
    changes: &[Change],
) -> Result<Option<String>>
    ensures { IfOk result (λ made. option_map (λ s. chars (string_bytes s)) made
        ≡ spec.made_so by encoding (chars (string_bytes text)) (edits_of changes.now)) }
{
    let mut made = text;
    for change in changes {
        match changed(alloc, by, encoding, made.as_str(), change)? {
            Some(next) => made = next,
            None => return Ok(None),
        }
    }
    Ok(Some(made))
}

/// The text that a change makes, if its positions are past no end and inside no character.
fn changed(
    alloc: Global,
    by: LinesBy,
    encoding: Encoding,
    text: &str,
    change: &Change,
) -> Result<Option<String>>
    ensures { IfOk result (λ made. option_map (λ s. chars (string_bytes s)) made
        ≡ spec.changed_by by encoding (chars text.now) (edit_of change.now)) }
{
    let insertion = change.text.as_str();
    let Some(span) = change.span else {
        return Ok(Some(String::from_str(alloc, insertion)?));
    };
    let seen = seen_text(alloc, by, text)?;
    let store = Plain::from_text(alloc, seen.as_str())?;
    let Some(first) = place_in(&store, seen.as_str(), encoding, span.first)? else {
        return Ok(None);
    };
    let Some(second) = place_in(&store, seen.as_str(), encoding, span.second)? else {
        return Ok(None);
    };
    if second < first {
        return Ok(None);
    }
    Ok(Some(spliced(alloc, text, first, second, insertion)?))
}

/// A text that has the lines of LSP where this one has the others.
fn seen_text(alloc: Global, by: LinesBy, text: &str) -> Result<String>
    ensures { IfOk result (λ seen. chars (string_bytes seen) ≡ spec.seen by (chars text.now)) }
{
    let mut seen = String::new(alloc);
    let mut last = None;
    for char in text.chars() {
        push_seen(&mut seen, by, last, char == '\n')?;
        last = Some(char);
    }
    push_seen(&mut seen, by, last, false)?;
    Ok(seen)
}

/// Adds a character, if there is one, as the lines of LSP have it.
fn push_seen(seen: &mut String, by: LinesBy, char: Option<char>, before_feed: bool) -> Result<()>
    ensures { OnOk result (chars (string_bytes seen.new)
        ≡ chars (string_bytes seen.old) ++ spec.seen_of by before_feed char) }
{
    let Some(char) = char else {
        return Ok(());
    };
    seen.push(seen_as(by, before_feed, char))?;
    Ok(())
}

/// A character as the lines of LSP have it, before LF or not.
fn seen_as(by: LinesBy, before_feed: bool, char: char) -> char
    ensures { result ≡ spec.seen_as by before_feed char }
{
    match by {
        LinesBy::Lf => without_return(char),
        LinesBy::EcmaScript => with_feed(is_end(before_feed, char), char),
        LinesBy::Python => with_feed(is_end(before_feed, char) || is_break(char), char),
    }
}

fn without_return(char: char) -> char
    ensures { result ≡ spec.seen_as LinesBy.Lf false char }
{
    if char == '\r' { ' ' } else { char }
}

fn with_feed(ends: bool, char: char) -> char
    ensures { result ≡ (if ends then 10 else char) }
{
    if ends { '\n' } else { char }
}

/// Whether it ends a line of ECMAScript, but for LF and CR LF.
fn is_end(before_feed: bool, char: char) -> bool
    ensures { result ≡ spec.is_end before_feed char }
{
    (char == '\r' && !before_feed) || is_separator(char)
}

fn is_separator(char: char) -> bool
    ensures { result ≡ spec.is_separator char }
{
    char == '\u{2028}' || char == '\u{2029}'
}

/// Whether it ends a line in Python alone.
fn is_break(char: char) -> bool
    ensures { result ≡ spec.is_break char }
{
    matches!(
        char,
        '\u{0B}' | '\u{0C}' | '\u{1C}' | '\u{1D}' | '\u{1E}' | '\u{85}'
    )
}

/// The place of a position in a text, which the store has, too; none past an end or inside a
/// character.
fn place_in(
    store: &Plain,
    text: &str,
    encoding: Encoding,
    position: Position,
) -> Result<Option<u64>>
    requires { store.now ≡ chars text.now }
    ensures { IfOk result (λ place. place ≡ spec.place_within encoding (chars text.now) position) }
{
    if is_past(text, encoding, position) {
        return Ok(None);
    }
    match store.resolve(encoding, position) {
        Ok(place) => Ok(Some(place.chars)),
        Err(Fault::Rule(_)) => Ok(None),
        Err(Fault::Memory) => Ok(None),
    }
}

/// A text with an insertion in place of what is between two places.
fn spliced(alloc: Global, text: &str, first: u64, second: u64, insertion: &str) -> Result<String>
    ensures { IfOk result (λ made. chars (string_bytes made)
        ≡ splice (chars text.now) first second (chars insertion.now)) }
{
    let mut made: String = text.chars().take(first as usize).collect(alloc)?;
    made.push_str(insertion)?;
    let back: String = text.chars().skip(second as usize).collect(alloc)?;
    made.push_str(back.as_str())?;
    Ok(made)
}
