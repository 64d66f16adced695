//! The lines that show the events of a session.
ghost use Rattle.std.specs.Prelude.{◌≡◌, ◌++◌, ◌∷◌, [], OnOk, string_bytes, chars, decimal};
ghost use Rattle.std.specs.Fmt.{signed_decimal};
ghost use Rattle.json.specs.Print.{quoted};
ghost use Rattle.lsp_docs.specs.Calls.{byte_len};
ghost use Rattle.lsp_session.specs.View.{sent};
ghost use Rattle.lsp_rpc.specs.View.{act_view};
ghost use Rattle.lsp_verdict.specs.Report.{line};
ghost use Rattle.lsp_verdict.specs.Shown.{document_words, message_words, snapshot_words};
ghost use Rattle.lsp_verdict.specs.Shown.{words_behind};
ghost use Rattle.lsp_replay.specs.Lines.{row, spaced};

use crate::heard::EventPlace;
use lsp_rpc::{Act, Result, Side, Spoken, push_quoted, words_of};
use lsp_verdict::{Lines, side_name};
use std::fmt::Write;

/// Adds a number to a line.
fn push_number(text: &mut String, number: u64) -> Result<()>
    ensures { OnOk result (string_bytes text.new ≡ string_bytes text.old
        ++ spaced (decimal number ∷ [])) }
{
    write!(text, " {number}")?;
    Ok(())
}

/// Adds the URI of a document to a line.
fn push_uri(text: &mut String, uri: &str) -> Result<()>
    ensures { OnOk result (string_bytes text.new ≡ string_bytes text.old
        ++ spaced (quoted uri.now ∷ [])) }
{
    text.push_str(" ")?;
    push_quoted(*text.allocator(), text, uri)
}

/// Adds the URI of a document and the version that it is opened at or changed to.
fn push_version(text: &mut String, uri: &str, version: i32) -> Result<()>
    ensures { OnOk result (string_bytes text.new
        ≡ string_bytes text.old ++ spaced (quoted uri.now ∷ signed_decimal version ∷ [])) }
{
    push_uri(text, uri)?;
    write!(text, " {version}")?;
    Ok(())
}

/// Adds of which document a message says something.
fn push_document(text: &mut String, act: &Act) -> Result<()>
    ensures { OnOk result (string_bytes text.new
        ≡ string_bytes text.old ++ spaced (document_words (act_view act.now))) }
{
    match act {
        Act::DidOpen { uri, version, .. } => {
            let version = *version;
            push_version(text, uri.as_str(), version)
        }
        Act::DidChange { uri, version, .. } => {
            let version = *version;
            push_version(text, uri.as_str(), version)
        }
        Act::DidClose { uri } => push_uri(text, uri.as_str()),
        Act::DidSave { uri, .. } => push_uri(text, uri.as_str()),
        _ => Ok(()),
    }
}

/// Adds what a long line has of a message.
fn push_behind_message(text: &mut String, lines: Lines, number: u64, act: &Act) -> Result<()>
    ensures { OnOk result (string_bytes text.new
        ≡ string_bytes text.old ++ spaced
        (words_behind lines number (document_words (act_view act.now)))) }
{
    match lines {
        Lines::Short => Ok(()),
        Lines::Long => {
            push_number(text, number)?;
            push_document(text, act)
        }
    }
}

/// Adds what a long line has of a snapshot.
fn push_behind_snapshot(text: &mut String, lines: Lines, number: u64) -> Result<()>
    ensures { OnOk result (string_bytes text.new
        ≡ string_bytes text.old ++ spaced (words_behind lines number [])) }
{
    match lines {
        Lines::Short => Ok(()),
        Lines::Long => push_number(text, number),
    }
}

/// Adds the words of a message to a text: the number of the event, the side that sent it, and its
/// words.
fn push_message_words(text: &mut String, event: u64, side: Side, spoken: &Spoken) -> Result<()>
    ensures { OnOk result (string_bytes text.new ≡ string_bytes text.old
        ++ row (message_words event (sent side spoken.now.message spoken.now.act))) }
{
    let name = side_name(side);
    let words = words_of(*text.allocator(), &spoken.message)?;
    write!(text, "{event} {name} {words}")?;
    Ok(())
}

/// Adds the line of a message to a text, short or long.
///
/// # Errors
/// `Memory` where memory was refused.
pub(crate) fn push_message_line(
    text: &mut String,
    lines: Lines,
    place: EventPlace,
    side: Side,
    spoken: &Spoken,
) -> Result<()>
    ensures { OnOk result (string_bytes text.new ≡ string_bytes text.old
        ++ line (message_words place.event (sent side spoken.now.message spoken.now.act)
        ++ words_behind lines place.number (document_words (act_view spoken.now.act)))) }
{
    push_message_words(text, place.event, side, spoken)?;
    push_behind_message(text, lines, place.number, &spoken.act)?;
    Ok(text.push_str("\n")?)
}

fn byte_count(text: &str) -> usize
    ensures { result ≡ byte_len (chars text.now) }
{
    text.len()
}

/// Adds the words of a snapshot to a text: the number of the event, and the snapshot's version,
/// bytes and URI, which is JSON text.
fn push_snapshot_words(
    text: &mut String,
    event: u64,
    version: i32,
    uri: &str,
    shown: &str,
) -> Result<()>
    ensures { OnOk result (string_bytes text.new ≡ string_bytes text.old
        ++ row (snapshot_words event uri.now version (chars shown.now))) }
{
    let bytes = byte_count(shown);
    write!(text, "{event} snapshot {version} {bytes}")?;
    push_uri(text, uri)
}

/// Adds the line of a snapshot to a text, short or long.
///
/// # Errors
/// `Memory` where memory was refused.
pub(crate) fn push_snapshot_line(
    text: &mut String,
    lines: Lines,
    place: EventPlace,
    version: i32,
    uri: &str,
    shown: &str,
) -> Result<()>
    ensures { OnOk result (string_bytes text.new ≡ string_bytes text.old
        ++ line (snapshot_words place.event uri.now version (chars shown.now)
        ++ words_behind lines place.number [])) }
{
    push_snapshot_words(text, place.event, version, uri, shown)?;
    push_behind_snapshot(text, lines, place.number)?;
    Ok(text.push_str("\n")?)
}
