//! Contents and snapshots as the records of a log.
ghost use Rattle.std.specs.Prelude.{◌≡◌, ◌++◌, ◌<◌, IfOk, IsUtf8, OnOk, chars, drop, length};
ghost use Rattle.std.specs.Prelude.{map, max, string_bytes, take};
ghost use Rattle.std.specs.List.{flat_map};
ghost use Rattle.lsp_frame.specs.Sink.{canonical};
ghost use Rattle.lsp_log.specs.Log.{chunk, first_line, letter, shown, spelling, with_feed};
ghost use Rattle.lsp_redact.specs.Records.{content_records, pieces};

use lsp_frame::Format;
use lsp_rpc::{Result, Side};
use std::alloc::Global;

/// The first line of a log of this format.
fn first_line_of(format: Format) -> &'static str
    ensures { result.now ≡ first_line format }
{
    match format {
        Format::One => "lsp-session 1\n",
        Format::Two => "lsp-session 2\n",
    }
}

/// Adds the first line of a log of this format.
pub(crate) fn push_first_line(text: &mut String, format: Format) -> Result<()>
    ensures { OnOk result (string_bytes text.new ≡ string_bytes text.old ++ first_line format) }
{
    Ok(text.push_str(first_line_of(format))?)
}

/// Adds a line.
fn push_line(text: &mut String, line: &str) -> Result<()>
    ensures { OnOk result (string_bytes text.new ≡ string_bytes text.old ++ with_feed line.now) }
{
    text.push_str(line)?;
    Ok(text.push_str("\n")?)
}

/// The first characters of a text, this many at most but one at least, and what comes after them.
fn split_front(text: &str, most: usize) -> (&str, &str)
    ensures front { chars result.0.now ≡ take (max most 1) (chars text.now) }
    ensures back { chars result.1.now ≡ drop (max most 1) (chars text.now) }
    ensures utf8 { IsUtf8 result.0.now × IsUtf8 result.1.now }
    ensures less { 0 < length text.now → length result.1.now < length text.now }
{
    let mut rest = text.chars();
    rest.nth(most.saturating_sub(1));
    let left = rest.as_str().len();
    let at = text.len() - left;
    text.split_at(at)
}

/// How the records of a side begin.
fn letter_of(side: Side) -> &'static str
    ensures { result.now ≡ letter side }
{
    match side {
        Side::Editor => "E ",
        Side::Server => "S ",
    }
}

/// Adds one record of a side.
fn push_piece(text: &mut String, side: Side, piece: &str) -> Result<()>
    ensures { OnOk result (string_bytes text.new
        ≡ string_bytes text.old ++ spelling (chunk side piece.now)) }
{
    let letter = letter_of(side);
    let len = piece.len();
    write!(text, "{letter}{len}\n")?;
    push_line(text, piece)
}

/// The canonical frame of a content (LSP 3.17, "Base Protocol").
fn frame_of(alloc: Global, content: &str) -> Result<String>
    ensures { IfOk result (λ frame. string_bytes frame ≡ canonical content.now) }
{
    let len = content.len();
    Ok(format!(in alloc; "Content-Length: {len}\r\n\r\n{content}")?)
}

/// Adds a text in records of a side, each of which has this many characters but for the last.
fn push_pieces(text: &mut String, side: Side, whole: &str, most: usize) -> Result<()>
    ensures { OnOk result (string_bytes text.new ≡ string_bytes text.old
        ++ flat_map spelling (map (chunk side) (pieces (max most 1) whole.now))) }
{
    let mut rest = whole;
    while !rest.is_empty() {
        let (piece, others) = split_front(rest, most);
        push_piece(text, side, piece)?;
        rest = others;
    }
    Ok(())
}

/// Adds a content as its canonical frame, in records of its side.
pub(crate) fn push_content(text: &mut String, side: Side, content: &str, most: usize) -> Result<()>
    ensures { OnOk result (string_bytes text.new ≡ string_bytes text.old
        ++ flat_map spelling (content_records (max most 1) side content.now)) }
{
    let frame = frame_of(*text.allocator(), content)?;
    push_pieces(text, side, frame.as_str(), most)?;
    Ok(())
}

/// Adds a snapshot.
pub(crate) fn push_snapshot(text: &mut String, version: i32, uri: &str, body: &str) -> Result<()>
    ensures { OnOk result (string_bytes text.new
        ≡ string_bytes text.old ++ spelling (shown version uri.now body.now)) }
{
    let uri_len = uri.len();
    let len = body.len();
    write!(text, "T {version} {uri_len} {len}\n")?;
    push_line(text, uri)?;
    push_line(text, body)
}
