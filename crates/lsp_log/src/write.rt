//! Writes a log.
ghost use Rattle.std.specs.Prelude.{◌≡◌, ◌++◌, ◌∷◌, []};
ghost use Rattle.lsp_frame.specs.Bounds.{profile};
ghost use Rattle.lsp_frame.specs.Sink.{Writes};
ghost use Rattle.lsp_frame.specs.declared.format.Format.TheVariants.{One};
ghost use Rattle.lsp_log.specs.Log.{first_line, spelling, letter, chunk, chunk_head, shown};
ghost use Rattle.lsp_log.specs.Log.{head_line, shown_head, Fits, with_feed};
ghost use Rattle.lsp_log.specs.Records.{record_view};

use crate::format::first_line;
use crate::record::Record;
use itoa::Buffer;
use lsp_frame::{Format, Sink, WriteFault, put_all};
use lsp_types::Side;

/// Writes the first line of a log of format 1. After a fault a prefix of it is written.
pub fn write_head<W: Sink>(writer: &mut W) -> Result<(), WriteFault>
    ensures { Writes (W.told writer.old) (W.told writer.new) result (first_line One) }
{
    write_head_of(writer, Format::One)
}

/// Writes the first line of a log of this format. After a fault a prefix of it is written.
pub fn write_head_of<W: Sink>(writer: &mut W, format: Format) -> Result<(), WriteFault>
    ensures { Writes (W.told writer.old) (W.told writer.new) result (first_line format) }
{
    put_all(writer, first_line(format))
}

/// Writes a record, in the one spelling that a log has for it. After a fault a prefix of that is
/// written.
pub fn write_record<W: Sink>(writer: &mut W, entry: &Record) -> Result<(), WriteFault>
    requires { Fits profile (record_view entry.now) }
    ensures { Writes (W.told writer.old) (W.told writer.new) result
        (spelling (record_view entry.now)) }
{
    match entry {
        Record::Bytes { side, bytes } => write_chunk(writer, *side, bytes, &[]),
        Record::Snapshot { version, uri, text } => write_snapshot(writer, *version, uri, text),
    }
}

fn letter(side: Side) -> &'static [u8]
    ensures { result.now ≡ letter side }
{
    match side {
        Side::Editor => b"E ",
        Side::Server => b"S ",
    }
}

/// Writes the record of bytes that are in two parts, in the one spelling that a log has for it.
/// After a fault a prefix of that is written.
pub fn write_chunk<W: Sink>(
    writer: &mut W,
    side: Side,
    front: &[u8],
    back: &[u8],
) -> Result<(), WriteFault>
    ensures { Writes (W.told writer.old) (W.told writer.new) result
        (spelling (chunk side (front.now ++ back.now))) }
{
    put_chunk_head(writer, side, front.len() as u64 + back.len() as u64)?;
    put_all(writer, front)?;
    put_line(writer, back)
}

/// Writes the first line of a record of this many bytes.
fn put_chunk_head<W: Sink>(writer: &mut W, side: Side, len: u64) -> Result<(), WriteFault>
    ensures { Writes (W.told writer.old) (W.told writer.new) result
        (with_feed (head_line (chunk_head side len))) }
{
    put_all(writer, letter(side))?;
    put_line(writer, Buffer::new().format(len).as_bytes())
}

/// Writes the record of a snapshot, in the one spelling that a log has for it. After a fault a
/// prefix of that is written.
pub fn write_snapshot<W: Sink>(
    writer: &mut W,
    version: i32,
    uri: &str,
    text: &str,
) -> Result<(), WriteFault>
    ensures { Writes (W.told writer.old) (W.told writer.new) result
        (spelling (shown version uri.now text.now)) }
{
    put_snapshot_head(writer, version, uri.len(), text.len())?;
    put_line(writer, uri.as_bytes())?;
    put_line(writer, text.as_bytes())
}

/// Writes the first line of a snapshot whose URI and text have these lengths.
fn put_snapshot_head<W: Sink>(
    writer: &mut W,
    version: i32,
    uri: usize,
    text: usize,
) -> Result<(), WriteFault>
    ensures { Writes (W.told writer.old) (W.told writer.new) result
        (with_feed (head_line (shown_head version uri text))) }
{
    put_all(writer, b"T ")?;
    put_word(writer, Buffer::new().format(version).as_bytes())?;
    put_word(writer, Buffer::new().format(uri).as_bytes())?;
    put_line(writer, Buffer::new().format(text).as_bytes())
}

/// Writes the bytes and a space.
fn put_word<W: Sink>(writer: &mut W, bytes: &[u8]) -> Result<(), WriteFault>
    ensures { Writes (W.told writer.old) (W.told writer.new) result (bytes.now ++ 32 ∷ []) }
{
    put_all(writer, bytes)?;
    put_all(writer, b" ")
}

/// Writes the bytes and a line end.
fn put_line<W: Sink>(writer: &mut W, bytes: &[u8]) -> Result<(), WriteFault>
    ensures { Writes (W.told writer.old) (W.told writer.new) result (with_feed bytes.now) }
{
    put_all(writer, bytes)?;
    put_all(writer, b"\n")
}
