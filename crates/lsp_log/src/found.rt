//! The record at the front of a tape.
ghost use Rattle.std.specs.Prelude.{◌≡◌, ◌≤◌, length, take, drop, true, IfErr};
ghost use Rattle.lsp_log.specs.Log.{shown_head};
ghost use Rattle.lsp_log.specs.Stops.{TextAnswer, FirstAnswer, TwoPartsAnswer, PartsAnswer};
ghost use Rattle.lsp_log.specs.Stops.{FoundAnswer, is_flaw, put_back_at};
ghost use Rattle.lsp_log.specs.Words.{head_view};

use crate::format::{LINE_LEN, format_of};
use crate::head::{Head, read_head};
use crate::record::Record;
use crate::stop::Stop;
use crate::tape::{Tape, WINDOW};
use lsp_frame::{Format, Limits, Source};
use std::alloc::Global;

/// The text of the bytes.
fn text_of(bytes: Vec<u8>) -> Result<String, Stop>
    ensures { TextAnswer bytes.items result }
{
    if simdutf8::compat::from_utf8(&bytes).is_err() {
        return Err(Stop::Text);
    }
    Ok(unsafe { String::from_utf8_unchecked(bytes) })
}

/// Skips the first line, and gives the format that it names.
pub(crate) fn first_line<R: Source>(tape: &mut Tape, reader: &mut R) -> Result<Format, Stop>
    ensures short { length tape.new.rest ≤ 64 }
    ensures answer { FirstAnswer tape.old tape.new (R.told reader.old) (R.told reader.new) result }
{
    tape.reach(reader, LINE_LEN)?;
    let Some(format) = format_of(tape.near()) else {
        return Err(Stop::FirstLine);
    };
    tape.skip(LINE_LEN);
    Ok(format)
}

/// Takes two parts of these lengths, one after the other.
fn two_parts<R: Source>(
    alloc: Global,
    tape: &mut Tape,
    reader: &mut R,
    first: usize,
    second: usize,
) -> Result<(Vec<u8>, Vec<u8>), Stop>
    ensures short { length tape.new.rest ≤ 64 }
    ensures answer { TwoPartsAnswer tape.old tape.new
        (R.told reader.old) (R.told reader.new) first second result }
{
    let front = tape.part(alloc, reader, first)?;
    let back = tape.part(alloc, reader, second)?;
    Ok((front, back))
}

/// The snapshot of this version, whose URI and text have these lengths.
fn snapshot<R: Source>(
    alloc: Global,
    tape: &mut Tape,
    reader: &mut R,
    version: i32,
    uri: u64,
    text: u64,
) -> Result<Record, Stop>
    ensures short { length tape.new.rest ≤ 64 }
    ensures answer { PartsAnswer tape.old tape.new (R.told reader.old) (R.told reader.new)
        (shown_head version uri text) result }
{
    let (uri, text) = two_parts(alloc, tape, reader, uri as usize, text as usize)?;
    let uri = text_of(uri)?;
    let text = text_of(text)?;
    Ok(Record::Snapshot { version, uri, text })
}

/// The record after its first line.
fn parts<R: Source>(
    alloc: Global,
    tape: &mut Tape,
    reader: &mut R,
    head: Head,
) -> Result<Record, Stop>
    ensures short { length tape.new.rest ≤ 64 }
    ensures answer { PartsAnswer tape.old tape.new (R.told reader.old) (R.told reader.new)
        (head_view head) result }
{
    match head {
        Head::Bytes { side, len } => {
            let bytes = tape.part(alloc, reader, len as usize)?;
            Ok(Record::Bytes { side, bytes })
        }
        Head::Snapshot { version, uri, text } => {
            snapshot(alloc, tape, reader, version, uri, text)
        }
    }
}

/// Where the log has its fault at this stop, the tape holds the line again.
fn put_back(tape: &mut Tape, stop: Stop, line: &[u8])
    requires { length line.now ≤ 64 }
    ensures { tape.new ≡ put_back_at stop line.now tape.old }
{
    match stop {
        Stop::Short | Stop::End | Stop::Text => tape.put_back(line),
        _ => {}
    }
}

/// The record after its first line, which has this many bytes. Where the log has its fault in the
/// record's parts, the tape holds this line again.
fn record_behind<R: Source>(
    alloc: Global,
    tape: &mut Tape,
    reader: &mut R,
    head: Head,
    len: usize,
) -> Result<Record, Stop>
    requires within { len ≤ length tape.old.rest }
    requires near { len ≤ 64 }
    ensures short { length tape.new.rest ≤ 64 }
    ensures line { IfErr result
        (λ stop. is_flaw stop ≡ true → tape.new.rest ≡ take len tape.old.rest) }
    ensures answer { PartsAnswer (record tape.old { rest = drop len tape.old.rest }) tape.new
        (R.told reader.old) (R.told reader.new) (head_view head) result }
{
    let mut line = [0; WINDOW];
    line[..len].copy_from_slice(&tape.near()[..len]);
    tape.skip(len);
    match parts(alloc, tape, reader, head) {
        Ok(record) => Ok(record),
        Err(stop) => {
            put_back(tape, stop, &line[..len]);
            Err(stop)
        }
    }
}

/// The next record. Where the log has its fault instead, the tape holds the first line of what
/// stands there.
pub(crate) fn record<R: Source>(
    alloc: Global,
    limits: &Limits,
    tape: &mut Tape,
    reader: &mut R,
) -> Result<Record, Stop>
    ensures short { length tape.new.rest ≤ 64 }
    ensures answer { FoundAnswer limits.now tape.old tape.new
        (R.told reader.old) (R.told reader.new) result }
{
    let Some(end) = tape.line(reader)? else {
        return match tape.near().len() {
            0 => Err(Stop::Nothing),
            WINDOW => Err(Stop::Form),
            _ => Err(Stop::Short),
        };
    };
    let head = read_head(limits, &tape.near()[..end])?;
    record_behind(alloc, tape, reader, head, end + 1)
}
