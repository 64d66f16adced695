//! A run over one raw stream of frames (LSP 3.17, "Base Protocol"): one direction of what passed
//! between an editor and a server.
ghost use Rattle.std.specs.Prelude.{◌≡◌, ◌≤◌, ◌<◌, ◌+◌, ◌^◌, ◌∷◌, ◌++◌, [], ℕ, List, length, drop};
ghost use Rattle.std.specs.Prelude.{decimal, None, false, IfSome};
ghost use Rattle.lsp_replay.specs.Common.{Bounds, IsInRange, Lengths, Misses, ports, StandsFor};
ghost use Rattle.lsp_replay.specs.Common.{Tells, Told, Writes};
ghost use Rattle.lsp_extract.specs.Stream.{numbers, kind_line, outcome_at, RunsFrames, fault_of};
ghost use Rattle.lsp_extract.specs.Stream.{closing, WritesPart, AreParts, Finds, PartsAnswer};
ghost use Rattle.lsp_extract.specs.Stream.{ToldAll, IsLong, LongAnswer};

use itoa::write_digits;
use lsp_frame::{Decoder, Limits, Missing, Sink, Source, WriteFault, put_all, write_frame};
use lsp_outline::MessageReader;
use lsp_verdict::{Mode, Outcome, RunFault, StreamFault, stream_report};
use std::alloc::Global;

/// How many bytes are requested from the source at once.
const PIECE: u64 = 65_536;

/// The least length of a content that is dropped where only its length is due. A shorter one is
/// held, since moving it costs less than one more call of the source.
const LONG: usize = 4_096;

/// The most bytes of a line of numbers: two numbers of 20 digits, a space, and an end.
const LINE: usize = 42;

/// Puts the digits of a number into a line so that they end there, and gives where they start.
fn fill_number(line: &mut [u8], number: u64, end: usize) -> usize
    requires { (20 ≤ end) × (end ≤ length line.old) }
    ensures start { (end ≤ result + 20) × (result ≤ end) }
    ensures written { drop result line.new ≡ decimal number ++ drop end line.old }
{
    write_digits(number, line, end)
}

/// Writes the frame's number, the length of its content in bytes, and the end.
fn write_numbers<W: Sink>(writer: &mut W, frame: u64, len: u64, end: u8) -> Result<(), WriteFault>
    ensures { Writes (W.told writer.old)
        (W.told writer.new)
        result (numbers frame len (end ∷ [])) }
{
    // Filled from its end, so that the line is put at once.
    let mut line = [end; LINE];
    let size = fill_number(&mut line, len, LINE - 1);
    line[size - 1] = b' ';
    let start = fill_number(&mut line, frame, size - 1);
    put_all(writer, &line[start..])
}

/// Writes a frame's numbers and the words that name its message.
fn write_kind_line<W: Sink>(
    writer: &mut W,
    frame: u64,
    content: &[u8],
    words: &[u8],
) -> Result<(), WriteFault>
    ensures { Writes (W.told writer.old)
        (W.told writer.new)
        result (kind_line frame content.now words.now) }
{
    write_numbers(writer, frame, content.len() as u64, b' ')?;
    put_all(writer, words)?;
    put_all(writer, b"\n")
}

/// Writes the line of the message that the content is (JSON-RPC 2.0, sections 4 and 5), or gives
/// the rule that it breaks.
fn write_kind<W: Sink>(
    messages: &mut MessageReader,
    writer: &mut W,
    frame: u64,
    content: &[u8],
) -> Result<Option<u16>, RunFault>
    ensures { WritesPart Mode.Kinds frame content.now (W.told writer.old) (W.told writer.new)
        result }
{
    let words = match messages.words(content) {
        Ok(words) => words,
        Err(fault) => return Ok(Some(fault.rule()?)),
    };
    write_kind_line(writer, frame, content, words.as_bytes())?;
    Ok(None)
}

/// Writes the part of one frame, or gives the rule by which the mode refuses its content.
fn write_part<W: Sink>(
    messages: &mut MessageReader,
    writer: &mut W,
    mode: Mode,
    frame: u64,
    content: &[u8],
) -> Result<Option<u16>, RunFault>
    requires { length content.now ≤ 67108864 }
    ensures { WritesPart mode frame content.now (W.told writer.old) (W.told writer.new)
        result }
{
    match mode {
        Mode::Lengths => write_numbers(writer, frame, content.len() as u64, b'\n')?,
        Mode::Canonical => write_frame(writer, content)?,
        Mode::Kinds => return write_kind(messages, writer, frame, content),
    }
    Ok(None)
}

/// Writes the part of each whole frame that the decoder holds and counts it, until nothing whole is
/// left or a fault is met, whose rule is given.
fn write_found<W: Sink>(
    decoder: &mut Decoder,
    messages: &mut MessageReader,
    writer: &mut W,
    mode: Mode,
    given: &mut u64,
) -> Result<Option<u16>, RunFault>
    requires room { given.old + length decoder.old.rest < 2 ^ 64 }
    requires range { IsInRange decoder.old.limits }
    ensures room { given.new + length decoder.new.rest ≤ given.old + length decoder.old.rest }
    ensures limits { decoder.new.limits ≡ decoder.old.limits }
    ensures answer { (bytes : List ℕ) (contents : List (List ℕ)) (parts : List ℕ) →
        StandsFor decoder.old bytes contents → given.old ≡ length contents
        → AreParts mode 1 contents parts →
        Finds decoder.new mode (W.told writer.old) (W.told writer.new)
        given.new bytes parts result }
{
    loop {
        match decoder.next() {
            Err(fault) => return Ok(Some(fault.rule)),
            Ok(None) => return Ok(None),
            Ok(Some(content)) => {
                if let Some(rule) = write_part(messages, writer, mode, *given + 1, content)? {
                    return Ok(Some(rule));
                }
                *given += 1;
            }
        }
    }
}

/// The next content, where only its length is due, it is long, and at least one and at most this
/// many of its bytes are missing.
fn long_content(decoder: &Decoder, mode: Mode, left: u64) -> Option<Missing>
    ensures { IfSome result (λ missing. IsLong decoder.now mode left missing) }
{
    if mode != Mode::Lengths {
        return None;
    }
    let missing = decoder.missing()?;
    if missing.content < LONG || missing.bytes as u64 > left {
        return None;
    }
    Some(missing)
}

/// Drops a long content and writes its length. `false` where the source ended inside it.
fn write_long<R: Source, W: Sink>(
    decoder: &mut Decoder,
    reader: &mut R,
    writer: &mut W,
    given: &mut u64,
    missing: Missing,
) -> Result<bool, RunFault>
    requires missing { Misses decoder.old missing }
    requires room { given.old < 2 ^ 63 }
    ensures count { given.new ≤ given.old + 1 }
    ensures answer { (limits : Bounds) (before sink_before : Told) (read : ℕ) →
        ToldAll limits Lengths before (R.told reader.old) sink_before (W.told writer.old)
        decoder.old given.old read
        → read + missing.bytes ≤ limits.log
        → LongAnswer limits Lengths before (R.told reader.new) sink_before (W.told writer.new)
        decoder.new given.new (read + missing.bytes) result }
{
    if !decoder.pass(reader, missing)? {
        return Ok(false);
    }
    write_numbers(writer, *given + 1, missing.content as u64, b'\n')?;
    *given += 1;
    Ok(true)
}

/// The outcome where the source is at its end and the decoder has no whole frame left.
fn outcome_at_end(decoder: &Decoder, given: u64) -> Outcome
    requires { given < 2 ^ 63 }
    ensures { decoder.now.fault ≡ None
        → result ≡ outcome_at (given + 1) (fault_of None false decoder.now.rest) }
{
    match decoder.finish() {
        Ok(()) => Outcome::Done,
        Err(fault) => Outcome::Stream {
            frame: given + 1,
            fault: StreamFault::Rule(fault.rule),
        },
    }
}

/// Reads a stream piece by piece, and writes the parts of its frames.
fn write_parts<R: Source, W: Sink>(
    alloc: Global,
    reader: &mut R,
    writer: &mut W,
    limits: Limits,
    mode: Mode,
) -> Result<Outcome, RunFault>
    ensures { PartsAnswer limits mode (R.told reader.old) (R.told reader.new)
        (W.told writer.old)
        (W.told writer.new)
        result }
{
    let log = limits.log();
    let mut decoder = Decoder::new(alloc, limits);
    let mut messages = MessageReader::new(alloc);
    let mut given = 0;
    let mut read = 0;
    loop {
        if let Some(rule) = write_found(&mut decoder, &mut messages, writer, mode, &mut given)? {
            return Ok(Outcome::Stream {
                frame: given + 1,
                fault: StreamFault::Rule(rule),
            });
        }
        if let Some(missing) = long_content(&decoder, mode, log - read) {
            if !write_long(&mut decoder, reader, writer, &mut given, missing)? {
                return Ok(outcome_at_end(&decoder, given));
            }
            read += missing.bytes as u64;
            continue;
        }
        // At the limit one byte more shows whether the stream continues.
        let most = (log - read).min(PIECE).max(1) as u32;
        let count = decoder.pull(reader, most)?;
        if count == 0 {
            return Ok(outcome_at_end(&decoder, given));
        }
        if read == log {
            return Ok(Outcome::Stream {
                frame: given + 1,
                fault: StreamFault::TooLong,
            });
        }
        read += count as u64;
    }
}

/// Writes the report of a fault after the parts, in the modes that write it to the same sink.
fn write_closing<W: Sink>(
    alloc: Global,
    writer: &mut W,
    mode: Mode,
    outcome: &Outcome,
) -> Result<(), RunFault>
    ensures { Tells (W.told writer.old) (W.told writer.new)
        (closing mode outcome.now) result }
{
    if let Outcome::Stream { frame, fault } = outcome
        && mode != Mode::Canonical
    {
        let report = stream_report(alloc, *frame, *fault)?;
        put_all(writer, report.as_slice())?;
    }
    Ok(())
}

/// Reads one raw stream of frames (LSP 3.17, "Base Protocol"), and writes for each frame what the
/// mode says. In `Canonical` the report of a fault is the caller's to show; in the other modes it
/// follows on the same sink.
///
/// A stream of more bytes than the log limit is judged by its bytes up to the limit; one more is
/// read, to see that it continues.
///
/// The answer is `Read` where the source failed, `Write` where the sink did, and `Memory` where
/// memory was refused; what was written before stays written.
pub fn run_frames<R: Source, W: Sink>(
    alloc: Global,
    reader: &mut R,
    writer: &mut W,
    limits: Limits,
    mode: Mode,
) -> Result<Outcome, RunFault>
    ensures framed { RunsFrames mode limits (ports (R.told reader.old) (R.told reader.new)
        (W.told writer.old) (W.told writer.new)) result }
{
    let outcome = write_parts(alloc, reader, writer, limits, mode)?;
    write_closing(alloc, writer, mode, &outcome)?;
    Ok(outcome)
}
