//! Where bytes come from and where they go. A contract can name the bytes of both, where they are
//! known.
ghost use Rattle.std.specs.Prelude.{◌≡◌, ◌⊎◌, ◌<◌, ◌≤◌, ◌+◌, Ok, IfOk, OnErr, IsErr, length, take};
ghost use Rattle.std.specs.Prelude.{vec_len, vec_capacity};
ghost use Rattle.std.specs.Io.{ReadsAtMost, WritesAtMost};
ghost use Rattle.std.specs.Io.KnownBytes.{IsAtEnd};
ghost use Rattle.lsp_frame.specs.Told.{Told, Gave, GaveOnto, Took, KeepsBytes, CountsFailure};
ghost use Rattle.lsp_frame.specs.Told.{Raises};

use std::io;
use std::io::{Read, Write};
use thiserror::Error;

/// A call of a source or a sink failed. It gave or took no byte.
#[derive(Clone, Copy, Debug, PartialEq, Eq, Error)]
#[error("a read or a write failed")]
pub struct Failed;

/// What gives bytes, as `std::io::Read` does.
pub trait Source {
    /// The bytes still to give, where they are known, how many were given, and how many calls have
    /// failed.
    ghost told: { Self → Told };

    /// Fills the front of the buffer, and says with how many bytes: none only at the end, or where
    /// there is no room.
    fn pull(&mut self, buffer: &mut [u8]) -> Result<usize, Failed>
        ensures count { ReadsAtMost result buffer.new }
        ensures gave { IfOk result (λ n. Gave (told self.old) (told self.new) (take n buffer.new)) }
        ensures end { IfOk result (λ n.
            n ≡ 0 → 0 < length buffer.new → IsAtEnd (told self.new).bytes) }
        ensures err { OnErr result (KeepsBytes (told self.old) (told self.new)) }
        ensures failures { CountsFailure (told self.old).failures (told self.new).failures result };

    /// Appends the next bytes of the source to the buffer, and says how many: at most `most`, for
    /// which the buffer must have room, and none only at the end, or if none are wanted. A source
    /// that reads ahead copies them straight from what it holds.
    fn pull_onto(&mut self, buffer: &mut Vec<u8>, most: usize) -> Result<usize, Failed>
        requires room { vec_len buffer.old + most ≤ vec_capacity buffer.old }
        ensures room { vec_capacity buffer.old ≤ vec_capacity buffer.new }
        ensures gave { IfOk result (λ n.
            GaveOnto (told self.old) (told self.new) buffer.old.items buffer.new.items most n) }
        ensures end { IfOk result (λ n. n ≡ 0 → 0 < most → IsAtEnd (told self.new).bytes) }
        ensures same { OnErr result (buffer.new.items ≡ buffer.old.items) }
        ensures err { OnErr result (KeepsBytes (told self.old) (told self.new)) }
        ensures failures { CountsFailure (told self.old).failures (told self.new).failures result }
    {
        let start = buffer.len();
        buffer.resize(start + most, 0).unwrap();
        let answer = self.pull(&mut buffer[start..]);
        buffer.truncate(start + answer.unwrap_or(0));
        answer
    }
}

/// What takes bytes, as `std::io::Write` does.
pub trait Sink {
    /// The bytes taken so far, where they are known, how many they are, and how many calls have
    /// failed.
    ghost told: { Self → Told };

    /// Takes bytes from the front, and says how many: at least one, unless it was given none.
    fn put(&mut self, bytes: &[u8]) -> Result<usize, Failed>
        ensures count { WritesAtMost result bytes.now }
        ensures some { IfOk result (λ n. 0 < length bytes.now → 0 < n) }
        ensures took { IfOk result (λ n. Took (told self.old) (told self.new) (take n bytes.now)) }
        ensures err { OnErr result (KeepsBytes (told self.old) (told self.new)) }
        ensures failures { CountsFailure (told self.old).failures (told self.new).failures result };
}

/// How many bytes were moved, and how many calls have failed, each up to the greatest `u64`.
#[derive(Clone, Copy)]
struct IoStats {
    bytes: u64,
    failures: u64,
}

impl IoStats {
    /// Counts a call by its answer, and passes that through.
    fn count(&mut self, answer: Result<usize, Failed>) -> Result<usize, Failed>
        ensures same { result ≡ answer }
        ensures bytes { IfOk answer (λ n. Raises self.old.bytes self.new.bytes n) }
        ensures no_bytes { OnErr answer (self.new.bytes ≡ self.old.bytes) }
        ensures failures { CountsFailure self.old.failures self.new.failures answer }
    {
        match answer {
            Ok(count) => self.bytes = self.bytes.saturating_add(count as u64),
            Err(Failed) => self.failures = self.failures.saturating_add(1),
        }
        answer
    }
}

/// The answer of a source whose reader answered so: it fails where the reader did.
fn pulled(answer: io::Result<usize>) -> Result<usize, Failed>
    ensures ok { IfOk answer (λ n. result ≡ Ok n) }
    ensures err { OnErr answer (IsErr result) }
{
    answer.map_err(|_| Failed)
}

/// The answer of a sink whose writer answered so to this many bytes: it fails where the writer did,
/// or where that took none of some bytes.
fn taken(answer: io::Result<usize>, len: usize) -> Result<usize, Failed>
    ensures some { IfOk answer (λ n. (0 < n) ⊎ (len ≡ 0) → result ≡ Ok n) }
    ensures none { IfOk answer (λ n. n ≡ 0 → 0 < len → IsErr result) }
    ensures err { OnErr answer (IsErr result) }
{
    match answer {
        Ok(count) if count > 0 || len == 0 => Ok(count),
        _ => Err(Failed),
    }
}

/// A source over a reader of std, whose bytes it gives.
#[derive(Drop)]
pub struct Input<R> {
    reader: R,
    tally: IoStats,
}

impl<R: Read> Input<R> {
    /// A source that has given nothing and has not failed.
    pub fn new(reader: R) -> Input<R>
        ensures { ⟦<Input<R> as Source>⟧.told result
            ≡ record { bytes = R.remaining reader; count = 0; failures = 0 } }
    {
        Input {
            reader,
            tally: IoStats {
                bytes: 0,
                failures: 0,
            },
        }
    }
}

impl<R: Read> Source for Input<R> {
    ghost told = { λ s. record {
      bytes = R.remaining s.reader;
      count = s.tally.bytes;
      failures = s.tally.failures;
    } };

    fn pull(&mut self, buffer: &mut [u8]) -> Result<usize, Failed> {
        let answer = pulled(self.reader.read(buffer));
        self.tally.count(answer)
    }
}

/// A sink over a writer of std, which takes its bytes. A writer that takes none of some bytes
/// fails.
#[derive(Drop)]
pub struct Output<W> {
    writer: W,
    tally: IoStats,
}

impl<W: Write> Output<W> {
    /// A sink that took nothing and has not failed.
    pub fn new(writer: W) -> Output<W>
        ensures { ⟦<Output<W> as Sink>⟧.told result
            ≡ record { bytes = W.contents writer; count = 0; failures = 0 } }
    {
        Output {
            writer,
            tally: IoStats {
                bytes: 0,
                failures: 0,
            },
        }
    }
}

impl<W: Write> Sink for Output<W> {
    ghost told = { λ s. record {
      bytes = W.contents s.writer;
      count = s.tally.bytes;
      failures = s.tally.failures;
    } };

    fn put(&mut self, bytes: &[u8]) -> Result<usize, Failed> {
        let answer = taken(self.writer.write(bytes), bytes.len());
        self.tally.count(answer)
    }
}
