//! A writer, each of whose errors is counted once.
ghost use Rattle.std.specs.Prelude.{◌≡◌, ◌<◌, ◌↔◌, ◌⊎◌, [], length, None, Ok, Some, Err};
ghost use Rattle.std.specs.Prelude.{IfOk, IfErr, IfSome, OnErr, IsErr, IsErrAnd, IsSome, IsSomeAnd};
ghost use Rattle.std.specs.Prelude.{MatchOption, MatchResult};
ghost use Rattle.std.specs.Io.{WritesAtMost};
ghost use Rattle.std.specs.Io.KnownBytes.{Keeps, WriteAppends};
ghost use Rattle.std.specs.IoError.{error_kind};
ghost use Rattle.std.specs.declared.io.ErrorKind.TheVariants.{WriteZero};
ghost use Rattle.lsp_frame.specs.Told.{CountsFailure, Raises};

use crate::device::OutputDevice;
use crate::io_state::IoState;
use lsp_frame::Failed;
use std::io;
use std::io::{BufWriter, Write};

/// A device that gathers bytes, and what came of its calls. Only `write` and `flush` call it. An
/// error of `flush` is late until a call fails by it, and until then the device cannot be called.
/// So a caller that drops an error, or asks again after one, breaks its own contract, which ties
/// its answer to the count of failures.
#[derive(Drop)]
pub(crate) struct CountedWriter<D> {
    writer: D,
    tally: IoState,
    /// An error of the device by which no call has failed yet.
    late: Option<io::Error>,
}

impl<D: OutputDevice> CountedWriter<D> {
    /// Of a device that was not called yet.
    pub(crate) fn new(writer: D) -> CountedWriter<D>
        ensures writer { result.writer ≡ writer }
        ensures bytes { result.tally.bytes ≡ 0 }
        ensures failures { result.tally.failures ≡ 0 }
        ensures settled { result.late ≡ None }
    {
        CountedWriter {
            writer,
            tally: IoState::new(),
            late: None,
        }
    }

    /// Fails by the error that is late, where one is.
    pub(crate) fn settle(&mut self) -> Result<(), Failed>
        ensures settled { self.new.late ≡ None }
        ensures late { IsErr result ↔ IsSome self.old.late }
        ensures cause { IfSome self.old.late (λ error. self.new.tally.cause ≡ Some error) }
        ensures failures { CountsFailure self.old.tally.failures self.new.tally.failures result }
        ensures bytes { self.new.tally.bytes ≡ self.old.tally.bytes }
        ensures writer { self.new.writer ≡ self.old.writer }
    {
        // Asked first, since taking nothing costs more than a short put.
        if self.late.is_none() {
            return Ok(());
        }
        let late = self.late.take();
        self.tally.heed(late.map_or(Ok(()), Err))
    }

    /// Calls the device once, and answers as it does, where taking none of some bytes is an error.
    /// Where it fails, its error is the cause.
    pub(crate) fn write(&mut self, bytes: &[u8]) -> Result<usize, Failed>
        requires { self.old.late ≡ None }
        ensures count { WritesAtMost result bytes.now }
        ensures some { IfOk result (λ n. 0 < length bytes.now → 0 < n) }
        ensures bytes { WriteAppends (D.contents self.old.writer) (D.contents self.new.writer)
            result bytes.now }
        ensures took { MatchResult result
            (λ n. D.took self.old.writer bytes.now (Ok n) self.new.writer)
            (λ _. IsSomeAnd self.new.tally.cause (λ error.
            D.took self.old.writer bytes.now (Err error) self.new.writer
            ⊎ (D.took self.old.writer bytes.now (Ok 0) self.new.writer
            × (error_kind error ≡ WriteZero)))) }
        ensures raises { IfOk result (λ n. Raises self.old.tally.bytes self.new.tally.bytes n) }
        ensures no_bytes { OnErr result (self.new.tally.bytes ≡ self.old.tally.bytes) }
        ensures failures { CountsFailure self.old.tally.failures self.new.tally.failures result }
        ensures settled { self.new.late ≡ None }
    {
        let answer = taken(self.writer.give(bytes), bytes.len());
        self.tally.count(answer)
    }

    /// Has the device pass on once what was gathered. Where it fails, its error is late, and what
    /// it did not take stays gathered.
    pub(crate) fn flush(&mut self)
        requires { self.old.late ≡ None }
        ensures whole { self.new.late ≡ None → D.gathered self.new.writer ≡ [] }
        ensures bytes { Keeps (D.contents self.old.writer) (D.contents self.new.writer) }
        ensures passed_on { MatchOption self.new.late
            (D.passed_on self.old.writer (Ok tt) self.new.writer)
            (λ error. D.passed_on self.old.writer (Err error) self.new.writer) }
        ensures tally { self.new.tally ≡ self.old.tally }
    {
        self.late = self.writer.pass_on().err();
    }

    /// Why the last call failed that did.
    pub(crate) fn cause(&self) -> Option<io::Error>
        ensures value { result ≡ self.now.tally.cause }
        ensures failed { IsSome result ↔ (0 < self.now.tally.failures) }
    {
        self.tally.cause()
    }
}

impl<W: Write + Drop> CountedWriter<BufWriter<W>> {
    /// Whether nothing is gathered.
    pub(crate) fn is_empty(&self) -> bool {
        self.writer.buffer().is_empty()
    }

    /// Whether so many bytes are gathered too, and nothing is passed on for them: std's writer
    /// gathers what is shorter than the room that it has left.
    pub(crate) fn has_room(&self, count: usize) -> bool {
        let gathered = self.writer.buffer().len();
        count < self.writer.capacity().saturating_sub(gathered)
    }
}

/// The answer of a writer that answered so to this many bytes, where taking none of some bytes is
/// an error.
fn taken(answer: io::Result<usize>, len: usize) -> io::Result<usize>
    ensures some { IfOk answer (λ n. (0 < n) ⊎ (len ≡ 0) → result ≡ Ok n) }
    ensures none { IfOk answer
        (λ n. n ≡ 0 → 0 < len → IsErrAnd result (λ error. error_kind error ≡ WriteZero)) }
    ensures err { IfErr answer (λ error. result ≡ Err error) }
{
    match answer {
        Ok(0) if len > 0 => Err(io::Error::from(io::ErrorKind::WriteZero)),
        _ => answer,
    }
}
