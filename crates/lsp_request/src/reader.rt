//! A reader, each of whose answers is counted.
ghost use Rattle.std.specs.Prelude.{◌≡◌, ◌<◌, ◌≤◌, ◌↔◌, length, take, Ok, Err, IfOk, OnErr};
ghost use Rattle.std.specs.Prelude.{IsSome, IsSomeAnd, MatchResult};
ghost use Rattle.std.specs.Io.{ReadsAtMost};
ghost use Rattle.std.specs.Io.Buffered.{reader_buffer};
ghost use Rattle.std.specs.Io.KnownBytes.{Consumes, ReadConsumes};
ghost use Rattle.lsp_frame.specs.Told.{CountsFailure, Raises};

use crate::device::InputDevice;
use crate::io_state::IoState;
use lsp_frame::Failed;
use std::io;
use std::io::{BufRead, BufReader, Read};

/// A device, and what came of its calls. Only `read` calls it, and counts each error that it
/// answers. So a caller that drops an error, or asks again after one, breaks its own contract,
/// which ties its answer to that count.
#[derive(Drop)]
pub(crate) struct CountedReader<D> {
    reader: D,
    tally: IoState,
}

impl<D: InputDevice> CountedReader<D> {
    /// Of a device that was not called yet.
    pub(crate) fn new(reader: D) -> CountedReader<D>
        ensures reader { result.reader ≡ reader }
        ensures bytes { result.tally.bytes ≡ 0 }
        ensures failures { result.tally.failures ≡ 0 }
    {
        CountedReader {
            reader,
            tally: IoState::new(),
        }
    }

    /// Calls the device once, and answers as it does. Where it fails, its error is the cause.
    pub(crate) fn read(&mut self, buffer: &mut [u8]) -> Result<usize, Failed>
        ensures count { ReadsAtMost result buffer.new }
        ensures bytes { ReadConsumes (D.remaining self.old.reader) (D.remaining self.new.reader)
            result buffer.new }
        ensures answered { MatchResult result
            (λ n. D.answered self.old.reader buffer.old (Ok n) self.new.reader buffer.new)
            (λ _. IsSomeAnd self.new.tally.cause (λ error.
            D.answered self.old.reader buffer.old (Err error) self.new.reader buffer.new)) }
        ensures raises { IfOk result (λ n. Raises self.old.tally.bytes self.new.tally.bytes n) }
        ensures no_bytes { OnErr result (self.new.tally.bytes ≡ self.old.tally.bytes) }
        ensures failures { CountsFailure self.old.tally.failures self.new.tally.failures result }
    {
        let answer = self.reader.ask(buffer);
        self.tally.count(answer)
    }

    /// Why the last call failed that did.
    pub(crate) fn cause(&self) -> Option<io::Error>
        ensures value { result ≡ self.now.tally.cause }
        ensures failed { IsSome result ↔ (0 < self.now.tally.failures) }
    {
        self.tally.cause()
    }
}

impl<R: Read> CountedReader<BufReader<R>> {
    /// What was read ahead.
    pub(crate) fn ahead(&self) -> &[u8]
        ensures { result.now ≡ reader_buffer self.now.reader }
    {
        self.reader.buffer()
    }

    /// Gives bytes that were read ahead, this many.
    pub(crate) fn consume(&mut self, count: usize)
        requires { count ≤ length (reader_buffer self.old.reader) }
        ensures bytes { Consumes (⟦<BufReader<R> as Read>⟧.remaining self.old.reader)
            (⟦<BufReader<R> as Read>⟧.remaining self.new.reader)
            (take count (reader_buffer self.old.reader)) }
        ensures raises { Raises self.old.tally.bytes self.new.tally.bytes count }
        ensures failures { self.new.tally.failures ≡ self.old.tally.failures }
    {
        self.reader.consume(count);
        self.tally.raise(count);
    }
}
