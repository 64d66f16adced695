//! Where a run writes: standard output.
use crate::pace::Pace;
use crate::watch::Watch;
use crate::writer::CountedWriter;
use lsp_frame::{Failed, Sink};
use std::alloc::{AllocError, Global};
use std::io;
use std::io::{BufWriter, Write};

/// How many bytes are gathered before they are written.
const GATHERED: usize = 65_536;

/// A sink over a writer of std, which gathers bytes and writes them together. It keeps the error by
/// which it last failed.
#[derive(Drop)]
pub struct BufferedOutput<'a, W: Write + Drop, V> {
    writer: CountedWriter<BufWriter<W>>,
    pace: Pace<'a, V>,
}

impl<'a, W: Write + Drop, V: Watch> BufferedOutput<'a, W, V> {
    ghost use Rattle.std.specs.Prelude.{◌≡◌, ◌<◌, ◌↔◌, [], None, IfOk, OnOk, IsSome};
    ghost use Rattle.std.specs.Io.KnownBytes.{Appends};
    ghost use Rattle.lsp_frame.specs.Told.{CountsFailure, KeepsBytes};
    ghost use Rattle.lsp_request.specs.Ports.{late_error, output_error, unwritten};

    /// A sink that has not failed, and holds no bytes back.
    pub fn new(
        alloc: Global,
        writer: W,
        pace: Pace<'a, V>,
    ) -> Result<BufferedOutput<'a, W, V>, AllocError>
        ensures taken { IfOk result
            (λ output. Appends (W.contents writer)
            (⟦<BufferedOutput<'a, W, V> as Sink>⟧.told output).bytes []) }
        ensures empty { IfOk result (λ output. unwritten output ≡ []) }
        ensures failures { IfOk result
            (λ output. (⟦<BufferedOutput<'a, W, V> as Sink>⟧.told output).failures ≡ 0) }
        ensures settled { IfOk result (λ output. late_error output ≡ None) }
    {
        let writer = BufWriter::with_capacity(alloc, GATHERED, writer).map_err(|_| AllocError)?;
        Ok(BufferedOutput {
            writer: CountedWriter::new(writer),
            pace,
        })
    }

    /// Writes what was gathered.
    ///
    /// # Errors
    /// `Failed` where the writer failed, now or when bytes were passed on after the last put. What
    /// it did not take stays gathered, and is written by the next flush.
    pub fn flush(&mut self) -> Result<(), Failed>
        ensures whole { OnOk result (unwritten self.new ≡ []) }
        ensures bytes { KeepsBytes (⟦<BufferedOutput<'a, W, V> as Sink>⟧.told self.old)
            (⟦<BufferedOutput<'a, W, V> as Sink>⟧.told self.new) }
        ensures failures { CountsFailure
            (⟦<BufferedOutput<'a, W, V> as Sink>⟧.told self.old).failures
            (⟦<BufferedOutput<'a, W, V> as Sink>⟧.told self.new).failures result }
        // Every error of the writer so far was counted.
        ensures settled { late_error self.new ≡ None }
    {
        self.writer.settle()?;
        self.pace.make_way_unless(self.writer.is_empty());
        self.writer.flush();
        // An error of the writer is late now, and the call fails by it.
        self.writer.settle()
    }

    /// Why the last call failed that did.
    pub fn cause(&self) -> Option<io::Error>
        ensures value { result ≡ output_error self.now }
        ensures failed { IsSome result
            ↔ (0 < (⟦<BufferedOutput<'a, W, V> as Sink>⟧.told self.now).failures) }
    {
        self.writer.cause()
    }
}

impl<'a, W: Write + Drop, V: Watch> Sink for BufferedOutput<'a, W, V> {
    ghost told = { λ s. record {
      bytes = ⟦<BufWriter<W> as Write>⟧.contents s.writer.writer;
      count = s.writer.tally.bytes;
      failures = s.writer.tally.failures;
    } };

    /// Takes bytes as the trait says. It fails where the writer fails or takes none of some bytes,
    /// even if that happened when bytes were passed on after the last put. The writer is called
    /// only where the bytes don't fit after those that were gathered, or what is gathered is due.
    fn put(&mut self, bytes: &[u8]) -> Result<usize, Failed> {
        self.writer.settle()?;
        self.pace.make_way_unless(self.writer.has_room(bytes.len()));
        let count = self.writer.write(bytes)?;
        if self.pace.is_due() {
            self.pace.make_way_unless(self.writer.is_empty());
            self.writer.flush();
        }
        Ok(count)
    }
}
