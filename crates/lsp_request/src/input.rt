//! What a run reads: a file or standard input.
ghost use Rattle.std.specs.Prelude.{◌≡◌, ◌<◌, ◌≤◌, ◌↔◌, ◌+◌, ◌++◌, [], IfOk, OnOk, OnErr, IsSome};
ghost use Rattle.std.specs.Prelude.{length, take, vec_len, vec_capacity};
ghost use Rattle.std.specs.Io.{ReadsAtMost, appended_bytes};
ghost use Rattle.std.specs.Io.KnownBytes.{Consumes, IsAtEnd};
ghost use Rattle.lsp_frame.specs.Told.{CountsFailure, Gave, GaveOnto, KeepsBytes};
ghost use Rattle.lsp_request.specs.Ports.{kept, first_bytes, input_error};

use crate::beginning::Beginning;
use crate::command_line::Task;
use crate::pace::Supply;
use crate::reader::CountedReader;
use crate::watch::Watch;
use lsp_frame::{Failed, Source};
use std::alloc::{AllocError, Global};
use std::io;
use std::io::{BufReader, Read};

/// How many bytes are asked for at once.
const GATHERED: usize = 65_536;

/// How many bytes of what was read ahead a call appends at most. Longer copies would be slower: the
/// room for a long record is touched for the first time.
const PIECE: usize = 8_064;

/// How many bytes a call asks the reader for at most, since these are zeroed first.
const FRESH: usize = 2_048;

/// A reader of what a run of this task asks for. Frames are asked for by as much as is read ahead
/// of other tasks, so nothing is read ahead of them: each piece goes straight to the run.
fn reader_for<R: Read + Drop>(
    alloc: Global,
    reader: R,
    task: &Task<'_>,
) -> Result<BufReader<R>, AllocError>
    ensures { IfOk result (λ ahead. Consumes (R.remaining reader)
        (⟦<BufReader<R> as Read>⟧.remaining ahead) []) }
{
    match task {
        // With room for a byte, since the bytes of a reader without room are not known.
        Task::Frames(_) => BufReader::with_capacity(alloc, 1, reader).map_err(|_| AllocError),
        _ => BufReader::with_capacity(alloc, GATHERED, reader).map_err(|_| AllocError),
    }
}

/// A source over a reader of std, which reads ahead. It keeps what the reader gave first, and the
/// error by which it last failed, and notes what is left of what was read ahead.
#[derive(Drop)]
pub struct BufferedInput<'a, R, V> {
    reader: CountedReader<BufReader<R>>,
    beginning: Beginning,
    supply: &'a Supply<V>,
}

impl<'a, R: Read + Drop, V: Watch> BufferedInput<'a, R, V> {
    /// A source for a run of this task, which has not failed and has given nothing yet.
    pub fn new(
        alloc: Global,
        reader: R,
        task: &Task<'_>,
        supply: &'a Supply<V>,
    ) -> Result<BufferedInput<'a, R, V>, AllocError>
        ensures remaining { IfOk result (λ input.
            Consumes (R.remaining reader)
            (⟦<BufferedInput<'a, R, V> as Source>⟧.told input).bytes []) }
        ensures first { IfOk result (λ input. first_bytes input ≡ []) }
        ensures failures { IfOk result (λ input.
            (⟦<BufferedInput<'a, R, V> as Source>⟧.told input).failures ≡ 0) }
    {
        Ok(BufferedInput {
            reader: CountedReader::new(reader_for(alloc, reader, task)?),
            beginning: Beginning::new(),
            supply,
        })
    }

    /// The bytes that were given first.
    pub fn beginning(&self) -> &Beginning
        ensures { kept result.now ≡ first_bytes self.now }
    {
        &self.beginning
    }

    /// Why the last call failed that did.
    pub fn cause(&self) -> Option<io::Error>
        ensures value { result ≡ input_error self.now }
        ensures failed { IsSome result
            ↔ (0 < (⟦<BufferedInput<'a, R, V> as Source>⟧.told self.now).failures) }
    {
        self.reader.cause()
    }
}

impl<'a, R: Read, V: Watch> Source for BufferedInput<'a, R, V> {
    ghost told = { λ s. record {
      bytes = ⟦<BufReader<R> as Read>⟧.remaining s.reader.reader;
      count = s.reader.tally.bytes;
      failures = s.reader.tally.failures;
    } };

    /// Fills the front of the buffer as the trait says. It fails where the reader does, which is
    /// asked only if nothing is left of what was read ahead.
    fn pull(&mut self, buffer: &mut [u8]) -> Result<usize, Failed>
        ensures count { ReadsAtMost result buffer.new }
        ensures gave { IfOk result (λ n.
            Gave (⟦<BufferedInput<'a, R, V> as Source>⟧.told self.old)
            (⟦<BufferedInput<'a, R, V> as Source>⟧.told self.new) (take n buffer.new)) }
        ensures end { IfOk result (λ n. n ≡ 0 → 0 < length buffer.new
            → IsAtEnd (⟦<BufferedInput<'a, R, V> as Source>⟧.told self.new).bytes) }
        ensures err { OnErr result
            (KeepsBytes (⟦<BufferedInput<'a, R, V> as Source>⟧.told self.old)
            (⟦<BufferedInput<'a, R, V> as Source>⟧.told self.new)) }
        ensures failures { CountsFailure
            (⟦<BufferedInput<'a, R, V> as Source>⟧.told self.old).failures
            (⟦<BufferedInput<'a, R, V> as Source>⟧.told self.new).failures result }
        // The first bytes are kept.
        ensures first { IfOk result (λ n.
            first_bytes self.new ≡ take 32 (first_bytes self.old ++ take n buffer.new)) }
        ensures same_first { OnErr result (first_bytes self.new ≡ first_bytes self.old) }
    {
        let count = self.reader.read(buffer)?;
        self.supply.note(count, self.reader.ahead().len());
        self.beginning.keep(&buffer[..count]);
        Ok(count)
    }

    /// Appends bytes to the buffer as the trait says: at most [`PIECE`] of those that were read
    /// ahead, straight from there, or if there are none, at most [`FRESH`] that the reader gives.
    fn pull_onto(&mut self, buffer: &mut Vec<u8>, most: usize) -> Result<usize, Failed>
        requires room { vec_len buffer.old + most ≤ vec_capacity buffer.old }
        ensures room { vec_capacity buffer.old ≤ vec_capacity buffer.new }
        ensures gave { IfOk result (λ n.
            GaveOnto (⟦<BufferedInput<'a, R, V> as Source>⟧.told self.old)
            (⟦<BufferedInput<'a, R, V> as Source>⟧.told self.new) buffer.old.items buffer.new.items
            most n) }
        ensures end { IfOk result (λ n.
            n ≡ 0 → 0 < most
            → IsAtEnd (⟦<BufferedInput<'a, R, V> as Source>⟧.told self.new).bytes) }
        ensures same { OnErr result (buffer.new.items ≡ buffer.old.items) }
        ensures err { OnErr result
            (KeepsBytes (⟦<BufferedInput<'a, R, V> as Source>⟧.told self.old)
            (⟦<BufferedInput<'a, R, V> as Source>⟧.told self.new)) }
        ensures failures { CountsFailure
            (⟦<BufferedInput<'a, R, V> as Source>⟧.told self.old).failures
            (⟦<BufferedInput<'a, R, V> as Source>⟧.told self.new).failures result }
        // The first bytes are kept.
        ensures first { OnOk result (first_bytes self.new
            ≡ take 32 (first_bytes self.old ++ appended_bytes buffer.old.items buffer.new.items)) }
        ensures same_first { OnErr result (first_bytes self.new ≡ first_bytes self.old) }
    {
        let count = self.reader.ahead().len().min(most).min(PIECE);
        if count == 0 {
            return pull_fresh(self, buffer, most);
        }
        let ahead = &self.reader.ahead()[..count];
        buffer.extend_from_slice(ahead).unwrap();
        self.beginning.keep(ahead);
        self.reader.consume(count);
        self.supply.note(count, self.reader.ahead().len());
        Ok(count)
    }
}

/// Appends what one call of the input gives, at most this many bytes and [`FRESH`].
fn pull_fresh<'a, R: Read, V: Watch>(
    input: &mut BufferedInput<'a, R, V>,
    buffer: &mut Vec<u8>,
    most: usize,
) -> Result<usize, Failed>
    requires room { vec_len buffer.old + most ≤ vec_capacity buffer.old }
    ensures room { vec_capacity buffer.old ≤ vec_capacity buffer.new }
    ensures gave { IfOk result (λ n.
        GaveOnto (⟦<BufferedInput<'a, R, V> as Source>⟧.told input.old)
        (⟦<BufferedInput<'a, R, V> as Source>⟧.told input.new) buffer.old.items buffer.new.items
        most n) }
    ensures end { IfOk result (λ n.
        n ≡ 0 → 0 < most → IsAtEnd (⟦<BufferedInput<'a, R, V> as Source>⟧.told input.new).bytes) }
    ensures same { OnErr result (buffer.new.items ≡ buffer.old.items) }
    ensures err { OnErr result
        (KeepsBytes (⟦<BufferedInput<'a, R, V> as Source>⟧.told input.old)
        (⟦<BufferedInput<'a, R, V> as Source>⟧.told input.new)) }
    ensures failures { CountsFailure
        (⟦<BufferedInput<'a, R, V> as Source>⟧.told input.old).failures
        (⟦<BufferedInput<'a, R, V> as Source>⟧.told input.new).failures result }
    ensures first { OnOk result (first_bytes input.new
        ≡ take 32 (first_bytes input.old ++ appended_bytes buffer.old.items buffer.new.items)) }
    ensures same_first { OnErr result (first_bytes input.new ≡ first_bytes input.old) }
{
    // The kit's readers only fill bytes that are there, and what they say after `fill_buf` does not
    // tell where an unknown input ends. So the bytes are zeroed first. They are few, since the
    // reader reads the next 64 KB ahead in the same call.
    let start = buffer.len();
    buffer.resize(start + most.min(FRESH), 0).unwrap();
    let answer = input.pull(&mut buffer[start..]);
    buffer.truncate(start + answer.unwrap_or(0));
    answer
}
