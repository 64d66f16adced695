//! The calls of std's reader and writer, each a single line, and what a clause can say of them.
use std::io;
use std::io::{BufReader, BufWriter, Read, Write};

/// A reader, with a word for what a call of it answered, which std lacks.
///
/// Code that is generic in the device is proved whatever `answered` means. So its clauses can say
/// that it answered as one call did: then it neither calls again nor makes up an answer.
pub(crate) trait InputDevice: Read {
    ghost use Rattle.std.specs.Prelude.{ℕ, List, Result};
    ghost use Rattle.std.specs.declared.io.Error.{Error};
    ghost use Rattle.std.specs.Io.{ReadsAtMost};
    ghost use Rattle.std.specs.Io.KnownBytes.{ReadConsumes};

    /// Whether one call that found the device and the buffer so may have answered so, and left them
    /// so.
    ghost answered: { Self → List ℕ → Result ℕ Error → Self → List ℕ → Type 0 };

    /// Reads into the buffer, by one call of the device.
    fn ask(&mut self, buffer: &mut [u8]) -> io::Result<usize>
        ensures count { ReadsAtMost result buffer.new }
        ensures bytes { ReadConsumes (Self.remaining self.old) (Self.remaining self.new) result
            buffer.new }
        ensures answered { answered self.old buffer.old result self.new buffer.new };
}

// Nothing but tests shows that std's reader is called once, and its answer passed on.
impl<R: Read> InputDevice for BufReader<R> {
    ghost answered = { λ _ _ _ _ _. Unit {0} };

    fn ask(&mut self, buffer: &mut [u8]) -> io::Result<usize> {
        self.read(buffer)
    }
}

/// A writer that gathers bytes, with words for what its calls answered.
pub(crate) trait OutputDevice: Write {
    ghost use Rattle.std.specs.Prelude.{◌≡◌, [], ℕ, List, Result, OnOk};
    ghost use Rattle.std.specs.declared.io.Error.{Error};
    ghost use Rattle.std.specs.Io.{WritesAtMost};
    ghost use Rattle.std.specs.Io.KnownBytes.{Keeps, WriteAppends};

    /// The bytes that it gathered and has not passed on.
    ghost gathered: { Self → List ℕ };

    /// Whether one call that found the device so, with these bytes, may have answered so, and left
    /// the device so.
    ghost took: { Self → List ℕ → Result ℕ Error → Self → Type 0 };

    /// The same of a call that passes on what was gathered.
    ghost passed_on: { Self → Result (Unit {0}) Error → Self → Type 0 };

    /// Takes bytes, by one call of the device.
    fn give(&mut self, bytes: &[u8]) -> io::Result<usize>
        ensures count { WritesAtMost result bytes.now }
        ensures bytes { WriteAppends (Self.contents self.old) (Self.contents self.new) result
            bytes.now }
        ensures took { took self.old bytes.now result self.new };

    /// Passes on what was gathered, by one call of the device.
    fn pass_on(&mut self) -> io::Result<()>
        ensures whole { OnOk result (gathered self.new ≡ []) }
        ensures bytes { Keeps (Self.contents self.old) (Self.contents self.new) }
        ensures passed_on { passed_on self.old result self.new };
}

// Nothing but tests shows that std's writer is called once, and its answer passed on.
impl<W: Write + Drop> OutputDevice for BufWriter<W> {
    ghost use Rattle.std.specs.Io.Buffered.{writer_buffer};

    ghost gathered = { λ w. writer_buffer w };

    ghost took = { λ _ _ _ _. Unit {0} };

    ghost passed_on = { λ _ _ _. Unit {0} };

    fn give(&mut self, bytes: &[u8]) -> io::Result<usize> {
        self.write(bytes)
    }

    fn pass_on(&mut self) -> io::Result<()> {
        self.flush()
    }
}
