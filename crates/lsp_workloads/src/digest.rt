//! A digest of what is written.
use std::io;
use std::io::Write;

/// How many bytes were written, and their digest (FNV-1a, 64 bits).
#[derive(Clone, Copy)]
pub(crate) struct Digest {
    pub(crate) count: u64,
    pub(crate) sum: u64,
}

impl Digest {
    /// Of nothing.
    pub(crate) fn new() -> Digest {
        Digest {
            count: 0,
            sum: 0xcbf2_9ce4_8422_2325,
        }
    }
}

impl Write for Digest {
    fn write(&mut self, bytes: &[u8]) -> io::Result<usize> {
        for byte in bytes {
            self.sum = (self.sum ^ *byte as u64).wrapping_mul(0x0100_0000_01b3);
        }
        self.count = self.count.saturating_add(bytes.len() as u64);
        Ok(bytes.len())
    }

    fn flush(&mut self) -> io::Result<()> {
        Ok(())
    }
}
