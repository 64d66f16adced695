//! Canonical frames (LSP 3.17, "Base Protocol").
ghost use Rattle.std.specs.Prelude.{◌≡◌, ◌≤◌, ◌+◌, ◌++◌, codes, decimal, drop, length};
ghost use Rattle.lsp_frame.specs.Header.{blank_line};
ghost use Rattle.lsp_frame.specs.Sink.{Writes, canonical};

use crate::io::{Failed, Sink};
use itoa::write_digits;
use thiserror::Error;

/// A call of the sink failed: what was written is only a prefix of what was due.
#[derive(Clone, Copy, Debug, PartialEq, Eq, Error)]
#[error("a write failed")]
pub struct WriteFault;

impl From<Failed> for WriteFault {
    fn from(_failed: Failed) -> WriteFault {
        WriteFault
    }
}

/// Writes all the bytes, in as many calls as the sink needs.
pub fn put_all<W: Sink>(writer: &mut W, bytes: &[u8]) -> Result<(), WriteFault>
    ensures { Writes (W.told writer.old) (W.told writer.new) result bytes.now }
{
    let mut rest = bytes;
    while !rest.is_empty() {
        let count = writer.put(rest)?;
        rest = &rest[count..];
    }
    Ok(())
}

/// Puts bytes into a line so that they end there, and gives where they start.
fn fill_bytes(line: &mut [u8], bytes: &[u8], end: usize) -> usize
    requires { (length bytes.now ≤ end) × (end ≤ length line.old) }
    ensures start { result + length bytes.now ≡ end }
    ensures written { drop result line.new ≡ bytes.now ++ drop end line.old }
{
    let start = end - bytes.len();
    line[start..end].copy_from_slice(bytes);
    start
}

/// Writes the header part of the canonical frame of a content of this length.
fn write_header<W: Sink>(writer: &mut W, len: usize) -> Result<(), WriteFault>
    requires { len ≤ 67108864 }
    ensures { Writes (W.told writer.old)
        (W.told writer.new)
        result (codes "Content-Length: " ++ decimal len ++ blank_line) }
{
    // Filled from its end, so that the header part is put at once.
    let mut header = *b"Content-Length: 00000000\r\n\r\n";
    let digits = write_digits(len as u64, &mut header, 24);
    let start = fill_bytes(&mut header, b"Content-Length: ", digits);
    put_all(writer, &header[start..])
}

/// Writes the canonical frame of the content: the one field `Content-Length`, with its number of
/// bytes without leading zeros, and the content.
pub fn write_frame<W: Sink>(writer: &mut W, content: &[u8]) -> Result<(), WriteFault>
    requires { length content.now ≤ 67108864 }
    ensures { Writes (W.told writer.old) (W.told writer.new) result (canonical content.now) }
{
    write_header(writer, content.len())?;
    put_all(writer, content)
}
