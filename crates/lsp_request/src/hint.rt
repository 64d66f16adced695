//! What an input seems to be that is not what the command reads.
ghost use Rattle.std.specs.Prelude.{◌≡◌, ◌≤◌, drop, length, take};
ghost use Rattle.std.specs.List.{prefix_len};
ghost use Rattle.lsp_request.specs.Hints.{begins, has_line_ends, is_compressed, is_stream};
ghost use Rattle.lsp_request.specs.Hints.{has_header, is_field, is_line_byte, is_name_byte};
ghost use Rattle.lsp_request.specs.Hints.{has_no_header, log_hint, run_hint, session_hint, hint_of};
ghost use Rattle.lsp_request.specs.Hints.{is_dated, is_labelled, is_timed, is_trace, stream_hint};

use crate::task_outcome::TaskOutcome;
use lsp_judge::{EventOutcome, Outcome, RunFault, StreamFault, Verdict};
use lsp_types::rules;
use std::fmt;

/// What an input seems to be that is not what the command reads.
#[derive(Clone, Copy, Debug, PartialEq, Eq)]
pub enum Hint {
    /// Nothing at all.
    Empty,
    /// One raw direction of a session, where a log was wanted.
    RawStream,
    /// A log, where one raw direction of a session was wanted.
    Log,
    /// A log whose first line ends with CR LF.
    LineEnds,
    /// A log after a byte order mark.
    ByteOrderMark,
    /// A log in a format of another number.
    OtherFormat,
    /// A compressed file.
    Compressed,
    /// A trace, which an editor or a server wrote of its messages.
    Trace,
    /// None of these, where a log was wanted.
    Unknown,
    /// None of these, where one raw direction of a session was wanted.
    NoHeader,
    /// A log in which the document that was asked for is not open.
    OtherDocuments,
}

impl fmt::Display for Hint {
    ghost use Rattle.std.specs.Prelude.{Some};
    ghost use Rattle.lsp_request.specs.Hints.{hint_text};

    ghost output = { λ hint. Some (hint_text hint) };

    fn fmt<W: fmt::Write>(&self, f: &mut fmt::Formatter<W>) -> fmt::Result {
        f.write_str(match self {
            Hint::Empty => "the input is empty: the recorder wrote nothing",
            Hint::RawStream => "this looks like one raw stream of frames: try 'lspcheck frames'",
            Hint::Log => "this looks like the log of a session: try 'lspcheck check'",
            Hint::LineEnds => "the first line ends in CR LF; the lines of a log end in LF alone",
            Hint::ByteOrderMark => "the input begins with a byte order mark; a log has none",
            Hint::OtherFormat => "this version of lspcheck does not know the format of this log",
            Hint::Compressed => "the input is compressed: unpack it first",
            Hint::Trace => "this looks like a trace: 'recorders/from-trace FILE' makes a log of it",
            Hint::Unknown => "a log begins with the line 'lsp-session 2': see docs/LOG_FORMAT.md",
            Hint::NoHeader => "a raw stream begins with a header part: 'Content-Length: 52'",
            Hint::OtherDocuments => "'lspcheck show --long' shows the URI of each document",
        })
    }
}

/// Whether the bytes begin so.
fn begins(front: &[u8], bytes: &[u8]) -> bool
    ensures { result ≡ begins front.now bytes.now }
{
    bytes.starts_with(front)
}

/// Whether the bytes begin as a file does that gzip, bzip2, xz, Zstandard or zip made.
fn is_compressed(bytes: &[u8]) -> bool
    ensures { result ≡ is_compressed bytes.now }
{
    begins(b"\x1F\x8B", bytes)
        || begins(b"BZh", bytes)
        || begins(b"\xFD7zXZ", bytes)
        || begins(b"\x28\xB5\x2F\xFD", bytes)
        || begins(b"PK\x03\x04", bytes)
}

/// The first eight bytes, or all of fewer.
fn eight(bytes: &[u8]) -> &[u8]
    ensures { result.now ≡ take 8 bytes.now }
{
    &bytes[..bytes.len().min(8)]
}

/// Whether the bytes begin with a field of LSP's header part (LSP 3.17, "Base Protocol"), whose
/// name is written in any case.
fn is_stream(bytes: &[u8]) -> bool
    ensures { result ≡ is_stream bytes.now }
{
    eight(bytes).eq_ignore_ascii_case(b"content-")
}

/// A letter, a digit or a hyphen.
fn is_name_byte(byte: u8) -> bool
    ensures { result ≡ is_name_byte byte }
{
    byte.is_ascii_alphanumeric() || byte == b'-'
}

/// Neither CR nor LF.
fn is_line_byte(byte: u8) -> bool
    ensures { result ≡ is_line_byte byte }
{
    !(byte == b'\r') && !(byte == b'\n')
}

fn name_len(bytes: &[u8]) -> usize
    ensures value { result ≡ prefix_len is_name_byte bytes.now }
    ensures bound { result ≤ length bytes.now }
{
    bytes.iter().take_while(|byte| is_name_byte(**byte)).count()
}

fn line_len(bytes: &[u8]) -> usize
    ensures value { result ≡ prefix_len is_line_byte bytes.now }
    ensures bound { result ≤ length bytes.now }
{
    bytes.iter().take_while(|byte| is_line_byte(**byte)).count()
}

/// Whether the bytes begin with any field of a header part: a name and a colon, on a line that ends
/// with CR before any LF. A program that prints to the stream mostly ends its lines with LF alone.
fn is_field(bytes: &[u8]) -> bool
    ensures { result ≡ is_field bytes.now }
{
    begins(b":", &bytes[name_len(bytes)..]) && begins(b"\r", &bytes[line_len(bytes)..])
}

/// Whether the bytes begin with a header part by which the rule can be understood.
fn has_header(rule: u16, bytes: &[u8]) -> bool
    ensures { result ≡ has_header rule bytes.now }
{
    is_stream(bytes) || !(rule == rules::NOT_ONE_CONTENT_LENGTH) && is_field(bytes)
}

/// The bytes after so many.
fn behind(place: usize, bytes: &[u8]) -> &[u8]
    ensures { result.now ≡ drop place bytes.now }
{
    bytes.get(place..).unwrap_or(&[])
}

/// Whether the bytes begin as a trace does that an editor or a server wrote of its messages.
fn is_trace(bytes: &[u8]) -> bool
    ensures { result ≡ is_trace bytes.now }
{
    is_labelled(bytes)
        || is_dated(bytes)
        || is_timed(bytes)
        || begins(b"{\"isLSPMessage\"", bytes)
        || begins(b"// Send:", bytes)
        || begins(b"\n// Send:", bytes)
}

/// `[Trace - `, `[Info  - `, `[LSP   - `: VS Code, coc.nvim, lsp-mode, gopls, the LSP Inspector.
fn is_labelled(bytes: &[u8]) -> bool
    ensures { result ≡ is_labelled bytes.now }
{
    begins(b"[", bytes) && begins(b" - ", behind(6, bytes))
}

/// `2026-11-30 11:34:09.136 [`, `2026-11-30T11:34:09.136 helix_`: VS Code, Helix.
fn is_dated(bytes: &[u8]) -> bool
    ensures { result ≡ is_dated bytes.now }
{
    begins(b"-", behind(4, bytes))
        && begins(b"-", behind(7, bytes))
        && (begins(b" [", behind(23, bytes)) || begins(b" helix_", behind(23, bytes)))
}

/// `I[11:34:09.136] `: clangd.
fn is_timed(bytes: &[u8]) -> bool
    ensures { result ≡ is_timed bytes.now }
{
    begins(b"[", behind(1, bytes))
        && begins(b":", behind(4, bytes))
        && begins(b":", behind(7, bytes))
        && begins(b"] ", behind(14, bytes))
}

/// Whether the bytes begin with the first line of a log, and CR LF after it.
fn has_line_ends(bytes: &[u8]) -> bool
    ensures { result ≡ has_line_ends bytes.now }
{
    begins(b"lsp-session 1\r", bytes) || begins(b"lsp-session 2\r", bytes)
}

/// What an input seems to be that does not begin as a log does.
fn log_hint(bytes: &[u8]) -> Hint
    ensures { result ≡ log_hint bytes.now }
{
    if bytes.is_empty() {
        return Hint::Empty;
    }
    if is_stream(bytes) {
        return Hint::RawStream;
    }
    if begins(b"\xEF\xBB\xBF", bytes) {
        return Hint::ByteOrderMark;
    }
    session_hint(bytes)
}

/// The same of one that is not empty, no stream and has no byte order mark.
fn session_hint(bytes: &[u8]) -> Hint
    ensures { result ≡ session_hint bytes.now }
{
    if has_line_ends(bytes) {
        return Hint::LineEnds;
    }
    if begins(b"lsp-session ", bytes) {
        return Hint::OtherFormat;
    }
    if is_compressed(bytes) {
        return Hint::Compressed;
    }
    if is_trace(bytes) {
        return Hint::Trace;
    }
    Hint::Unknown
}

/// Whether the first frame has a fault, and the bytes begin with no header part by which that can
/// be understood.
fn has_no_header(frame: u64, fault: StreamFault, bytes: &[u8]) -> bool
    ensures { result ≡ has_no_header frame fault bytes.now }
{
    match fault {
        StreamFault::Rule(rule) => {
            frame == 1 && rule <= rules::STREAM_ENDS_INSIDE_FRAME && !has_header(rule, bytes)
        }
        StreamFault::TooLong => false,
    }
}

/// What an input seems to be of which a frame has a fault.
fn stream_hint(frame: u64, fault: StreamFault, bytes: &[u8]) -> Option<Hint>
    ensures { result ≡ stream_hint frame fault bytes.now }
{
    if begins(b"lsp-session ", bytes) {
        return Some(Hint::Log);
    }
    if is_compressed(bytes) {
        return Some(Hint::Compressed);
    }
    if has_no_header(frame, fault, bytes) {
        return Some(Hint::NoHeader);
    }
    None
}

/// What an input seems to be, where a run over a log or a stream ended so.
fn run_hint(outcome: &Outcome, bytes: &[u8]) -> Option<Hint>
    ensures { result ≡ run_hint outcome.now bytes.now }
{
    match outcome {
        Outcome::Judged(Verdict::BadLog { number: 0, .. }) => Some(log_hint(bytes)),
        Outcome::Stream { frame, fault } => stream_hint(*frame, *fault, bytes),
        Outcome::NoDocument => Some(Hint::OtherDocuments),
        _ => None,
    }
}

/// What an input seems to be, where a task ended so that read it and these are its first bytes.
pub fn hint_of(ended: &Result<TaskOutcome, RunFault>, bytes: &[u8]) -> Option<Hint>
    ensures { result ≡ hint_of ended.now bytes.now }
{
    match ended {
        Ok(TaskOutcome::Run(outcome)) => run_hint(outcome, bytes),
        Ok(TaskOutcome::Event(EventOutcome::BadLog { number: 0, .. })) => Some(log_hint(bytes)),
        _ => None,
    }
}
