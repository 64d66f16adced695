//! The first line of a log, which names its format.
ghost use Rattle.std.specs.Prelude.{◌≡◌, ◌++◌, drop, MatchOption};
ghost use Rattle.lsp_log.specs.Log.{first_line, NoFirstLine};

use lsp_frame::Format;

/// How many bytes a first line has.
pub(crate) const LINE_LEN: usize = 14;

/// The first line of a log of this format.
pub(crate) fn first_line(format: Format) -> &'static [u8]
    ensures { result.now ≡ first_line format }
{
    match format {
        Format::One => b"lsp-session 1\n",
        Format::Two => b"lsp-session 2\n",
    }
}

/// The format whose first line the bytes begin with.
pub(crate) fn format_of(bytes: &[u8]) -> Option<Format>
    ensures { MatchOption result (NoFirstLine bytes.now)
        (λ format. bytes.now ≡ first_line format ++ drop 14 bytes.now) }
{
    if bytes.starts_with(first_line(Format::One)) {
        Some(Format::One)
    } else if bytes.starts_with(first_line(Format::Two)) {
        Some(Format::Two)
    } else {
        None
    }
}
