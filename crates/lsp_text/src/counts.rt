//! The characters of a text, and its units of UTF-16.

ghost use Rattle.std.specs.Prelude.{◌≡◌, length};
ghost use Rattle.std.specs.Str.{chars};
ghost use Rattle.lsp_text.specs.Places.{units};

use crate::lanes::count;
use lsp_types::Encoding;

/// How many characters (Unicode scalar values) a text has, and how many units of UTF-16.
#[derive(Clone, Copy, Debug, PartialEq, Eq)]
pub struct TextCounts {
    pub chars: u64,
    pub utf16: u64,
}

/// Counts a text's characters and its units of UTF-16 (LSP 3.17, "PositionEncodingKind"), in one
/// walk over its bytes.
pub fn measure(text: &str) -> TextCounts
    ensures chars { result.chars ≡ length (chars text.now) }
    ensures utf16 { result.utf16 ≡ units Encoding.Utf16 (chars text.now) }
{
    count(text.as_bytes())
}
