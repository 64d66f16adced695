//! The text of generated documents, and its JSON form.
use crate::random::Random;
use std::alloc::AllocError;

static WORDS: [&str; 32] = [
    "let",
    "fn",
    "match",
    "self",
    "buffer",
    "position",
    "request",
    "impl",
    "result",
    "(value)",
    "=>",
    "{",
    "}",
    "&mut",
    "document.text()",
    "\"literal\"",
    "version",
    "+ 1",
    "if",
    "return",
    "a[i]",
    "// note",
    "Option<usize>",
    "server",
    "\\n",
    "x",
    "::",
    "parse(line)?",
    "while",
    "0",
    "\t",
    "else",
];

static WIDE_WORDS: [&str; 16] = [
    "let",
    "größe",
    "naïve",
    "日本語",
    "λx",
    "π",
    "буква",
    "😀",
    "value",
    "été",
    "(x)",
    "ключ",
    "文字",
    "übung",
    "fn",
    "ß",
];

static KEYS: [&str; 32] = [
    "a", "b", "c", "d", "e", "f", "g", "h", "i", "j", "k", "l", "m", "n", "o", "p", "q", "r", "s",
    "t", "u", "v", "w", "x", "y", "z", " ", "(", ")", ";", ".", "\"",
];

static WIDE_KEYS: [&str; 4] = ["é", "ж", "字", "😀"];

/// Which words and line ends a text has.
#[derive(Clone, Copy)]
pub(crate) struct Script {
    /// Whether many characters are not ASCII.
    pub(crate) is_wide: bool,
    /// Whether lines end by CR LF.
    pub(crate) is_crlf: bool,
}

impl Script {
    /// A word.
    pub(crate) fn word(&self, random: &mut Random) -> &'static str {
        if self.is_wide {
            WIDE_WORDS[random.below(16)]
        } else {
            WORDS[random.below(32)]
        }
    }

    /// A line end.
    pub(crate) fn line_end(&self) -> &'static str {
        if self.is_crlf { "\r\n" } else { "\n" }
    }

    /// What one key types.
    pub(crate) fn key(&self, random: &mut Random) -> &'static str {
        if self.is_wide && random.below(4) == 0 {
            WIDE_KEYS[random.below(4)]
        } else {
            KEYS[random.below(32)]
        }
    }
}

/// Appends words up to about this many bytes.
pub(crate) fn push_words(
    out: &mut Vec<u8>,
    random: &mut Random,
    script: &Script,
    bytes: usize,
) -> Result<(), AllocError> {
    let mut left = bytes;
    for _ in 0..bytes {
        if left == 0 {
            return Ok(());
        }
        let word = script.word(random);
        push_parts(out, &[word.as_bytes(), b" "])?;
        left = left.saturating_sub(word.len()).saturating_sub(1);
    }
    Ok(())
}

/// How a byte stands inside a JSON string, where it needs an escape. Control characters other than
/// these three do not occur.
fn escape(byte: u8) -> &'static [u8] {
    match byte {
        b'"' => b"\\\"",
        b'\\' => b"\\\\",
        b'\n' => b"\\n",
        b'\r' => b"\\r",
        b'\t' => b"\\t",
        _ => b"",
    }
}

/// Appends the text as it stands inside a JSON string.
pub(crate) fn push_quoted(out: &mut Vec<u8>, text: &[u8]) -> Result<(), AllocError> {
    for piece in text.split_inclusive(|byte| !escape(*byte).is_empty()) {
        push_piece(out, piece)?;
    }
    Ok(())
}

/// Appends bytes of which at most the last needs an escape.
fn push_piece(out: &mut Vec<u8>, piece: &[u8]) -> Result<(), AllocError> {
    let Some((last, front)) = piece.split_last() else {
        return Ok(());
    };
    let escape = escape(*last);
    if escape.is_empty() {
        return out.extend_from_slice(piece);
    }
    out.extend_from_slice(front)?;
    out.extend_from_slice(escape)
}

/// Appends the parts one after another.
pub(crate) fn push_parts(out: &mut Vec<u8>, parts: &[&[u8]]) -> Result<(), AllocError> {
    for part in parts {
        out.extend_from_slice(part)?;
    }
    Ok(())
}
