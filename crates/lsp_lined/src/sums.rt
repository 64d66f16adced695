//! How large a text is, in each unit.

ghost use Rattle.std.specs.Prelude.{◌≡◌, ◌+◌, ◌≤◌, ◌<◌, ◌^◌, []};
ghost use Rattle.lsp_lined.specs.Ends.{ends_in};
ghost use Rattle.lsp_lined.specs.Sums.{sums_of, amount_in, added, exchanged, AreAtMost};

use lsp_text::measure;
use lsp_types::Encoding;

/// The line ends, the bytes, the characters and the units of UTF-16 of a text.
#[derive(Clone, Copy)]
pub(crate) struct Sums {
    pub(crate) ends: u64,
    pub(crate) bytes: u64,
    pub(crate) chars: u64,
    pub(crate) utf16: u64,
}

/// What places in a text are counted by: its line ends, or the units of an encoding.
#[derive(Clone, Copy)]
pub(crate) enum Measure {
    /// Line ends.
    Ends,
    /// Units of an encoding: bytes of UTF-8, units of UTF-16, or characters.
    Units(Encoding),
}

impl Sums {
    /// The sums of no text.
    pub(crate) fn none() -> Sums
        ensures { result ≡ sums_of [] }
    {
        Sums {
            ends: 0,
            bytes: 0,
            chars: 0,
            utf16: 0,
        }
    }

    /// The sums of a text, which has this many line ends.
    pub(crate) fn of(text: &str, ends: usize) -> Sums
        requires { ends ≡ ends_in text.now }
        ensures { result ≡ sums_of text.now }
    {
        let counts = measure(text);
        Sums {
            ends: ends as u64,
            bytes: text.len() as u64,
            chars: counts.chars,
            utf16: counts.utf16,
        }
    }

    /// How much it is by a measure.
    pub(crate) fn by(self, measure: Measure) -> u64
        ensures { result ≡ amount_in measure self }
    {
        match measure {
            Measure::Ends => self.ends,
            Measure::Units(Encoding::Utf8) => self.bytes,
            Measure::Units(Encoding::Utf16) => self.utf16,
            Measure::Units(Encoding::Utf32) => self.chars,
        }
    }

    /// The sums of two texts together.
    pub(crate) fn with(self, more: Sums) -> Sums
        requires these { AreAtMost self self.bytes }
        requires those { AreAtMost more more.bytes }
        requires fits { self.bytes + more.bytes < 2 ^ 64 }
        ensures { result ≡ added self more }
    {
        Sums {
            ends: self.ends + more.ends,
            bytes: self.bytes + more.bytes,
            chars: self.chars + more.chars,
            utf16: self.utf16 + more.utf16,
        }
    }

    /// The sums where a part of the text is exchanged for another.
    pub(crate) fn exchanged(self, old: Sums, new: Sums) -> Sums
        requires ends { old.ends ≤ self.ends }
        requires bytes { old.bytes ≤ self.bytes }
        requires chars { old.chars ≤ self.chars }
        requires utf16 { old.utf16 ≤ self.utf16 }
        requires most { AreAtMost (exchanged self old new) (exchanged self old new).bytes }
        requires fits { (exchanged self old new).bytes < 2 ^ 64 }
        ensures { result ≡ exchanged self old new }
    {
        Sums {
            ends: self.ends - old.ends + new.ends,
            bytes: self.bytes - old.bytes + new.bytes,
            chars: self.chars - old.chars + new.chars,
            utf16: self.utf16 - old.utf16 + new.utf16,
        }
    }
}
