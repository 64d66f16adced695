//! The words of a line.
ghost use Rattle.std.specs.Prelude.{◌≡◌, ◌<◌, ◌∷◌, IfOk, MatchOption, length, map, option_map};
ghost use Rattle.lsp_json.specs.Words as spec;

use lsp_rpc::Result;
use std::alloc::Global;

/// Where a byte stands: behind a backslash in a JSON text, elsewhere between its quotes, or in
/// neither place.
#[derive(Clone, Copy)]
pub(crate) enum Place {
    Outside,
    Inside,
    Escaped,
}

/// The words of a line: there is a space between each two, and a JSON text is one word.
pub(crate) fn words_in<'a>(alloc: Global, line: &'a str) -> Result<Vec<&'a str>>
    ensures { IfOk result (λ words. map (λ word. word.now) words.items ≡ spec.words_in line.now) }
{
    let mut words = Vec::new(alloc);
    let mut left = Some(line);
    while let Some(line) = left {
        let (word, behind) = first_word(line);
        words.push(word)?;
        left = behind;
    }
    Ok(words)
}

/// The first word of a line, and the words behind it, if there are any.
pub(crate) fn first_word(line: &str) -> (&str, Option<&str>)
    ensures words { spec.words_in line.now
        ≡ result.0.now ∷ spec.words_left (option_map (λ left. left.now) result.1) }
    ensures less { MatchOption result.1 (Unit {0}) (λ left. length left.now < length line.now) }
{
    let (word, behind) = line.split_at(word_len(line.as_bytes()));
    (word, behind.strip_prefix(' '))
}

/// How many bytes the first word of a line has.
fn word_len(line: &[u8]) -> usize
    ensures { result ≡ spec.word_len Place.Outside line.now }
{
    let mut place = Place::Outside;
    for (index, byte) in line.iter().enumerate() {
        if place.ends_word(*byte) {
            return index;
        }
        place = place.after(*byte);
    }
    line.len()
}

impl Place {
    /// Whether this byte ends a word.
    fn ends_word(self, byte: u8) -> bool
        ensures { result ≡ spec.ends_word self byte }
    {
        match self {
            Place::Outside => byte == b' ',
            Place::Inside | Place::Escaped => false,
        }
    }

    /// Where the byte behind this one stands.
    fn after(self, byte: u8) -> Place
        ensures { result ≡ spec.place_after self byte }
    {
        match self {
            Place::Outside => behind_outside(byte),
            Place::Inside => behind_inside(byte),
            Place::Escaped => Place::Inside,
        }
    }
}

fn behind_outside(byte: u8) -> Place
    ensures { result ≡ spec.place_after Place.Outside byte }
{
    if byte == b'"' {
        Place::Inside
    } else {
        Place::Outside
    }
}

fn behind_inside(byte: u8) -> Place
    ensures { result ≡ spec.place_after Place.Inside byte }
{
    match byte {
        b'"' => Place::Outside,
        b'\\' => Place::Escaped,
        _ => Place::Inside,
    }
}
