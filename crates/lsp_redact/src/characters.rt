//! Characters as others of their kind.
ghost use Rattle.std.specs.Prelude.{◌≡◌, ◌<◌, IfOk, string_bytes};
ghost use Rattle.lsp_redact.specs.Characters as spec;
ghost use Rattle.lsp_redact.specs.Characters.{character_of, shown_bytes, written_character};

use lsp_rpc::Result;
use std::alloc::Global;

/// What stays of a character. Beyond ASCII that is how many bytes of UTF-8 it has, and so how many
/// units in each encoding.
#[derive(Clone, Copy, Debug, PartialEq, Eq)]
enum Kind {
    Small,
    Capital,
    Digit,
    TwoBytes,
    ThreeBytes,
    FourBytes,
    /// All else in ASCII, such as line ends, which stays as it is.
    Other,
}

/// The kind of a character.
fn kind_of(character: char) -> Kind
    ensures { result ≡ spec.kind_of character }
{
    match character.len_utf8() {
        1 => ascii_kind(character),
        2 => Kind::TwoBytes,
        3 => Kind::ThreeBytes,
        _ => Kind::FourBytes,
    }
}

/// The kind of a character of ASCII.
fn ascii_kind(character: char) -> Kind
    ensures { result ≡ spec.ascii_kind character }
{
    if character.is_ascii_lowercase() {
        return Kind::Small;
    }
    if character.is_ascii_uppercase() {
        return Kind::Capital;
    }
    if character.is_ascii_digit() {
        return Kind::Digit;
    }
    Kind::Other
}

/// What a kind is shown by, and what the one character of it is shown by that must stay apart from
/// the others. All else in ASCII is shown as it is.
fn shown_by(kind: Kind) -> Option<(char, char)>
    ensures { result ≡ spec.shown_by kind }
{
    match kind {
        Kind::Small => Some(('x', 'y')),
        Kind::Capital => Some(('X', 'Y')),
        Kind::Digit => Some(('0', '1')),
        Kind::TwoBytes => Some(('\u{E9}', '\u{E8}')),
        Kind::ThreeBytes => Some(('\u{4E00}', '\u{4E8C}')),
        Kind::FourBytes => Some(('\u{1F600}', '\u{1F601}')),
        Kind::Other => None,
    }
}

/// What a character is shown by, where this one must stay apart from the others.
fn shown_as(character: char, apart: Option<char>) -> char
    ensures { result ≡ written_character (character_of apart character) }
{
    let Some((usual, other)) = shown_by(kind_of(character)) else {
        return character;
    };
    if apart == Some(character) {
        other
    } else {
        usual
    }
}

/// A text by what its characters are shown by.
pub(crate) fn shown_text(alloc: Global, text: &str, apart: Option<char>) -> Result<String>
    ensures { IfOk result (λ shown. string_bytes shown ≡ shown_bytes apart text.now) }
{
    let mut shown = String::new(alloc);
    for character in text.chars() {
        shown.push(shown_as(character, apart))?;
    }
    Ok(shown)
}
