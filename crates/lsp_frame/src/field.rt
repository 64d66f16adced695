//! The lines of a header part (LSP 3.17, "Header Part"; RFC 9110, sections 5.5 and 5.6.2).
ghost use Rattle.std.specs.Prelude.{◌≡◌, ◌≤◌, ◌++◌, length, MatchOption};
ghost use Rattle.std.specs.List.{prefix_len, suffix_len};
ghost use Rattle.lsp_frame.specs.Header.{is_token, is_text, is_blank, line, IsField, trimmed};
ghost use Rattle.lsp_frame.specs.Reading.{field_view, NoFieldBegins};

use crate::bytes::after_byte;

/// A line of a header part, without the colon between its name and its value and without its end.
#[derive(Clone, Copy)]
pub(crate) struct Field<'a> {
    pub(crate) name: &'a [u8],
    pub(crate) value: &'a [u8],
}

/// A letter, a digit, or one of the marks of a token.
fn is_token(byte: u8) -> bool
    ensures { result ≡ is_token byte }
{
    byte.is_ascii_alphanumeric() || b"!#$%&'*+-.^_`|~".contains(&byte)
}

/// A visible character, a space or a tab.
fn is_text(byte: u8) -> bool
    ensures { result ≡ is_text byte }
{
    matches!(byte, b'\t' | b' '..=b'~')
}

/// A space or a tab.
fn is_blank(byte: u8) -> bool
    ensures { result ≡ is_blank byte }
{
    matches!(byte, b' ' | b'\t')
}

fn token_len(bytes: &[u8]) -> usize
    ensures value { result ≡ prefix_len is_token bytes.now }
    ensures bound { result ≤ length bytes.now }
{
    bytes.iter().take_while(|byte| is_token(**byte)).count()
}

fn text_len(bytes: &[u8]) -> usize
    ensures value { result ≡ prefix_len is_text bytes.now }
    ensures bound { result ≤ length bytes.now }
{
    bytes.iter().take_while(|byte| is_text(**byte)).count()
}

fn blanks_in_front(bytes: &[u8]) -> usize
    ensures value { result ≡ prefix_len is_blank bytes.now }
    ensures bound { result ≤ length bytes.now }
{
    bytes.iter().take_while(|byte| is_blank(**byte)).count()
}

fn blanks_at_end(bytes: &[u8]) -> usize
    ensures value { result ≡ suffix_len is_blank bytes.now }
    ensures bound { result ≤ length bytes.now }
{
    bytes
        .iter()
        .rev()
        .take_while(|byte| is_blank(**byte))
        .count()
}

/// The value without the spaces and tabs at its two ends.
pub(crate) fn trim(value: &[u8]) -> &[u8]
    ensures { result.now ≡ trimmed value.now }
{
    let rest = &value[blanks_in_front(value)..];
    &rest[..rest.len() - blanks_at_end(rest)]
}

/// The first line as a field, and the bytes after it.
pub(crate) fn split_field(bytes: &[u8]) -> Option<(Field<'_>, &[u8])>
    ensures { MatchOption result (NoFieldBegins bytes.now)
        (λ x. IsField (field_view x.0) × (bytes.now ≡ line (field_view x.0) ++ x.1.now)) }
{
    let (name, rest) = bytes.split_at(token_len(bytes));
    if name.is_empty() {
        return None;
    }
    let rest = after_byte(rest, b':')?;
    let (value, rest) = rest.split_at(text_len(rest));
    let rest = after_byte(rest, b'\r')?;
    let rest = after_byte(rest, b'\n')?;
    Some((Field { name, value }, rest))
}
