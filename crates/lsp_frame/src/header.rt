//! What a header part says about its content (LSP 3.17, "Header Part").
ghost use Rattle.std.specs.Prelude.{◌≡◌, ℕ, List, [], ◌∷◌, ◌++◌, length, true, ◌&&◌, IfSome};
ghost use Rattle.std.specs.List.{list_all};
ghost use Rattle.lsp_frame.specs.Header.{lengths, is_number, length_of, content_length};
ghost use Rattle.lsp_frame.specs.Header.{is_utf8_name, fits_charset, parts, fits_charsets};
ghost use Rattle.lsp_frame.specs.Header.{line, Says};
ghost use Rattle.lsp_frame.specs.Reading.{field_view, Holds, usual_type};

use crate::bytes::{all_digits, number_up_to};
use crate::field::{Field, split_field, trim};
use crate::limits::Limits;
use lsp_types::rules;

/// The values that stand as the length of the content.
#[derive(Clone, Copy)]
enum Lengths<'a> {
    Missing,
    One(&'a [u8]),
    Several,
}

/// Whether the value is 1 to 10 decimal digits.
fn is_number(value: &[u8]) -> bool
    ensures { result ≡ is_number value.now }
{
    matches!(value.len(), 1..=10) && all_digits(value)
}

/// The length of the content that one value gives, or its fault.
fn length_of(limits: &Limits, value: &[u8]) -> Result<u64, u16>
    ensures { result ≡ length_of limits.now value.now }
{
    if !is_number(value) {
        return Err(rules::BAD_CONTENT_LENGTH);
    }
    match number_up_to(value, limits.content()) {
        Some(length) => Ok(length),
        None => Err(rules::CONTENT_TOO_LONG),
    }
}

impl<'a> Lengths<'a> {
    /// The values with those of one more field.
    fn with(self, field: &Field<'a>) -> Lengths<'a>
        ensures { (values : List (List ℕ)) →
            Holds self.entry values → Holds result (values ++ lengths (field_view field.now ∷ [])) }
    {
        if !field.name.eq_ignore_ascii_case(b"Content-Length") {
            return self;
        }
        match self {
            Lengths::Missing => Lengths::One(trim(field.value)),
            Lengths::One(_) | Lengths::Several => Lengths::Several,
        }
    }

    /// What they say together.
    fn said(self, limits: &Limits) -> Result<u64, u16>
        ensures { (values : List (List ℕ)) →
            Holds self.entry values → result ≡ content_length limits.now values }
    {
        match self {
            Lengths::One(value) => length_of(limits, value),
            Lengths::Missing | Lengths::Several => Err(rules::NOT_ONE_CONTENT_LENGTH),
        }
    }
}

/// Whether the name of a charset is one of the two names of UTF-8, bare or quoted.
fn is_utf8_name(name: &[u8]) -> bool
    ensures { result ≡ is_utf8_name name.now }
{
    name.eq_ignore_ascii_case(b"utf-8")
        || name.eq_ignore_ascii_case(b"utf8")
        || name.eq_ignore_ascii_case(b"\"utf-8\"")
        || name.eq_ignore_ascii_case(b"\"utf8\"")
}

/// Whether a part of a `Content-Type` value names no charset, or UTF-8.
fn fits_charset(part: &[u8]) -> bool
    ensures { result ≡ fits_charset part.now }
{
    match part.split_at_checked(8) {
        Some((front, name)) if front.eq_ignore_ascii_case(b"charset=") => is_utf8_name(name),
        _ => true,
    }
}

/// Whether no part of the value names a charset other than UTF-8.
fn parts_fit(value: &[u8]) -> bool
    ensures { result ≡ list_all fits_charset (parts value.now) }
{
    value
        .split(|byte| *byte == b';')
        .all(|part| fits_charset(trim(part)))
}

/// Whether the field is no `Content-Type` that names a charset other than UTF-8.
fn fits_charsets(field: &Field<'_>) -> bool
    ensures { result ≡ fits_charsets (field_view field.now ∷ []) }
{
    !field.name.eq_ignore_ascii_case(b"Content-Type") || parts_fit(field.value)
}

/// The bytes after the line of the default content type, if they begin with it (LSP 3.17, "Header
/// Part"). The line only states the default, so it changes nothing.
pub(crate) fn after_usual_type(bytes: &[u8]) -> Option<&[u8]>
    ensures { IfSome result (λ rest. bytes.now ≡ line usual_type ++ rest.now) }
{
    let rest = bytes.strip_prefix(b"Content-Type: application/vscode-jsonrpc; charset=utf-8\r\n")?;
    Some(rest)
}

/// The length in bytes of the content that a header part gives, or the least fault that fits it.
#[inline(never)]
pub(crate) fn read_header(limits: &Limits, header: &[u8]) -> Result<u64, u16>
    ensures { Says limits.now header.now result }
{
    let mut lengths = Lengths::Missing;
    let mut fits = true;
    let mut rest = header;
    while rest != b"\r\n".as_slice() {
        if let Some(after) = after_usual_type(rest) {
            rest = after;
            continue;
        }
        let Some((field, after)) = split_field(rest) else {
            return Err(rules::BAD_HEADER_LINE);
        };
        lengths = lengths.with(&field);
        fits = fits && fits_charsets(&field);
        rest = after;
    }
    let length = lengths.said(limits)?;
    if fits {
        Ok(length)
    } else {
        Err(rules::CHARSET_NOT_UTF_8)
    }
}
