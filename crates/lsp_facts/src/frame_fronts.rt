//! Whether a frame that is not whole can become one, and how the lines of its header part end.
ghost use Rattle.std.specs.Prelude.{◌≡◌, ◌≤◌, ◌<◌, ◌+◌, drop, length, take, IfSome};
ghost use Rattle.std.specs.List.{list_all, prefix_len, position};
ghost use Rattle.lsp_facts.specs.FrameFronts as spec;
ghost use Rattle.lsp_frame.specs.Header.{is_text as text, is_token as token};

/// Whether bytes that could follow may make a frame of these: their lines are those of a header
/// part (RFC 9110, sections 5.5 and 5.6.2), as far as it goes, and the first is not the empty one.
pub(crate) fn may_go_on(rest: &[u8]) -> bool
    ensures { result ≡ spec.may_go_on rest.now }
{
    !begins_with_cr(rest) && are_header_lines(rest)
}

fn begins_with_cr(bytes: &[u8]) -> bool
    ensures { result ≡ spec.begins_with_cr bytes.now }
{
    match bytes.first() {
        Some(byte) => *byte == b'\r',
        None => false,
    }
}

/// Whether the lines are those of a header part, as far as it goes.
fn are_header_lines(rest: &[u8]) -> bool
    ensures { result ≡ spec.are_header_lines rest.now }
{
    let mut left = rest;
    while let Some(size) = line_len(left) {
        let line = &left[..size];
        if is_blank_line(line) {
            return true;
        }
        if !is_field_line(line) {
            return false;
        }
        left = rest_after(left, size);
    }
    is_line_front(left)
}

/// Whether the first line is a field of LSP's own (LSP 3.17, "Base Protocol") that ends with LF
/// alone.
pub(crate) fn ends_with_lf(bytes: &[u8]) -> bool
    ensures { result ≡ spec.ends_with_lf bytes.now }
{
    match line_len(bytes) {
        Some(size) => is_own_field(&bytes[..size]),
        None => false,
    }
}

/// Whether it is a field of LSP's own, whose name is written in any case.
fn is_own_field(line: &[u8]) -> bool
    ensures { result ≡ spec.is_own_field line.now }
{
    has_own_name(eight(line)) && is_field(line)
}

fn has_own_name(front: &[u8]) -> bool
    ensures { result ≡ spec.has_own_name front.now }
{
    front.eq_ignore_ascii_case(b"content-")
}

/// The first eight bytes, or all of fewer.
fn eight(bytes: &[u8]) -> &[u8]
    ensures { result.now ≡ take 8 bytes.now }
{
    &bytes[..bytes.len().min(8)]
}

/// The bytes after a line that is so long, and its LF.
fn rest_after(bytes: &[u8], size: usize) -> &[u8]
    requires { size < length bytes.now }
    ensures { result.now ≡ drop (size + 1) bytes.now }
{
    &bytes[size + 1..]
}

/// How long the first line is, up to its LF, if it has one.
fn line_len(bytes: &[u8]) -> Option<usize>
    ensures value { result ≡ position spec.is_lf bytes.now }
    ensures bound { IfSome result (λ n. n < length bytes.now) }
{
    bytes.iter().position(|byte| *byte == b'\n')
}

/// Whether a line that is not at its end is the front of one of a header part.
fn is_line_front(line: &[u8]) -> bool
    ensures { result ≡ spec.is_line_front line.now }
{
    are_tokens(line) || is_field(line) || is_field_line(line) || is_blank_line(line)
}

/// Whether it is the line of a field, up to its LF.
fn is_field_line(line: &[u8]) -> bool
    ensures { result ≡ spec.is_field_line line.now }
{
    ends_with_cr(line) && is_field(before_cr(line))
}

/// Whether it is the empty line, which ends a header part.
fn is_blank_line(line: &[u8]) -> bool
    ensures { result ≡ spec.is_blank_line line.now }
{
    ends_with_cr(line) && line.len() == 1
}

fn ends_with_cr(line: &[u8]) -> bool
    ensures { result ≡ spec.ends_with_cr line.now }
{
    match line.last() {
        Some(byte) => *byte == b'\r',
        None => false,
    }
}

/// The line up to the CR at its end.
fn before_cr(line: &[u8]) -> &[u8]
    ensures { result.now ≡ spec.before_cr line.now }
{
    &line[..line.len().saturating_sub(1)]
}

/// Whether it is a name and a value.
fn is_field(line: &[u8]) -> bool
    ensures { result ≡ spec.is_field line.now }
{
    let size = token_len(line);
    size > 0 && is_value(&line[size..])
}

/// Whether it is a colon and a value.
fn is_value(bytes: &[u8]) -> bool
    ensures { result ≡ spec.is_value bytes.now }
{
    match bytes {
        [first, rest @ ..] => *first == b':' && are_text(rest),
        [] => false,
    }
}

fn token_len(bytes: &[u8]) -> usize
    ensures value { result ≡ prefix_len token bytes.now }
    ensures bound { result ≤ length bytes.now }
{
    bytes.iter().take_while(|byte| is_token(**byte)).count()
}

fn are_tokens(bytes: &[u8]) -> bool
    ensures { result ≡ list_all token bytes.now }
{
    bytes.iter().all(|byte| is_token(*byte))
}

fn are_text(bytes: &[u8]) -> bool
    ensures { result ≡ list_all text bytes.now }
{
    bytes.iter().all(|byte| is_text(*byte))
}

/// A letter, a digit, or one of the marks of a token.
fn is_token(byte: u8) -> bool
    ensures { result ≡ token byte }
{
    byte.is_ascii_alphanumeric() || b"!#$%&'*+-.^_`|~".contains(&byte)
}

/// A visible character, a space or a tab.
fn is_text(byte: u8) -> bool
    ensures { result ≡ text byte }
{
    matches!(byte, b'\t' | b' '..=b'~')
}
