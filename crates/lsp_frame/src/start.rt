//! What bytes begin with.
ghost use Rattle.std.specs.Prelude.{◌≡◌, ◌≤◌, length, IfSome};
ghost use Rattle.std.specs.List.{prefix_len};
ghost use Rattle.std.specs.Char.{is_ascii_digit};
ghost use Rattle.lsp_frame.specs.Bounds.{IsInRange};
ghost use Rattle.lsp_frame.specs.Start.{StartsAs, StartsWithHeader};

use crate::bytes::number_up_to;
use crate::header::{after_usual_type, read_header};
use crate::limits::Limits;
use lsp_types::rules;
use memchr::memmem;

/// The lengths in bytes of a frame's two parts.
#[derive(Clone, Copy)]
pub(crate) struct FrameSize {
    pub(crate) header: usize,
    pub(crate) content: usize,
}

/// What bytes begin with.
pub(crate) enum Start {
    /// A whole header part. Its content may still be unfinished.
    Header(FrameSize),
    /// A fault, by its rule.
    Fault(u16),
    /// An unfinished header part.
    Unfinished,
}

fn digits_in_front(bytes: &[u8]) -> usize
    ensures value { result ≡ prefix_len is_ascii_digit bytes.now }
    ensures bound { result ≤ length bytes.now }
{
    bytes
        .iter()
        .take_while(|byte| byte.is_ascii_digit())
        .count()
}

/// The size of the frame whose header part the bytes begin with, where that is the one line
/// `Content-Length: ` and digits, which is the common case.
#[inline(always)]
fn plain_size(limits: &Limits, bytes: &[u8]) -> Option<FrameSize>
    requires { IsInRange limits.now }
    ensures { IfSome result (λ size. StartsWithHeader limits.now bytes.now size) }
{
    // The two common forms have readers of their own, which take a quarter of the instructions of
    // `read_header`. All are proved against one definition.
    let rest = bytes.strip_prefix(b"Content-Length: ")?;
    let (digits, rest) = rest.split_at(digits_in_front(rest));
    if digits.is_empty() || digits.len() > 10 {
        return None;
    }
    if !rest.starts_with(b"\r\n\r\n") {
        return None;
    }
    let content = number_up_to(digits, limits.content())?;
    Some(FrameSize {
        header: 20 + digits.len(),
        content: content as usize,
    })
}

/// The same where the line of the default content type comes first. Whatever else stands there is
/// left to [`read_header`].
#[inline(never)]
fn typed_size(limits: &Limits, bytes: &[u8]) -> Option<FrameSize>
    requires range { IsInRange limits.now }
    requires near { length bytes.now ≤ limits.now.header }
    ensures { IfSome result (λ size. StartsWithHeader limits.now bytes.now size) }
{
    let rest = after_usual_type(bytes)?;
    let size = plain_size(limits, rest)?;
    Some(FrameSize {
        header: bytes.len() - rest.len() + size.header,
        content: size.content,
    })
}

/// What the bytes begin with.
pub(crate) fn start_of(limits: &Limits, bytes: &[u8]) -> Start
    ensures { StartsAs limits.now bytes.now result }
{
    let most = limits.header() as usize;
    // Asked first, since it is so after each frame that ends a piece.
    if bytes.is_empty() {
        return Start::Unfinished;
    }
    let near = &bytes[..bytes.len().min(most)];
    if let Some(size) = plain_size(limits, near) {
        return Start::Header(size);
    }
    if let Some(size) = typed_size(limits, near) {
        return Start::Header(size);
    }
    let Some(at) = memmem::find(near, b"\r\n\r\n") else {
        if bytes.len() < most {
            return Start::Unfinished;
        }
        return Start::Fault(rules::HEADER_PART_TOO_LONG);
    };
    let header = at + 4;
    match read_header(limits, &bytes[..header]) {
        Err(rule) => Start::Fault(rule),
        Ok(content) => Start::Header(FrameSize {
            header,
            content: content as usize,
        }),
    }
}
