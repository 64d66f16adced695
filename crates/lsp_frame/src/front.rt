//! How a frame with a fault begins.
ghost use Rattle.std.specs.Prelude.{◌≡◌};
ghost use Rattle.lsp_frame.specs.Front.{header_front};

use memchr::memmem;

/// How many bytes of a header part are looked at.
const SHOWN_BYTES: usize = 64;

/// The header part that the bytes begin with, up to the first CR LF CR LF, which is included, as
/// far as the first 64 bytes go. After a fault, this shows how the frame with the fault begins, and
/// stays the same whatever follows.
pub fn header_front(bytes: &[u8]) -> &[u8]
    ensures { result.now ≡ header_front bytes.now }
{
    let near = &bytes[..bytes.len().min(SHOWN_BYTES)];
    match memmem::find(near, b"\r\n\r\n") {
        Some(at) => &near[..at + 4],
        None => near,
    }
}
