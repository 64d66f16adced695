//! The bytes of a JSON text, and what comes between its lexemes (RFC 8259, section 2).
ghost use Rattle.std.specs.Prelude.{◌≡◌, ◌≤◌, ◌||◌, length, drop, get_or, false, true, IsTrue};
ghost use Rattle.json.specs.Word.{is_operator, is_space};
ghost use Rattle.json.specs.Lex.{lex, between};

/// The byte at a place, which is counted in bytes, or 0 at the end of the text.
#[inline(always)]
pub fn byte_at(bytes: &[u8], at: usize) -> u8
    ensures { result ≡ get_or bytes.now at 0 }
{
    if at < bytes.len() { bytes[at] } else { 0 }
}

#[inline(always)]
fn is_space(byte: u8) -> bool
    ensures { result ≡ is_space byte }
{
    (byte == b' ') | (byte == b'\t') | (byte == b'\n') | (byte == b'\r')
}

/// Whether a number or a literal ends before this byte.
#[inline(always)]
pub(crate) fn is_delimiter(byte: u8) -> bool
    ensures { IsTrue result → (is_operator byte || is_space byte) ≡ true }
{
    (byte == b',') | (byte == b']') | (byte == b'}') | is_space(byte)
}

/// The first place from there on, in bytes, where no space stands (RFC 8259, section 2), or the end
/// of the text.
#[inline(always)]
pub fn spaces_end(bytes: &[u8], from: usize) -> usize
    requires { from ≤ length bytes.now }
    ensures same { lex between (drop result bytes.now) ≡ lex between (drop from bytes.now) }
    ensures ended { is_space (get_or bytes.now result 0) ≡ false }
    ensures forward { from ≤ result }
    ensures within { result ≤ length bytes.now }
{
    let mut at = from;
    'spaces: while at < bytes.len() && is_space(bytes[at]) {
        at += 1;
    }
    at
}
