//! How long the text is that an edit replaced, from the sums of the text around it.

ghost use Rattle.std.specs.Prelude.{◌≡◌, ℕ, List};
ghost use Rattle.std.specs.Str.{chars};
ghost use Rattle.lsp_text.specs.Findings.{length_of, lengths_of};
ghost use Rattle.lsp_text.specs.Places.{units};
ghost use Rattle.lsp_lined.specs.Sums.{IsExchange};

use crate::sums::{Measure, Sums};
use lsp_text::{OtherLength, is_no_other, width_of};
use lsp_types::Encoding;

/// The length that is sent, where it is not that of the text that an insertion replaced. The text
/// had the first sums before, and has the others since.
#[inline(always)]
pub(crate) fn length_other_than_removed(
    old: Sums,
    new: Sums,
    inserted: &str,
    encoding: Encoding,
    sent: Option<i32>,
) -> Option<OtherLength>
    requires { (removed : List ℕ) × IsExchange old new removed (chars inserted.now) }
    ensures { (removed : List ℕ) → IsExchange old new removed (chars inserted.now)
        → result ≡ length_of encoding removed sent }
{
    let sent = sent?;
    if is_no_other(sent, removed_units(old, new, inserted, encoding)) {
        return None;
    }
    Some(lengths_removed(old, new, inserted, sent))
}

/// The same length, with how long the text is that was replaced.
#[cold]
#[inline(never)]
fn lengths_removed(old: Sums, new: Sums, inserted: &str, sent: i32) -> OtherLength
    requires { (removed : List ℕ) × IsExchange old new removed (chars inserted.now) }
    ensures { (removed : List ℕ) → IsExchange old new removed (chars inserted.now)
        → result ≡ lengths_of removed sent }
{
    OtherLength {
        sent,
        utf8: removed_units(old, new, inserted, Encoding::Utf8),
        utf16: removed_units(old, new, inserted, Encoding::Utf16),
        utf32: removed_units(old, new, inserted, Encoding::Utf32),
    }
}

/// The units of the text that an insertion replaced: all that are not there any more.
#[inline(always)]
fn removed_units(old: Sums, new: Sums, inserted: &str, encoding: Encoding) -> u64
    requires { (removed : List ℕ) × IsExchange old new removed (chars inserted.now) }
    ensures { (removed : List ℕ) → IsExchange old new removed (chars inserted.now)
        → result ≡ units encoding removed }
{
    // An insertion alone, which is what most edits are, need not be counted.
    if new.bytes - inserted.len() as u64 == old.bytes {
        return 0;
    }
    let units = Measure::Units(encoding);
    old.by(units) - (new.by(units) - width_of(inserted, encoding))
}
