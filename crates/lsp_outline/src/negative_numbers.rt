//! The integers below zero that numerals of JSON write, as `serde_json` reads them.
ghost use Rattle.std.specs.Prelude.{◌≡◌, ℕ, ◌≤◌, length, Some, true, IfSome};
ghost use Rattle.serde_json.specs.Data.{Data, Num, number};
ghost use Rattle.serde_json.specs.Read.{number_of, number_from};
ghost use Rattle.lsp_rpc.specs.Shape.{as_integer};
ghost use Rattle.lsp_walk.specs.Walk.{IsValue};

use fast_float::Numeral;
use lsp_walk::{has_minus, number_end};

/// The integer below zero and of 32 bits that a sign and this numeral write.
fn below_zero(numeral: &Numeral<'_>) -> Option<i32>
    ensures { IfSome result (λ z. (n : Num) × (number_from true numeral.now ≡ Some n)
        × (as_integer (number n) ≡ Some z)) }
{
    let n = numeral.to_u64()?;
    if n == 0 || n >= 1 << 31 {
        return None;
    }
    Some(-(n as i32))
}

/// The number that a numeral writes, where it is an integer below zero and of 32 bits.
fn negative_of(digits: &[u8]) -> Option<i32>
    ensures { IfSome result (λ z. (n : Num) × (number_of digits.now ≡ Some n)
        × (as_integer (number n) ≡ Some z)) }
{
    if !has_minus(digits) {
        return None;
    }
    below_zero(&Numeral::scan(&digits[1..]))
}

/// The integer below zero and of 32 bits that begins there, and where it ends.
#[inline(never)]
pub(crate) fn negative_at(bytes: &[u8], from: usize) -> Option<(i32, usize)>
    requires { from ≤ length bytes.now }
    ensures { IfSome result (λ r. (d : Data) × ((depth : ℕ) → IsValue depth bytes.now from r.1 d)
        × (as_integer d ≡ Some r.0)) }
{
    let end = number_end(bytes, from)?;
    let n = negative_of(&bytes[from..end])?;
    Some((n, end))
}
