//! Which of 64 bytes may end a line, as the bits of a number: bit `k` for byte `k`.

ghost use Rattle.std.specs.Prelude.{◌≡◌, ◌≢◌, ℕ, ◌<◌, length};
ghost use Rattle.std.specs.Int.{bit_at};
ghost use Rattle.lsp_lined.specs.Ends.{IsMarked};

use std::simd::u8x64;

/// Marks each LF and each CR.
#[inline(always)]
pub(crate) fn marks_in(block: u8x64) -> u64
    requires { length block ≡ 64 }
    ensures { IsMarked block result }
{
    let feeds = block.simd_eq(u8x64::splat(b'\n')).to_bitmask();
    let returns = block.simd_eq(u8x64::splat(b'\r')).to_bitmask();
    feeds | returns
}

/// The first byte that is marked.
#[inline(always)]
pub(crate) fn lowest(marks: u64) -> usize
    requires { marks ≢ 0 }
    ensures bound { result < 64 }
    ensures set { bit_at marks result ≡ 1 }
    ensures below { (k : ℕ) → k < result → bit_at marks k ≡ 0 }
{
    marks.trailing_zeros() as usize
}

/// The marks without one of them.
#[inline(always)]
pub(crate) fn without(marks: u64, k: usize) -> u64
    requires bound { k < 64 }
    requires set { bit_at marks k ≡ 1 }
    ensures smaller { result < marks }
    ensures cleared { bit_at result k ≡ 0 }
    ensures kept { (j : ℕ) → j < 64 → j ≢ k → bit_at result j ≡ bit_at marks j }
    ensures no_more { (j : ℕ) → bit_at result j ≡ 1 → bit_at marks j ≡ 1 }
{
    marks & !(1 << k)
}
