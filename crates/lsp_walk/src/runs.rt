//! Runs of bytes, sixteen bytes at once.
ghost use Rattle.std.specs.Prelude.{◌≡◌, ℕ, ◌+◌, ◌≤◌, Bool, length, drop, map, not, IfSome};
ghost use Rattle.std.specs.List.{prefix_len};
ghost use Rattle.std.specs.Simd.Lanes.{mask_l};

use std::simd::prelude::*;

/// How many bytes are looked at together.
const LANES: usize = 16;

/// What ends a run of bytes.
pub(crate) trait Run {
    /// Whether this byte does.
    ghost is_stop: { ℕ → Bool };

    /// Whether this byte does.
    fn is_stop(byte: u8) -> bool
        ensures { result ≡ is_stop byte };

    /// A bit for each of these bytes: whether it does.
    fn stops(block: u8x16) -> u64
        requires { length block ≡ LANES }
        ensures { result ≡ mask_l (map is_stop block) };
}

/// Where the run ends that is there, if one block of bytes shows it.
#[inline(always)]
pub(crate) fn near_run_end<R: Run>(bytes: &[u8], from: usize) -> Option<usize>
    requires { from ≤ length bytes.now }
    ensures value { IfSome result (λ end.
        end ≡ from + prefix_len (λ x. not (R.is_stop x)) (drop from bytes.now)) }
    ensures within { IfSome result (λ end. end ≤ length bytes.now) }
{
    if bytes.len() - from < LANES {
        return None;
    }
    let stops = R::stops(u8x16::from_slice(&bytes[from..]));
    if stops == 0 {
        return None;
    }
    Some(from + stops.trailing_zeros() as usize)
}

/// Where the run ends that is there, byte by byte.
#[inline(never)]
fn last_run_end<R: Run>(bytes: &[u8], from: usize) -> usize
    requires { from ≤ length bytes.now }
    ensures value { result ≡ from + prefix_len (λ x. not (R.is_stop x)) (drop from bytes.now) }
    ensures within { result ≤ length bytes.now }
{
    let mut at = from;
    'bytes: while at < bytes.len() && !R::is_stop(bytes[at]) {
        at += 1;
    }
    at
}

/// Where the run ends that is there.
#[inline(always)]
pub(crate) fn run_end<R: Run>(bytes: &[u8], from: usize) -> usize
    requires { from ≤ length bytes.now }
    ensures value { result ≡ from + prefix_len (λ x. not (R.is_stop x)) (drop from bytes.now) }
    ensures within { result ≤ length bytes.now }
{
    let mut at = from;
    'lanes: while bytes.len() - at >= LANES {
        let stops = R::stops(u8x16::from_slice(&bytes[at..]));
        if stops != 0 {
            return at + stops.trailing_zeros() as usize;
        }
        at += LANES;
    }
    last_run_end::<R>(bytes, at)
}
