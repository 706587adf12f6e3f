//! Where the plain text of ASCII ends, sixteen bytes at a time.
ghost use Rattle.std.specs.Prelude.{◌≡◌, ◌+◌, ◌<◌, ◌≤◌, ℕ, false, length, map, slice_index};
ghost use Rattle.std.specs.Simd.Lanes.{chunk, mask_l};
ghost use Rattle.content.specs.inner.Fronts.{is_special};

use std::simd::prelude::*;

// How many bytes a block has.
const LANES: usize = 16;

/// How many bytes come before the first that a text does not have as it is, or that is not ASCII.
pub(crate) fn plain_end(bytes: &[u8]) -> usize
    ensures within { result ≤ length bytes.now }
    ensures plain { (k : ℕ) → k < result → is_special (slice_index bytes.now k) ≡ false }
{
    let mut at = 0;
    while bytes.len() - at >= LANES {
        let found = special_lanes(bytes, at);
        if found != 0 {
            return at + found.trailing_zeros() as usize;
        }
        at += LANES;
    }
    plain_end_by_bytes(bytes, at)
}

// Which bytes of the block from `at` on are special: bit k speaks of byte k.
#[inline(always)]
fn special_lanes(bytes: &[u8], at: usize) -> u64
    requires { at + LANES ≤ length bytes.now }
    ensures { result ≡ mask_l (map is_special (chunk at LANES bytes.now)) }
{
    let block = u8x16::from_slice(&bytes[at..]);
    (block.simd_eq(u8x16::splat(b'"'))
        | block.simd_eq(u8x16::splat(b'\\'))
        | block.simd_lt(u8x16::splat(32))
        | block.simd_ge(u8x16::splat(128))).to_bitmask()
}

// The same, a byte at a time from `from` on.
fn plain_end_by_bytes(bytes: &[u8], from: usize) -> usize
    requires { from ≤ length bytes.now }
    ensures within { result ≤ length bytes.now }
    ensures plain { (k : ℕ) → from ≤ k → k < result
        → is_special (slice_index bytes.now k) ≡ false }
{
    let mut at = from;
    while at < bytes.len() && !is_special(bytes[at]) {
        at += 1;
    }
    at
}

fn is_special(byte: u8) -> bool
    ensures { result ≡ is_special byte }
{
    byte == b'"' || byte == b'\\' || byte < 32 || byte >= 128
}
