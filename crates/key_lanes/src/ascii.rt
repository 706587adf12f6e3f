//! Bytes of ASCII: whether all are, and the small letters in place of the capital ones.
ghost use Rattle.std.specs.Prelude.{◌≡◌, ◌+◌, ◌≤◌, IsAscii, length};
ghost use Rattle.std.specs.Bool.{MatchBool};
ghost use Rattle.std.specs.Str.{IsNotAscii, str_to_ascii_lowercase};
ghost use Rattle.key_lanes.specs.inner.Blocks.{AsciiBetween, IsLowered, IsStored};

use crate::block::LANES;
use std::simd::prelude::*;

/// Whether every byte is below 128.
pub fn is_ascii(bytes: &[u8]) -> bool
    ensures { MatchBool result (IsAscii bytes.now) (IsNotAscii bytes.now) }
{
    let len = bytes.len();
    if len < LANES {
        return bytes.is_ascii();
    }
    let last = len - LANES;
    let mut at = 0;
    while at < last {
        if !is_ascii_block(bytes, at) {
            return false;
        }
        at += LANES;
    }
    is_ascii_block(bytes, last)
}

/// Replaces `A` to `Z` by `a` to `z` and leaves the rest.
pub fn lower_ascii(bytes: &mut [u8])
    ensures { bytes.new ≡ str_to_ascii_lowercase bytes.old }
{
    let len = bytes.len();
    if len < LANES {
        return bytes.make_ascii_lowercase();
    }
    let last = len - LANES;
    // It is read before its bytes are written, since a load waits for a store that it overlaps.
    let tail = lowered(bytes, last);
    let mut at = 0;
    while at < last {
        let block = lowered(bytes, at);
        store(bytes, at, block);
        at += LANES;
    }
    store(bytes, last, tail);
}

#[inline(always)]
fn is_ascii_block(bytes: &[u8], at: usize) -> bool
    requires { at + LANES ≤ length bytes.now }
    ensures { MatchBool result (AsciiBetween bytes.now at (at + LANES)) (IsNotAscii bytes.now) }
{
    let beyond = u8x16::from_slice(&bytes[at..]).simd_ge(u8x16::splat(128));
    beyond.to_bitmask() == 0
}

// The block from `at` on, in small letters. A byte below `A` wraps round, so one comparison finds
// the capital ones.
#[inline(always)]
fn lowered(bytes: &[u8], at: usize) -> u8x16
    requires { at + LANES ≤ length bytes.now }
    ensures { IsLowered bytes.now at result }
{
    let block = u8x16::from_slice(&bytes[at..]);
    let is_capital = (block - u8x16::splat(b'A')).simd_lt(u8x16::splat(26));
    is_capital.select(block | u8x16::splat(32), block)
}

#[inline(always)]
fn store(bytes: &mut [u8], at: usize, block: u8x16)
    requires room { at + LANES ≤ length bytes.old }
    requires whole { length block ≡ LANES }
    ensures { IsStored bytes.old at block bytes.new }
{
    block.copy_to_slice(&mut bytes[at..]);
}
