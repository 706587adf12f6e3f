//! Where a line ends.
ghost use Rattle.std.specs.Prelude.{◌+◌, ◌<◌, ◌≤◌, length, MatchOption};
ghost use Rattle.key_lanes.specs.Breaks.{IsFirstBreak, NoBreak};

use crate::block::{LANES, first_set};
use std::simd::prelude::*;

/// The first place at or after `from` where CR LF stands.
pub fn find_break(bytes: &[u8], from: usize) -> Option<usize>
    requires { from ≤ length bytes.now }
    ensures { MatchOption result (NoBreak bytes.now from (length bytes.now))
        (IsFirstBreak bytes.now from) }
{
    let len = bytes.len();
    if len - from <= LANES {
        return break_by_bytes(bytes, from);
    }
    let last = len - LANES - 1;
    let mut at = from;
    while at < last {
        if let Some(lane) = break_in_block(bytes, at) {
            return Some(at + lane);
        }
        at += LANES;
    }
    match break_in_block(bytes, last) {
        Some(lane) => Some(last + lane),
        None => None,
    }
}

// Two places are looked at in each turn: where the second byte is neither LF nor CR no line ends at
// either of them.
fn break_by_bytes(bytes: &[u8], from: usize) -> Option<usize>
    requires { from ≤ length bytes.now }
    ensures { MatchOption result (NoBreak bytes.now from (length bytes.now))
        (IsFirstBreak bytes.now from) }
{
    let mut at = from;
    while bytes.len() - at > 1 {
        let second = bytes[at + 1];
        if second == b'\n' && bytes[at] == b'\r' {
            return Some(at);
        }
        if second == b'\r' && bytes.len() - at > 2 && bytes[at + 2] == b'\n' {
            return Some(at + 1);
        }
        at += 2;
    }
    None
}

// The first lane from `at` on where CR LF stands. The LF may stand after the block. Most blocks
// have no CR.
#[inline(always)]
fn break_in_block(bytes: &[u8], at: usize) -> Option<usize>
    requires { at + LANES < length bytes.now }
    ensures { MatchOption result (NoBreak bytes.now at (at + LANES))
        (λ lane. (lane < LANES) × IsFirstBreak bytes.now at (at + lane)) }
{
    let ends = u8x16::from_slice(&bytes[at..]).simd_eq(u8x16::splat(b'\r'));
    if ends.to_bitmask() == 0 {
        return None;
    }
    let feeds = u8x16::from_slice(&bytes[at + 1..]).simd_eq(u8x16::splat(b'\n'));
    first_set((ends & feeds).to_bitmask())
}
