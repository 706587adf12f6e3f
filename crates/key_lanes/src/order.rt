//! The order of keys: byte by byte, and a front of another key before it.
ghost use Rattle.std.specs.Prelude.{◌≡◌, ◌+◌, ◌<◌, ◌≤◌, length, min, nat_eq, MatchOption};
ghost use Rattle.std.specs.List.{common_prefix_len};
ghost use Rattle.std.specs.Cmp.Lexicographic.{slice_cmp};
ghost use Rattle.std.specs.Ordering.{nat_cmp};
ghost use Rattle.key_lanes.specs.inner.Blocks.{EqualBetween, IsFirstDifference};

use crate::block::{FEW_LANES, LANES, first_set};
use std::cmp::Ordering;
use std::simd::prelude::*;

/// How many bytes the two have in common from the first on.
#[inline]
pub fn common_prefix(a: &[u8], b: &[u8]) -> usize
    ensures value { result ≡ common_prefix_len nat_eq a.now b.now }
    ensures in_a { result ≤ length a.now }
    ensures in_b { result ≤ length b.now }
{
    let len = a.len().min(b.len());
    if len < LANES {
        return prefix_of_few(a, b, len);
    }
    let last = len - LANES;
    let mut at = 0;
    while at < last {
        if let Some(lane) = difference_in_block(a, b, at) {
            return at + lane;
        }
        at += LANES;
    }
    match difference_in_block(a, b, last) {
        Some(lane) => last + lane,
        None => len,
    }
}

// The same where the shorter of the two has fewer bytes than a block.
#[inline(always)]
fn prefix_of_few(a: &[u8], b: &[u8], len: usize) -> usize
    requires shorter { len ≡ min (length a.now) (length b.now) }
    requires few { len < LANES }
    ensures value { result ≡ common_prefix_len nat_eq a.now b.now }
    ensures within { result ≤ len }
{
    if len < FEW_LANES {
        return prefix_by_bytes(a, b, len);
    }
    if let Some(lane) = difference_in_few(a, b, 0) {
        return lane;
    }
    if len == FEW_LANES {
        return len;
    }
    let last = len - FEW_LANES;
    match difference_in_few(a, b, last) {
        Some(lane) => last + lane,
        None => len,
    }
}

#[inline(always)]
fn prefix_by_bytes(a: &[u8], b: &[u8], len: usize) -> usize
    requires { len ≡ min (length a.now) (length b.now) }
    ensures value { result ≡ common_prefix_len nat_eq a.now b.now }
    ensures within { result ≤ len }
{
    let mut at = 0;
    while at < len && a[at] == b[at] {
        at += 1;
    }
    at
}

/// The order by bytes, as of slices and texts.
pub fn compare(a: &[u8], b: &[u8]) -> Ordering
    ensures { result ≡ slice_cmp nat_cmp a.now b.now }
{
    let at = common_prefix(a, b);
    if at < a.len() && at < b.len() {
        a[at].cmp(&b[at])
    } else {
        a.len().cmp(&b.len())
    }
}

// The first of the 16 lanes from `at` on in which the two differ.
#[inline(always)]
fn difference_in_block(a: &[u8], b: &[u8], at: usize) -> Option<usize>
    requires in_a { at + LANES ≤ length a.now }
    requires in_b { at + LANES ≤ length b.now }
    ensures { MatchOption result (EqualBetween a.now b.now at (at + LANES))
        (λ lane. (lane < LANES) × IsFirstDifference a.now b.now at (at + lane)) }
{
    let left = u8x16::from_slice(&a[at..]);
    let right = u8x16::from_slice(&b[at..]);
    first_set(left.simd_ne(right).to_bitmask())
}

// The same of 8 lanes.
#[inline(always)]
fn difference_in_few(a: &[u8], b: &[u8], at: usize) -> Option<usize>
    requires in_a { at + FEW_LANES ≤ length a.now }
    requires in_b { at + FEW_LANES ≤ length b.now }
    ensures { MatchOption result (EqualBetween a.now b.now at (at + FEW_LANES))
        (λ lane. (lane < FEW_LANES) × IsFirstDifference a.now b.now at (at + lane)) }
{
    let left = u8x8::from_slice(&a[at..]);
    let right = u8x8::from_slice(&b[at..]);
    first_set(left.simd_ne(right).to_bitmask())
}
