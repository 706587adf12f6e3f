//! The search for a line end and the longest common prefix over so many bytes, beside scalar loops.
use key_lanes::{common_prefix, find_break};
use speed_common::{Fault, Workload};
use std::alloc::Global;

// So many bytes are gone through in all, so that a short slice is measured too.
const TOTAL: u32 = 64_000_000;

/// Two slices of so many bytes that end with CR LF, gone through in turns. The result is the sum of
/// the places that were found.
#[derive(Drop)]
pub struct Lanes {
    turns: u32,
    one: Vec<u8>,
    two: Vec<u8>,
}

impl Workload for Lanes {
    fn make(alloc: Global, size: u32) -> Result<Lanes, Fault> {
        if size < 2 {
            return Err(Fault::Words);
        }
        Ok(Lanes {
            turns: TOTAL.checked_div(size).unwrap_or(0),
            one: made(alloc, size)?,
            two: made(alloc, size)?,
        })
    }

    fn ours(&mut self, _alloc: Global) -> Result<u64, Fault> {
        let mut found = 0u64;
        for _ in 0..self.turns {
            let one = part(self.one.as_slice(), found);
            let place = find_break(one, 0).unwrap_or(0) as u64;
            let prefix = common_prefix(one, self.two.as_slice()) as u64;
            found = found.saturating_add(place).saturating_add(prefix);
        }
        Ok(found)
    }

    fn peer(&mut self, _alloc: Global) -> Result<u64, Fault> {
        let mut found = 0u64;
        for _ in 0..self.turns {
            let one = part(self.one.as_slice(), found);
            let place = plain_break(one) as u64;
            let prefix = plain_prefix(one, self.two.as_slice()) as u64;
            found = found.saturating_add(place).saturating_add(prefix);
        }
        Ok(found)
    }
}

fn made(alloc: Global, size: u32) -> Result<Vec<u8>, Fault> {
    let mut bytes = Vec::new(alloc);
    for _ in 2..size {
        bytes.push(b'a')?;
    }
    bytes.extend_from_slice(b"\r\n")?;
    Ok(bytes)
}

// Each turn begins where the turns before it say, or a compiler makes one turn of them all.
fn part(bytes: &[u8], found: u64) -> &[u8] {
    bytes.get((found & 1) as usize..).unwrap_or(bytes)
}

#[inline(never)]
fn plain_break(bytes: &[u8]) -> usize {
    for place in 1..bytes.len() {
        if bytes[place] == b'\n' && bytes[place - 1] == b'\r' {
            return place - 1;
        }
    }
    0
}

#[inline(never)]
fn plain_prefix(one: &[u8], two: &[u8]) -> usize {
    let length = one.len().min(two.len());
    for place in 0..length {
        if one[place] != two[place] {
            return place;
        }
    }
    length
}
