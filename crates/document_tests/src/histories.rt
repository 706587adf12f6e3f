//! Made-up acceptances against the definition, computed plainly over all of them.
use conflicts::{Accept, DocSet, Making};
use content::Content;
use std::alloc::Global;
use vector_rev::{Clock, Clocks};

// Whether a later acceptance repeats the one at a place, or any one dominates it.
fn is_left(history: &[Accept], place: usize, rev: &Clock) -> bool {
    for (other, accept) in history.iter().enumerate() {
        let newer = accept.rev.covers(rev) && !rev.covers(&accept.rev);
        if newer || (accept.rev == *rev && place < other) {
            return false;
        }
    }
    true
}

// The last acceptance that was marked current.
fn last_marked(history: &[Accept]) -> Option<&Accept> {
    let mut last = None;
    for accept in history {
        if accept.current {
            last = Some(accept);
        }
    }
    last
}

// Whether the set has the members of the history: the current one first, the others as they were
// accepted.
fn is_of_history(set: &DocSet, history: &[Accept]) -> Option<bool> {
    let current = last_marked(history)?;
    let mut count = 1u64;
    for (place, accept) in history.iter().enumerate() {
        if is_left(history, place, &accept.rev) && accept.rev != current.rev {
            if !is_member(set, count, accept)? {
                return Some(false);
            }
            count = count.saturating_add(1);
        }
    }
    Some(set.length() == count && is_member(set, 0, current)?)
}

fn is_member(set: &DocSet, place: u64, accept: &Accept) -> Option<bool> {
    let member = set.member(place)?;
    let content = member.content.as_ref()?;
    Some(member.rev == accept.rev && content.same(accept.content.as_ref()?))
}

// A number made from another one, by the constants of Knuth's MMIX generator.
fn next_number(number: u64) -> u64 {
    number
        .wrapping_mul(6_364_136_223_846_793_005)
        .wrapping_add(1_442_695_040_888_963_407)
}

const REVS: [&str; 26] = [
    "a:1",
    "a:2",
    "b:1",
    "b:2",
    "c:1",
    "c:2",
    "a:1|b:1",
    "a:1|b:2",
    "a:2|b:1",
    "a:2|b:2",
    "a:1|c:1",
    "a:1|c:2",
    "a:2|c:1",
    "a:2|c:2",
    "b:1|c:1",
    "b:1|c:2",
    "b:2|c:1",
    "b:2|c:2",
    "a:1|b:1|c:1",
    "a:1|b:1|c:2",
    "a:1|b:2|c:1",
    "a:1|b:2|c:2",
    "a:2|b:1|c:1",
    "a:2|b:1|c:2",
    "a:2|b:2|c:1",
    "a:2|b:2|c:2",
];

const CONTENTS: [&str; 4] = ["{\"v\":0}", "{\"v\":1}", "{\"v\":2}", "{\"v\":3}"];

// An acceptance made up from a number: one of these clocks, one of four contents, marked current
// three times in four.
fn made_up(alloc: Global, number: u64) -> Option<Accept> {
    let text = CONTENTS[((number >> 44) % 4) as usize];
    let content = Content::read(alloc, text.as_bytes()).ok()?;
    Some(Accept {
        rev: Clock::read(alloc, REVS[((number >> 33) % 26) as usize]).ok()?,
        content: Some(content),
        making: Making::Received,
        parents: Clocks::new(alloc),
        current: (number >> 52) % 4 > 0,
    })
}

// The set after a made-up acceptance, if that fits, with which the history goes on.
fn after_one_more(
    alloc: Global,
    set: Option<DocSet>,
    history: &mut Vec<Accept>,
    number: u64,
) -> Option<Option<DocSet>> {
    let accept = made_up(alloc, number)?;
    if !DocSet::fits(set.as_ref(), &accept) {
        return Some(set);
    }
    let copy = accept.copy(alloc).ok()?;
    history.push(accept).ok()?;
    Some(Some(DocSet::apply(alloc, set, copy).ok()?))
}

// How many acceptances fitted in the history of a number, if the set was that of the history after
// each.
fn fitted(alloc: Global, seed: u64) -> Option<usize> {
    let mut number = seed;
    let mut history = Vec::new(alloc);
    let mut set = None;
    for _ in 0..12 {
        number = next_number(number);
        set = after_one_more(alloc, set, &mut history, number)?;
        if let Some(set) = &set {
            if !is_of_history(set, history.as_slice())? {
                return None;
            }
        }
    }
    Some(history.len())
}

// Whether each history agrees, and six or more acceptances fitted in one.
fn agrees(alloc: Global) -> bool {
    let mut most = 0;
    for seed in 0..40 {
        match fitted(alloc, seed) {
            Some(count) => most = count.max(most),
            None => return false,
        }
    }
    most >= 6
}

#[test]
fn agrees_with_the_definition(rt: HostRuntime) {
    assert!(rt; agrees(rt.alloc()));
}
