//! The clock that is made of the parents' clocks.
ghost use Rattle.std.specs.Prelude.{◌≡◌, ◌≤◌, ◌<◌, [], ◌∷◌, IfOk, MatchOption, Some, length};
ghost use Rattle.u1_base.specs.declared.limits.TheConstants.{MOST_CLOCK_ENTRIES};
ghost use Rattle.vector_rev.specs.Counts.{join};
ghost use Rattle.conflicts.specs.Making.{greatest, joined, made_clock};

use std::alloc::Global;
use u1_base::{Memory, ReplicaUid};
use vector_rev::{Clock, JoinFault, NextFault};

// The clock of a first revision.
pub(crate) fn first_clock(alloc: Global, own: &ReplicaUid) -> Result<Clock, Memory>
    ensures { IfOk result (λ z. made_clock own.now [] ≡ Some z) }
{
    Clock::first(alloc, own)
}

// The parents' clocks joined, with the own counter raised by one; None where that is no clock.
pub(crate) fn made_of(parents: &[Clock], own: &ReplicaUid) -> Result<Option<Clock>, Memory>
    requires { 1 ≤ length parents.now }
    ensures { IfOk result (λ r. r ≡ made_clock own.now parents.now) }
{
    match joined_of(parents)? {
        Some(clock) => raised_of(clock, own),
        None => Ok(None),
    }
}

// The clock that is made of one parent; None where the parent is full.
fn raised_of(clock: Clock, own: &ReplicaUid) -> Result<Option<Clock>, Memory>
    ensures { IfOk result (λ r. r ≡ made_clock own.now (clock ∷ [])) }
{
    match clock.raise(own) {
        Ok(raised) => Ok(Some(raised)),
        Err(NextFault::ClockFull) => Ok(None),
        Err(NextFault::Memory) => Err(Memory),
    }
}

// The join of the clocks, from the last one on; None where it has more than 64 entries.
fn joined_of(clocks: &[Clock]) -> Result<Option<Clock>, Memory>
    requires { 1 ≤ length clocks.now }
    ensures { IfOk result (λ o. MatchOption o (MOST_CLOCK_ENTRIES < length (joined clocks.now))
        (λ z. z.entries ≡ joined clocks.now)) }
{
    let mut place = clocks.len() - 1;
    let mut all = clocks[place].copy()?;
    while place > 0 {
        place -= 1;
        match joined_with(&clocks[place], all)? {
            Some(clock) => all = clock,
            None => return Ok(None),
        }
    }
    Ok(Some(all))
}

// The join of a clock with all that were joined before; None where it has more than 64 entries.
fn joined_with(one: &Clock, all: Clock) -> Result<Option<Clock>, Memory>
    ensures { IfOk result (λ o. MatchOption o
        (MOST_CLOCK_ENTRIES < length (join one.now.entries all.entries))
        (λ z. z.entries ≡ join one.now.entries all.entries)) }
{
    match one.join_into(all) {
        Ok(clock) => Ok(Some(clock)),
        Err(JoinFault::TooMany) => Ok(None),
        Err(JoinFault::Memory) => Err(Memory),
    }
}

// The greatest own counter among the clocks.
pub(crate) fn greatest_in(clocks: &[Clock], own: &ReplicaUid) -> u64
    ensures { result ≡ greatest own.now clocks.now }
{
    let mut most = 0;
    for clock in clocks {
        most = clock.count(own).max(most);
    }
    most
}
