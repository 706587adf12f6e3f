//! Clocks made of others: the join of two clocks, and a clock with one counter raised.
ghost use Rattle.std.specs.Prelude.{◌≡◌, IfOk, MatchOption};
ghost use Rattle.vector_rev.specs.Counts.{join, raised};
ghost use Rattle.vector_rev.specs.Made.{IsFull, Joins, Raises};
ghost use Rattle.vector_rev.specs.inner.Standing.{HasRoom};

use crate::Clock;
use crate::places::{put_each, put_greater};
use std::error::Error;
use std::fmt;
use u1_base::limits::{GREATEST_COUNT, MOST_CLOCK_ENTRIES};
use u1_base::{Memory, ReplicaUid};

/// Why two clocks have no join.
#[derive(Clone, Copy, Debug, PartialEq, Eq)]
pub enum JoinFault {
    /// More than `u1_base::limits::MOST_CLOCK_ENTRIES` uids occur in the two.
    TooMany,
    Memory,
}

/// Why a clock is not raised.
#[derive(Clone, Copy, Debug, PartialEq, Eq)]
pub enum NextFault {
    /// The own counter is 2^63-1, or its entry would be the 65th.
    ClockFull,
    Memory,
}

impl fmt::Display for JoinFault {
    fn fmt<W: fmt::Write>(&self, f: &mut fmt::Formatter<W>) -> fmt::Result {
        match self {
            JoinFault::TooMany => {
                write!(
                    f,
                    "more than {MOST_CLOCK_ENTRIES} replicas occur in the two clocks"
                )
            }
            JoinFault::Memory => f.write_str("out of memory"),
        }
    }
}

impl Error for JoinFault {}

impl fmt::Display for NextFault {
    fn fmt<W: fmt::Write>(&self, f: &mut fmt::Formatter<W>) -> fmt::Result {
        match self {
            NextFault::ClockFull => f.write_str("the clock cannot count this replica further"),
            NextFault::Memory => f.write_str("out of memory"),
        }
    }
}

impl Error for NextFault {}

impl From<Memory> for JoinFault {
    ghost use Rattle.std.specs.Prelude.{◌≡◌};
    ghost use Rattle.vector_rev.specs.declared.join.JoinFault.TheVariants as fault;

    ghost from_gives = { λ _ e. e ≡ fault.Memory };

    fn from(_memory: Memory) -> JoinFault {
        JoinFault::Memory
    }
}

impl From<Memory> for NextFault {
    ghost use Rattle.std.specs.Prelude.{◌≡◌};
    ghost use Rattle.vector_rev.specs.declared.join.NextFault.TheVariants as fault;

    ghost from_gives = { λ _ e. e ≡ fault.Memory };

    fn from(_memory: Memory) -> NextFault {
        NextFault::Memory
    }
}

impl Clock {
    /// The clock with the greater counter of each uid.
    pub fn join(&self, other: &Clock) -> Result<Clock, JoinFault>
        ensures counters { Joins self.now other.now result }
        ensures value { IfOk result (λ z. z.entries ≡ join self.now.entries other.now.entries) }
    {
        self.join_into(other.copy()?)
    }

    /// The join with a clock that is consumed. It takes memory for the entries alone that are new
    /// to that clock.
    pub fn join_into(&self, all: Clock) -> Result<Clock, JoinFault>
        ensures counters { Joins self.now all result }
        ensures value { IfOk result (λ z. z.entries ≡ join self.now.entries all.entries) }
    {
        let Clock { mut entries } = all;
        put_each(&mut entries, self.entries())?;
        if entries.len() > MOST_CLOCK_ENTRIES {
            return Err(JoinFault::TooMany);
        }
        Ok(Clock { entries })
    }

    /// The clock with the own counter raised by one.
    pub fn next(&self, own: &ReplicaUid) -> Result<Clock, NextFault>
        ensures counters { Raises self.now own.now result }
        ensures value { IfOk result (λ z. z.entries ≡ raised self.now.entries own.now) }
    {
        self.copy_with_capacity(self.entries().len() + 1)?
            .raise(own)
    }

    /// The clock itself, with the own counter raised by one. It takes memory for an own entry alone
    /// that is new.
    pub fn raise(self, own: &ReplicaUid) -> Result<Clock, NextFault>
        ensures counters { Raises self own.now result }
        ensures value { IfOk result (λ z. z.entries ≡ raised self.entries own.now) }
    {
        let Some(counter) = self.raised_counter(own) else {
            return Err(NextFault::ClockFull);
        };
        // Lending the text is what tells the proof that the uid is an id.
        let _text = own.as_str();
        let Clock { mut entries } = self;
        let end = entries.len();
        put_greater(&mut entries, end, own, counter)?;
        Ok(Clock { entries })
    }

    // The own counter raised by one, unless the clock is full.
    fn raised_counter(&self, own: &ReplicaUid) -> Option<u64>
        ensures { MatchOption result (IsFull self.now own.now) (HasRoom self.now own.now) }
    {
        let count = self.count(own);
        if count == GREATEST_COUNT {
            return None;
        }
        if count == 0 && self.entries().len() == MOST_CLOCK_ENTRIES {
            return None;
        }
        Some(count + 1)
    }
}
