//! How two clocks compare.
ghost use Rattle.std.specs.Prelude.{◌≡◌, T};
ghost use Rattle.vector_rev.specs.Clock.{covers, covers_entries, is_clock};
ghost use Rattle.vector_rev.specs.Compare.{Compares, order_of};

use crate::{Clock, ClockEntry};
use std::cmp::Ordering;

/// How a clock stands to another one.
#[derive(Clone, Copy, PartialEq, Eq)]
pub enum Order {
    Equal,
    /// The clock is newer than the other one: it is another one, and no counter of that one is
    /// greater.
    Newer,
    /// The other one is newer.
    Older,
    /// Each has a counter that is greater than the other's.
    Apart,
}

impl Clock {
    pub fn order(&self, other: &Clock) -> Order
        ensures counters { Compares self.now other.now result }
        ensures value { result ≡ order_of self.now other.now }
    {
        let (covers, covered) = self.both_ways(other);
        if covers {
            if covered { Order::Equal } else { Order::Newer }
        } else {
            if covered { Order::Older } else { Order::Apart }
        }
    }

    /// Whether the clock is newer than the other one or equal to it.
    pub fn covers(&self, other: &Clock) -> bool
        ensures { result ≡ covers self.now other.now }
    {
        self.both_ways(other).0
    }

    // Whether the clock covers the other one, and whether that one covers it.
    fn both_ways(&self, other: &Clock) -> (bool, bool)
        ensures covers { result.0 ≡ covers self.now other.now }
        ensures covered { result.1 ≡ covers other.now self.now }
    {
        compare(self.entries(), other.entries())
    }
}

impl PartialEq for Clock {
    ghost use Rattle.std.specs.Cmp.{partial_equiv_from_equiv};
    ghost use Rattle.vector_rev.specs.Compare.{same, same_equals};

    ghost eq = { same };

    ghost laws = { partial_equiv_from_equiv same_equals };

    fn eq(&self, other: &Clock) -> bool {
        self.entries() == other.entries()
    }
}

impl Eq for Clock {
    ghost use Rattle.vector_rev.specs.Compare.{same_equals};

    ghost laws = { same_equals };
}

impl PartialEq for ClockEntry {
    ghost use Rattle.std.specs.Cmp.{partial_equiv_from_equiv};
    ghost use Rattle.vector_rev.specs.Compare.{same_entry, same_entry_equals};

    ghost eq = { same_entry };

    ghost laws = { partial_equiv_from_equiv same_entry_equals };

    fn eq(&self, other: &ClockEntry) -> bool {
        self.uid() == other.uid() && self.counter() == other.counter()
    }
}

impl Eq for ClockEntry {
    ghost use Rattle.vector_rev.specs.Compare.{same_entry_equals};

    ghost laws = { same_entry_equals };
}

// Whether the left entries cover the right ones, and the right ones the left, in one walk along
// both.
fn compare(left: &[ClockEntry], right: &[ClockEntry]) -> (bool, bool)
    requires left { T (is_clock left.now) }
    requires right { T (is_clock right.now) }
    ensures left_covers { result.0 ≡ covers_entries left.now right.now }
    ensures right_covers { result.1 ≡ covers_entries right.now left.now }
{
    let (mut i, mut j) = (0, 0);
    let (mut forward, mut backward) = (true, true);
    while i < left.len() && j < right.len() {
        let (x, y) = (&left[i], &right[j]);
        match x.uid().cmp(y.uid()) {
            Ordering::Less => {
                backward = false;
                i += 1;
            }
            Ordering::Greater => {
                forward = false;
                j += 1;
            }
            Ordering::Equal => {
                forward = forward & (y.counter() <= x.counter());
                backward = backward & (x.counter() <= y.counter());
                i += 1;
                j += 1;
            }
        }
    }
    (forward & (j == right.len()), backward & (i == left.len()))
}
