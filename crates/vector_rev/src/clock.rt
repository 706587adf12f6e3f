//! A clock, and what it counts.
ghost use Rattle.std.specs.Prelude.{◌≡◌, ◌≤◌, IfOk, T, length};
ghost use Rattle.u1_base.specs.declared.limits.TheConstants.{MOST_CLOCK_ENTRIES};
ghost use Rattle.vector_rev.specs.Clock.{count_of, is_clock};
ghost use Rattle.vector_rev.specs.Made.{IsFirst};

use crate::ClockEntry;
use std::alloc::Global;
use std::marker::Model;
use u1_base::{Items, Memory, ReplicaUid};

/// A vector clock: the counters of 1 to 64 replicas, seen as its entries in the order of their
/// uids' bytes.
#[derive(Debug, Drop)]
pub struct Clock {
    pub(crate) entries: Vec<ClockEntry>,
    pub(crate) ghost well: { T (is_clock entries.items) },
}

/// A list of clocks.
pub type Clocks = Items<Clock>;

impl Model for Clock {
    ghost use Rattle.vector_rev.specs.Clock.{Clock};
    ghost use Rattle.vector_rev.specs.Stored.{clock_code};

    ghost Value = { Clock };

    ghost coded = { clock_code };

    ghost view = { λ s. record { entries = s.entries.items; well = s.well } };
}

impl Clock {
    /// The clock of a replica that counts itself once and no other.
    pub fn first(alloc: Global, own: &ReplicaUid) -> Result<Clock, Memory>
        ensures { IfOk result (λ z. IsFirst own.now z) }
    {
        let mut entries = Vec::with_capacity(alloc, 1)?;
        let entry = ClockEntry::new(own.copy()?, 1);
        // Lending the uid is what tells the proof that it is an id.
        let _uid = entry.uid();
        entries.push(entry)?;
        Ok(Clock { entries })
    }

    pub fn copy(&self) -> Result<Clock, Memory>
        ensures { IfOk result (λ z. z ≡ self.now) }
    {
        self.copy_with_capacity(self.entries.len())
    }

    // The same clock, with room for that many entries.
    pub(crate) fn copy_with_capacity(&self, capacity: usize) -> Result<Clock, Memory>
        ensures { IfOk result (λ z. z ≡ self.now) }
    {
        let mut entries = Vec::with_capacity(*self.entries.allocator(), capacity)?;
        for entry in self.entries.as_slice() {
            entries.push(entry.copy()?)?;
        }
        Ok(Clock { entries })
    }

    /// The entries in the order of their uids.
    pub fn entries(&self) -> &[ClockEntry]
        ensures value { result.now ≡ self.now.entries }
        ensures some { 1 ≤ length self.now.entries }
        ensures few { length self.now.entries ≤ MOST_CLOCK_ENTRIES }
    {
        self.entries.as_slice()
    }

    /// The counter of the uid, 0 where it has no entry. The entries are searched by halves.
    pub fn count(&self, uid: &ReplicaUid) -> u64
        ensures { result ≡ count_of self.now uid.now }
    {
        let entries = self.entries();
        match entries.binary_search_by(|entry| entry.uid().cmp(uid)) {
            Ok(place) => entries[place].counter(),
            Err(_) => 0,
        }
    }
}
