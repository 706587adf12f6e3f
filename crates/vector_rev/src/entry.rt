//! One entry of a clock.
ghost use Rattle.std.specs.Prelude.{◌≡◌, IfOk, max};
ghost use Rattle.u1_base.specs.Ids.{IsId};
ghost use Rattle.u1_base.specs.declared.ids.Form.TheVariants as form_of;

use std::marker::Model;
use u1_base::{Items, Memory, ReplicaUid};

/// A replica's uid and its counter, seen as their pair. In a clock the counter is from 1 to 2^63-1.
#[derive(Debug, Drop)]
pub struct ClockEntry {
    uid: ReplicaUid,
    counter: u64,
}

/// A list of entries, in any order.
pub type ClockEntries = Items<ClockEntry>;

impl Model for ClockEntry {
    ghost use Rattle.std.specs.Prelude.{List, ℕ};

    ghost Value = { List ℕ × ℕ };

    ghost view = { λ e. (e.uid, e.counter) };
}

impl ClockEntry {
    pub fn new(uid: ReplicaUid, counter: u64) -> ClockEntry
        ensures { result ≡ (uid, counter) }
    {
        ClockEntry { uid, counter }
    }

    pub fn uid(&self) -> &ReplicaUid
        ensures value { result.now ≡ self.now.0 }
        ensures id { IsId form_of.Replica self.now.0 }
    {
        // Lending the text is what tells the proof that the uid is an id.
        let _text = self.uid.as_str();
        &self.uid
    }

    pub fn counter(&self) -> u64
        ensures { result ≡ self.now.1 }
    {
        self.counter
    }

    // Takes the counter, unless its own is greater.
    pub(crate) fn raise_to(&mut self, counter: u64)
        ensures { self.new ≡ (self.old.0, max counter self.old.1) }
    {
        self.counter = counter.max(self.counter);
    }

    pub fn copy(&self) -> Result<ClockEntry, Memory>
        ensures { IfOk result (λ e. e ≡ self.now) }
    {
        Ok(ClockEntry::new(self.uid.copy()?, self.counter))
    }
}
