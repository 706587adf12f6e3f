//! The log: its entries, its room, its places.
ghost use Rattle.std.specs.Prelude.{◌≡◌, ◌+◌, ◌<◌, ◌≤◌, ◌⊎◌, ◌↔◌, [], ◌∷◌, ◌++◌, IfOk};
ghost use Rattle.std.specs.Prelude.{IsNone, OnErr, OnOk, length, option_copied};
ghost use Rattle.u1_base.specs.declared.limits.TheConstants.{GREATEST_COUNT};
ghost use Rattle.translog.specs.Entries.{trans_at};
ghost use Rattle.translog.specs.Log.{end_of};

use crate::Entry;
use std::alloc::Global;
use std::marker::Model;
use u1_base::limits::GREATEST_COUNT;
use u1_base::{Memory, Position, TransId};

/// A transaction log. The entry at place g, counted from 1, made the replica's generation g.
#[derive(Drop)]
pub struct Log {
    pub(crate) entries: Vec<Entry>,
}

impl Model for Log {
    ghost use Rattle.std.specs.Prelude.{◌-◌, ◌≤◌, min, vec_capacity, vec_len, length};
    ghost use Rattle.u1_base.specs.declared.limits.TheConstants.{GREATEST_COUNT};
    ghost use Rattle.translog.specs.Log.{Log};

    ghost Value = { Log };

    ghost view = { λ l. record {
      entries = l.entries.items;
      room = min (vec_capacity l.entries) GREATEST_COUNT - vec_len l.entries;
    } };

    ghost invariant = { λ l. vec_len l.entries ≤ GREATEST_COUNT };
}

impl Log {
    pub fn new(alloc: Global) -> Log
        ensures { result.entries ≡ [] }
    {
        Log {
            entries: Vec::new(alloc),
        }
    }

    /// Makes room for one more entry. A log of `GREATEST_COUNT` entries takes no more: it answers
    /// `Memory`.
    pub fn reserve(&mut self) -> Result<(), Memory>
        ensures entries { self.new.entries ≡ self.old.entries }
        ensures room { OnOk result (1 ≤ self.new.room) }
        ensures more { self.old.room ≤ self.new.room }
        ensures limit { OnOk result (length self.old.entries < GREATEST_COUNT) }
    {
        if self.entries.len() as u64 >= GREATEST_COUNT {
            return Err(Memory);
        }
        if self.entries.len() == self.entries.capacity() {
            // By a sixteenth of its entries: in one of twice the places half would be free.
            let more = self.entries.len() / 16 + 4;
            self.entries.reserve_exact(more)?;
        }
        Ok(())
    }

    /// Adds the entry at the end. It takes no memory.
    pub fn push(&mut self, entry: Entry)
        requires { 1 ≤ self.old.room }
        ensures entries { self.new.entries ≡ self.old.entries ++ entry ∷ [] }
        ensures room { self.old.room ≤ self.new.room + 1 }
    {
        match self.entries.push(entry) {
            Ok(()) => {}
            Err(_) => unreachable!(),
        }
    }

    /// The entries, oldest first.
    pub fn entries(&self) -> &[Entry]
        ensures value { result.now ≡ self.now.entries }
        ensures count { length self.now.entries ≤ GREATEST_COUNT }
    {
        self.entries.as_slice()
    }

    /// The number of entries.
    pub fn generation(&self) -> u64
        ensures value { result ≡ length self.now.entries }
        ensures count { result ≤ GREATEST_COUNT }
    {
        self.entries.as_slice().len() as u64
    }

    /// The transaction id of the entry that made the generation.
    pub fn at(&self, generation: u64) -> Option<&TransId>
        ensures value { option_copied result ≡ trans_at self.now.entries generation }
        ensures none { IsNone result ↔ ((generation ≡ 0) ⊎ (length self.now.entries < generation)) }
    {
        if generation == 0 {
            return None;
        }
        if generation > self.generation() {
            return None;
        }
        let entry = &self.entries[(generation - 1) as usize];
        Some(&entry.trans)
    }

    /// The position after all entries.
    pub fn position(&self) -> Result<Position, Memory>
        ensures { IfOk result (λ p. p ≡ end_of self.now.entries) }
    {
        let generation = self.generation();
        let trans = match self.at(generation) {
            Some(trans) => Some(trans.copy()?),
            None => None,
        };
        Ok(Position { generation, trans })
    }
}
