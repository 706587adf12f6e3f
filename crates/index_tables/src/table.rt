//! The table of an index.
ghost use Rattle.std.specs.Prelude.{◌≡◌, ◌≢◌, ◌+◌, ◌≤◌, [], length, slice_get, option_map, IfOk};
ghost use Rattle.std.specs.Prelude.{OnOk, OnErr};
ghost use Rattle.std.specs.List.{AllPairs};
ghost use Rattle.chunk_list.specs.Looks.{FewLooks};
ghost use Rattle.index_tables.specs.Entries.{AreNew, HoldsBoth, entries_of, not_among, not_of};
ghost use Rattle.index_tables.specs.Order.{FallsAt, IsInOrder};
ghost use Rattle.index_tables.specs.Seen.{seen};
ghost use Rattle.index_tables.specs.inner.Seen.{EndsAt, has_lower_key};

use crate::abbreviated::abbreviated;
use crate::edits::{put_all, take_id, take_keys};
use crate::order::compare_key;
use crate::pair::Pair;
use crate::pairs::{Pairs, make_pairs};
use crate::walk::Entries;
use chunk_list::ChunkList;
use std::alloc::Global;
use std::marker::Model;
use std::sync::ledger::Ledger;
use u1_base::{DocId, Key, Keys, Memory, Steps, Text};

/// The pairs of a key and the id of a document that has it: by key, those of one key by id, each
/// once.
#[derive(Drop)]
pub struct IndexTable {
    pairs: ChunkList<Pair>,
    ghost order: { IsInOrder (seen pairs.items) },
}

impl Model for IndexTable {
    ghost use Rattle.index_tables.specs.Table.{Indexed, indexed_code};

    ghost Value = { Indexed };

    ghost coded = { indexed_code };

    ghost use Rattle.index_tables.specs.Seen.{seen};

    ghost view = { λ s. record {
      pairs = seen s.pairs.items;
      order = s.order;
      room =
          s.pairs.room;
    } };
}

impl IndexTable {
    /// An empty table without room.
    pub fn new(alloc: Global) -> IndexTable
        ensures pairs { result.pairs ≡ [] }
        ensures room { result.room ≡ 0 }
    {
        IndexTable {
            pairs: ChunkList::new(alloc),
        }
    }

    /// The number of pairs.
    pub fn length(&self) -> u64
        ensures { result ≡ length self.now.pairs }
    {
        self.pairs.len() as u64
    }

    /// Makes room for so many more pairs. At an error the pairs stand and the room is no less.
    pub fn reserve(&mut self, more: u64) -> Result<(), Memory>
        ensures pairs { self.new.pairs ≡ self.old.pairs }
        ensures ok { OnOk result (more ≤ self.new.room) }
        ensures room { self.old.room ≤ self.new.room }
    {
        self.pairs.reserve(more as usize)
    }

    /// The pairs of the keys and an id, to be put in later.
    pub fn pairs(id: &DocId, keys: Keys) -> Result<Pairs, Memory>
        requires { AllPairs (λ key other. key ≢ other) keys }
        ensures { IfOk result (λ pairs. pairs ≡ entries_of id.now keys) }
    {
        Ok(Pairs {
            inner: make_pairs(id, keys)?,
        })
    }

    /// Puts the pairs in. It takes no memory.
    pub fn put_pairs(&mut self, pairs: Pairs)
        requires room { length pairs ≤ self.old.room }
        requires fresh { AreNew self.old.pairs pairs }
        ensures members { HoldsBoth self.old.pairs pairs self.new.pairs }
        ensures count { length self.new.pairs ≡ length self.old.pairs + length pairs }
        ensures room { self.new.room + length pairs ≡ self.old.room }
    {
        put_all(&mut self.pairs, pairs.inner);
    }

    /// Adds the pairs of the keys and an id, all of them or, at an error, none.
    pub fn add(&mut self, id: &DocId, keys: Keys) -> Result<(), Memory>
        requires distinct { AllPairs (λ key other. key ≢ other) keys }
        requires fresh { AreNew self.old.pairs (entries_of id.now keys) }
        ensures ok { OnOk result
            (HoldsBoth self.old.pairs (entries_of id.now keys) self.new.pairs) }
        ensures err { OnErr result (self.new.pairs ≡ self.old.pairs) }
        ensures count { OnOk result (length self.new.pairs ≡ length self.old.pairs + length keys) }
    {
        let pairs = IndexTable::pairs(id, keys)?;
        self.reserve(pairs.len() as u64)?;
        self.put_pairs(pairs);
        Ok(())
    }

    /// Drops all pairs of an id. It looks at each pair of the table: `drop_pairs` looks for those
    /// of known keys. It takes no memory.
    pub fn remove(&mut self, id: &DocId)
        ensures pairs { self.new.pairs ≡ not_of id.now self.old.pairs }
        ensures room { self.new.room ≡ self.old.room }
    {
        take_id(&mut self.pairs, id);
    }

    /// Drops the pairs of the keys and an id, those that are there. It takes no memory.
    pub fn drop_pairs(&mut self, id: &DocId, keys: &[Key])
        ensures pairs { self.new.pairs ≡ not_among (entries_of id.now keys.now) self.old.pairs }
        ensures room { self.new.room ≡ self.old.room }
    {
        take_keys(&mut self.pairs, keys, id);
    }

    /// The pair at a place, which counts from 0. None past the end. It counts one step.
    pub fn entry<L: Ledger>(&self, place: u64, steps: &mut Steps<L>) -> Option<(&Key, &DocId)>
        ensures value { option_map (λ p. (p.0.now, p.1.now)) result
            ≡ slice_get self.now.pairs place }
        ensures looks { steps.new ≡ steps.old + 1 }
    {
        steps.tick();
        match self.pairs.get(place as usize) {
            Some(pair) => Some((&pair.key, &pair.id)),
            None => None,
        }
    }

    /// A walk through the pairs.
    pub fn walk(&self) -> Entries<'_>
        ensures { result ≡ self.now.pairs }
    {
        Entries {
            pairs: self.pairs.walk(),
        }
    }

    /// The first place whose key is not below the key. It counts at most two steps for each bit of
    /// the length.
    pub fn seek<L: Ledger>(&self, key: &[Text], steps: &mut Steps<L>) -> u64
        ensures place { FallsAt self.now.pairs key.now result }
        ensures looks { FewLooks (length self.now.pairs) 0 steps.old steps.new }
    {
        first_from(&self.pairs, key, steps) as u64
    }
}

// The place of the first pair whose key is not below the key.
fn first_from<L: Ledger>(list: &ChunkList<Pair>, key: &[Text], steps: &mut Steps<L>) -> usize
    ensures place { EndsAt (has_lower_key key.now) list.now.items result }
    ensures looks { FewLooks (length list.now.items) 0 steps.old steps.new }
{
    let abbreviated = abbreviated(key);
    let (place, _) = list.search(|pair| compare_key(pair, abbreviated, key).is_lt(), steps);
    place
}
