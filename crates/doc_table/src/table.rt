//! The table, over a list of entries that is kept in chunks.
ghost use Rattle.std.specs.Prelude.{◌≡◌, ◌+◌, ◌<◌, ◌≤◌, [], length, slice_get, OnOk, MatchResult};
ghost use Rattle.std.specs.Prelude.{IsSome, None, cond, is_some};
ghost use Rattle.std.specs.Option.{option_copied};
ghost use Rattle.std.specs.FinMap.Entries.{find, put};
ghost use Rattle.chunk_list.specs.inner.Sorted.{FitsAt};
ghost use Rattle.doc_table.specs.Abbreviated.{IsAbbreviated};
ghost use Rattle.doc_table.specs.Entries.{AreSorted};
ghost use Rattle.doc_table.specs.inner.Entries.{IsFound};
ghost use Rattle.doc_table.specs.Listed.{without};
ghost use Rattle.u1_base.specs.Ids.{id_cmp};

use crate::entry::{Entry, Slot, abbreviated};
use crate::walk::Pairs;
use chunk_list::{ChunkList, Spot};
use std::alloc::Global;
use std::cell::Cell;
use std::marker::Model;
use u1_base::{FormOf, Id, Memory};

/// A map from the ids of one kind to values, in the order of the ids' bytes. An id is sought near
/// the one before first.
#[derive(Drop)]
pub struct Table<F: FormOf, V> {
    alloc: Global,
    entries: ChunkList<Entry<F, V>>,
    // For the next new id.
    free: Option<Box<Slot<F, V>>>,
    // For a new value of an id that is there, whose slot is the spare one then.
    spare: Option<Box<Slot<F, V>>>,
    // Where an id was sought last: most often the next one is the same, or comes behind it.
    last: Cell<Spot>,
    ghost sorted: { AreSorted entries.items },
    ghost fits: { cond (is_some free) 1 0 ≤ entries.room },
    ghost changes: { cond (is_some spare) 0 (length entries.items + cond (is_some free) 1 0) ≡ 0 },
}

impl<F: FormOf, V> Model for Table<F, V> {
    ghost use Rattle.std.specs.Prelude.{cond, is_some};
    ghost use Rattle.doc_table.specs.Listed.{Listed, listed_code};

    ghost Value = { Listed V };

    ghost coded = { listed_code V.code };

    ghost view = { λ s. record {
      pairs = s.entries.items;
      sorted = s.sorted;
      room = cond (is_some s.free) 1 0;
    } };
}

impl<F: FormOf, V> Table<F, V> {
    /// An empty table without room.
    pub fn new(alloc: Global) -> Table<F, V>
        ensures pairs { result.pairs ≡ [] }
        ensures room { result.room ≡ 0 }
    {
        Table {
            alloc,
            entries: ChunkList::new(alloc),
            free: None,
            spare: None,
            last: Cell::new(Spot::at(0)),
        }
    }

    /// Makes room for one new id. At an error the table stands as it was, and the room is no less.
    pub fn reserve(&mut self) -> Result<(), Memory>
    where
        V: Drop,
        ensures pairs { self.new.pairs ≡ self.old.pairs }
        ensures ok { OnOk result (1 ≤ self.new.room) }
        ensures room { self.old.room ≤ self.new.room }
    {
        if self.free.is_some() {
            return Ok(());
        }
        self.entries.reserve(1)?;
        if self.spare.is_none() {
            self.spare = Some(Box::new(self.alloc, Slot::Free)?);
        }
        self.free = Some(Box::new(self.alloc, Slot::Free)?);
        Ok(())
    }

    /// Puts the value at the id, and answers the one that stood there. A new id takes one from the
    /// room. It takes no memory.
    pub fn put(&mut self, id: Id<F>, value: V) -> Option<V>
    where
        V: Drop,
        requires { find id_cmp id self.old.pairs ≡ None → 0 < self.old.room }
        ensures value { result ≡ find id_cmp id self.old.pairs }
        ensures pairs { self.new.pairs ≡ put id_cmp id value self.old.pairs }
        ensures room { self.new.room + length self.new.pairs ≡ self.old.room
            + length self.old.pairs }
    {
        let abbreviated = abbreviated(&id);
        let found = search(&self.entries, self.last.get(), abbreviated, &id);
        match found {
            Ok((spot, _)) => {
                let entry = Entry::of(taken(&mut self.spare), abbreviated, id, value);
                let (old, slot) = self.entries.replace(spot.place, entry).into_parts();
                self.spare = Some(slot);
                Some(old)
            }
            Err(spot) => {
                let entry = Entry::of(taken(&mut self.free), abbreviated, id, value);
                self.entries.insert_at(spot, entry);
                self.last.set(spot);
                None
            }
        }
    }

    /// Takes the id out, and answers its value. It takes no memory.
    pub fn take(&mut self, id: &Id<F>) -> Option<V>
    where
        V: Drop,
        ensures value { result ≡ find id_cmp id.now self.old.pairs }
        ensures pairs { self.new.pairs ≡ without id.now self.old.pairs }
        ensures room { self.new.room ≡ self.old.room }
    {
        match search(&self.entries, Spot::at(0), abbreviated(id), id) {
            Ok((spot, _)) => {
                let (gone, _slot) = self.entries.remove(spot.place).into_parts();
                Some(gone)
            }
            Err(_) => None,
        }
    }

    /// The value at the id. None where the id is not there.
    pub fn get(&self, id: &Id<F>) -> Option<&V>
        ensures { option_copied result ≡ find id_cmp id.now self.now.pairs }
    {
        match search(&self.entries, self.last.get(), abbreviated(id), id) {
            Ok((spot, entry)) => {
                self.last.set(spot);
                Some(entry.value())
            }
            Err(spot) => {
                self.last.set(spot);
                None
            }
        }
    }

    /// How many ids there are.
    pub fn length(&self) -> u64
        ensures { result ≡ length self.now.pairs }
    {
        self.entries.len() as u64
    }

    /// A walk through the pairs.
    pub fn walk(&self) -> Pairs<'_, F, V>
        ensures { result ≡ self.now.pairs }
    {
        Pairs {
            entries: self.entries.walk(),
        }
    }
}

// The slot, which there is.
fn taken<F: FormOf, V>(slot: &mut Option<Box<Slot<F, V>>>) -> Box<Slot<F, V>>
    requires { IsSome slot.old }
    ensures { slot.new ≡ None }
{
    match slot.take() {
        Some(slot) => slot,
        None => unreachable!(),
    }
}

// The spot where an id with its abbreviated key stands, and its entry, or else the spot where it
// would stand. It is sought near this one first.
fn search<'a, F: FormOf, V>(
    entries: &'a ChunkList<Entry<F, V>>,
    near: Spot,
    abbreviated: u64,
    id: &Id<F>,
) -> Result<(Spot, &'a Entry<F, V>), Spot>
    requires { IsAbbreviated id.now abbreviated }
    ensures { MatchResult result
        (λ found. IsFound entries.now.items id.now found.0.place found.1.now)
        (λ spot. FitsAt id_cmp entries.now.items id.now spot.place) }
{
    let (spot, found) = entries.find_near(near, |entry| entry.is_below(abbreviated, id));
    match found {
        Some(entry) => {
            if entry.is_of(abbreviated, id) {
                Ok((spot, entry))
            } else {
                Err(spot)
            }
        }
        None => Err(spot),
    }
}
