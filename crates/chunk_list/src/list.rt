//! The list, and what a caller may do with it.
ghost use Rattle.std.specs.Prelude.{◌≡◌, ◌+◌, ◌<◌, ◌≤◌, [], length};
ghost use Rattle.std.specs.Prelude.{slice_get, slice_index_or, slice_set, IsTrue, ◌↔◌, OnOk};
ghost use Rattle.std.specs.Fn.{FnReturnsAt};
ghost use Rattle.std.specs.Option.{option_copied};
ghost use Rattle.std.specs.List.{insert, remove};
ghost use Rattle.chunk_list.specs.Chunks.{IsRun};
ghost use Rattle.chunk_list.specs.Ends.{FailsAt, PassesBefore};
ghost use Rattle.chunk_list.specs.Looks.{FewLooks};

use crate::chunks::{grow, set_out};
use crate::room::{put_in, relieve, take_out};
use crate::search::{chunk_near, look_in, still_at};
use crate::spot::Spot;
use crate::starts::{Starts, locate, recount};
use crate::walk::Walk;
use std::alloc::Global;
use std::marker::{Brand, Model};
use std::mem;
use std::sync::ledger::{Blank, Ledger};
use u1_base::{Memory, Steps};

// A chunk holds so many items at most, and has memory for one more.
pub(crate) const CHUNK: usize = 96;

// The last chunk keeps so many where it is cut: too many to give places to others.
pub(crate) const NEARLY_FULL: usize = 85;

// `reserve` leaves a list in so many chunks a spare one besides, so that a full one can be cut in
// two.
const MANY: usize = 4;

/// A list of items in chunks of at most 96.
#[derive(Drop)]
pub struct ChunkList<T> {
    chunks: Vec<Vec<T>>,
    // Chunks that no item needs yet.
    spare: Vec<Vec<T>>,
    // Where each chunk begins.
    starts: Starts,
    len: usize,
    room: usize,
}

impl<T> Model for ChunkList<T> {
    ghost use Rattle.chunk_list.specs.Chunked.{Chunked, chunked_code};

    ghost Value = { Chunked T };

    ghost coded = { chunked_code T.code };

    ghost use Rattle.chunk_list.specs.Chunks.{joined, IsSound};

    ghost view = { λ s. record { items = joined s.chunks.items; room = s.room } };

    ghost invariant = { λ s. IsSound s.chunks s.spare s.starts.inside s.starts.bases s.len s.room };
}

impl<T> ChunkList<T> {
    /// An empty list without room.
    pub fn new(alloc: Global) -> ChunkList<T>
        ensures items { result.items ≡ [] }
        ensures room { result.room ≡ 0 }
    {
        ChunkList {
            chunks: Vec::new(alloc),
            spare: Vec::new(alloc),
            starts: Starts::new(alloc),
            len: 0,
            room: 0,
        }
    }

    pub fn len(&self) -> usize
        ensures { result ≡ length self.now.items }
    {
        self.len
    }

    pub fn is_empty(&self) -> bool
        ensures { IsTrue result ↔ (self.now.items ≡ []) }
    {
        self.len == 0
    }

    /// How many items may be inserted without memory.
    pub fn room(&self) -> usize
        ensures { result ≡ self.now.room }
    {
        self.room
    }

    /// The item at a place, which counts from 0. None past the end.
    pub fn get(&self, place: usize) -> Option<&T>
        ensures { option_copied result ≡ slice_get self.now.items place }
    {
        self.run(place).first()
    }

    // The items from a place to the end of its chunk.
    #[tactic(auto, using(crate::proofs::Places::some_chunk))]
    pub(crate) fn run(&self, place: usize) -> &[T]
        ensures { IsRun self.now.items place result.now }
    {
        if place >= self.len {
            return &[];
        }
        let (at, inside) = locate(&self.chunks, &self.starts, place);
        let chunk = &self.chunks[at];
        &chunk[inside..]
    }

    /// A walk through the items, for who wants many that stand together.
    pub fn walk(&self) -> Walk<'_, T>
        ensures { result ≡ self.now.items }
    {
        Walk::new(self)
    }

    /// The place of the first item that does not pass the test, where those that pass stand first,
    /// and that item; the length and None where all pass. It looks at no more than two times as
    /// many items as the length has bits.
    #[tactic(auto, using(crate::proofs::Places::some_chunk))]
    pub fn search<L: Ledger, F: Fn(&T) -> bool>(
        &self,
        passes: F,
        steps: &mut Steps<L>,
    ) -> (usize, Option<&T>)
        requires { F.IsAlwaysCallable passes }
        ensures within { result.0 ≤ length self.now.items }
        ensures before { PassesBefore (FnReturnsAt F.Fn passes) self.now.items result.0 }
        ensures after { FailsAt (FnReturnsAt F.Fn passes) self.now.items result.0 }
        ensures item { option_copied result.1 ≡ slice_get self.now.items result.0 }
        ensures looks { FewLooks (length self.now.items) 0 steps.old steps.new }
    {
        let (spot, item) = self.seek(usize::MAX, passes, steps);
        (spot.place, item)
    }

    // The same, and the chunk. The chunk at `first` is tried before any other.
    #[tactic(auto, using(crate::proofs::Places::some_chunk))]
    fn seek<L: Ledger, F: Fn(&T) -> bool>(
        &self,
        first: usize,
        passes: F,
        steps: &mut Steps<L>,
    ) -> (Spot, Option<&T>)
        requires { F.IsAlwaysCallable passes }
        ensures within { result.0.place ≤ length self.now.items }
        ensures before { PassesBefore (FnReturnsAt F.Fn passes) self.now.items result.0.place }
        ensures after { FailsAt (FnReturnsAt F.Fn passes) self.now.items result.0.place }
        ensures item { option_copied result.1 ≡ slice_get self.now.items result.0.place }
        ensures looks { FewLooks (length self.now.items) 0 steps.old steps.new }
    {
        if self.len == 0 {
            return (Spot::at(0), None);
        }
        let chunk = chunk_near(&self.chunks, first, &passes, steps);
        let (place, item) = look_in(&self.chunks, &self.starts, chunk, &passes, steps);
        let item = match item {
            Some(item) => Some(item),
            // The first one of the next chunk.
            None => self.get(place),
        };
        (Spot { place, chunk }, item)
    }

    /// `search` for who counts nothing.
    pub fn find<F: Fn(&T) -> bool>(&self, passes: F) -> (usize, Option<&T>)
        requires { F.IsAlwaysCallable passes }
        ensures within { result.0 ≤ length self.now.items }
        ensures before { PassesBefore (FnReturnsAt F.Fn passes) self.now.items result.0 }
        ensures after { FailsAt (FnReturnsAt F.Fn passes) self.now.items result.0 }
        ensures item { option_copied result.1 ≡ slice_get self.now.items result.0 }
    {
        let (spot, item) = self.find_near(Spot::at(0), passes);
        (spot.place, item)
    }

    /// The same for who was near, and the spot: that spot is tried first, and then its chunk, before
    /// any other. So whoever comes back looks at two items, and whoever looks for items in their
    /// order searches among few.
    pub fn find_near<F: Fn(&T) -> bool>(&self, near: Spot, passes: F) -> (Spot, Option<&T>)
        requires { F.IsAlwaysCallable passes }
        ensures within { result.0.place ≤ length self.now.items }
        ensures before { PassesBefore (FnReturnsAt F.Fn passes) self.now.items result.0.place }
        ensures after { FailsAt (FnReturnsAt F.Fn passes) self.now.items result.0.place }
        ensures item { option_copied result.1 ≡ slice_get self.now.items result.0.place }
    {
        match still_at(&self.chunks, &self.starts, near, &passes) {
            Some(item) => (near, Some(item)),
            None => counted::<T, Brand, F>(self, near, passes, Blank::new(1)),
        }
    }

    /// Makes room for so many more items. At an error the items stand and the room is no less.
    pub fn reserve(&mut self, more: usize) -> Result<(), Memory>
    where
        T: Drop,
        ensures items { self.new.items ≡ self.old.items }
        ensures ok { OnOk result (more ≤ self.new.room) }
        ensures room { self.old.room ≤ self.new.room }
    {
        let room = more.max(self.room);
        if usize::MAX - self.len < room {
            return Err(Memory);
        }
        // As full as a list is that grows at its end: else the last items would find no chunk of
        // their own, and push others through all chunks.
        let needed = (self.len + room).div_ceil(NEARLY_FULL);
        let besides = (self.chunks.len() / MANY).min(1);
        let wanted = needed.max(self.chunks.len() + besides);
        grow(&mut self.chunks, &mut self.spare, &mut self.starts, wanted)?;
        self.room = room;
        Ok(())
    }

    /// Puts the item at a place; those from there on move up by one. It takes no memory.
    pub fn insert(&mut self, place: usize, item: T)
    where
        T: Drop,
        requires place { place ≤ length self.old.items }
        requires room { 0 < self.old.room }
        ensures items { self.new.items ≡ insert self.old.items place item }
        ensures room { self.new.room + 1 ≡ self.old.room }
    {
        self.insert_at(Spot::at(place), item);
    }

    /// The same at a spot, which is not sought again if it was found in the list as it stands.
    pub fn insert_at(&mut self, spot: Spot, item: T)
    where
        T: Drop,
        requires place { spot.place ≤ length self.old.items }
        requires room { 0 < self.old.room }
        ensures items { self.new.items ≡ insert self.old.items spot.place item }
        ensures room { self.new.room + 1 ≡ self.old.room }
    {
        let at = put_in(&mut self.chunks, &mut self.starts, spot, item);
        self.len += 1;
        self.room -= 1;
        if self.chunks[at].len() > CHUNK {
            relieve(&mut self.chunks, &mut self.spare, &mut self.starts, at);
        }
    }

    /// Puts the item in the place of another, which comes back.
    pub fn replace(&mut self, place: usize, item: T) -> T
        requires { place < length self.old.items }
        ensures value { result ≡ slice_index_or self.old.items place result }
        ensures items { self.new.items ≡ slice_set self.old.items place item }
        ensures room { self.new.room ≡ self.old.room }
    {
        let (at, inside) = locate(&self.chunks, &self.starts, place);
        let chunk = &mut self.chunks[at];
        mem::replace(&mut chunk[inside], item)
    }

    /// Takes the item at a place out; those behind it move down by one. It takes no memory, and
    /// gives some back where a chunk became empty that the room does not need.
    pub fn remove(&mut self, place: usize) -> T
    where
        T: Drop,
        requires { place < length self.old.items }
        ensures value { result ≡ slice_index_or self.old.items place result }
        ensures items { self.new.items ≡ remove self.old.items place }
        ensures room { self.new.room ≡ self.old.room }
    {
        let needed = (self.len - 1 + self.room).div_ceil(CHUNK);
        let (at, item) = take_out(&mut self.chunks, &mut self.starts, place);
        self.len -= 1;
        if at > 0 && self.chunks[at].len() == 0 {
            set_out(&mut self.chunks, &mut self.spare, at, needed);
            recount(&mut self.starts, &self.chunks, at - 1);
        }
        item
    }
}

// A search with a counter of its own.
fn counted<T, L: Ledger, F: Fn(&T) -> bool>(
    list: &ChunkList<T>,
    near: Spot,
    passes: F,
    blank: Blank,
) -> (Spot, Option<&T>)
    requires callable { F.IsAlwaysCallable passes }
    requires name { blank.name ≡ L.name }
    requires parts { blank.parts ≡ L.parts }
    requires some { 0 < L.parts }
    ensures within { result.0.place ≤ length list.now.items }
    ensures before { PassesBefore (FnReturnsAt F.Fn passes) list.now.items result.0.place }
    ensures after { FailsAt (FnReturnsAt F.Fn passes) list.now.items result.0.place }
    ensures item { option_copied result.1 ≡ slice_get list.now.items result.0.place }
{
    let mut steps = Steps::<L>::new(blank);
    list.seek(near.chunk, passes, &mut steps)
}
