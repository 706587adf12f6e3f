//! Items that go into a chunk and out of it, and places for one item too many.
ghost use Rattle.std.specs.Prelude.{◌≡◌, ◌≢◌, ◌⊎◌, ◌+◌, ◌*◌, ◌^◌, ◌<◌, ◌≤◌, length, slice_index_or};
ghost use Rattle.std.specs.Prelude.{MatchOption, vec_len, vec_capacity};
ghost use Rattle.std.specs.List.{All, insert, remove};
ghost use Rattle.chunk_list.specs.Chunks.{AreChunks, AreLaidOut, AreStarts, IsSpare};
ghost use Rattle.chunk_list.specs.inner.Chunks.{AreChunksBut};
ghost use Rattle.chunk_list.specs.Chunks.{block, full, joined};
ghost use Rattle.chunk_list.specs.inner.Edits.{AreTurned, HasFree, NoneFree};

use crate::chunks::{cut, give, put};
use crate::list::CHUNK;
use crate::spot::Spot;
use crate::starts::{Starts, carry, locate, recount, seat, shift};

// A full chunk takes places from a chunk that is no further away than this and has so many free. So
// chunks are filled well enough, and few items move between them.
const NEAR: usize = 2;

const SOME: usize = 8;

// The nearest chunk, on either side and no further away than `reach`, that has `least` places free.
fn nearest<T>(chunks: &Vec<Vec<T>>, at: usize, reach: usize, least: usize) -> Option<usize>
    requires at { at < length chunks.now.items }
    requires least { (0 < least) × (least ≤ full) }
    ensures { MatchOption result (NoneFree chunks.now.items at reach least)
        (HasFree chunks.now.items at) }
{
    let furthest = reach.min(chunks.len());
    let mut step = 1;
    while step <= furthest {
        if step < chunks.len() - at && chunks[at + step].len() <= CHUNK - least {
            return Some(at + step);
        }
        if step <= at && chunks[at - step].len() <= CHUNK - least {
            return Some(at - step);
        }
        step += 1;
    }
    None
}

// The chunk beside `from` that is nearer to `at`.
fn nearer(from: usize, at: usize) -> usize
    requires { from ≢ at }
    ensures { ((at < from) × (from ≡ result + 1)) ⊎ ((from < at) × (result ≡ from + 1)) }
{
    if at < from { from - 1 } else { from + 1 }
}

// Gives the chunk at `at`, which has one item too many, half of the places that are free in the
// chunk at `free`: chunk by chunk as many items move towards it, or fewer where a chunk between has
// places for them.
fn share<T: Drop>(chunks: &mut Vec<Vec<T>>, starts: &mut Starts, at: usize, free: usize)
    requires chunks { AreChunksBut chunks.old.items at }
    requires over { (d : _) → vec_len (slice_index_or chunks.old.items at d) ≡ full + 1 }
    requires free { HasFree chunks.old.items at free }
    requires starts { AreStarts chunks.old.items starts.old.inside.items
        starts.old.bases.items }
    requires fits { length (joined chunks.old.items) < 2 ^ 64 }
    ensures same { joined chunks.new.items ≡ joined chunks.old.items }
    ensures chunks { AreChunks chunks.new.items }
    ensures starts { AreStarts chunks.new.items starts.new.inside.items
        starts.new.bases.items }
    ensures len { vec_len chunks.new ≡ vec_len chunks.old }
    ensures capacity { vec_capacity chunks.new ≡ vec_capacity chunks.old }
    ensures starts_capacity { vec_capacity starts.new.inside ≡ vec_capacity starts.old.inside }
    ensures blocks_capacity { vec_capacity starts.new.bases ≡ vec_capacity starts.old.bases }
{
    let count = (CHUNK - chunks[free].len()).div_ceil(2);
    let most = CHUNK - count;
    let mut to = free;
    while to != at {
        let into = to;
        let from = nearer(into, at);
        to = from;
        if most < chunks[from].len() {
            carry(starts, chunks, from, into, count);
            give(chunks, from, into, count);
        }
    }
}

// Gives the chunk at `at`, which has one item too many, places from a chunk near by, or else cuts
// it in two; where no chunk is spare, it gets places from wherever there are some.
pub(crate) fn relieve<T: Drop>(
    chunks: &mut Vec<Vec<T>>,
    spare: &mut Vec<Vec<T>>,
    starts: &mut Starts,
    at: usize,
)
    requires chunks { AreChunksBut chunks.old.items at }
    requires over { (d : _) → vec_len (slice_index_or chunks.old.items at d) ≡ full + 1 }
    requires each { All IsSpare spare.old.items }
    requires fits { vec_len chunks.old + vec_len spare.old ≤ vec_capacity chunks.old }
    requires starts { AreStarts chunks.old.items starts.old.inside.items
        starts.old.bases.items }
    requires starts_fit { vec_len chunks.old + vec_len spare.old
        ≤ vec_capacity starts.old.inside }
    requires blocks_fit { vec_len chunks.old + vec_len spare.old
        ≤ vec_capacity starts.old.bases * block }
    requires items_fit { length (joined chunks.old.items) < 2 ^ 64 }
    requires enough { length (joined chunks.old.items)
        ≤ (vec_len chunks.old + vec_len spare.old) * full }
    ensures same { joined chunks.new.items ≡ joined chunks.old.items }
    ensures chunks { AreChunks chunks.new.items }
    ensures starts { AreStarts chunks.new.items starts.new.inside.items
        starts.new.bases.items }
    ensures starts_capacity { vec_capacity starts.new.inside ≡ vec_capacity starts.old.inside }
    ensures blocks_capacity { vec_capacity starts.new.bases ≡ vec_capacity starts.old.bases }
    ensures turned { AreTurned chunks.old spare.old chunks.new spare.new }
    ensures long { vec_len chunks.new + vec_len spare.new ≡ vec_len chunks.old + vec_len spare.old }
{
    if let Some(free) = nearest(chunks, at, NEAR, SOME) {
        share(chunks, starts, at, free);
        return;
    }
    if spare.len() > 0 {
        cut(chunks, spare, at);
        recount(starts, chunks, at);
        return;
    }
    if let Some(free) = nearest(chunks, at, usize::MAX, 1) {
        share(chunks, starts, at, free);
    }
}

// Puts an item into the chunk that its place falls into, which may then have one too many, and says
// which one that is.
pub(crate) fn put_in<T: Drop>(
    chunks: &mut Vec<Vec<T>>,
    starts: &mut Starts,
    spot: Spot,
    item: T,
) -> usize
    requires laid_out { AreLaidOut chunks.old.items starts.old.inside.items
        starts.old.bases.items }
    requires some { 0 < vec_len chunks.old }
    requires place { spot.place ≤ length (joined chunks.old.items) }
    requires fits { length (joined chunks.old.items) + 1 < 2 ^ 64 }
    ensures items { joined chunks.new.items ≡ insert (joined chunks.old.items) spot.place item }
    ensures chunks { AreChunksBut chunks.new.items result }
    ensures some { (d : _) → 0 < vec_len (slice_index_or chunks.new.items result d) }
    ensures starts { AreStarts chunks.new.items starts.new.inside.items
        starts.new.bases.items }
    ensures len { vec_len chunks.new ≡ vec_len chunks.old }
    ensures capacity { vec_capacity chunks.new ≡ vec_capacity chunks.old }
    ensures starts_capacity { vec_capacity starts.new.inside ≡ vec_capacity starts.old.inside }
    ensures blocks_capacity { vec_capacity starts.new.bases ≡ vec_capacity starts.old.bases }
{
    let (at, inside) = seat(chunks, starts, spot);
    let chunk = &mut chunks[at];
    put(chunk, inside, item);
    shift(starts, at, 0, 1);
    at
}

// Takes an item out of the chunk that its place falls into, which may then be empty, and says which
// one that is.
#[tactic(auto, using(crate::proofs::Places::some_chunk))]
pub(crate) fn take_out<T>(chunks: &mut Vec<Vec<T>>, starts: &mut Starts, place: usize) -> (usize, T)
    requires laid_out { AreLaidOut chunks.old.items starts.old.inside.items
        starts.old.bases.items }
    requires place { place < length (joined chunks.old.items) }
    requires fits { length (joined chunks.old.items) < 2 ^ 64 }
    ensures value { result.1 ≡ slice_index_or (joined chunks.old.items) place result.1 }
    ensures items { joined chunks.new.items ≡ remove (joined chunks.old.items) place }
    ensures chunks { AreChunksBut chunks.new.items result.0 }
    ensures short { (d : _) → vec_len (slice_index_or chunks.new.items result.0 d) ≤ full }
    ensures starts { AreStarts chunks.new.items starts.new.inside.items
        starts.new.bases.items }
    ensures len { vec_len chunks.new ≡ vec_len chunks.old }
    ensures capacity { vec_capacity chunks.new ≡ vec_capacity chunks.old }
    ensures starts_capacity { vec_capacity starts.new.inside ≡ vec_capacity starts.old.inside }
    ensures blocks_capacity { vec_capacity starts.new.bases ≡ vec_capacity starts.old.bases }
{
    let (at, inside) = locate(chunks, starts, place);
    let chunk = &mut chunks[at];
    let item = chunk.remove(inside);
    shift(starts, at, 1, 0);
    (at, item)
}
