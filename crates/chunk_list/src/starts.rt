//! The places where the chunks begin.
ghost use Rattle.std.specs.Prelude.{◌≡◌, ◌≢◌, ◌+◌, ◌*◌, ◌/◌, ◌^◌, ◌<◌, ◌≤◌, ℕ, [], length};
ghost use Rattle.std.specs.Prelude.{slice_index, slice_index_or, vec_len, vec_capacity};
ghost use Rattle.chunk_list.specs.Chunks.{AreStarts, begin_of, block, joined};
ghost use Rattle.chunk_list.specs.inner.Chunks.{AreStartsUpTo, IsAt};
ghost use Rattle.chunk_list.specs.inner.Edits.{IsGiven};

use crate::spot::Spot;
use std::alloc::Global;

// So many chunks in a row are a block. An item that comes in or goes out moves the later chunks of
// its block, and the later blocks as a whole.
pub(crate) const BLOCK: usize = 64;

// A chunk begins so far inside its block, and a block begins somewhere in the list.
#[derive(Drop)]
pub(crate) struct Starts {
    // One for each chunk.
    pub(crate) inside: Vec<usize>,
    // One for each block.
    pub(crate) bases: Vec<usize>,
}

impl Starts {
    pub(crate) fn new(alloc: Global) -> Starts
        ensures inside { result.inside.items ≡ [] }
        ensures bases { result.bases.items ≡ [] }
    {
        Starts {
            inside: Vec::new(alloc),
            bases: Vec::new(alloc),
        }
    }

    // The place of the list where a chunk begins.
    pub(crate) fn at(&self, chunk: usize) -> usize
        requires within { chunk < length self.now.inside.items }
        requires enough { length self.now.inside.items ≤ length self.now.bases.items * block }
        requires fits { begin_of self.now.inside.items self.now.bases.items chunk < 2 ^ 64 }
        ensures { result ≡ begin_of self.now.inside.items self.now.bases.items chunk }
    {
        self.bases[chunk / BLOCK] + self.inside[chunk]
    }
}

// The chunk that a place falls into, and the place in there. The end of the list is the end of the
// last chunk.
pub(crate) fn locate<T>(chunks: &Vec<Vec<T>>, starts: &Starts, place: usize) -> (usize, usize)
    requires starts { AreStarts chunks.now.items starts.now.inside.items starts.now.bases.items }
    requires some { 0 < length chunks.now.items }
    requires place { place ≤ length (joined chunks.now.items) }
    requires fits { length (joined chunks.now.items) < 2 ^ 64 }
    ensures { IsAt chunks.now.items place result.0 result.1 }
{
    let mut low = 0;
    let mut high = chunks.len();
    while high - low > 1 {
        let middle = low + (high - low) / 2;
        let begin = starts.at(middle);
        if begin <= place {
            low = middle;
        } else {
            high = middle;
        }
    }
    let start = starts.at(low);
    (low, place - start)
}

// The same of a spot: it falls into the chunk that it was found in, unless the list has changed or
// it is the end of that chunk.
pub(crate) fn seat<T>(chunks: &Vec<Vec<T>>, starts: &Starts, spot: Spot) -> (usize, usize)
    requires starts { AreStarts chunks.now.items starts.now.inside.items starts.now.bases.items }
    requires some { 0 < length chunks.now.items }
    requires place { spot.place ≤ length (joined chunks.now.items) }
    requires fits { length (joined chunks.now.items) < 2 ^ 64 }
    ensures { IsAt chunks.now.items spot.place result.0 result.1 }
{
    if spot.chunk < chunks.len() {
        let begin = starts.at(spot.chunk);
        if begin <= spot.place && spot.place - begin < chunks[spot.chunk].len() {
            return (spot.chunk, spot.place - begin);
        }
    }
    locate(chunks, starts, spot.place)
}

// The numbers from `from` on and before `to` are as many more as `after` is more than `before`, or
// as many less.
fn raise(numbers: &mut Vec<usize>, from: usize, to: usize, before: usize, after: usize)
    requires from { from ≤ to }
    requires to { to ≤ length numbers.old.items }
    requires fits { (k : ℕ) → from ≤ k → k < to
        → (before ≤ slice_index numbers.old.items k)
        × (slice_index numbers.old.items k + after < 2 ^ 64) }
    ensures len { length numbers.new.items ≡ length numbers.old.items }
    ensures low { (k : ℕ) → k < from
        → slice_index numbers.new.items k ≡ slice_index numbers.old.items k }
    ensures raised { (k : ℕ) → from ≤ k → k < to
        → slice_index numbers.new.items k + before ≡ slice_index numbers.old.items k + after }
    ensures high { (k : ℕ) → to ≤ k
        → slice_index numbers.new.items k ≡ slice_index numbers.old.items k }
    ensures capacity { vec_capacity numbers.new ≡ vec_capacity numbers.old }
{
    for k in from..to {
        numbers[k] = numbers[k] + after - before;
    }
}

// The chunks behind the one at `at` begin as much later as `after` is more than `before`, or as
// much earlier: the later ones of its block, and the later blocks.
pub(crate) fn shift(starts: &mut Starts, at: usize, before: usize, after: usize)
    requires at { at < length starts.old.inside.items }
    requires enough { length starts.old.inside.items ≤ length starts.old.bases.items * block }
    requires fits { (k : ℕ) → at < k → k < length starts.old.inside.items
        → k < (at / block + 1) * block
        → (before ≤ slice_index starts.old.inside.items k)
        × (slice_index starts.old.inside.items k + after < 2 ^ 64) }
    requires blocks_fit { (b : ℕ) → at / block < b → b < length starts.old.bases.items
        → (before ≤ slice_index starts.old.bases.items b)
        × (slice_index starts.old.bases.items b + after < 2 ^ 64) }
    ensures len { length starts.new.inside.items ≡ length starts.old.inside.items }
    ensures blocks { length starts.new.bases.items ≡ length starts.old.bases.items }
    ensures low { (k : ℕ) → k ≤ at
        → begin_of starts.new.inside.items starts.new.bases.items k
        ≡ begin_of starts.old.inside.items starts.old.bases.items k }
    ensures high { (k : ℕ) → at < k → k < length starts.old.inside.items
        → begin_of starts.new.inside.items starts.new.bases.items k + before
        ≡ begin_of starts.old.inside.items starts.old.bases.items k + after }
    ensures blocks_low { (b : ℕ) → b ≤ at / block
        → slice_index starts.new.bases.items b ≡ slice_index starts.old.bases.items b }
    ensures blocks_high { (b : ℕ) → at / block < b → b < length starts.old.bases.items
        → slice_index starts.new.bases.items b + before
        ≡ slice_index starts.old.bases.items b + after }
    ensures capacity { vec_capacity starts.new.inside ≡ vec_capacity starts.old.inside }
    ensures blocks_capacity { vec_capacity starts.new.bases ≡ vec_capacity starts.old.bases }
{
    let next = at / BLOCK + 1;
    let end = (next * BLOCK).min(starts.inside.len());
    raise(&mut starts.inside, at + 1, end, before, after);
    let blocks = starts.bases.len();
    raise(&mut starts.bases, next, blocks, before, after);
}

// The starts as they are once the chunk at `from` has given so many items to the one at `to`.
pub(crate) fn carry<T>(
    starts: &mut Starts,
    chunks: &Vec<Vec<T>>,
    from: usize,
    to: usize,
    count: usize,
)
    requires starts { AreStarts chunks.now.items starts.old.inside.items starts.old.bases.items }
    requires from { from < length chunks.now.items }
    requires to { to < length chunks.now.items }
    requires apart { from ≢ to }
    requires enough { (d : _) → count ≤ vec_len (slice_index_or chunks.now.items from d) }
    requires fits { length (joined chunks.now.items) < 2 ^ 64 }
    ensures starts { (given : _) → IsGiven chunks.now.items from to count given
        → AreStarts given starts.new.inside.items starts.new.bases.items }
    ensures capacity { vec_capacity starts.new.inside ≡ vec_capacity starts.old.inside }
    ensures blocks_capacity { vec_capacity starts.new.bases ≡ vec_capacity starts.old.bases }
{
    shift(starts, from, count, 0);
    shift(starts, to, 0, count);
}

// Counts the starts anew behind the chunk at `from`, up to which they are right.
pub(crate) fn recount<T>(starts: &mut Starts, chunks: &Vec<Vec<T>>, from: usize)
    requires known { AreStartsUpTo chunks.now.items starts.old.inside.items
        starts.old.bases.items from }
    requires from { from < length chunks.now.items }
    requires enough { vec_len chunks.now ≤ vec_capacity starts.old.inside }
    requires blocks { vec_len chunks.now ≤ vec_capacity starts.old.bases * block }
    requires fits { length (joined chunks.now.items) < 2 ^ 64 }
    ensures starts { AreStarts chunks.now.items starts.new.inside.items starts.new.bases.items }
    ensures capacity { vec_capacity starts.new.inside ≡ vec_capacity starts.old.inside }
    ensures blocks_capacity { vec_capacity starts.new.bases ≡ vec_capacity starts.old.bases }
{
    let block = from / BLOCK;
    let mut base = starts.bases[block];
    let mut place = starts.at(from) + chunks[from].len();
    starts.inside.truncate(from + 1);
    starts.bases.truncate(block + 1);
    for k in from + 1..chunks.len() {
        if k % BLOCK == 0 {
            base = place;
            starts.bases.push_reserved(base);
        }
        starts.inside.push_reserved(place - base);
        place += chunks[k].len();
    }
}
