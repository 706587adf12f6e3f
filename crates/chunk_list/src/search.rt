//! A search by halves, first among the chunks and then inside one of them.
ghost use Rattle.std.specs.Prelude.{◌≡◌, ◌+◌, ◌-◌, ◌^◌, ◌<◌, ◌≤◌, ℕ, true, false, length};
ghost use Rattle.std.specs.Prelude.{IfSome, IsTrue, Some, slice_get};
ghost use Rattle.std.specs.Fn.{FnReturnsAt};
ghost use Rattle.std.specs.List.{HoldsAt};
ghost use Rattle.chunk_list.specs.Chunks.{AreChunks, AreLaidOut, joined};
ghost use Rattle.chunk_list.specs.Ends.{FailsAt, PassesBefore};
ghost use Rattle.chunk_list.specs.inner.Ends.{IsLastBegun};

use crate::spot::Spot;
use crate::starts::Starts;
use std::sync::ledger::Ledger;
use u1_base::Steps;

// The last chunk whose first item passes, or the first chunk.
fn chunk_of<T, L: Ledger, F: Fn(&T) -> bool>(
    chunks: &Vec<Vec<T>>,
    passes: &F,
    steps: &mut Steps<L>,
) -> usize
    requires callable { F.IsAlwaysCallable passes.now }
    requires some { 0 < length chunks.now.items }
    requires chunks { AreChunks chunks.now.items }
    ensures last { IsLastBegun (FnReturnsAt F.Fn passes.now) chunks.now.items result }
    ensures looks { (k : ℕ) → length chunks.now.items - 1 < 2 ^ k → steps.new ≤ steps.old + k }
{
    let passes_first = |chunk: &Vec<T>| -> bool
        requires { F.IsAlwaysCallable passes.now }
        ensures { 0 < length chunk.now.items
            → HoldsAt (λ x. FnReturnsAt F.Fn passes.entry.now x result) chunk.now.items 0 }
    { first_passes(chunk, passes) };
    place_in(chunks, 1, &passes_first, steps) - 1
}

// Whether the first item of the chunk passes, if it has one.
fn first_passes<T, F: Fn(&T) -> bool>(chunk: &Vec<T>, passes: &F) -> bool
    requires { F.IsAlwaysCallable passes.now }
    ensures { 0 < length chunk.now.items
        → HoldsAt (λ x. FnReturnsAt F.Fn passes.now x result) chunk.now.items 0 }
{
    if chunk.len() == 0 {
        return true;
    }
    passes(&chunk[0])
}

// The place of the first item that does not pass. Those before `known` are known to pass.
pub(crate) fn place_in<T, L: Ledger, F: Fn(&T) -> bool>(
    items: &Vec<T>,
    known: usize,
    passes: &F,
    steps: &mut Steps<L>,
) -> usize
    requires callable { F.IsAlwaysCallable passes.now }
    requires known { known ≤ length items.now.items }
    ensures low { known ≤ result }
    ensures high { result ≤ length items.now.items }
    ensures before { known < result
        → HoldsAt (λ x. FnReturnsAt F.Fn passes.now x true) items.now.items (result - 1) }
    ensures after { result < length items.now.items
        → HoldsAt (λ x. FnReturnsAt F.Fn passes.now x false) items.now.items result }
    ensures looks { (k : ℕ) → length items.now.items - known < 2 ^ k → steps.new ≤ steps.old + k }
{
    let mut low = known;
    let mut high = items.len();
    while low < high {
        let place = low + (high - low) / 2;
        steps.tick();
        if passes(&items[place]) {
            low = place + 1;
        } else {
            high = place;
        }
    }
    low
}

// Whether the first item that does not pass stands in the chunk at `at` or right behind it.
fn is_chunk<T, F: Fn(&T) -> bool>(chunks: &Vec<Vec<T>>, at: usize, passes: &F) -> bool
    requires callable { F.IsAlwaysCallable passes.now }
    requires chunks { AreChunks chunks.now.items }
    ensures { IsTrue result → IsLastBegun (FnReturnsAt F.Fn passes.now) chunks.now.items at }
{
    if at >= chunks.len() {
        return false;
    }
    if !first_passes(&chunks[at], passes) {
        return false;
    }
    at + 1 == chunks.len() || !first_passes(&chunks[at + 1], passes)
}

// The chunk in which the first item that does not pass stands, or right behind which it stands. The
// one at `first` is tried before any other.
pub(crate) fn chunk_near<T, L: Ledger, F: Fn(&T) -> bool>(
    chunks: &Vec<Vec<T>>,
    first: usize,
    passes: &F,
    steps: &mut Steps<L>,
) -> usize
    requires callable { F.IsAlwaysCallable passes.now }
    requires some { 0 < length chunks.now.items }
    requires chunks { AreChunks chunks.now.items }
    ensures last { IsLastBegun (FnReturnsAt F.Fn passes.now) chunks.now.items result }
    ensures looks { (k : ℕ) → length chunks.now.items - 1 < 2 ^ k → steps.new ≤ steps.old + k }
{
    if is_chunk(chunks, first, passes) {
        return first;
    }
    chunk_of(chunks, passes, steps)
}

// The item at the spot, where the spot is as right as when it was found: the item does not pass, and
// the one before it, in the same chunk, does.
pub(crate) fn still_at<'a, T, F: Fn(&T) -> bool>(
    chunks: &'a Vec<Vec<T>>,
    starts: &Starts,
    spot: Spot,
    passes: &F,
) -> Option<&'a T>
    requires callable { F.IsAlwaysCallable passes.now }
    requires laid_out { AreLaidOut chunks.now.items starts.now.inside.items
        starts.now.bases.items }
    requires fits { length (joined chunks.now.items) < 2 ^ 64 }
    ensures item { IfSome result
        (λ x. Some x.now ≡ slice_get (joined chunks.now.items) spot.place) }
    ensures before { IfSome result
        (λ _. PassesBefore (FnReturnsAt F.Fn passes.now) (joined chunks.now.items) spot.place) }
    ensures after { IfSome result
        (λ _. FailsAt (FnReturnsAt F.Fn passes.now) (joined chunks.now.items) spot.place) }
{
    if spot.chunk >= chunks.len() {
        return None;
    }
    let chunk = &chunks[spot.chunk];
    let begin = starts.at(spot.chunk);
    if spot.place <= begin || spot.place - begin >= chunk.len() {
        return None;
    }
    let inside = spot.place - begin;
    let item = &chunk[inside];
    if passes(&chunk[inside - 1]) && !passes(item) {
        Some(item)
    } else {
        None
    }
}

// The place of the first item that does not pass, where it stands in the chunk at `at` or right
// behind it, and that item if it stands in the chunk.
pub(crate) fn look_in<'a, T, L: Ledger, F: Fn(&T) -> bool>(
    chunks: &'a Vec<Vec<T>>,
    starts: &Starts,
    at: usize,
    passes: &F,
    steps: &mut Steps<L>,
) -> (usize, Option<&'a T>)
    requires callable { F.IsAlwaysCallable passes.now }
    requires laid_out { AreLaidOut chunks.now.items starts.now.inside.items
        starts.now.bases.items }
    requires fits { length (joined chunks.now.items) < 2 ^ 64 }
    requires last { IsLastBegun (FnReturnsAt F.Fn passes.now) chunks.now.items at }
    ensures within { result.0 ≤ length (joined chunks.now.items) }
    ensures before { PassesBefore (FnReturnsAt F.Fn passes.now) (joined chunks.now.items) result.0 }
    ensures after { FailsAt (FnReturnsAt F.Fn passes.now) (joined chunks.now.items) result.0 }
    ensures item { IfSome result.1
        (λ x. Some x.now ≡ slice_get (joined chunks.now.items) result.0) }
    ensures looks { (k : ℕ) → length (joined chunks.now.items) < 2 ^ k
        → steps.new ≤ steps.old + k }
{
    let start = starts.at(at);
    // The first item of the chunk passes, unless it is the first chunk, of which nothing is known.
    let known = at.min(1);
    let chunk = &chunks[at];
    let place = place_in(chunk, known, passes, steps);
    (start + place, chunk.get(place))
}
