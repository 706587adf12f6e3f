//! Items that move between chunks, and chunks that come in and go out.
ghost use Rattle.std.specs.Prelude.{◌≡◌, ◌+◌, ◌*◌, ◌<◌, ◌≤◌, ◌⊎◌, ◌++◌, ℕ, length, slice_index_or};
ghost use Rattle.std.specs.Prelude.{slice_set, take, OnOk, vec_len, vec_capacity};
ghost use Rattle.std.specs.List.{All, insert};
ghost use Rattle.chunk_list.specs.Chunks.{AreChunks, AreLaidOut, CanTurn, IsSpare};
ghost use Rattle.chunk_list.specs.inner.Chunks.{AreChunksBut};
ghost use Rattle.chunk_list.specs.Chunks.{IsWide, block, full, joined};
ghost use Rattle.chunk_list.specs.inner.Edits.{AreTurned, IsGiven};

use crate::list::{CHUNK, NEARLY_FULL};
use crate::starts::{BLOCK, Starts};
use std::alloc::AllocError;
use std::mem;

// Puts an item into a list that has memory for it.
pub(crate) fn put<T: Drop>(items: &mut Vec<T>, place: usize, item: T)
    requires place { place ≤ vec_len items.old }
    requires free { vec_len items.old < vec_capacity items.old }
    ensures items { items.new.items ≡ insert items.old.items place item }
    ensures len { vec_len items.new ≡ vec_len items.old + 1 }
    ensures capacity { vec_capacity items.new ≡ vec_capacity items.old }
{
    match items.insert(place, item) {
        Ok(()) => {}
        Err(_) => {}
    }
}

// Moves the last items of a chunk to the front of the next one, until it has `count`.
fn move_up<T>(lower: &mut Vec<T>, upper: &mut Vec<T>, count: usize)
    requires enough { count ≤ vec_len lower.old }
    requires fits { vec_len lower.old + vec_len upper.old ≤ vec_capacity upper.old + count }
    ensures items { lower.new.items ++ upper.new.items ≡ lower.old.items ++ upper.old.items }
    ensures len { vec_len lower.new ≡ count }
    ensures both { vec_len lower.new + vec_len upper.new ≡ vec_len lower.old + vec_len upper.old }
    ensures lower_capacity { vec_capacity lower.new ≡ vec_capacity lower.old }
    ensures upper_capacity { vec_capacity upper.new ≡ vec_capacity upper.old }
{
    // What comes first stands last meanwhile, where items are added and taken.
    upper.reverse();
    while lower.len() > count {
        let item = lower.take_last();
        upper.push_reserved(item);
    }
    upper.reverse();
}

// Moves the first items of a chunk to the end of the one before it, until that one has `count`.
fn move_down<T>(lower: &mut Vec<T>, upper: &mut Vec<T>, count: usize)
    requires more { vec_len lower.old ≤ count }
    requires enough { count ≤ vec_len lower.old + vec_len upper.old }
    requires fits { count ≤ vec_capacity lower.old }
    ensures items { lower.new.items ++ upper.new.items ≡ lower.old.items ++ upper.old.items }
    ensures len { vec_len lower.new ≡ count }
    ensures both { vec_len lower.new + vec_len upper.new ≡ vec_len lower.old + vec_len upper.old }
    ensures lower_capacity { vec_capacity lower.new ≡ vec_capacity lower.old }
    ensures upper_capacity { vec_capacity upper.new ≡ vec_capacity upper.old }
{
    upper.reverse();
    while lower.len() < count {
        let item = upper.take_last();
        lower.push_reserved(item);
    }
    upper.reverse();
}

// Moves `count` items from a chunk to one beside it.
pub(crate) fn give<T: Drop>(chunks: &mut Vec<Vec<T>>, from: usize, to: usize, count: usize)
    requires beside { (to ≡ from + 1) ⊎ (from ≡ to + 1) }
    requires from { from < length chunks.old.items }
    requires to { to < length chunks.old.items }
    requires wide { All IsWide chunks.old.items }
    requires enough { (d : _) → count ≤ vec_len (slice_index_or chunks.old.items from d) }
    requires fits_from { (d : _) → vec_len (slice_index_or chunks.old.items from d) ≤ full + 1 }
    requires fits_to { (d : _) → vec_len (slice_index_or chunks.old.items to d) + count ≤ full }
    ensures given { IsGiven chunks.old.items from to count chunks.new.items }
    ensures capacity { vec_capacity chunks.new ≡ vec_capacity chunks.old }
{
    let hole = Vec::new(*chunks.allocator());
    let mut giver = mem::replace(&mut chunks[from], hole);
    let taker = &mut chunks[to];
    if from < to {
        let left = giver.len() - count;
        move_up(&mut giver, taker, left);
        chunks[from] = giver;
    } else {
        let more = taker.len() + count;
        move_down(taker, &mut giver, more);
        chunks[from] = giver;
    }
}

// How many items stay in a chunk that is cut: half of them, but in the last chunk nearly all. So a
// list that grows at its end has chunks that are filled well, and each takes some items more.
fn staying(at: usize, chunks: usize) -> usize
    requires { at < chunks }
    ensures some { 0 < result }
    ensures fits { result ≤ full }
{
    if at + 1 < chunks {
        CHUNK / 2
    } else {
        NEARLY_FULL
    }
}

// Cuts the chunk at `at`, which has one item too many, in two: a spare chunk comes in behind it,
// with the items that do not stay.
pub(crate) fn cut<T: Drop>(chunks: &mut Vec<Vec<T>>, spare: &mut Vec<Vec<T>>, at: usize)
    requires chunks { AreChunksBut chunks.old.items at }
    requires over { (d : _) → vec_len (slice_index_or chunks.old.items at d) ≡ full + 1 }
    requires each { All IsSpare spare.old.items }
    requires some { 0 < vec_len spare.old }
    requires fits { vec_len chunks.old < vec_capacity chunks.old }
    ensures same { joined chunks.new.items ≡ joined chunks.old.items }
    ensures chunks { AreChunks chunks.new.items }
    ensures front { take at chunks.new.items ≡ take at chunks.old.items }
    ensures some { at < length chunks.new.items }
    ensures turned { AreTurned chunks.old spare.old chunks.new spare.new }
    ensures long { vec_len chunks.new + vec_len spare.new ≡ vec_len chunks.old + vec_len spare.old }
{
    let count = staying(at, chunks.len());
    let mut upper = spare.take_last();
    let lower = &mut chunks[at];
    move_up(lower, &mut upper, count);
    put(chunks, at + 1, upper);
}

// Takes the chunk at `at` out, which is empty. It is spare now, where so many chunks are needed,
// and else given back.
pub(crate) fn set_out<T: Drop>(
    chunks: &mut Vec<Vec<T>>,
    spare: &mut Vec<Vec<T>>,
    at: usize,
    needed: usize,
)
    requires chunks { AreChunksBut chunks.old.items at }
    requires some { 0 < at }
    requires empty { (d : _) → vec_len (slice_index_or chunks.old.items at d) ≡ 0 }
    requires each { All IsSpare spare.old.items }
    requires fits { vec_len chunks.old + vec_len spare.old ≤ vec_capacity spare.old }
    ensures same { (joined chunks.new.items ≡ joined chunks.old.items)
        × AreChunks chunks.new.items }
    ensures front { take at chunks.new.items ≡ take at chunks.old.items }
    ensures long { length chunks.new.items + 1 ≡ length chunks.old.items }
    ensures turned { AreTurned chunks.old spare.old chunks.new spare.new }
    ensures needed { needed ≤ vec_len chunks.old + vec_len spare.old
        → needed ≤ vec_len chunks.new + vec_len spare.new }
{
    let chunk = chunks.remove(at);
    let left = chunks.len() + spare.len();
    if left < needed {
        spare.push_reserved(chunk);
    }
}

// Makes memory for one spare chunk more, to come in and to go out.
fn extend<T: Drop>(
    chunks: &mut Vec<Vec<T>>,
    spare: &mut Vec<Vec<T>>,
    starts: &mut Starts,
) -> Result<(), AllocError>
    requires turns { CanTurn chunks.old spare.old starts.old.inside starts.old.bases }
    requires as_many { vec_len starts.old.inside ≡ vec_len chunks.old }
    requires enough { vec_len chunks.old ≤ vec_len starts.old.bases * block }
    ensures same { (chunks.new.items ≡ chunks.old.items) × (spare.new.items ≡ spare.old.items)
        × (starts.new.inside.items ≡ starts.old.inside.items)
        × (starts.new.bases.items ≡ starts.old.bases.items) }
    ensures turns { CanTurn chunks.new spare.new starts.new.inside starts.new.bases }
    ensures ok { OnOk result ((vec_len chunks.new + vec_len spare.new < vec_capacity chunks.new)
        × (vec_len chunks.new + vec_len spare.new < vec_capacity spare.new)
        × (vec_len chunks.new + vec_len spare.new < vec_capacity starts.new.inside)
        × (vec_len chunks.new + vec_len spare.new < vec_capacity starts.new.bases * block)) }
{
    chunks.reserve(spare.len() + 1)?;
    starts.inside.reserve(spare.len() + 1)?;
    starts.bases.reserve(spare.len() / BLOCK + 1)?;
    spare.reserve(chunks.len() + 1)
}

// Adds spare chunks until there are so many chunks. The first one of all is in use at once.
pub(crate) fn grow<T: Drop>(
    chunks: &mut Vec<Vec<T>>,
    spare: &mut Vec<Vec<T>>,
    starts: &mut Starts,
    wanted: usize,
) -> Result<(), AllocError>
    requires laid_out { AreLaidOut chunks.old.items starts.old.inside.items
        starts.old.bases.items }
    requires turns { CanTurn chunks.old spare.old starts.old.inside starts.old.bases }
    ensures same { joined chunks.new.items ≡ joined chunks.old.items }
    ensures laid_out { AreLaidOut chunks.new.items starts.new.inside.items
        starts.new.bases.items }
    ensures turns { CanTurn chunks.new spare.new starts.new.inside starts.new.bases }
    ensures long { vec_len chunks.old + vec_len spare.old ≤ vec_len chunks.new + vec_len spare.new }
    ensures ok { OnOk result (wanted ≤ vec_len chunks.new + vec_len spare.new) }
{
    while chunks.len() + spare.len() < wanted {
        let chunk = Vec::with_capacity(*chunks.allocator(), CHUNK + 1)?;
        extend(chunks, spare, starts)?;
        if chunks.len() == 0 {
            chunks.push_reserved(chunk);
            starts.inside.push_reserved(0);
            starts.bases.push_reserved(0);
        } else {
            spare.push_reserved(chunk);
        }
    }
    Ok(())
}
