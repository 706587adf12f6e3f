//! What is done to the sorted list of pairs.
ghost use Rattle.std.specs.Prelude.{◌≡◌, ◌+◌, ◌<◌, ◌≤◌, ◌||◌, false, true, not};
ghost use Rattle.std.specs.Prelude.{length, filter, vec_len};
ghost use Rattle.std.specs.List.{HoldsAt};
ghost use Rattle.std.specs.List.Sorted.{IsPermutation};
ghost use Rattle.index_tables.specs.Entries.{AreDistinct, AreNew, HoldsBoth, entries_of, has};
ghost use Rattle.index_tables.specs.Entries.{is_of, not_among, not_of, same};
ghost use Rattle.index_tables.specs.Order.{IsInOrder};
ghost use Rattle.index_tables.specs.Seen.{entry_of, seen};
ghost use Rattle.index_tables.specs.inner.Seen.{EndsAt, Tells, is_below};

use crate::abbreviated::abbreviated;
use crate::order::{compare_pair, compare_pairs};
use crate::pair::Pair;
use chunk_list::ChunkList;
use u1_base::{DocId, Key, Text};

// The place of the first pair that is not below a key and an id, and whether it is theirs.
fn place_of(list: &ChunkList<Pair>, key: &[Text], id: &DocId) -> (usize, bool)
    ensures place { EndsAt (is_below (key.now, id.now)) list.now.items result.0 }
    ensures stands { Tells (key.now, id.now) list.now.items result.0 result.1 }
{
    let abbreviated = abbreviated(key);
    let (place, found) = list.find(|pair| compare_pair(pair, abbreviated, key, id).is_lt());
    match found {
        Some(pair) => (place, compare_pair(pair, abbreviated, key, id).is_eq()),
        None => (place, false),
    }
}

// Whether the pair at a place is below another.
fn is_below_at(list: &ChunkList<Pair>, place: usize, pair: &Pair) -> bool
    requires { place < length list.now.items }
    ensures { HoldsAt (λ p. is_below (entry_of pair.now) p ≡ result) list.now.items place }
{
    match list.get(place) {
        Some(other) => compare_pairs(other, pair).is_lt(),
        None => false,
    }
}

// Whether the place of a pair is after all others: it is where the last of them is below.
fn is_last(list: &ChunkList<Pair>, pair: &Pair) -> bool
    ensures { result ≡ true
        → EndsAt (is_below (entry_of pair.now)) list.now.items (length list.now.items) }
{
    if list.is_empty() {
        return true;
    }
    is_below_at(list, list.len() - 1, pair)
}

// The place of a pair. Of pairs that come in order most are the last, which is soon seen.
fn place_for(list: &ChunkList<Pair>, pair: &Pair, rising: bool) -> usize
    ensures { EndsAt (is_below (entry_of pair.now)) list.now.items result }
{
    if rising && is_last(list, pair) {
        return list.len();
    }
    let (place, _) = place_of(list, pair.key.texts(), &pair.id);
    place
}

// Puts a pair in its place.
fn put(list: &mut ChunkList<Pair>, pair: Pair, rising: bool)
    requires room { 0 < list.old.room }
    requires order { IsInOrder (seen list.old.items) }
    requires fresh { has (seen list.old.items) (entry_of pair) ≡ false }
    ensures order { IsInOrder (seen list.new.items) }
    ensures members { (p : _) → has (seen list.new.items) p
        ≡ (has (seen list.old.items) p || same p (entry_of pair)) }
    ensures count { length (seen list.new.items) ≡ length (seen list.old.items) + 1 }
    ensures room { list.new.room + 1 ≡ list.old.room }
{
    let place = place_for(list, &pair, rising);
    list.insert(place, pair);
}

// Puts each pair in its place, the last one first.
fn put_each(list: &mut ChunkList<Pair>, mut pairs: Vec<Pair>, rising: bool)
    requires room { vec_len pairs ≤ list.old.room }
    requires order { IsInOrder (seen list.old.items) }
    requires distinct { AreDistinct (seen pairs.items) }
    requires fresh { AreNew (seen list.old.items) (seen pairs.items) }
    ensures order { IsInOrder (seen list.new.items) }
    ensures members { HoldsBoth (seen list.old.items) (seen pairs.items) (seen list.new.items) }
    ensures count { length (seen list.new.items) ≡ length (seen list.old.items) + vec_len pairs }
    ensures room { list.new.room + vec_len pairs ≡ list.old.room }
{
    while let Some(pair) = pairs.pop() {
        put(list, pair, rising);
    }
}

// The same pairs, the greatest one first. It takes no memory.
fn falling(mut pairs: Vec<Pair>) -> Vec<Pair>
    ensures same { IsPermutation pairs.items result.items }
    ensures len { vec_len result ≡ vec_len pairs }
{
    pairs.sort_unstable_by(|one, other| compare_pairs(other, one));
    pairs
}

// From so many pairs on, it is worth sorting them first.
const MANY: usize = 16;

// Puts each pair in its place. Many are put in from the least to the greatest, so that those that
// stand after all others are found there without a search, and the others move fewer pairs.
pub(crate) fn put_all(list: &mut ChunkList<Pair>, pairs: Vec<Pair>)
    requires room { vec_len pairs ≤ list.old.room }
    requires order { IsInOrder (seen list.old.items) }
    requires distinct { AreDistinct (seen pairs.items) }
    requires fresh { AreNew (seen list.old.items) (seen pairs.items) }
    ensures order { IsInOrder (seen list.new.items) }
    ensures members { HoldsBoth (seen list.old.items) (seen pairs.items) (seen list.new.items) }
    ensures count { length (seen list.new.items) ≡ length (seen list.old.items) + vec_len pairs }
    ensures room { list.new.room + vec_len pairs ≡ list.old.room }
{
    if pairs.len() < MANY {
        put_each(list, pairs, false);
    } else {
        let sorted = falling(pairs);
        put_each(list, sorted, true);
    }
}

// Takes the pair of a key and an id out, where it stands.
fn take_out(list: &mut ChunkList<Pair>, key: &[Text], id: &DocId)
    requires { IsInOrder (seen list.old.items) }
    ensures order { IsInOrder (seen list.new.items) }
    ensures pairs { seen list.new.items ≡ filter (λ p. not (same p (key.now, id.now)))
        (seen list.old.items) }
    ensures room { list.new.room ≡ list.old.room }
{
    let (place, stands) = place_of(list, key, id);
    if stands {
        list.remove(place);
    }
}

// Takes the pairs of the keys and an id out.
pub(crate) fn take_keys(list: &mut ChunkList<Pair>, keys: &[Key], id: &DocId)
    requires { IsInOrder (seen list.old.items) }
    ensures order { IsInOrder (seen list.new.items) }
    ensures pairs { seen list.new.items ≡ not_among (entries_of id.now keys.now)
        (seen list.old.items) }
    ensures room { list.new.room ≡ list.old.room }
{
    for key in keys {
        take_out(list, key.texts(), id);
    }
}

// Whether the pair at a place is of the id.
fn is_of_at(list: &ChunkList<Pair>, place: usize, id: &DocId) -> bool
    requires { place < length list.now.items }
    ensures { HoldsAt (λ p. is_of id.now (entry_of p) ≡ result) list.now.items place }
{
    match list.get(place) {
        Some(pair) => id.cmp(&pair.id).is_eq(),
        None => false,
    }
}

// Takes all pairs of an id out, from the last to the first.
pub(crate) fn take_id(list: &mut ChunkList<Pair>, id: &DocId)
    requires { IsInOrder (seen list.old.items) }
    ensures order { IsInOrder (seen list.new.items) }
    ensures pairs { seen list.new.items ≡ not_of id.now (seen list.old.items) }
    ensures room { list.new.room ≡ list.old.room }
{
    let mut place = list.len();
    while place > 0 {
        place -= 1;
        if is_of_at(list, place, id) {
            list.remove(place);
        }
    }
}
