//! Counters put into entries that are in order, each in its place.
ghost use Rattle.std.specs.Prelude.{◌≡◌, ◌<◌, ◌≤◌, IfOk, MatchResult, OnOk, T, length, max};
ghost use Rattle.std.specs.FinMap.Entries.{is_sorted, put};
ghost use Rattle.u1_base.specs.Ids.{id_cmp};
ghost use Rattle.vector_rev.specs.Counts.{count_in, join};
ghost use Rattle.vector_rev.specs.inner.Standing.{FitsAt, IsAbove, StandsAt};

use crate::ClockEntry;
use std::cmp::Ordering;
use u1_base::{Memory, ReplicaUid};

// Puts each of the others in its place, of each uid the greater counter. At an error some of them
// may have been put. The others go from the last to the first, so that the places go down: that is
// one walk along both lists.
pub(crate) fn put_each(entries: &mut Vec<ClockEntry>, others: &[ClockEntry]) -> Result<(), Memory>
    requires order { T (is_sorted id_cmp entries.old.items) }
    requires others { T (is_sorted id_cmp others.now) }
    ensures { OnOk result (entries.new.items ≡ join others.now entries.old.items) }
{
    let mut end = entries.len();
    let mut left = others.len();
    while left > 0 {
        left -= 1;
        let entry = &others[left];
        end = put_greater(entries, end, entry.uid(), entry.counter())?;
    }
    Ok(())
}

// Puts the counter at the uid, unless a greater one is there, and answers the place of the uid. The
// entries from `end` on are above the uid. At an error the entries are as they were.
pub(crate) fn put_greater(
    entries: &mut Vec<ClockEntry>,
    end: usize,
    uid: &ReplicaUid,
    counter: u64,
) -> Result<usize, Memory>
    requires order { T (is_sorted id_cmp entries.old.items) }
    requires above { IsAbove uid.now entries.old.items end }
    ensures entries { OnOk result
        (entries.new.items ≡ put id_cmp uid.now
        (max counter (count_in entries.old.items uid.now)) entries.old.items) }
    ensures place { IfOk result (λ place. StandsAt uid.now entries.new.items place) }
{
    match place_of(entries.as_slice(), end, uid) {
        Ok(place) => {
            entries[place].raise_to(counter);
            Ok(place)
        }
        Err(place) => {
            entries.insert(place, ClockEntry::new(uid.copy()?, counter))?;
            Ok(place)
        }
    }
}

// Where the uid stands, or else where it would stand, searched from `end` down.
fn place_of(entries: &[ClockEntry], end: usize, uid: &ReplicaUid) -> Result<usize, usize>
    requires { IsAbove uid.now entries.now end }
    ensures { MatchResult result (λ place. StandsAt uid.now entries.now place)
        (λ place. FitsAt uid.now entries.now place) }
{
    let mut place = end;
    while place > 0 {
        let entry = &entries[place - 1];
        match uid.cmp(entry.uid()) {
            Ordering::Less => place -= 1,
            Ordering::Equal => return Ok(place - 1),
            Ordering::Greater => return Err(place),
        }
    }
    Err(place)
}
