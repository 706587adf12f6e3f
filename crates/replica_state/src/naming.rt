//! Indexes in the order of their names.
ghost use Rattle.std.specs.Prelude.{◌≡◌, ◌<◌, ◌≤◌, length, slice_get, slice_set, option_copied};
ghost use Rattle.std.specs.Prelude.{vec_capacity, vec_len};
ghost use Rattle.std.specs.List.{insert};
ghost use Rattle.replica_state.specs.inner.Named.{first_named, is_named, other_indexes, place_in};
ghost use Rattle.replica_state.specs.inner.Named.{put_index};

use crate::index::Index;
use u1_base::IndexName;

pub(crate) fn find_index<'a>(indexes: &'a [Index], name: &IndexName) -> Option<&'a Index>
    ensures { option_copied result ≡ first_named name.now indexes.now }
{
    for index in indexes {
        if name.cmp(&index.name).is_eq() {
            return Some(index);
        }
    }
    None
}

/// Puts the index in its place, instead of one of its name.
pub(crate) fn add_index(indexes: &mut Vec<Index>, index: Index)
    requires { vec_len indexes.old < vec_capacity indexes.old }
    ensures { indexes.new.items ≡ put_index index indexes.old.items }
{
    let list = indexes.as_slice();
    let place = place_of(list, &index.name);
    let there = stands_at(list, place, &index.name);
    if there {
        replace_at(indexes, place, index);
    } else {
        insert_at(indexes, place, index);
    }
}

fn replace_at(indexes: &mut Vec<Index>, place: usize, index: Index)
    requires { place < length indexes.old.items }
    ensures { indexes.new.items ≡ slice_set indexes.old.items place index }
{
    indexes[place] = index;
}

fn insert_at(indexes: &mut Vec<Index>, place: usize, index: Index)
    requires room { vec_len indexes.old < vec_capacity indexes.old }
    requires place { place ≤ length indexes.old.items }
    ensures { indexes.new.items ≡ insert indexes.old.items place index }
{
    let _ = indexes.insert(place, index);
}

// How many of the first indexes have names below the name.
fn place_of(indexes: &[Index], name: &IndexName) -> usize
    ensures { result ≡ place_in name.now indexes.now }
{
    let mut place = 0;
    for index in indexes {
        if index.name.cmp(name).is_lt() {
            place += 1;
        } else {
            return place;
        }
    }
    place
}

// Whether an index of the name stands at the place.
fn stands_at(indexes: &[Index], place: usize, name: &IndexName) -> bool
    ensures { result ≡ is_named name.now (slice_get indexes.now place) }
{
    match indexes.get(place) {
        Some(index) => name.cmp(&index.name).is_eq(),
        None => false,
    }
}

/// Drops the index of the name.
pub(crate) fn drop_index(indexes: &mut Vec<Index>, name: &IndexName)
    ensures { indexes.new.items ≡ other_indexes name.now indexes.old.items }
{
    indexes.retain(|index| name.cmp(&index.name).is_ne());
}
