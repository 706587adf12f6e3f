//! Ids, each once.
ghost use Rattle.std.specs.Prelude.{◌≡◌, ◌<◌, ◌≤◌, ◌%◌, false, not, IfOk, OnOk, length, map};
ghost use Rattle.u1_base.specs.Ids.{id_cmp};
ghost use Rattle.query_range.specs.Answers.{firsts};
ghost use Rattle.query_range.specs.SeenIds.{AreBehind, mark};
ghost use Rattle.query_range.specs.inner.SeenIds.{SeesOneMore, holds};

use std::alloc::Global;
use std::collections::BTreeSet;
use std::hash::{BuildHasher, BuildHasherDefault, FoldHasher};
use u1_base::{DocId, Ids, Memory};

// The ids that were found. Each has a place by its number; one whose place is taken by another
// stands in a tree beside them. So most ids are found by one look, and ids that are chosen to share
// a place cost a search in the tree each.
#[derive(Drop)]
struct SeenIds<'a> {
    places: Vec<Option<&'a str>>,
    others: BTreeSet<&'a str>,
    ghost some: { 0 < length places.items },
    ghost behind: { AreBehind places.items others },
}

// A number made of an id.
fn mark(id: &str) -> u64
    ensures { result ≡ mark id.now }
{
    BuildHasherDefault::<FoldHasher>::new().hash_one(id)
}

// The place of an id among so many.
fn place_of(id: &str, count: usize) -> usize
    requires { 0 < count }
    ensures value { result ≡ mark id.now % count }
    ensures within { result < count }
{
    (mark(id) % count as u64) as usize
}

impl<'a> SeenIds<'a> {
    ghost use Rattle.query_range.specs.SeenIds.{AreBehind};
    ghost use Rattle.query_range.specs.inner.SeenIds.{holds};

    // None, with places for so many ids.
    fn new(alloc: Global, ids: usize) -> Result<SeenIds<'a>, Memory>
        ensures { IfOk result (λ found. (id : _)
            → holds found.places.items found.others id ≡ false) }
    {
        let mut places = Vec::new(alloc);
        places.resize(ids.saturating_mul(2).max(1), None)?;
        Ok(SeenIds {
            places,
            others: BTreeSet::new(alloc),
        })
    }

    // Whether the id is a new one. It is kept.
    fn insert(&mut self, id: &'a str) -> Result<bool, Memory>
        ensures fresh { IfOk result
            (λ fresh. fresh ≡ not (holds self.old.places.items self.old.others id.entry)) }
        ensures kept { OnOk result
            (SeesOneMore self.old.places.items self.old.others id.entry self.new.places.items
            self.new.others) }
    {
        let place = place_of(id, self.places.len());
        match self.places[place] {
            None => {
                self.places[place] = Some(id);
                Ok(true)
            }
            Some(other) => {
                if other.cmp(id).is_eq() {
                    return Ok(false);
                }
                Ok(self.others.insert(id)?)
            }
        }
    }
}

/// The ids, each once, at its first place.
pub(crate) fn each_once(alloc: Global, found: &[&DocId]) -> Result<Ids, Memory>
    ensures { IfOk result (λ ids. ids ≡ firsts id_cmp (map (λ id. id.now) found.now)) }
{
    let mut ids = Ids::new(alloc);
    let mut seen = SeenIds::new(alloc, found.len())?;
    for id in found {
        if seen.insert(id.as_str())? {
            ids.push(id.copy()?)?;
        }
    }
    Ok(ids)
}
