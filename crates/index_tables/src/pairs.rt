//! The pairs of documents, made before they are put into a table.
ghost use Rattle.std.specs.Prelude.{◌≡◌, ◌≢◌, ◌↔◌, ◌++◌, [], IfOk, IsTrue, length};
ghost use Rattle.std.specs.List.{AllPairs};
ghost use Rattle.index_tables.specs.Entries.{AreNew, entries_of};
ghost use Rattle.index_tables.specs.Seen.{seen};

use crate::pair::Pair;
use std::alloc::Global;
use std::marker::Model;
use u1_base::{DocId, Key, Keys, Memory};

/// Pairs of a key and an id, seen as their list. None stands twice.
#[derive(Drop)]
pub struct Pairs {
    pub(crate) inner: Vec<Pair>,
}

impl Model for Pairs {
    ghost use Rattle.std.specs.Prelude.{List};
    ghost use Rattle.index_tables.specs.Order.{Entry};

    ghost Value = { List Entry };

    ghost use Rattle.index_tables.specs.Entries.{AreDistinct};
    ghost use Rattle.index_tables.specs.Seen.{seen};

    ghost view = { λ s. seen s.inner.items };

    ghost invariant = { λ s. AreDistinct (seen s.inner.items) };
}

impl Pairs {
    /// No pairs.
    pub fn new(alloc: Global) -> Pairs
        ensures { result ≡ [] }
    {
        Pairs {
            inner: Vec::new(alloc),
        }
    }

    /// These, and the pairs of the keys and an id, to be put in together.
    pub fn with(self, id: &DocId, keys: Keys) -> Result<Pairs, Memory>
        requires distinct { AllPairs (λ key other. key ≢ other) keys }
        requires fresh { AreNew self (entries_of id.now keys) }
        ensures { IfOk result (λ pairs. pairs ≡ self ++ entries_of id.now keys) }
    {
        Ok(Pairs {
            inner: with_pairs(self.inner, id, keys)?,
        })
    }

    /// How many pairs they are.
    pub fn len(&self) -> usize
        ensures { result ≡ length self.now }
    {
        self.inner.len()
    }

    pub fn is_empty(&self) -> bool
        ensures { IsTrue result ↔ (self.now ≡ []) }
    {
        self.inner.is_empty()
    }
}

// One pair for each key, each with its own copy of the id.
pub(crate) fn make_pairs(id: &DocId, keys: Keys) -> Result<Vec<Pair>, Memory>
    ensures { IfOk result (λ pairs. seen pairs.items ≡ entries_of id.now keys) }
{
    let keys = keys.into_vec();
    let pairs = Vec::with_capacity(*keys.allocator(), keys.len())?;
    with_keys(pairs, id, keys)
}

// The pairs, and one more for each key. They are kept where the pairs were.
fn with_pairs(pairs: Vec<Pair>, id: &DocId, keys: Keys) -> Result<Vec<Pair>, Memory>
    ensures { IfOk result (λ all. seen all.items ≡ seen pairs.items ++ entries_of id.now keys) }
{
    with_keys(pairs, id, keys.into_vec())
}

fn with_keys(mut pairs: Vec<Pair>, id: &DocId, keys: Vec<Key>) -> Result<Vec<Pair>, Memory>
    ensures { IfOk result
        (λ all. seen all.items ≡ seen pairs.items ++ entries_of id.now keys.items) }
{
    for key in keys {
        let id = id.copy()?;
        pairs.push(Pair::of(key, id))?;
    }
    Ok(pairs)
}
