//! The keys of one document.
ghost use Rattle.std.specs.Prelude.{◌≡◌, ◌≢◌, true};
ghost use Rattle.std.specs.List.{All, AllPairs};

use index_tables::{IndexTable, compare_keys};
use std::alloc::Global;
use u1_base::{DocId, Key, Keys, Memory, Text};

/// Keys of which none stands twice.
#[derive(Drop)]
pub struct KeySet {
    keys: Keys,
    ghost distinct: { AllPairs (λ key other. key ≢ other) keys },
}

impl KeySet {
    pub fn new(alloc: Global) -> KeySet {
        KeySet {
            keys: Keys::new(alloc),
        }
    }

    pub fn insert(&mut self, key: Key) -> Result<(), Memory> {
        if is_new(self.keys.as_slice(), key.texts()) {
            self.keys.push(key)?;
        }
        Ok(())
    }

    /// Drops the pairs of the keys and an id from a table.
    pub fn drop_from(&self, table: &mut IndexTable, id: &DocId) {
        table.drop_pairs(id, self.keys.as_slice());
    }

    /// Adds the pairs of the keys and an id to a table. Those that are there are dropped first, so
    /// that all are new.
    pub fn add_to(self, table: &mut IndexTable, id: &DocId) -> Result<(), Memory> {
        table.drop_pairs(id, self.keys.as_slice());
        table.add(id, self.keys)
    }
}

// Whether a key stands nowhere in a list.
fn is_new(keys: &[Key], key: &[Text]) -> bool
    ensures { result ≡ true → All (λ other. other ≢ key.now) keys.now }
{
    for other in keys {
        if compare_keys(other.texts(), key).is_eq() {
            return false;
        }
    }
    true
}
