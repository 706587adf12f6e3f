//! What changed since a generation.
ghost use Rattle.std.specs.Prelude.{◌≡◌, [], ◌∷◌, ◌++◌, IfOk, OnOk};
ghost use Rattle.translog.specs.Entries.{change_at, changes_since};

use crate::{Change, Changes, Entry, Log};
use std::collections::BTreeSet;
use u1_base::Memory;

impl Log {
    /// Each document with an entry after the generation once, at its last entry, in the order of
    /// these entries.
    pub fn changed_since(&self, generation: u64) -> Result<Changes, Memory>
        ensures { IfOk result (λ changes. changes ≡ changes_since self.now.entries generation) }
    {
        let alloc = *self.entries.allocator();
        let entries = self.entries();
        let mut later = BTreeSet::new(alloc);
        let mut changes = Vec::new(alloc);
        let mut place = entries.len();
        while place as u64 > generation {
            let entry = &entries[place - 1];
            if later.insert(entry.doc.as_str())? {
                push_change(&mut changes, entry, place as u64)?;
            }
            place -= 1;
        }
        changes.reverse();
        Ok(Changes::from_vec(changes))
    }
}

// Adds the entry's change at the end. At an error the list is as it was.
fn push_change(changes: &mut Vec<Change>, entry: &Entry, generation: u64) -> Result<(), Memory>
    ensures { OnOk result (changes.new.items ≡ changes.old.items
        ++ change_at entry.now generation ∷ []) }
{
    changes.push(Change {
        doc: entry.doc.copy()?,
        generation,
        trans: entry.trans.copy()?,
    })?;
    Ok(())
}
