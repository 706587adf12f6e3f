//! Which documents a source has already.
ghost use Rattle.std.specs.Prelude.{◌≡◌, ◌<◌, ◌||◌, [], ◌++◌, OnOk, List, ℕ, Some, nat_le};
ghost use Rattle.std.specs.Option.{option_copied};
ghost use Rattle.sync_stream.specs.Serving.{Held};
ghost use Rattle.sync_exchange.specs.Seen.{SeesAs, is_seen, reaches};
ghost use Rattle.sync_exchange.specs.inner.Seen.{held_at};

use conflicts::Outcome4;
use doc_table::Table;
use std::alloc::Global;
use std::marker::Model;
use translog::Change;
use u1_base::{DocId, Document, Memory};

/// The documents of which the source of a request has what this replica has, each with the
/// generation of this replica's log up to which that is known.
#[derive(Drop)]
pub struct Seen {
    table: Table<Document, u64>,
}

impl Model for Seen {
    ghost use Rattle.std.specs.Prelude.{ℕ};
    ghost use Rattle.std.specs.Coded.{coded_ℕ};
    ghost use Rattle.doc_table.specs.Listed.{Listed, listed_code};

    ghost Value = { Listed ℕ };

    ghost coded = { listed_code coded_ℕ };

    ghost view = { λ s. s.table };
}

impl Seen {
    /// None yet.
    pub fn new(alloc: Global) -> Seen
        ensures { SeesAs result.pairs [] }
    {
        Seen {
            table: Table::new(alloc),
        }
    }

    /// Whether the source has what this change made of its document.
    pub fn has(&self, change: &Change) -> bool
        ensures { result ≡ is_seen self.now.pairs change.now }
    {
        match self.table.get(&change.doc) {
            Some(generation) => change.generation <= *generation,
            None => false,
        }
    }

    // Makes room for one document.
    pub(crate) fn reserve(&mut self) -> Result<(), Memory>
        ensures pairs { self.new.pairs ≡ self.old.pairs }
        ensures room { OnOk result (0 < self.new.room) }
    {
        self.table.reserve()
    }

    // Notes what became of a document, where the log has this generation now.
    pub(crate) fn note(&mut self, outcome: Outcome4, id: DocId, generation: u64)
        requires { 0 < self.old.room }
        ensures { (held : List Held) → SeesAs self.old.pairs held
            → SeesAs self.new.pairs (held ++ held_at outcome id generation) }
    {
        match outcome {
            Outcome4::Inserted => self.put(id, generation),
            Outcome4::Converged => self.put(id, generation),
            Outcome4::Superseded => {}
            Outcome4::Conflicted => {}
        }
    }

    fn put(&mut self, id: DocId, generation: u64)
        requires { 0 < self.old.room }
        ensures { (held : List Held) → SeesAs self.old.pairs held
            → SeesAs self.new.pairs (held ++ held_at Outcome4.Inserted id generation) }
    {
        let latest = latest(self.table.get(&id), generation);
        self.table.put(id, latest);
    }
}

// The later of the generation that was noted before and this one.
#[tactic(auto, using(crate::proofs::Noted::later_reaches, crate::proofs::Noted::earlier_reaches))]
fn latest(before: Option<&u64>, generation: u64) -> u64
    ensures { (n : ℕ) → reaches n (Some result)
        ≡ (reaches n (option_copied before.entry) || nat_le n generation) }
{
    match before {
        Some(before) => {
            if *before < generation {
                generation
            } else {
                *before
            }
        }
        None => generation,
    }
}
