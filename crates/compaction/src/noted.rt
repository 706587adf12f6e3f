//! What is noted of the later steps that are left: the revisions that they accept, the positions
//! that they move, the indexes that they create.
ghost use Rattle.std.specs.Prelude.{◌≡◌, ◌||◌, ◌&&◌, OnOk, Some, is_some};
ghost use Rattle.std.specs.FinMap.Entries.{find};
ghost use Rattle.std.specs.List.{list_any};
ghost use Rattle.u1_base.specs.Ids.{id_cmp, same_id};
ghost use Rattle.vector_rev.specs.Clock.{Clock};
ghost use Rattle.vector_rev.specs.Compare.{same};
ghost use Rattle.conflicts.specs.State.{Text};
ghost use Rattle.compaction.specs.Compaction.{nothing_later};
ghost use Rattle.compaction.specs.inner.Noted.{has_clock, later_of, with_accepted, with_created};
ghost use Rattle.compaction.specs.inner.Noted.{with_moved};

use conflicts::{Move, PosTable};
use doc_table::Table;
use std::alloc::Global;
use u1_base::{DocId, Document, FormOf, Id, Index, IndexName, Memory, Replica};
use vector_rev::{Clock, Clocks};

#[derive(Drop)]
pub(crate) struct Noted {
    alloc: Global,
    accepted: Table<Document, Clocks>,
    known: Table<Replica, ()>,
    told: Table<Replica, ()>,
    created: Table<Index, ()>,
}

impl Noted {
    pub(crate) fn new(alloc: Global) -> Noted
        ensures { later_of result ≡ nothing_later }
    {
        Noted {
            alloc,
            accepted: Table::new(alloc),
            known: Table::new(alloc),
            told: Table::new(alloc),
            created: Table::new(alloc),
        }
    }

    pub(crate) fn has_accepted(&self, doc: &DocId, rev: &Clock) -> bool
        ensures { result ≡ (later_of self.now).accepted doc.now rev.now }
    {
        match self.accepted.get(doc) {
            Some(revs) => stands_in(rev, revs.as_slice()),
            None => false,
        }
    }

    pub(crate) fn has_moved(&self, moved: &Move) -> bool
        ensures { result ≡ (later_of self.now).moved moved.now.table moved.now.uid }
    {
        match moved.table {
            PosTable::Known => self.known.get(&moved.uid).is_some(),
            PosTable::Told => self.told.get(&moved.uid).is_some(),
        }
    }

    pub(crate) fn has_created(&self, name: &IndexName) -> bool
        ensures { result ≡ (later_of self.now).created name.now }
    {
        self.created.get(name).is_some()
    }

    pub(crate) fn accept(&mut self, doc: &DocId, rev: &Clock) -> Result<(), Memory>
        ensures { OnOk result
            (later_of self.new ≡ with_accepted doc.now rev.now (later_of self.old)) }
    {
        note_rev(self.alloc, &mut self.accepted, doc, rev)
    }

    pub(crate) fn make_move(&mut self, moved: &Move) -> Result<(), Memory>
        ensures { OnOk result (later_of self.new
            ≡ with_moved (Some moved.now) (later_of self.old)) }
    {
        match moved.table {
            PosTable::Known => note_id(&mut self.known, &moved.uid),
            PosTable::Told => note_id(&mut self.told, &moved.uid),
        }
    }

    pub(crate) fn maybe_move(&mut self, moved: &Option<Move>) -> Result<(), Memory>
        ensures { OnOk result (later_of self.new ≡ with_moved moved.now (later_of self.old)) }
    {
        match moved {
            Some(moved) => self.make_move(moved),
            None => Ok(()),
        }
    }

    pub(crate) fn create(&mut self, name: &IndexName) -> Result<(), Memory>
        ensures { OnOk result (later_of self.new ≡ with_created name.now (later_of self.old)) }
    {
        note_id(&mut self.created, name)
    }
}

// Whether the clock stands in the list.
fn stands_in(rev: &Clock, clocks: &[Clock]) -> bool
    ensures { result ≡ list_any (λ c. same c rev.now) clocks.now }
{
    clocks.iter().any(|clock| *clock == *rev)
}

// Notes the revision of the document.
fn note_rev(
    alloc: Global,
    accepted: &mut Table<Document, Clocks>,
    doc: &DocId,
    rev: &Clock,
) -> Result<(), Memory>
    ensures { OnOk result ((e : Text) (q : Clock) → has_clock (find id_cmp e accepted.new.pairs) q
        ≡ (same_id e doc.now && same rev.now q || has_clock (find id_cmp e accepted.old.pairs) q)) }
{
    let rev = rev.copy()?;
    let doc = doc.copy()?;
    let mut revs = or_none(alloc, accepted.take(&doc));
    revs.push(rev)?;
    accepted.reserve()?;
    accepted.put(doc, revs);
    Ok(())
}

// The revisions that are noted of a document.
fn or_none(alloc: Global, revs: Option<Clocks>) -> Clocks
    ensures { (q : Clock) → list_any (λ c. same c q) result ≡ has_clock revs q }
{
    match revs {
        Some(revs) => revs,
        None => Clocks::new(alloc),
    }
}

// Notes the id.
fn note_id<F: FormOf>(ids: &mut Table<F, ()>, id: &Id<F>) -> Result<(), Memory>
    ensures { OnOk result ((q : Text) → is_some (find id_cmp q ids.new.pairs)
        ≡ (same_id q id.now || is_some (find id_cmp q ids.old.pairs))) }
{
    let id = id.copy()?;
    ids.reserve()?;
    ids.put(id, ());
    Ok(())
}
