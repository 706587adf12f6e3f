//! The state of a replica.
use crate::collection::Collection;
use crate::index::Index;
use crate::naming::find_index;
use conflicts::{DocSet, PosTable};
use doc_table::Table;
use std::alloc::Global;
use std::marker::Model;
use translog::Log;
use u1_base::{DbName, Document, IndexName, Position, Replica, ReplicaUid};

/// The state of a replica, seen as its sorted lists and their room (`Held`). The table of each
/// index holds just the pairs of a key and the id of a live document with this key.
#[derive(Drop)]
pub struct State {
    pub(crate) name: DbName,
    pub(crate) uid: ReplicaUid,
    pub(crate) collection: Collection,
    pub(crate) log: Log,
    pub(crate) known: Table<Replica, Position>,
    pub(crate) told: Table<Replica, Position>,
}

impl Model for State {
    ghost use Rattle.replica_state.specs.Held.{Held, held_code};

    ghost Value = { Held };

    ghost coded = { held_code };

    ghost view = { λ s. record {
      name = s.name;
      uid = s.uid;
      collection = s.collection;
      log =
          s.log;
      known = s.known;
      told = s.told;
    } };
}

impl State {
    ghost use Rattle.std.specs.Prelude.{◌≡◌, [], map, option_copied};
    ghost use Rattle.conflicts.specs.State.{state_of};
    ghost use Rattle.replica_state.specs.Held.{chosen, lists_of, meaning, no_lists};
    ghost use Rattle.replica_state.specs.Keyed.{AreTables};
    ghost use Rattle.replica_state.specs.Lent.{IsLent};
    ghost use Rattle.replica_state.specs.Named.{heading};

    /// The state of the empty history. It takes no memory.
    pub fn new(alloc: Global, name: DbName, uid: ReplicaUid) -> State
        ensures lists { lists_of result ≡ no_lists name uid }
        ensures history { meaning result ≡ state_of name uid [] }
    {
        let collection = Collection::new(alloc);
        let log = Log::new(alloc);
        let known = Table::new(alloc);
        let told = Table::new(alloc);
        State {
            name,
            uid,
            collection,
            log,
            known,
            told,
        }
    }

    pub fn name(&self) -> &DbName
        ensures { result.now ≡ self.now.name }
    {
        &self.name
    }

    pub fn uid(&self) -> &ReplicaUid
        ensures { result.now ≡ self.now.uid }
    {
        &self.uid
    }

    /// The documents by their ids.
    pub fn docs(&self) -> &Table<Document, DocSet>
        ensures { result.now ≡ self.now.collection.docs }
    {
        self.collection.docs()
    }

    pub fn log(&self) -> &Log
        ensures { result.now ≡ self.now.log }
    {
        &self.log
    }

    /// The positions that are kept of peers, by their uids.
    pub fn positions(&self, table: PosTable) -> &Table<Replica, Position>
        ensures { result.now ≡ chosen table self.now.known self.now.told }
    {
        match table {
            PosTable::Known => &self.known,
            PosTable::Told => &self.told,
        }
    }

    /// The indexes in the order of their names. The table of each one has just the pairs of a key
    /// and the id of a live document with this key.
    pub fn indexes(&self) -> &[Index]
        ensures value { map heading result.now ≡ self.now.collection.indexes }
        ensures tied { AreTables self.now.collection.docs.pairs result.now }
    {
        self.collection.indexes()
    }

    /// The index of the name. None exactly where there is no such index.
    pub fn index_table(&self, name: &IndexName) -> Option<&Index>
        ensures { IsLent self.now name.now (option_copied result) }
    {
        find_index(self.indexes(), name)
    }
}
