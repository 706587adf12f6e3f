//! The positions that are kept of peers.
ghost use Rattle.std.specs.Prelude.{◌≡◌, ◌≤◌, IfSome, OnOk, Some};
ghost use Rattle.std.specs.FinMap.Entries.{put};
ghost use Rattle.u1_base.specs.Ids.{id_cmp};
ghost use Rattle.conflicts.specs.declared.moves.PosTable.TheVariants as which;
ghost use Rattle.replica_state.specs.Held.{chosen, lists_of};
ghost use Rattle.replica_state.specs.Prepared.{places_with};

use crate::state::State;
use conflicts::{Move, PosTable};
use doc_table::Table;
use u1_base::{Memory, Position, Replica, ReplicaUid};

impl State {
    /// Makes room for an entry of the log and for the place of a move. What the state stands for
    /// does not change, at an error either.
    pub(crate) fn reserve_entry(&mut self, moved: &Option<Move>) -> Result<(), Memory>
        ensures lists { lists_of self.new ≡ lists_of self.old }
        ensures entry { OnOk result (1 ≤ self.new.log.room) }
        ensures place { OnOk result
            (IfSome moved.now (λ m. 1 ≤ (chosen m.table self.new.known self.new.told).room)) }
    {
        self.log.reserve()?;
        reserve_place(&mut self.known, &mut self.told, moved)
    }
}

/// Makes room for the place of a move.
pub(crate) fn reserve_place(
    known: &mut Table<Replica, Position>,
    told: &mut Table<Replica, Position>,
    moved: &Option<Move>,
) -> Result<(), Memory>
    ensures known { known.new.pairs ≡ known.old.pairs }
    ensures told { told.new.pairs ≡ told.old.pairs }
    ensures room { OnOk result
        (IfSome moved.now (λ m. 1 ≤ (chosen m.table known.new told.new).room)) }
{
    match moved {
        Some(moved) => reserve_in(known, told, moved.table),
        None => Ok(()),
    }
}

fn reserve_in(
    known: &mut Table<Replica, Position>,
    told: &mut Table<Replica, Position>,
    table: PosTable,
) -> Result<(), Memory>
    ensures known { known.new.pairs ≡ known.old.pairs }
    ensures told { told.new.pairs ≡ told.old.pairs }
    ensures room { OnOk result (1 ≤ (chosen table known.new told.new).room) }
{
    match table {
        PosTable::Known => known.reserve(),
        PosTable::Told => told.reserve(),
    }
}

/// Puts the place of a move in its table.
pub(crate) fn put_place(
    known: &mut Table<Replica, Position>,
    told: &mut Table<Replica, Position>,
    moved: Option<Move>,
)
    requires { IfSome moved (λ m. 1 ≤ (chosen m.table known.old told.old).room) }
    ensures known { known.new.pairs ≡ places_with which.Known moved known.old.pairs }
    ensures told { told.new.pairs ≡ places_with which.Told moved told.old.pairs }
{
    if let Some(moved) = moved {
        put_in(known, told, moved);
    }
}

fn put_in(known: &mut Table<Replica, Position>, told: &mut Table<Replica, Position>, moved: Move)
    requires { 1 ≤ (chosen moved.table known.old told.old).room }
    ensures known { known.new.pairs ≡ places_with which.Known (Some moved) known.old.pairs }
    ensures told { told.new.pairs ≡ places_with which.Told (Some moved) told.old.pairs }
{
    let Move { table, uid, at } = moved;
    match table {
        PosTable::Known => put_at(known, uid, at),
        PosTable::Told => put_at(told, uid, at),
    }
}

fn put_at(places: &mut Table<Replica, Position>, uid: ReplicaUid, at: Position)
    requires { 1 ≤ places.old.room }
    ensures { places.new.pairs ≡ put id_cmp uid at places.old.pairs }
{
    places.put(uid, at);
}
