//! The positions that are kept of peers.
ghost use Rattle.std.specs.Prelude.{◌≡◌, IfOk, option_map, slice_get};
ghost use Rattle.replica_state.specs.Held.{chosen, lists_of, meaning};
ghost use Rattle.conflicts.specs.State.{position_kept};

use replica_state::{PosTable, State};
use u1_base::{Memory, Position, ReplicaUid};

/// The position that is kept of a peer. Where none is, it is the place before the first entry.
pub fn position_of(state: &State, table: PosTable, uid: &ReplicaUid) -> Result<Position, Memory>
    ensures { IfOk result (λ at. at ≡ position_kept (meaning state.now) table uid.now) }
{
    match state.positions(table).get(uid) {
        Some(at) => at.copy(),
        None => Ok(Position::start()),
    }
}

/// The position at a place of the table, which counts from 0 in the order of uids. None exactly
/// past the end.
pub fn kept_at(state: &State, table: PosTable, place: u64) -> Option<(&ReplicaUid, &Position)>
    ensures { option_map (λ kept. (kept.0.now, kept.1.now)) result
        ≡ slice_get (chosen table (lists_of state.now).known (lists_of state.now).told) place }
{
    let mut walk = state.positions(table).walk();
    walk.pair(place)
}
