//! `info`: shows what the store knows of itself and of others.
ghost use Rattle.std.specs.Prelude.{◌∷◌, ◌++◌, map};
ghost use Rattle.command_lines.specs.Lines.{line_text, lines_text};
ghost use Rattle.command_lines.specs.Puts.{Puts};
ghost use Rattle.replica_core.specs.Commands.Effects.{Known, Now, OfDatabase, OfReplica, Told};
ghost use Rattle.replica_core.specs.Commands.Logs.{info_effect};
ghost use Rattle.replica_state.specs.Held.{lists_of};
ghost use Rattle.store_commands.specs.Carries.{Carries};
ghost use Rattle.store_commands.specs.Deeds.{over_replica};
ghost use Rattle.store_commands.specs.inner.Shown.{kept_line};

use crate::Ended;
use command_lines::{
    PrintFault, print_database, print_known, print_now, print_replica, print_told,
};
use conflicts::PosTable;
use doc_table::Table;
use link::Sink;
use replica_core::Replica;
use replica_state::State;
use u1_base::{Position, Replica as ReplicaKind, ReplicaUid};

/// Shows the replica, its database, the position after all entries, and the positions that are
/// kept of peers.
pub fn info<R: Replica, K: Sink>(replica: &R, out: &mut K) -> Ended
    requires { R.is_open replica.now }
    ensures { Carries R.known R.is_open R.crash
        (over_replica (info_effect (lists_of (R.known replica.now).state)))
        replica.now replica.now (K.known out.old) (K.known out.new) result }
{
    let state = replica.state();
    let at = state.log().position()?;
    Ok(print_info(state, &at, out)?)
}

fn print_info<K: Sink>(state: &State, at: &Position, out: &mut K) -> Result<(), PrintFault>
    ensures { Puts (lines_text (OfReplica state.now.uid ∷ OfDatabase state.now.name ∷ Now at.now
        ∷ map (λ kept. Known kept.0 kept.1) (lists_of state.now).known
        ++ map (λ kept. Told kept.0 kept.1) (lists_of state.now).told))
        (K.known out.old) (K.known out.new) result }
{
    print_replica(out, state.uid())?;
    print_database(out, state.name())?;
    print_now(out, at)?;
    print_places(PosTable::Known, state.positions(PosTable::Known), out)?;
    print_places(PosTable::Told, state.positions(PosTable::Told), out)
}

// The positions of peers that the table keeps, in the order of their uids.
fn print_places<K: Sink>(
    table: PosTable,
    places: &Table<ReplicaKind, Position>,
    out: &mut K,
) -> Result<(), PrintFault>
    ensures { Puts (lines_text (map (kept_line table) places.now.pairs))
        (K.known out.old) (K.known out.new) result }
{
    let mut walk = places.walk();
    for place in 0..places.length() {
        let Some((uid, at)) = walk.pair(place) else {
            break;
        };
        print_kept(table, uid, at, out)?;
    }
    Ok(())
}

fn print_kept<K: Sink>(
    table: PosTable,
    uid: &ReplicaUid,
    at: &Position,
    out: &mut K,
) -> Result<(), PrintFault>
    ensures { Puts (line_text (kept_line table (uid.now, at.now)))
        (K.known out.old) (K.known out.new) result }
{
    match table {
        PosTable::Known => print_known(out, uid, at),
        PosTable::Told => print_told(out, uid, at),
    }
}
