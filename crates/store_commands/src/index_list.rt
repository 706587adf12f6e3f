//! `index-list`: lists the indexes.
ghost use Rattle.std.specs.Prelude.{map};
ghost use Rattle.command_lines.specs.Lines.{lines_text};
ghost use Rattle.command_lines.specs.Puts.{Puts};
ghost use Rattle.replica_core.specs.Commands.Effects.{Index};
ghost use Rattle.replica_core.specs.Commands.Indexes.{index_list_effect};
ghost use Rattle.replica_state.specs.Held.{lists_of};
ghost use Rattle.store_commands.specs.Carries.{Carries};
ghost use Rattle.store_commands.specs.Deeds.{over_replica};

use crate::Ended;
use command_lines::{PrintFault, print_index};
use link::Sink;
use replica_core::{Replica, index_at};
use replica_state::State;
use std::alloc::Global;

/// Shows the indexes by their names.
pub fn index_list<R: Replica, K: Sink>(alloc: Global, replica: &R, out: &mut K) -> Ended
    requires { R.is_open replica.now }
    ensures { Carries R.known R.is_open R.crash
        (over_replica (index_list_effect (lists_of (R.known replica.now).state)))
        replica.now replica.now (K.known out.old) (K.known out.new) result }
{
    Ok(print_indexes(alloc, replica.state(), out)?)
}

fn print_indexes<K: Sink>(alloc: Global, state: &State, out: &mut K) -> Result<(), PrintFault>
    ensures { Puts (lines_text (map (λ index. Index index.0 index.1) (lists_of state.now).indexes))
        (K.known out.old) (K.known out.new) result }
{
    for index in state.indexes() {
        print_index(alloc, out, index.name(), index.exprs())?;
    }
    Ok(())
}
