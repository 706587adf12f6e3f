//! `index-delete`: deletes an index.
ghost use Rattle.replica_core.specs.Commands.Indexes.{index_delete_effect};
ghost use Rattle.replica_state.specs.Held.{lists_of};
ghost use Rattle.store_commands.specs.Carries.{Carries};
ghost use Rattle.store_commands.specs.Deeds.{over_replica};

use crate::Ended;
use command_lines::print_index_deleted;
use link::Sink;
use replica_core::{Replica, delete_index};
use u1_base::IndexName;

/// Deletes the index of the name.
pub fn index_delete<R: Replica, K: Sink>(name: &IndexName, replica: &mut R, out: &mut K) -> Ended
    requires { R.is_open replica.old }
    ensures { Carries R.known R.is_open R.crash
        (over_replica (index_delete_effect (lists_of (R.known replica.old).state) name.now))
        replica.old replica.new (K.known out.old) (K.known out.new) result }
{
    delete_index(replica, name)?;
    Ok(print_index_deleted(out, name)?)
}
