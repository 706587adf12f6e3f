//! `delete`: deletes a document.
ghost use Rattle.replica_core.specs.Commands.Edits.{delete_effect};
ghost use Rattle.replica_core.specs.Replica.{state_in};
ghost use Rattle.store_commands.specs.Carries.{Carries};
ghost use Rattle.store_commands.specs.Deeds.{over_replica};

use crate::Ended;
use command_lines::print_made;
use link::Sink;
use replica_core::{Replica, delete_doc};
use std::alloc::Global;
use u1_base::DocId;
use vector_rev::Clock;

/// Deletes the document. `rev` names the revision that is deleted.
pub fn delete<R: Replica, K: Sink>(
    alloc: Global,
    seed: u128,
    id: &DocId,
    rev: &Clock,
    replica: &mut R,
    out: &mut K,
) -> Ended
    requires { R.is_open replica.old }
    ensures { Carries R.known R.is_open R.crash
        (over_replica (delete_effect (state_in (R.known replica.old)) seed id.now rev.now))
        replica.old replica.new (K.known out.old) (K.known out.new) result }
{
    let made = delete_doc(alloc, replica, seed, id, rev)?;
    Ok(print_made(out, id, &made)?)
}
