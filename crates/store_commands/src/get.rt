//! `get`: shows a document.
ghost use Rattle.replica_core.specs.Commands.Documents.{get_effect};
ghost use Rattle.replica_core.specs.Replica.{state_in};
ghost use Rattle.store_commands.specs.Carries.{Carries};
ghost use Rattle.store_commands.specs.Deeds.{over_replica};

use crate::Ended;
use crate::listing::print_found;
use link::Sink;
use replica_core::Replica;
use u1_base::DocId;

/// Shows the document with its current member; a deleted one too, if that is asked.
pub fn get<R: Replica, K: Sink>(id: &DocId, deleted: bool, replica: &R, out: &mut K) -> Ended
    requires { R.is_open replica.now }
    ensures { Carries R.known R.is_open R.crash
        (over_replica (get_effect (state_in (R.known replica.now)) id.now deleted))
        replica.now replica.now (K.known out.old) (K.known out.new) result }
{
    Ok(print_found(replica.state(), deleted, id, out)?)
}
