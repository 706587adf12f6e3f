//! `create`: creates a document.
ghost use Rattle.std.specs.Prelude.{◌≡◌, IfOk};
ghost use Rattle.replica_core.specs.Commands.Edits.{create_effect, created_id};
ghost use Rattle.replica_core.specs.Replica.{state_in};
ghost use Rattle.replica_state.specs.Held.{meaning};
ghost use Rattle.store_commands.specs.Carries.{Carries};
ghost use Rattle.store_commands.specs.Deeds.{over_replica};

use crate::Ended;
use crate::put::put;
use content::Content;
use link::Sink;
use replica_core::Replica;
use replica_state::State;
use std::alloc::Global;
use u1_base::{DocId, IdKind, Memory};

/// Creates a document under the given id, or under one that is made of the seed and the next
/// generation.
pub fn create<R: Replica, K: Sink>(
    alloc: Global,
    seed: u128,
    id: &Option<DocId>,
    content: &Content,
    replica: &mut R,
    out: &mut K,
) -> Ended
    requires { R.is_open replica.old }
    ensures { Carries R.known R.is_open R.crash
        (over_replica (create_effect (state_in (R.known replica.old)) seed id.now content.now))
        replica.old replica.new (K.known out.old) (K.known out.new) result }
{
    let id = id_for(alloc, seed, id, replica.state())?;
    put(alloc, seed, &id, None, content, replica, out)
}

fn id_for(alloc: Global, seed: u128, id: &Option<DocId>, state: &State) -> Result<DocId, Memory>
    ensures { IfOk result (λ made. made ≡ created_id (meaning state.now) seed id.now) }
{
    match id {
        Some(id) => id.copy(),
        None => DocId::made(alloc, seed, IdKind::Doc, state.log().generation() + 1),
    }
}
