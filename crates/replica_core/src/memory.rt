//! A replica in memory.
use crate::{CommitFault, Replica};
use replica_state::{State, Step};
use std::alloc::Global;
use u1_base::{DbName, ReplicaUid};

/// A replica that keeps its state in memory. It is always open, and a commit fails only when memory
/// runs out.
#[derive(Drop)]
pub struct MemReplica {
    state: State,
}

impl MemReplica {
    ghost use Rattle.std.specs.Prelude.{◌≡◌, []};
    ghost use Rattle.conflicts.specs.State.{state_of};
    ghost use Rattle.replica_core.specs.Replica.{state_in};
    ghost use Rattle.replica_core.specs.Memory.{known_in_memory};

    /// The replica of the empty history. It takes no memory.
    pub fn new(alloc: Global, name: DbName, uid: ReplicaUid) -> MemReplica
        ensures { state_in (known_in_memory result) ≡ state_of name uid [] }
    {
        MemReplica {
            state: State::new(alloc, name, uid),
        }
    }
}

impl Replica for MemReplica {
    ghost use Rattle.std.specs.Prelude.{refl};
    ghost use Rattle.replica_core.specs.Memory.{always, known_in_memory, never};

    ghost known = { known_in_memory };

    ghost is_open = { λ r. always };

    ghost stages = { λ r kept. always };

    ghost crash = { λ r k found. never };

    fn state(&self) -> &State {
        &self.state
    }

    fn is_open(&self) -> bool {
        true
    }

    fn commit(&mut self, step: Step) -> Result<(), CommitFault> {
        let prepared = self.state.prepare(step)?;
        self.state.apply(prepared);
        Ok(())
    }

    fn stage(&mut self, step: Step) -> Result<(), CommitFault> {
        let prepared = self.state.prepare(step)?;
        self.state.apply(prepared);
        Ok(())
    }

    fn flush(&mut self) -> Result<(), CommitFault> {
        Ok(())
    }

    ghost opened = { λ r ready. refl };

    ghost settled = { λ r found ready impossible. absurd impossible };

    ghost none_staged = { λ r ready. tt };

    ghost staged_leaves = { λ r kept found staged impossible. absurd impossible };

    ghost opened_staged = { λ r kept staged. refl };
}
