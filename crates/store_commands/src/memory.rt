//! A store in memory.
ghost use Rattle.std.specs.Prelude.{◌≡◌, false};

use crate::Store;
use disks::{CompactFault, MakeFault, OpenFault, Sizes};
use replica_core::{CommitFault, MemReplica, Replica};
use replica_state::{State, Step};
use std::alloc::Global;
use u1_base::{DbName, ReplicaUid};

/// A store in memory: there is none, or it stands with its limit. No disk fails, no entry is too
/// long, and a crash leaves what stands (contracts say nothing of one that comes while steps are
/// staged). It keeps a state and no image: what stands for an image
/// has no bytes and says no step. So a compaction leaves it as it is, and both lengths are 0.
#[derive(Drop)]
pub struct MemStore {
    opened: Option<MemOpened>,
}

/// A store in memory while it is open.
#[derive(Drop)]
pub struct MemOpened {
    replica: MemReplica,
    limit: u64,
    staged: bool,
}

impl MemStore {
    ghost use Rattle.std.specs.Prelude.{◌≡◌, Some};
    ghost use Rattle.store_commands.specs.Found.{Blank};
    ghost use Rattle.store_commands.specs.Memory.{store_known};

    /// There is no database yet.
    pub fn blank() -> MemStore
        ensures { (store_known result).found ≡ Some Blank }
    {
        MemStore { opened: None }
    }
}

impl Replica for MemOpened {
    ghost use Rattle.std.specs.Prelude.{refl};
    ghost use Rattle.store_commands.specs.Memory.{is_flushed, known_open, left_open};
    ghost use Rattle.store_commands.specs.Memory.{none_staged, settled_open, staged_leaves, stages_open};

    ghost known = { known_open };

    ghost is_open = { is_flushed };

    ghost stages = { stages_open };

    ghost crash = { left_open };

    fn state(&self) -> &State {
        self.replica.state()
    }

    fn is_open(&self) -> bool {
        true
    }

    fn commit(&mut self, step: Step) -> Result<(), CommitFault> {
        self.replica.commit(step)
    }

    fn stage(&mut self, step: Step) -> Result<(), CommitFault> {
        self.replica.stage(step)?;
        self.staged = true;
        Ok(())
    }

    fn flush(&mut self) -> Result<(), CommitFault> {
        self.staged = false;
        Ok(())
    }

    ghost opened = { λ r ready. refl };

    ghost settled = { settled_open };

    ghost none_staged = { none_staged };

    ghost staged_leaves = { staged_leaves };

    ghost opened_staged = { λ r kept staged. refl };
}

impl Store for MemStore {
    ghost use Rattle.std.specs.Prelude.{Some};
    ghost use Rattle.store_commands.specs.Memory.{may_stay, no_bytes, store_known};

    type Opened = MemOpened;

    ghost known = { store_known };

    ghost image = { λ s. Some no_bytes };

    ghost image_in = { λ r. Some no_bytes };

    fn open(self, alloc: Global) -> Result<MemOpened, (OpenFault, MemStore)> {
        match self.opened {
            Some(opened) => Ok(with_nothing_staged(opened)),
            None => Err((OpenFault::Blank, MemStore { opened: None })),
        }
    }

    fn make(
        self,
        alloc: Global,
        name: &DbName,
        uid: &ReplicaUid,
        limit: u64,
    ) -> (Result<(), MakeFault>, MemStore) {
        if self.opened.is_some() {
            return (Err(MakeFault::Exists), self);
        }
        let (Ok(name), Ok(uid)) = (name.copy(), uid.copy()) else {
            return (Err(MakeFault::Memory), self);
        };
        let replica = MemReplica::new(alloc, name, uid);
        let opened = Some(MemOpened {
            replica,
            limit,
            staged: false,
        });
        (Ok(()), MemStore { opened })
    }

    fn compact(opened: &mut MemOpened) -> Result<Sizes, CompactFault> {
        Ok(Sizes {
            before: 0,
            after: 0,
        })
    }

    fn close(opened: MemOpened) -> MemStore {
        MemStore {
            opened: Some(opened),
        }
    }

    ghost told = { may_stay };
}

// All that was staged is kept now.
fn with_nothing_staged(opened: MemOpened) -> MemOpened
    ensures { result ≡ record opened { staged = false } }
{
    let mut opened = opened;
    opened.staged = false;
    opened
}
