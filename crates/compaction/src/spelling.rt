//! The bodies of steps, one after the other, as an image has them.
ghost use Rattle.std.specs.Prelude.{◌≡◌, [], ◌∷◌, IfOk, OnErr, OnOk, map};
ghost use Rattle.replica_state.specs.Steps.{step_of};
ghost use Rattle.compaction.specs.Images.{AreSpelled, IsOneMore};

use journal::Bodies;
use record_codec::{Encoded, Uids, encode};
use replica_state::Step;
use std::alloc::Global;
use u1_base::{Memory, ReplicaUid};

/// The bodies of steps in format 2, and the uids that have numbers after them.
#[derive(Drop)]
pub struct Spelled {
    pub bodies: Bodies,
    pub uids: Uids,
}

impl Spelled {
    /// No bodies, for an image whose header has this uid: it has the number 0.
    pub fn new(alloc: Global, own: &ReplicaUid) -> Result<Spelled, Memory>
        ensures bodies { IfOk result (λ s. s.bodies ≡ []) }
        ensures uids { IfOk result (λ s. s.uids.uids ≡ own.now ∷ []) }
    {
        let bodies = Bodies::new(alloc);
        let uids = Uids::new(alloc, own)?;
        Ok(Spelled { bodies, uids })
    }

    /// Adds the body of the step, and gives numbers to the uids that it names for the first time.
    /// At an error no body is added, and no uid has got a number. A body of 2^32 bytes or more
    /// counts as out of memory.
    pub fn add(&mut self, alloc: Global, step: &Step) -> Result<(), Memory>
        ensures ok { OnOk result (IsOneMore self.old.uids.uids (step_of step.now)
            self.old.bodies self.new.bodies self.new.uids.uids) }
        ensures bodies { OnErr result (self.new.bodies ≡ self.old.bodies) }
        ensures uids { OnErr result (self.new.uids.uids ≡ self.old.uids.uids) }
    {
        let Encoded { bytes, added } = encode(alloc, step, &self.uids)?;
        self.uids.reserve(added.len() as u64)?;
        self.bodies.push(bytes)?;
        self.uids.add(added);
        Ok(())
    }
}

/// Spells the steps for an image whose header has this uid.
pub fn spell(alloc: Global, own: &ReplicaUid, steps: &[Step]) -> Result<Spelled, Memory>
    ensures { IfOk result
        (λ s. AreSpelled own.now (map step_of steps.now) s.bodies s.uids.uids) }
{
    let mut spelled = Spelled::new(alloc, own)?;
    for step in steps {
        spelled.add(alloc, step)?;
    }
    Ok(spelled)
}
