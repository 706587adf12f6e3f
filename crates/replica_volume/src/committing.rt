//! A volume takes a step: its body is added to the image, or staged for that, and then the step is
//! made.
ghost use Rattle.std.specs.Prelude.{◌≡◌, ◌++◌, ◌≤◌, IfOk, length};
ghost use Rattle.record_fields.specs.Table.{AreNumbered};
ghost use Rattle.replica_state.specs.Held.{meaning};
ghost use Rattle.replica_state.specs.Prepared.{IsPartsOf, IsReady};
ghost use Rattle.replica_state.specs.Steps.{step_of};
ghost use Rattle.conflicts.specs.State.{after};
ghost use Rattle.replica_state.specs.declared.step.Step.{Step as Held};
ghost use Rattle.replica_volume.specs.inner.Committing.{CanTake, HoldsStep, IsAsBefore, IsOfStep};
ghost use Rattle.replica_volume.specs.inner.Committing.{IsSpelled};
ghost use Rattle.replica_volume.specs.inner.Committing.{WritesStep, fault_adding, opened_behind};
ghost use Rattle.replica_volume.specs.Volume.{IsOpenVolume};

use crate::Volume;
use disk_model::{Disk, DiskFailed};
use journal::AppendFault;
use record_codec::{Encoded, ReplicaUids, encode};
use replica_core::{CommitFault, Replica};
use replica_state::{Prepared, State, Step};
use u1_base::Memory;
use volume::{append_all_on, append_on};

// What a step needs, made ahead: its body, and its parts of the state.
#[derive(Drop)]
struct Ready {
    encoded: Encoded,
    prepared: Prepared,
}

impl<D: Disk> Replica for Volume<D> {
    ghost use Rattle.std.specs.Prelude.{◌≡◌, ◌≢◌, ◌<◌, ◌≤◌, [], ◌∷◌, ◌++◌, Err, IfErr, IsOk};
    ghost use Rattle.std.specs.Prelude.{IsTrue};
    ghost use Rattle.std.specs.Prelude.{OnErr, OnOk, Some};
    ghost use Rattle.std.specs.Result.{IsErrAnd};
    ghost use Rattle.conflicts.specs.State.{Fits, History, after};
    ghost use Rattle.disk_model.specs.Counts.{called};
    ghost use Rattle.disks.specs.Joint.{seen_of};
    ghost use Rattle.replica_state.specs.Held.{lists_of};
    ghost use Rattle.replica_state.specs.Steps.{step_of};
    ghost use Rattle.replica_core.specs.Replica.{AddsOnly, HasFailed, IsLeft, IsTooLong};
    ghost use Rattle.replica_core.specs.Replica.{IsUnflushed, MayStand, NeedsBehind, StandsAs};
    ghost use Rattle.replica_core.specs.Replica.{StandsAsEither, is_disk, may_be_written, state_in};
    ghost use Rattle.replica_core.specs.Replica.{stored_as, stored_in};
    ghost use Rattle.replica_volume.specs.Keeping.{HoldsMore, LeavesOldOrMore};
    ghost use Rattle.replica_volume.specs.Settled.{leaves_its_state, leaves_kept, nothing_staged};
    ghost use Rattle.replica_volume.specs.Staging.{IsStagedVolume, StagesSteps};
    ghost use Rattle.replica_volume.specs.Store.{store_of};
    ghost use Rattle.replica_volume.specs.Volume.{IsOpenVolume, devices};
    ghost use Rattle.replica_volume.specs.Volume.{volume_crash, volume_known};

    ghost known = { volume_known D.tells D.known };

    ghost is_open = { IsOpenVolume D.tells D.known };

    ghost stages = { IsStagedVolume D.tells D.known };

    ghost crash = { volume_crash D.tells D.known };

    fn state(&self) -> &State {
        &self.state
    }

    fn is_open(&self) -> bool {
        self.open
    }

    /// All memory is taken before a disk is called. The disks are given four calls: write, sync,
    /// write, sync. At `Full` and `Memory` no disk was called.
    ///
    /// The image then holds the former history with this very step behind it.
    fn commit(&mut self, step: Step) -> Result<(), CommitFault>
        requires ready { IsOpenVolume D.tells D.known self.old }
        requires fits { Fits (state_in (volume_known D.tells D.known self.old)) (step_of step) }
        ensures ok { OnOk result
            ((state_in (volume_known D.tells D.known self.new)
            ≡ after (state_in (volume_known D.tells D.known self.old)) (step_of step))
            × IsOpenVolume D.tells D.known self.new) }
        ensures need { OnOk result (NeedsBehind (volume_known D.tells D.known self.old)
            (volume_known D.tells D.known self.new) (step_of step ∷ [])) }
        ensures cause { IfErr result (HasFailed (volume_known D.tells D.known self.old)
            (volume_known D.tells D.known self.new) (Some (step_of step))) }
        ensures too_long { (volume_known D.tells D.known self.old).limit
            < (volume_known D.tells D.known self.old).need [] (step_of step)
            → IsErrAnd result (IsTooLong (volume_known D.tells D.known self.old) (step_of step)) }
        ensures state { OnErr result (lists_of (volume_known D.tells D.known self.new).state
            ≡ lists_of (volume_known D.tells D.known self.old).state) }
        ensures left { IfErr result (λ fault. IsLeft (volume_known D.tells D.known self.old)
            (volume_known D.tells D.known self.new) (IsOpenVolume D.tells D.known self.new)
            (is_disk fault)) }
        ensures any_moment { AddsOnly (volume_known D.tells D.known)
            (volume_crash D.tells D.known) self.old self.new
            (MayStand (stored_in (volume_known D.tells D.known self.old)) (Some (step_of step))
            (may_be_written result)) }
        ensures limit { (volume_known D.tells D.known self.new).limit
            ≡ (volume_known D.tells D.known self.old).limit }
        ensures later { (volume_known D.tells D.known self.old).faults
            ≤ (volume_known D.tells D.known self.new).faults }
        ensures history { IsTrue D.tells → OnOk result (HoldsMore (step_of step ∷ [])
            (store_of (seen_of (devices D.known self.old).files))
            (store_of (seen_of (devices D.known self.new).files))) }
        ensures any_history { IsTrue D.tells → LeavesOldOrMore (step_of step ∷ [])
            (devices D.known self.old) (devices D.known self.new) }
        ensures calls { OnOk result
            ((devices D.known self.new).made ≡ called 4 (devices D.known self.old).made) }
        ensures most_calls { (devices D.known self.new).made
            ≤ called 4 (devices D.known self.old).made }
        ensures untouched { OnErr result (result ≢ Err CommitFault.Disk
            → devices D.known self.new ≡ devices D.known self.old) }
    {
        let ready = self.make_ready(step)?;
        self.write(ready)
    }

    /// All memory is taken before the step is made. No disk is called.
    fn stage(&mut self, step: Step) -> Result<(), CommitFault>
        requires ready { (kept : _) × IsStagedVolume D.tells D.known self.old kept }
        requires fits { Fits (state_in (volume_known D.tells D.known self.old)) (step_of step) }
        ensures ok { OnOk result (state_in (volume_known D.tells D.known self.new)
            ≡ after (state_in (volume_known D.tells D.known self.old)) (step_of step)) }
        ensures need { OnOk result (NeedsBehind (volume_known D.tells D.known self.old)
            (volume_known D.tells D.known self.new) (step_of step ∷ [])) }
        ensures stays { (kept : _) → IsStagedVolume D.tells D.known self.old kept
            → IsStagedVolume D.tells D.known self.new kept }
        ensures cause { IfErr result (HasFailed (volume_known D.tells D.known self.old)
            (volume_known D.tells D.known self.new) (Some (step_of step))) }
        ensures no_disk { result ≢ Err CommitFault.Disk }
        ensures too_long { (volume_known D.tells D.known self.old).limit
            < (volume_known D.tells D.known self.old).need [] (step_of step)
            → IsErrAnd result (IsTooLong (volume_known D.tells D.known self.old) (step_of step)) }
        ensures state { OnErr result (lists_of (volume_known D.tells D.known self.new).state
            ≡ lists_of (volume_known D.tells D.known self.old).state) }
        ensures left { OnErr result (NeedsBehind (volume_known D.tells D.known self.old)
            (volume_known D.tells D.known self.new) []) }
        ensures any_moment { (kept : _) → IsStagedVolume D.tells D.known self.old kept
            → AddsOnly (volume_known D.tells D.known) (volume_crash D.tells D.known) self.old
            self.new (StandsAs (stored_as (volume_known D.tells D.known self.old) kept)) }
        ensures limit { (volume_known D.tells D.known self.new).limit
            ≡ (volume_known D.tells D.known self.old).limit }
        ensures faults { (volume_known D.tells D.known self.new).faults
            ≡ (volume_known D.tells D.known self.old).faults }
        ensures untouched { devices D.known self.new ≡ devices D.known self.old }
        ensures taken { IsTrue D.tells → OnOk result ((later : History)
            → StagesSteps self.old (devices D.known self.old).files later
            → StagesSteps self.new (devices D.known self.new).files (later ++ step_of step ∷ [])) }
        ensures refused { IsTrue D.tells → OnErr result ((later : History)
            → StagesSteps self.old (devices D.known self.old).files later
            → StagesSteps self.new (devices D.known self.new).files later) }
    {
        let ready = self.make_ready(step)?;
        self.hold(ready)
    }

    /// The disks are given four calls: write, sync, write, sync; and none where nothing is staged.
    ///
    /// The image then holds the former history with all staged steps behind it.
    fn flush(&mut self) -> Result<(), CommitFault>
        requires ready { (kept : _) × IsStagedVolume D.tells D.known self.old kept }
        ensures ok { OnOk result (IsOpenVolume D.tells D.known self.new) }
        ensures idle { IsOpenVolume D.tells D.known self.old
            → (self.new ≡ self.old) × IsOk result }
        ensures state { lists_of (volume_known D.tells D.known self.new).state
            ≡ lists_of (volume_known D.tells D.known self.old).state }
        ensures need { NeedsBehind (volume_known D.tells D.known self.old)
            (volume_known D.tells D.known self.new) [] }
        ensures cause { IfErr result (IsUnflushed (volume_known D.tells D.known self.old)
            (volume_known D.tells D.known self.new)) }
        ensures any_moment { (kept : _) → IsStagedVolume D.tells D.known self.old kept
            → AddsOnly (volume_known D.tells D.known) (volume_crash D.tells D.known) self.old
            self.new (StandsAsEither (stored_as (volume_known D.tells D.known self.old) kept)
            (stored_in (volume_known D.tells D.known self.old))) }
        ensures limit { (volume_known D.tells D.known self.new).limit
            ≡ (volume_known D.tells D.known self.old).limit }
        ensures later { (volume_known D.tells D.known self.old).faults
            ≤ (volume_known D.tells D.known self.new).faults }
        ensures history { IsTrue D.tells → OnOk result ((later : History)
            → StagesSteps self.old (devices D.known self.old).files later
            → HoldsMore later (store_of (seen_of (devices D.known self.old).files))
            (store_of (seen_of (devices D.known self.new).files))) }
        ensures any_history { IsTrue D.tells → (later : History)
            → StagesSteps self.old (devices D.known self.old).files later
            → LeavesOldOrMore later (devices D.known self.old) (devices D.known self.new) }
        ensures most_calls { (devices D.known self.new).made
            ≤ called 4 (devices D.known self.old).made }
    {
        if self.staged.is_empty() {
            return Ok(());
        }
        match append_all_on(&mut self.disks, &mut self.journal, self.side, &self.staged) {
            Ok(()) => {
                self.staged.clear();
                Ok(())
            }
            Err(DiskFailed) => {
                self.open = false;
                Err(CommitFault::Disk)
            }
        }
    }

    ghost opened = { λ v is. is.ready };

    ghost settled = { leaves_its_state D.tells D.known };

    ghost none_staged = { nothing_staged D.tells D.known };

    ghost staged_leaves = { leaves_kept D.tells D.known };

    ghost opened_staged = { λ v kept is. is.ready };
}

impl<D: Disk> Volume<D> {
    // All memory that the step takes. No disk is called.
    fn make_ready(&mut self, step: Step) -> Result<Ready, Memory>
        ensures same { IsAsBefore self.old self.new }
        ensures takes { IfOk result (CanTake self.new) }
        ensures step { IfOk result (IsOfStep self.new step) }
    {
        match self.spell(&step) {
            Ok(encoded) => self.prepare(step, encoded),
            Err(memory) => {
                drop(step);
                Err(memory)
            }
        }
    }

    // The parts of the state behind the body that is spelled.
    fn prepare(&mut self, step: Step, encoded: Encoded) -> Result<Ready, Memory>
        requires { IsSpelled self.old step encoded }
        ensures same { IsAsBefore self.old self.new }
        ensures takes { IfOk result (CanTake self.new) }
        ensures step { IfOk result (IsOfStep self.new step) }
    {
        match self.state.prepare(step) {
            Ok(prepared) => Ok(Ready { encoded, prepared }),
            Err(memory) => {
                drop(encoded);
                Err(memory)
            }
        }
    }

    // The body of the step, with room for the uids that it adds. No disk is called.
    fn spell(&mut self, step: &Step) -> Result<Encoded, Memory>
        ensures same { IsAsBefore self.old self.new }
        ensures ok { IfOk result (IsSpelled self.new step.now) }
    {
        let encoded = encode(self.alloc, step, &self.uids)?;
        self.uids.reserve(encoded.added.len() as u64)?;
        Ok(encoded)
    }

    // Adds the body of the step to the image, and makes the step then. It takes no memory.
    fn write(&mut self, ready: Ready) -> Result<(), CommitFault>
        requires open { IsOpenVolume D.tells D.known self.old }
        requires takes { CanTake self.old ready }
        ensures { WritesStep D.tells D.known self.old ready self.new result }
    {
        let Ready { encoded, prepared } = ready;
        match append_on(
            self.alloc,
            &mut self.disks,
            &mut self.journal,
            self.side,
            encoded.bytes.as_slice(),
        ) {
            Ok(()) => {
                self.make(encoded.added, prepared);
                Ok(())
            }
            Err(fault) => {
                drop(encoded);
                drop(prepared);
                Err(self.leave_off(fault))
            }
        }
    }

    // Stages the body of the step, and makes the step then. It takes memory for the body alone.
    fn hold(&mut self, ready: Ready) -> Result<(), CommitFault>
        requires { CanTake self.old ready }
        ensures { HoldsStep D.tells D.known self.old ready self.new result }
    {
        let Ready { encoded, prepared } = ready;
        match self
            .journal
            .stage(self.alloc, &mut self.staged, encoded.bytes.as_slice())
        {
            Ok(()) => {
                self.make(encoded.added, prepared);
                Ok(())
            }
            Err(fault) => {
                drop(encoded);
                drop(prepared);
                Err(self.leave_off(fault))
            }
        }
    }

    // Makes the step whose body is added or staged: gives numbers to its uids, and puts in its parts
    // of the state.
    fn make(&mut self, added: ReplicaUids, prepared: Prepared)
        requires numbered { AreNumbered (self.old.uids.uids ++ added) }
        requires room { length added ≤ self.old.uids.room }
        requires parts { IsReady self.old.state prepared }
        ensures same { self.new
            ≡ record self.old { uids = self.new.uids; state = self.new.state } }
        ensures uids { self.new.uids.uids ≡ self.old.uids.uids ++ added }
        ensures step { (x : Held) → IsPartsOf self.old.state x prepared
            → meaning self.new.state ≡ after (meaning self.old.state) (step_of x) }
    {
        self.uids.add(added);
        self.state.apply(prepared);
    }

    // Why the body was not added. The volume is closed where a disk failed.
    fn leave_off(&mut self, fault: AppendFault) -> CommitFault
        ensures fault { result ≡ fault_adding fault }
        ensures stays { self.new
            ≡ record self.old { «open» = opened_behind fault self.old.open } }
    {
        match fault {
            AppendFault::Full { need, limit } => CommitFault::Full { need, limit },
            AppendFault::Disk => {
                self.open = false;
                CommitFault::Disk
            }
            AppendFault::Memory => CommitFault::Memory,
        }
    }
}
