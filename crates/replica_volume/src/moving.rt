//! Letting an image stand in format 2, with its state: one of format 1 is moved to the other side.
ghost use Rattle.std.specs.Prelude.{◌≡◌, ◌≢◌, List, [], ◌∷◌, Ok, Err, IfOk, IsErrOf, IsOk, IsTrue};
ghost use Rattle.std.specs.Prelude.{OnOk};
ghost use Rattle.u1_base.specs.Causes.{HasCauseOf};
ghost use Rattle.compaction.specs.Images.{IsOneMore};
ghost use Rattle.conflicts.specs.State.{History, Text};
ghost use Rattle.disks.specs.Disks.{disks_known};
ghost use Rattle.record_codec.specs.Bodies.{first_step_in};
ghost use Rattle.replica_state.specs.Held.{meaning};
ghost use Rattle.replica_state.specs.Replayed.{replayed};
ghost use Rattle.replica_state.specs.Steps.{step_of};
ghost use Rattle.journal.specs.Journal.{IsExtent};
ghost use Rattle.journal.specs.declared.layout.TheConstants.{FIRST_FORMAT};
ghost use Rattle.volume.specs.Store.{IsStore};
ghost use Rattle.replica_volume.specs.inner.Opening.{LeavesSameOrMoved};
ghost use Rattle.replica_volume.specs.inner.Placing.{IsSpelled, SaysSteps, StandsWith};

use crate::placing::{PlaceFault, Standing, put_spelled};
use crate::replaying::Made;
use compaction::Spelled;
use disk_model::Disk;
use disks::{DiskName, Disks};
use journal::{FIRST_FORMAT, Stored};
use json::Scratch;
use record_codec::{RecordFault, Uids, decode_first};
use replica_state::{Replay, State, Step};
use std::alloc::Global;
use u1_base::Memory;
use volume::other_side;

/// An image of format 2 that stands, and the state of its steps.
#[derive(Drop)]
pub(crate) struct Finished {
    pub(crate) standing: Standing,
    pub(crate) state: State,
}

/// Lets an image stand in format 2, and builds the indexes of the steps that were made of it. An
/// image of format 1 is moved to the other side, and one of format 2 stays where it is.
///
/// The limit is not tested, so an image that was moved may be longer than it. At `Memory` no disk
/// was called.
pub(crate) fn bring_forward<D: Disk>(
    alloc: Global,
    disks: &mut Disks<D>,
    side: DiskName,
    image: Stored,
    made: Made,
) -> Result<Finished, PlaceFault>
    requires side { side ≢ DiskName.Root }
    requires store { IsTrue D.tells → IsStore image.journal side image.format
        image.header image.bodies (disks_known D.known disks.old).files }
    requires extent { IsExtent image.format image.header image.bodies image.journal }
    requires says { (h : History) × SaysSteps image h made.uids.uids }
    ensures ok { IsTrue D.tells → IfOk result (λ f. (h : History)
        → SaysSteps image h made.uids.uids
        → StandsWith image.header h f.standing (disks_known D.known disks.new).files) }
    ensures side { IfOk result (λ f. f.standing.side ≢ DiskName.Root) }
    ensures limit { IfOk result (λ f. f.standing.journal.limit ≡ image.header.limit) }
    ensures state { IfOk result (λ f. meaning f.state ≡ replayed made.steps) }
    ensures stays { image.format ≢ FIRST_FORMAT → disks.new ≡ disks.old }
    ensures any_moment { IsTrue D.tells → LeavesSameOrMoved
        (disks_known D.known disks.old) (disks_known D.known disks.new) }
    ensures untouched { IsErrOf result PlaceFault.Memory → disks.new ≡ disks.old }
    ensures cause { HasCauseOf PlaceFault.Disk
        (disks_known D.known disks.old).faults (disks_known D.known disks.new).faults result }
{
    let Made { steps, uids } = made;
    if image.format() != FIRST_FORMAT {
        return finish(steps, stay(side, image, uids));
    }
    drop(uids);
    let finished = move_and_finish(alloc, disks, side, &image, steps);
    drop(image);
    finished
}

// Lets an image of format 2 stay where it is.
fn stay(side: DiskName, image: Stored, uids: Uids) -> Standing
    ensures { result ≡ record { side = side; journal = image.journal; uids = uids } }
{
    let journal = image.journal();
    // Indexes take memory while they are built, so the image is given back before.
    drop(image);
    Standing {
        side,
        journal,
        uids,
    }
}

// Builds the indexes of the steps.
fn finish(steps: Replay, standing: Standing) -> Result<Finished, PlaceFault>
    ensures standing { IfOk result (λ f. f.standing ≡ standing) }
    ensures state { IfOk result (λ f. meaning f.state ≡ replayed steps) }
    ensures memory { result ≢ Err PlaceFault.Disk }
{
    match steps.finish() {
        Ok(state) => Ok(Finished { standing, state }),
        Err(Memory) => {
            drop(standing);
            Err(PlaceFault::Memory)
        }
    }
}

// Builds the indexes of the steps, and moves their image, which has format 1.
fn move_and_finish<D: Disk>(
    alloc: Global,
    disks: &mut Disks<D>,
    side: DiskName,
    image: &Stored,
    steps: Replay,
) -> Result<Finished, PlaceFault>
    requires first { image.now.format ≡ FIRST_FORMAT }
    requires side { side ≢ DiskName.Root }
    requires store { IsTrue D.tells → IsStore image.now.journal side image.now.format
        image.now.header image.now.bodies (disks_known D.known disks.old).files }
    requires says { (h : History) × (us : List Text) × SaysSteps image.now h us }
    ensures ok { IsTrue D.tells → IfOk result (λ f. (h : History) (us : List Text)
        → SaysSteps image.now h us
        → StandsWith image.now.header h f.standing (disks_known D.known disks.new).files) }
    ensures side { IfOk result (λ f. f.standing.side ≢ DiskName.Root) }
    ensures limit { IfOk result (λ f. f.standing.journal.limit ≡ image.now.header.limit) }
    ensures state { IfOk result (λ f. meaning f.state ≡ replayed steps) }
    ensures any_moment { IsTrue D.tells → LeavesSameOrMoved
        (disks_known D.known disks.old) (disks_known D.known disks.new) }
    ensures untouched { IsErrOf result PlaceFault.Memory → disks.new ≡ disks.old }
    ensures cause { HasCauseOf PlaceFault.Disk
        (disks_known D.known disks.old).faults (disks_known D.known disks.new).faults result }
{
    // All memory is taken before a disk is written.
    let state = steps.finish()?;
    match move_image(alloc, disks, side, image) {
        Ok(standing) => Ok(Finished { standing, state }),
        Err(fault) => {
            drop(state);
            Err(fault)
        }
    }
}

// Moves an image of format 1.
fn move_image<D: Disk>(
    alloc: Global,
    disks: &mut Disks<D>,
    side: DiskName,
    image: &Stored,
) -> Result<Standing, PlaceFault>
    requires first { image.now.format ≡ FIRST_FORMAT }
    requires side { side ≢ DiskName.Root }
    requires store { IsTrue D.tells → IsStore image.now.journal side image.now.format
        image.now.header image.now.bodies (disks_known D.known disks.old).files }
    requires says { (h : History) × (us : List Text) × SaysSteps image.now h us }
    ensures ok { IsTrue D.tells → IfOk result (λ s. (h : History) (us : List Text)
        → SaysSteps image.now h us
        → StandsWith image.now.header h s (disks_known D.known disks.new).files) }
    ensures side { IfOk result (λ s. s.side ≢ DiskName.Root) }
    ensures limit { IfOk result (λ s. s.journal.limit ≡ image.now.header.limit) }
    ensures any_moment { IsTrue D.tells → LeavesSameOrMoved
        (disks_known D.known disks.old) (disks_known D.known disks.new) }
    ensures untouched { IsErrOf result PlaceFault.Memory → disks.new ≡ disks.old }
    ensures cause { HasCauseOf PlaceFault.Disk
        (disks_known D.known disks.old).faults (disks_known D.known disks.new).faults result }
{
    let spelled = respell(alloc, image)?;
    put_spelled(alloc, disks, image.header(), spelled, other_side(side))
}

// Spells the steps of an image of format 1, which all have a reading.
fn respell(alloc: Global, image: &Stored) -> Result<Spelled, Memory>
    requires first { image.now.format ≡ FIRST_FORMAT }
    requires says { (h : History) × (us : List Text) × SaysSteps image.now h us }
    ensures { (h : History) (us : List Text) → SaysSteps image.now h us
        → IfOk result (IsSpelled image.now.header.uid h) }
{
    let mut spelled = nothing_spelled(alloc, image)?;
    match respell_all(alloc, image, &mut spelled) {
        Ok(()) => Ok(spelled),
        Err(memory) => {
            drop(spelled);
            Err(memory)
        }
    }
}

// Spells them where none was spelled yet.
fn respell_all(alloc: Global, image: &Stored, spelled: &mut Spelled) -> Result<(), Memory>
    requires first { image.now.format ≡ FIRST_FORMAT }
    requires says { (h : History) × (us : List Text) × SaysSteps image.now h us }
    requires bodies { spelled.old.bodies ≡ [] }
    requires uids { spelled.old.uids.uids ≡ image.now.header.uid ∷ [] }
    ensures { (h : History) (us : List Text) → SaysSteps image.now h us
        → OnOk result (IsSpelled image.now.header.uid h spelled.new) }
{
    let mut scratch = Scratch::new(alloc);
    let done = respell_each(alloc, &mut scratch, image, spelled);
    drop(scratch);
    done
}

fn respell_each(
    alloc: Global,
    scratch: &mut Scratch<Global>,
    image: &Stored,
    spelled: &mut Spelled,
) -> Result<(), Memory>
    requires first { image.now.format ≡ FIRST_FORMAT }
    requires says { (h : History) × (us : List Text) × SaysSteps image.now h us }
    requires bodies { spelled.old.bodies ≡ [] }
    requires uids { spelled.old.uids.uids ≡ image.now.header.uid ∷ [] }
    ensures { (h : History) (us : List Text) → SaysSteps image.now h us
        → OnOk result (IsSpelled image.now.header.uid h spelled.new) }
{
    let mut place = image.start();
    while let Some(entry) = image.entry_at(place) {
        spell_again(alloc, scratch, spelled, entry.body)?;
        place = entry.next;
    }
    Ok(())
}

// Of no step yet, at the replica of this image.
fn nothing_spelled(alloc: Global, image: &Stored) -> Result<Spelled, Memory>
    ensures bodies { IfOk result (λ s. s.bodies ≡ []) }
    ensures uids { IfOk result (λ s. s.uids.uids ≡ image.now.header.uid ∷ []) }
{
    Spelled::new(alloc, &image.header().uid)
}

// Spells the step of a body that was read before.
fn spell_again(
    alloc: Global,
    scratch: &mut Scratch<Global>,
    spelled: &mut Spelled,
    body: &[u8],
) -> Result<(), Memory>
    requires { IsOk (first_step_in body.now) }
    ensures { OnOk result (IfOk (first_step_in body.now) (λ step. IsOneMore
        spelled.old.uids.uids step spelled.old.bodies spelled.new.bodies spelled.new.uids.uids)) }
{
    let step = read_again(alloc, scratch, body)?;
    let added = spelled.add(alloc, &step);
    drop(step);
    added
}

// The step of a body that was read before.
fn read_again(alloc: Global, scratch: &mut Scratch<Global>, body: &[u8]) -> Result<Step, Memory>
    requires { IsOk (first_step_in body.now) }
    ensures { IfOk result (λ step. first_step_in body.now ≡ Ok (step_of step)) }
{
    match decode_first(alloc, scratch, body) {
        Ok(step) => Ok(step),
        Err(RecordFault::Bad(_)) => unreachable!(),
        Err(RecordFault::Memory) => Err(Memory),
    }
}
