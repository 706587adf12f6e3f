//! The image of a volume is written anew, with what a compaction leaves of its steps.
ghost use Rattle.std.specs.Prelude.{◌≡◌, ◌≢◌, ◌+◌, ◌<◌, ◌≤◌, ◌^◌, ℕ, [], ◌∷◌, ◌++◌, Err, IfOk};
ghost use Rattle.std.specs.Prelude.{IsTrue, OnErr, OnOk, length, map, option_map};
ghost use Rattle.std.specs.Option.{option_to_list};
ghost use Rattle.u1_base.specs.Causes.{HasCauseOf};
ghost use Rattle.compaction.specs.Compaction.{compacted, left, nothing_later};
ghost use Rattle.disks.specs.declared.name.DiskName.{DiskName as Name};
ghost use Rattle.disks.specs.declared.name.DiskName.TheVariants as names;
ghost use Rattle.journal.specs.Image.{IsLimit};
ghost use Rattle.record_fields.specs.Table.{AreNumbered};
ghost use Rattle.replica_core.specs.Replica.{NeedsBehind, stored_in};
ghost use Rattle.replica_state.specs.Held.{meaning};
ghost use Rattle.replica_state.specs.Steps.{step_of};
ghost use Rattle.volume.specs.Crashes.{OnlyLooks};
ghost use Rattle.replica_volume.specs.Compacting.{Compacts};
ghost use Rattle.replica_volume.specs.inner.Compacting.{AreKeptSoFar, KeepsAll, KeepsOne};
ghost use Rattle.replica_volume.specs.Compacting.{LeavesOldOrCompacted};
ghost use Rattle.replica_volume.specs.inner.Compacting.{KeepsSteps};
ghost use Rattle.replica_volume.specs.Compacting.{LeavesStored, StaysOpen, sizes_of};
ghost use Rattle.replica_volume.specs.inner.Compacting.{WritesAnew};
ghost use Rattle.replica_volume.specs.inner.Placing.{IsSpelled};
ghost use Rattle.replica_volume.specs.Volume.{IsOpenVolume, devices, volume_known};

use crate::Volume;
use crate::placing::{Standing, put_spelled};
use crate::replaying::step_at;
use compaction::{Spelled, Steps, compact, spell, trim};
use disk_model::Disk;
use disks::{CompactFault, DiskName, Sizes};
use journal::{Entry, Header, Stored};
use json::Scratch;
use record_codec::{Decoded, RecordFault, Uids};
use replica_state::{State, Step};
use std::alloc::Global;
use u1_base::Memory;
use volume::{OpenedImages, open_images, other_side};

// The steps of an image as far as they may be left, and the uids that have numbers in it.
#[derive(Drop)]
struct KeptSteps {
    steps: Steps,
    uids: Uids,
}

impl<D: Disk> Volume<D> {
    /// Writes the image anew on the other side, with what a compaction leaves of its steps, and
    /// lets the root name it then. The state stays, and so does the log.
    ///
    /// The image is read from the disks again, and all memory is taken before they are written. A
    /// crash on the way leaves the old image or the new one, and both the same state and limit. After
    /// `Damaged` and `Memory` nothing was written and the volume is open; after `Disk` it is not.
    pub fn compact(&mut self) -> Result<Sizes, CompactFault>
        requires open { IsOpenVolume D.tells D.known self.old }
        ensures state { self.new.state ≡ self.old.state }
        ensures open { StaysOpen D.tells D.known self.new result }
        ensures limit { self.new.journal.limit ≡ self.old.journal.limit }
        ensures sizes { IfOk result (λ sizes. sizes ≡ sizes_of self.old self.new) }
        ensures compacts { IsTrue D.tells
            → IfOk result (Compacts D.tells D.known self.old self.new) }
        ensures no_longer { IsTrue D.tells
            → IfOk result (λ sizes. sizes.after ≤ sizes.before) }
        ensures sound { IsTrue D.tells → (disk : Name) (place : ℕ)
            → result ≢ Err (CompactFault.Damaged disk place) }
        ensures looks { IsTrue D.tells → OnErr result (result ≢ Err CompactFault.Disk
            → OnlyLooks (devices D.known self.old) (devices D.known self.new)) }
        ensures any_image { IsTrue D.tells
            → LeavesOldOrCompacted (devices D.known self.old) (devices D.known self.new) }
        ensures any_moment { IsTrue D.tells
            → LeavesStored (stored_in (volume_known D.tells D.known self.old))
            (devices D.known self.old) (devices D.known self.new) }
        ensures need { OnErr result (NeedsBehind (volume_known D.tells D.known self.old)
            (volume_known D.tells D.known self.new) []) }
        ensures cause { HasCauseOf CompactFault.Disk (devices D.known self.old).faults
            (devices D.known self.new).faults result }
    {
        match self.write_anew() {
            Ok(sizes) => Ok(sizes),
            Err(CompactFault::Damaged { disk, place }) => {
                Err(CompactFault::Damaged { disk, place })
            }
            Err(CompactFault::Disk) => {
                self.open = false;
                Err(CompactFault::Disk)
            }
            Err(CompactFault::Memory) => Err(CompactFault::Memory),
        }
    }

    // The same, where the volume counts as open also after a disk failed.
    fn write_anew(&mut self) -> Result<Sizes, CompactFault>
        requires open { IsOpenVolume D.tells D.known self.old }
        ensures state { self.new.state ≡ self.old.state }
        ensures ready { self.new.open ≡ self.old.open }
        ensures staged { self.new.staged ≡ self.old.staged }
        ensures need { OnErr result (NeedsBehind (volume_known D.tells D.known self.old)
            (volume_known D.tells D.known self.new) []) }
        ensures image { self.new.side ≢ names.Root }
        ensures writes { IsTrue D.tells → WritesAnew D.tells D.known self.old self.new result }
        ensures limit { self.new.journal.limit ≡ self.old.journal.limit }
        ensures sizes { IfOk result (λ sizes. sizes ≡ sizes_of self.old self.new) }
        ensures cause { HasCauseOf CompactFault.Disk (devices D.known self.old).faults
            (devices D.known self.new).faults result }
    {
        let before = self.journal.length();
        let opened = open_images(self.alloc, &mut self.disks)?;
        let OpenedImages { side, image } = opened;
        let steps = match kept_steps(self.alloc, &self.state, &image) {
            Ok(steps) => steps,
            Err(RecordFault::Bad(place)) => {
                drop(image);
                return Err(CompactFault::Damaged { disk: side, place });
            }
            Err(RecordFault::Memory) => {
                drop(image);
                return Err(CompactFault::Memory);
            }
        };
        let header = with_limit(image.into_header(), self.journal.limit());
        let spelled = match compacted_bodies(self.alloc, &self.state, &header, steps) {
            Ok(spelled) => spelled,
            Err(Memory) => {
                drop(header);
                return Err(CompactFault::Memory);
            }
        };
        let standing = match put_spelled(
            self.alloc,
            &mut self.disks,
            &header,
            spelled,
            other_side(side),
        ) {
            Ok(standing) => standing,
            Err(fault) => {
                drop(header);
                return Err(CompactFault::from(fault));
            }
        };
        drop(header);
        let Standing {
            side,
            journal,
            uids,
        } = standing;
        self.side = side;
        self.journal = journal;
        self.uids = uids;
        let after = self.journal.length();
        Ok(Sizes { before, after })
    }
}

// The header of the image with the limit that the volume has, also where the file tells another one
// by now.
fn with_limit(header: Header, limit: u64) -> Header
    requires { IsLimit limit }
    ensures { result ≡ record header { limit = limit } }
{
    let Header { name, uid, .. } = header;
    Header { name, uid, limit }
}

// The bodies of what a compaction leaves of these steps, behind this header, where the state is the
// one after them.
fn compacted_bodies(
    alloc: Global,
    state: &State,
    header: &Header,
    steps: Steps,
) -> Result<Spelled, Memory>
    ensures { IfOk result
        (IsSpelled header.now.uid (compacted (meaning state.now) (map step_of steps))) }
{
    let left = compact(alloc, state, steps)?;
    spell(alloc, &header.uid, left.as_slice())
}

// The steps that the bodies of the image say, as far as the state after them tells that they may be
// left.
fn kept_steps(alloc: Global, state: &State, image: &Stored) -> Result<Steps, RecordFault>
    ensures { KeepsSteps (meaning state.now) image.now result }
{
    let mut kept = nothing_kept(alloc, image)?;
    match keep_all(alloc, state, image, &mut kept) {
        Ok(()) => {
            let KeptSteps { steps, uids } = kept;
            drop(uids);
            Ok(steps)
        }
        Err(fault) => {
            drop(kept);
            Err(fault)
        }
    }
}

// The same behind what holds no step yet.
fn keep_all(
    alloc: Global,
    state: &State,
    image: &Stored,
    kept: &mut KeptSteps,
) -> Result<(), RecordFault>
    requires { AreKeptSoFar (meaning state.now) image.now [] kept.old }
    ensures { KeepsAll (meaning state.now) image.now kept.new result }
{
    let mut scratch = Scratch::new(alloc);
    let done = keep_each(alloc, &mut scratch, state, image, kept);
    drop(scratch);
    done
}

fn keep_each(
    alloc: Global,
    scratch: &mut Scratch<Global>,
    state: &State,
    image: &Stored,
    kept: &mut KeptSteps,
) -> Result<(), RecordFault>
    requires { AreKeptSoFar (meaning state.now) image.now [] kept.old }
    ensures { KeepsAll (meaning state.now) image.now kept.new result }
{
    let mut place = image.start();
    while let Some(entry) = image.entry_at(place) {
        keep_one(alloc, scratch, state, image.format(), &entry, kept)?;
        place = entry.next;
    }
    Ok(())
}

// Keeps what may be left of the step that the entry's body says in this format.
fn keep_one(
    alloc: Global,
    scratch: &mut Scratch<Global>,
    state: &State,
    format: u8,
    entry: &Entry<'_>,
    kept: &mut KeptSteps,
) -> Result<(), RecordFault>
    requires { entry.now.place + length entry.now.body.now < 2 ^ 64 }
    ensures { KeepsOne (meaning state.now) format entry.now.place entry.now.body.now
        kept.old kept.new result }
{
    let decoded = step_at(alloc, scratch, format, entry, &kept.uids)?;
    keep(kept, state, decoded)?;
    Ok(())
}

// Of no step yet, at the replica of this image.
fn nothing_kept(alloc: Global, image: &Stored) -> Result<KeptSteps, Memory>
    ensures steps { IfOk result (λ k. k.steps ≡ []) }
    ensures uids { IfOk result (λ k. k.uids.uids ≡ image.now.header.uid ∷ []) }
{
    let steps = Steps::new(alloc);
    let uids = Uids::new(alloc, &image.header().uid)?;
    Ok(KeptSteps { steps, uids })
}

// Keeps what may be left of the step, and gives numbers to the uids that its body adds.
fn keep(kept: &mut KeptSteps, state: &State, decoded: Decoded) -> Result<(), Memory>
    requires { AreNumbered (kept.old.uids.uids ++ decoded.added) }
    ensures steps { OnOk result (map step_of kept.new.steps ≡ map step_of kept.old.steps
        ++ left (meaning state.now) nothing_later (step_of decoded.step)) }
    ensures uids { OnOk result (kept.new.uids.uids ≡ kept.old.uids.uids ++ decoded.added) }
{
    match kept.uids.reserve(decoded.added.len() as u64) {
        Ok(()) => keep_in_room(kept, state, decoded),
        Err(memory) => {
            drop(decoded);
            Err(memory)
        }
    }
}

// The same where the uids have room for those that come.
fn keep_in_room(kept: &mut KeptSteps, state: &State, decoded: Decoded) -> Result<(), Memory>
    requires numbered { AreNumbered (kept.old.uids.uids ++ decoded.added) }
    requires room { length decoded.added ≤ kept.old.uids.room }
    ensures steps { OnOk result (map step_of kept.new.steps ≡ map step_of kept.old.steps
        ++ left (meaning state.now) nothing_later (step_of decoded.step)) }
    ensures uids { OnOk result (kept.new.uids.uids ≡ kept.old.uids.uids ++ decoded.added) }
{
    let Decoded { step, added } = decoded;
    match push_left(&mut kept.steps, trim(state, step)) {
        Ok(()) => {
            kept.uids.add(added);
            Ok(())
        }
        Err(memory) => {
            drop(added);
            Err(memory)
        }
    }
}

fn push_left(steps: &mut Steps, step: Option<Step>) -> Result<(), Memory>
    ensures { OnOk result (map step_of steps.new
        ≡ map step_of steps.old ++ option_to_list (option_map step_of step)) }
{
    if let Some(step) = step {
        steps.push(step)?;
    }
    Ok(())
}
