//! Opening the store that stands.
ghost use Rattle.std.specs.Prelude.{◌≡◌, ℕ, List, IfOk, IsErrOf, IsTrue};
ghost use Rattle.u1_base.specs.Causes.{HasCauseOf};
ghost use Rattle.disks.specs.declared.trio.Trio.{Trio};
ghost use Rattle.disks.specs.Disks.{disks_known};
ghost use Rattle.disks.specs.Joint.{seen_of};
ghost use Rattle.volume.specs.Crashes.{OnlyLooks};
ghost use Rattle.replica_volume.specs.Opening.{IsFormer, IsLeft, LeavesAsBefore};
ghost use Rattle.replica_volume.specs.Opening.{LeavesOldOrMoved, OpensVolume};
ghost use Rattle.replica_volume.specs.inner.Replaying.{ReplaysOn};
ghost use Rattle.replica_volume.specs.Volume.{IsOpenVolume, disks_in, fault_in};

use crate::Volume;
use crate::moving::{Finished, bring_forward};
use crate::placing::Standing;
use crate::replaying::{Made, replay};
use disk_model::Disk;
use disks::{DiskName, Disks, OpenFault};
use journal::{NewEntries, Stored};
use record_codec::RecordFault;
use std::alloc::Global;
use volume::{OpenedImages, open_images};

impl<D: Disk> Volume<D> {
    /// Opens the store: it has the state of the steps that the bodies of the image say which the
    /// root names.
    ///
    /// An image of format 1 is moved to the other side, in format 2, and the root names it then.
    /// It may come out longer than its limit, which is not tested. All memory is taken before a
    /// disk is written, and a store of format 2 is not written at all. A crash on the way leaves no
    /// more than one at the start might, or the image that was moved.
    pub fn open_volume(alloc: Global, disks: Disks<D>) -> Result<Volume<D>, (Disks<D>, OpenFault)>
        ensures reads { (files : Trio (List ℕ))
            × (IsTrue D.tells → files ≡ seen_of (disks_known D.known disks).files)
            × OpensVolume files result }
        ensures open { IfOk result (IsOpenVolume D.tells D.known) }
        ensures left { IsTrue D.tells
            → IsLeft (disks_known D.known disks) (disks_known D.known (disks_in result)) }
        ensures looks { IsTrue D.tells → ¬ (IsFormer (seen_of (disks_known D.known disks).files))
            → OnlyLooks (disks_known D.known disks) (disks_known D.known (disks_in result)) }
        ensures memory { IsTrue D.tells → IsErrOf (fault_in result) OpenFault.Memory
            → OnlyLooks (disks_known D.known disks) (disks_known D.known (disks_in result)) }
        ensures moves { IsTrue D.tells → LeavesOldOrMoved
            (disks_known D.known disks) (disks_known D.known (disks_in result)) }
        ensures any_moment { IsTrue D.tells → LeavesAsBefore
            (disks_known D.known disks) (disks_known D.known (disks_in result)) }
        ensures cause { HasCauseOf OpenFault.Disk (disks_known D.known disks).faults
            (disks_known D.known (disks_in result)).faults (fault_in result) }
    {
        let mut disks = disks;
        let OpenedImages { side, image } = match open_images(alloc, &mut disks) {
            Ok(opened) => opened,
            Err(fault) => return Err((disks, fault)),
        };
        let made = match replay_on(alloc, side, &image) {
            Ok(made) => made,
            Err(fault) => return Err((disks, fault)),
        };
        let finished = match bring_forward(alloc, &mut disks, side, image, made) {
            Ok(finished) => finished,
            Err(fault) => return Err((disks, OpenFault::from(fault))),
        };
        let Finished { standing, state } = finished;
        let Standing {
            side,
            journal,
            uids,
        } = standing;
        Ok(Volume {
            alloc,
            disks,
            side,
            journal,
            uids,
            state,
            open: true,
            staged: NewEntries::new(alloc),
        })
    }
}

// Makes the steps that this image says, which lies on this side.
fn replay_on(alloc: Global, side: DiskName, image: &Stored) -> Result<Made, OpenFault>
    ensures { ReplaysOn side image.now result }
{
    match replay(alloc, image) {
        Ok(made) => Ok(made),
        Err(RecordFault::Bad(place)) => Err(OpenFault::Damaged { disk: side, place }),
        Err(RecordFault::Memory) => Err(OpenFault::Memory),
    }
}
