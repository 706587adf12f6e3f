//! Opening a store: the root is synced and read, and then the image that it names.
ghost use Rattle.std.specs.Prelude.{◌≡◌, ◌≢◌, ℕ, List, Some, IsTrue, IfOk, IsErrOf};
ghost use Rattle.u1_base.specs.Causes.{HasCauseOf};
ghost use Rattle.disk_model.specs.Front.{front_of};
ghost use Rattle.disks.specs.declared.trio.Trio.{Trio};
ghost use Rattle.disks.specs.Joint.{seen_of};
ghost use Rattle.disks.specs.Disks.{disks_known};
ghost use Rattle.volume.specs.Store.{IsStore, Names};
ghost use Rattle.volume.specs.Crashes.{OnlyLooks};
ghost use Rattle.volume.specs.Opening.{OpensStore};
ghost use Rattle.volume.specs.inner.Opening.{RootNames};

use crate::one_disk::read_image_on;
use crate::root::named_by;
use disk_model::{Disk, Front};
use disks::{DiskName, Disks, OpenFault, front_synced_on};
use journal::{OpenFault as JournalFault, Stored};
use std::alloc::Global;

/// The image that counts, read whole. It lends its bodies one after the other.
#[derive(Drop)]
pub struct OpenedImages {
    /// The disk on which it lies, left or right.
    pub side: DiskName,
    pub image: Stored,
}

/// Opens the store: reads the image that the root names.
///
/// The root and that image are synced before they are read. Nothing is written, and a crash on the
/// way leaves no more than one at the start might.
pub fn open_images<D: Disk>(alloc: Global, disks: &mut Disks<D>) -> Result<OpenedImages, OpenFault>
    ensures reads { (stored : Trio (List ℕ))
        × (IsTrue D.tells → stored ≡ seen_of (disks_known D.known disks.old).files)
        × OpensStore stored result }
    ensures ok { IsTrue D.tells → IfOk result (λ opened.
        IsStore opened.image.journal opened.side opened.image.format opened.image.header
        opened.image.bodies (disks_known D.known disks.new).files) }
    ensures side { IfOk result (λ opened. opened.side ≢ DiskName.Root) }
    ensures looks { IsTrue D.tells
        → OnlyLooks (disks_known D.known disks.old) (disks_known D.known disks.new) }
    ensures cause { HasCauseOf OpenFault.Disk
        (disks_known D.known disks.old).faults (disks_known D.known disks.new).faults result }
{
    let side = named_side(disks)?;
    match read_image_on(alloc, disks, side) {
        Ok(image) => Ok(OpenedImages { side, image }),
        Err(JournalFault::Damaged(place)) => Err(OpenFault::Damaged { disk: side, place }),
        Err(JournalFault::Disk) => Err(OpenFault::Disk),
        Err(JournalFault::Memory) => Err(OpenFault::Memory),
    }
}

// Syncs the root, and tells which image it names.
fn named_side<D: Disk>(disks: &mut Disks<D>) -> Result<DiskName, OpenFault>
    ensures reads { (root : List ℕ)
        × (IsTrue D.tells → root ≡ (disks_known D.known disks.old).files.root.seen)
        × RootNames root result }
    ensures names { IsTrue D.tells
        → IfOk result (λ side. Names side (disks_known D.known disks.new).files.root) }
    ensures side { IfOk result (λ side. side ≢ DiskName.Root) }
    ensures looks { IsTrue D.tells
        → OnlyLooks (disks_known D.known disks.old) (disks_known D.known disks.new) }
    ensures cause { HasCauseOf OpenFault.Disk
        (disks_known D.known disks.old).faults (disks_known D.known disks.new).faults result }
{
    match front_synced_on(disks, DiskName::Root)? {
        None => Err(OpenFault::Blank),
        Some(front) => side_of(front),
    }
}

// The image that a root names which begins so.
fn side_of(front: Front) -> Result<DiskName, OpenFault>
    ensures names { (root : List ℕ) → front_of root ≡ Some front → RootNames root result }
    ensures some { (root : List ℕ) × RootNames root result }
    ensures no_call { ¬ (IsErrOf result OpenFault.Disk) }
{
    if front.length > 1 {
        return Err(OpenFault::Damaged {
            disk: DiskName::Root,
            place: 1,
        });
    }
    Ok(named_by(front.first))
}
