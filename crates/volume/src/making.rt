//! Making a store: the empty image on both sides, and then the root, which names the left one.
ghost use Rattle.std.specs.Prelude.{◌≡◌, ◌≢◌, ◌≤◌, ℕ, List, [], IsTrue, IfOk, IsErrOf, OnOk};
ghost use Rattle.u1_base.specs.Causes.{HasCause, HasCauseOf};
ghost use Rattle.disk_model.specs.Counts.{called};
ghost use Rattle.disks.specs.Disks.{disks_known};
ghost use Rattle.disks.specs.Joint.{seen_of};
ghost use Rattle.journal.specs.Journal.{IsExtent};
ghost use Rattle.journal.specs.declared.layout.TheConstants.{SECOND_FORMAT};
ghost use Rattle.volume.specs.Store.{IsStore, found_of};
ghost use Rattle.volume.specs.Crashes.{IsBlankOrEmpty, LeavesOldOrEmpty, OnlyLooks};
ghost use Rattle.volume.specs.Making.{Inits};
ghost use Rattle.volume.specs.inner.Steps.{IsBlank, IsMade, LeavesBlankOrEmpty};

use crate::one_disk::{name_image, write_on};
use disk_model::{Disk, DiskFailed};
use disks::{DiskName, Disks, MakeFault, front_synced_on};
use journal::{Header, Journal, NewImage};
use std::alloc::Global;

/// Makes the empty store of this header, over an empty root.
///
/// The image is spelled first, so that all memory is taken before a disk is called. Then the root
/// is synced and looked at, the image is put on the left disk and on the right one, and the byte 0
/// in the root, each with its sync. Nothing is written where the root is not empty, and at `Memory`
/// no disk was called. After `Disk` there is the empty store, or what might have been there before.
pub fn init_images<D: Disk>(
    alloc: Global,
    disks: &mut Disks<D>,
    header: &Header,
) -> Result<Journal, MakeFault>
    ensures reads { (root : List ℕ)
        × (IsTrue D.tells → root ≡ (disks_known D.known disks.old).files.root.seen)
        × Inits root result }
    ensures ok { IsTrue D.tells → IfOk result (λ journal.
        IsStore journal DiskName.Left SECOND_FORMAT header.now []
        (disks_known D.known disks.new).files) }
    ensures extent { IfOk result (λ journal. IsExtent SECOND_FORMAT header.now [] journal) }
    ensures looks { IsTrue D.tells → (disks_known D.known disks.old).files.root.seen ≢ []
        → OnlyLooks (disks_known D.known disks.old) (disks_known D.known disks.new) }
    ensures left { IsTrue D.tells → (disks_known D.known disks.old).files.root.seen ≡ []
        → IsBlankOrEmpty header.now (found_of (seen_of (disks_known D.known disks.new).files)) }
    ensures any_moment { IsTrue D.tells → LeavesOldOrEmpty header.now
        (disks_known D.known disks.old) (disks_known D.known disks.new) }
    ensures untouched { IsErrOf result MakeFault.Memory → disks.new ≡ disks.old }
    ensures most_calls { (disks_known D.known disks.new).made
        ≤ called 11 (disks_known D.known disks.old).made }
    ensures cause { HasCauseOf MakeFault.Disk
        (disks_known D.known disks.old).faults (disks_known D.known disks.new).faults result }
{
    let image = NewImage::of(alloc, header, &[])?;
    match front_synced_on(disks, DiskName::Root)? {
        Some(_) => Err(MakeFault::Exists),
        None => {
            make_store(disks, &image)?;
            Ok(image.journal())
        }
    }
}

// Writes the image on both sides, where the root is empty, and then lets the root name the left
// one.
fn make_store<D: Disk>(disks: &mut Disks<D>, image: &NewImage) -> Result<(), DiskFailed>
    requires { IsTrue D.tells → IsBlank (disks_known D.known disks.old).files.root }
    ensures made { IsTrue D.tells
        → OnOk result (IsMade image.now.bytes (disks_known D.known disks.new).files) }
    ensures any_moment { IsTrue D.tells → LeavesBlankOrEmpty image.now.bytes
        (disks_known D.known disks.old) (disks_known D.known disks.new) }
    ensures most_calls { (disks_known D.known disks.new).made
        ≤ called 8 (disks_known D.known disks.old).made }
    ensures cause { HasCause
        (disks_known D.known disks.old).faults (disks_known D.known disks.new).faults result }
{
    write_on(disks, DiskName::Left, image)?;
    write_on(disks, DiskName::Right, image)?;
    name_image(disks, DiskName::Left)?;
    Ok(())
}
