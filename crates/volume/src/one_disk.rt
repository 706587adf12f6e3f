//! Calls on one of the three disks, and what they say of all three.
ghost use Rattle.std.specs.Prelude.{◌≡◌, ◌≢◌, ◌≤◌, ℕ, List, IsTrue, IfOk, OnOk, length};
ghost use Rattle.u1_base.specs.Causes.{HasCause, HasCauseOf};
ghost use Rattle.disk_model.specs.Disk.{IsAny, Torn};
ghost use Rattle.disk_model.specs.Device.{IsSettled};
ghost use Rattle.disk_model.specs.Counts.{called};
ghost use Rattle.disks.specs.Trio.{pick};
ghost use Rattle.disks.specs.Joint.{now_of};
ghost use Rattle.disks.specs.Moments.{ChangedOnly, LeavesTogether, SameElsewhere};
ghost use Rattle.disks.specs.Disks.{disks_known};
ghost use Rattle.journal.specs.Journal.{Holds};
ghost use Rattle.journal.specs.Passing.{ReadsImage};
ghost use Rattle.journal.specs.Spelled.{HoldsSpelled, extent_of};
ghost use Rattle.volume.specs.Store.{Names};
ghost use Rattle.volume.specs.Crashes.{OnlyLooks};
ghost use Rattle.volume.specs.inner.Steps.{IsWhole};

use crate::root::naming;
use disk_model::{Disk, DiskFailed};
use disks::{DiskName, Disks, write_synced_on};
use journal::{Journal, NewImage, OpenFault, Stored, read_image};
use std::alloc::Global;

/// Puts a new image in the place of all that this disk holds. A crash on the way may leave anything
/// of it.
pub(crate) fn write_on<D: Disk>(
    disks: &mut Disks<D>,
    name: DiskName,
    image: &NewImage,
) -> Result<Journal, DiskFailed>
    ensures written { IsTrue D.tells
        → OnOk result (IsWhole image.now.bytes (pick name (disks_known D.known disks.new).files)) }
    ensures ok { IsTrue D.tells → IfOk result (λ journal.
        HoldsSpelled image.now journal (pick name (disks_known D.known disks.new).files)) }
    ensures journal { IfOk result (λ journal. journal ≡ extent_of image.now) }
    ensures others { IsTrue D.tells → SameElsewhere name
        (disks_known D.known disks.old).files (disks_known D.known disks.new).files }
    ensures any_moment { IsTrue D.tells
        → LeavesTogether (disks_known D.known disks.old) (disks_known D.known disks.new)
        (ChangedOnly name IsAny (now_of (disks_known D.known disks.old).files)) }
    ensures calls { OnOk result
        ((disks_known D.known disks.new).made ≡ called 3 (disks_known D.known disks.old).made) }
    ensures most_calls { (disks_known D.known disks.new).made
        ≤ called 3 (disks_known D.known disks.old).made }
    ensures cause { HasCause
        (disks_known D.known disks.old).faults (disks_known D.known disks.new).faults result }
{
    disks.turn_to(name);
    image.write(disks)
}

/// Syncs this disk, and reads its image.
pub(crate) fn read_image_on<D: Disk>(
    alloc: Global,
    disks: &mut Disks<D>,
    name: DiskName,
) -> Result<Stored, OpenFault>
    ensures reads { (stored : List ℕ)
        × (IsTrue D.tells → stored ≡ (pick name (disks_known D.known disks.old).files).seen)
        × ReadsImage stored result }
    ensures ok { IsTrue D.tells → IfOk result (λ image.
        Holds image.journal image.format image.header image.bodies
        (pick name (disks_known D.known disks.new).files)) }
    ensures others { IsTrue D.tells → SameElsewhere name
        (disks_known D.known disks.old).files (disks_known D.known disks.new).files }
    ensures looks { IsTrue D.tells
        → OnlyLooks (disks_known D.known disks.old) (disks_known D.known disks.new) }
    ensures cause { HasCauseOf OpenFault.Disk
        (disks_known D.known disks.old).faults (disks_known D.known disks.new).faults result }
{
    disks.turn_to(name);
    read_image(alloc, disks)
}

/// Lets the root name this image. A crash on the way leaves the root torn, and the images as they
/// might be left.
pub(crate) fn name_image<D: Disk>(disks: &mut Disks<D>, side: DiskName) -> Result<(), DiskFailed>
    requires side { side ≢ DiskName.Root }
    requires short { IsTrue D.tells
        → length (disks_known D.known disks.old).files.root.seen ≤ 1 }
    ensures named { IsTrue D.tells
        → OnOk result (Names side (disks_known D.known disks.new).files.root) }
    ensures others { IsTrue D.tells → SameElsewhere DiskName.Root
        (disks_known D.known disks.old).files (disks_known D.known disks.new).files }
    ensures any_moment { IsTrue D.tells → IsSettled (disks_known D.known disks.old).files.root
        → LeavesTogether (disks_known D.known disks.old) (disks_known D.known disks.new)
        (ChangedOnly DiskName.Root (Torn 0 1 (disks_known D.known disks.old).files.root.seen)
        (now_of (disks_known D.known disks.old).files)) }
    ensures calls { OnOk result
        ((disks_known D.known disks.new).made ≡ called 2 (disks_known D.known disks.old).made) }
    ensures most_calls { (disks_known D.known disks.new).made
        ≤ called 2 (disks_known D.known disks.old).made }
    ensures cause { HasCause
        (disks_known D.known disks.old).faults (disks_known D.known disks.new).faults result }
{
    write_synced_on(disks, DiskName::Root, 0, &[naming(side)])
}
