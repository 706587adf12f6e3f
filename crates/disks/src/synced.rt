//! Calls of `disk_model` on one of three disks, and what they say of all three.
ghost use Rattle.std.specs.Prelude.{◌≡◌, ◌≤◌, IsTrue, IfOk, OnOk, length};
ghost use Rattle.u1_base.specs.Causes.{HasCause};
ghost use Rattle.disk_model.specs.Disk.{IsCrashImage, Torn, overwritten};
ghost use Rattle.disk_model.specs.Device.{IsSettled, StaysSettled};
ghost use Rattle.disk_model.specs.Front.{front_of};
ghost use Rattle.disk_model.specs.Counts.{called};
ghost use Rattle.disks.specs.Trio.{pick};
ghost use Rattle.disks.specs.Joint.{AreCrashImages, now_of};
ghost use Rattle.disks.specs.Moments.{ChangedOnly, LeavesTogether, SameElsewhere};
ghost use Rattle.disks.specs.Disks.{disks_known, turned_to};

use crate::{DiskName, Disks};
use disk_model::{Disk, DiskFailed, Front, front_synced, write_synced};

/// Writes over what stands at `at` of this disk, and syncs it.
///
/// A crash on the way leaves this disk torn in the written range, and the other two as they might
/// be left before.
pub fn write_synced_on<D: Disk>(
    disks: &mut Disks<D>,
    name: DiskName,
    at: u64,
    bytes: &[u8],
) -> Result<(), DiskFailed>
    requires { IsTrue D.tells → at ≤ length (pick name (disks_known D.known disks.old).files).seen }
    ensures written { IsTrue D.tells
        → OnOk result ((pick name (disks_known D.known disks.new).files).seen
        ≡ overwritten (pick name (disks_known D.known disks.old).files).seen at bytes.now) }
    ensures durable { IsTrue D.tells
        → OnOk result (IsSettled (pick name (disks_known D.known disks.new).files)) }
    ensures others { IsTrue D.tells
        → SameElsewhere name (disks_known D.known disks.old).files
        (disks_known D.known disks.new).files }
    ensures any_moment { IsTrue D.tells
        → IsSettled (pick name (disks_known D.known disks.old).files)
        → LeavesTogether (disks_known D.known disks.old) (disks_known D.known disks.new)
        (ChangedOnly name (Torn at (length bytes.now)
        (pick name (disks_known D.known disks.old).files).seen)
        (now_of (disks_known D.known disks.old).files)) }
    ensures turned { IsTrue D.tells → turned_to disks.new ≡ name }
    ensures calls { OnOk result
        ((disks_known D.known disks.new).made ≡ called 2 (disks_known D.known disks.old).made) }
    ensures most_calls { (disks_known D.known disks.new).made
        ≤ called 2 (disks_known D.known disks.old).made }
    ensures cause { HasCause (disks_known D.known disks.old).faults
        (disks_known D.known disks.new).faults result }
{
    disks.turn_to(name);
    write_synced(disks, at, bytes)
}

/// Syncs this disk, and tells how its file begins, where it is not empty.
///
/// A crash on the way leaves no more than it might before.
pub fn front_synced_on<D: Disk>(
    disks: &mut Disks<D>,
    name: DiskName,
) -> Result<Option<Front>, DiskFailed>
    ensures value { IsTrue D.tells
        → IfOk result (λ front. front ≡ front_of
        (pick name (disks_known D.known disks.old).files).seen) }
    ensures seen { IsTrue D.tells
        → (pick name (disks_known D.known disks.new).files).seen
        ≡ (pick name (disks_known D.known disks.old).files).seen }
    ensures durable { IsTrue D.tells
        → OnOk result (IsSettled (pick name (disks_known D.known disks.new).files)) }
    ensures stays_settled { IsTrue D.tells
        → StaysSettled (pick name (disks_known D.known disks.old).files)
        (pick name (disks_known D.known disks.new).files) }
    ensures others { IsTrue D.tells
        → SameElsewhere name (disks_known D.known disks.old).files
        (disks_known D.known disks.new).files }
    ensures any_moment { IsTrue D.tells
        → LeavesTogether (disks_known D.known disks.old) (disks_known D.known disks.new)
        (AreCrashImages (now_of (disks_known D.known disks.old).files)) }
    ensures turned { IsTrue D.tells → turned_to disks.new ≡ name }
    ensures most_calls { (disks_known D.known disks.new).made
        ≤ called 3 (disks_known D.known disks.old).made }
    ensures cause { HasCause (disks_known D.known disks.old).faults
        (disks_known D.known disks.new).faults result }
{
    disks.turn_to(name);
    front_synced(disks)
}
