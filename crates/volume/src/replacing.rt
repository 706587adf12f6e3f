//! Putting a new image in the place of the one that counts: it is written on the other side, and
//! then named.
ghost use Rattle.std.specs.Prelude.{◌≡◌, ◌≢◌, ◌≤◌, IsTrue, IfOk, OnOk};
ghost use Rattle.u1_base.specs.Causes.{HasCause};
ghost use Rattle.disk_model.specs.Counts.{called};
ghost use Rattle.disks.specs.Disks.{disks_known};
ghost use Rattle.journal.specs.Spelled.{extent_of};
ghost use Rattle.volume.specs.Store.{StandsOnOther, StandsSpelled};
ghost use Rattle.volume.specs.Crashes.{LeavesOldOrNew};

use crate::one_disk::{name_image, write_on};
use disk_model::{Disk, DiskFailed};
use disks::{DiskName, Disks};
use journal::{Journal, NewImage};

/// Writes the image on the side that the root does not name, and lets the root name it then.
///
/// A crash on the way leaves the old image named or the new one, and both whole. After a failure
/// the store has to be opened again.
pub fn put_in_place<D: Disk>(
    disks: &mut Disks<D>,
    image: &NewImage,
    to: DiskName,
) -> Result<Journal, DiskFailed>
    requires side { to ≢ DiskName.Root }
    requires store { IsTrue D.tells → StandsOnOther to (disks_known D.known disks.old).files }
    ensures ok { IsTrue D.tells → IfOk result (λ journal.
        StandsSpelled image.now journal to (disks_known D.known disks.new).files) }
    ensures journal { IfOk result (λ journal. journal ≡ extent_of image.now) }
    ensures any_moment { IsTrue D.tells → LeavesOldOrNew to image.now
        (disks_known D.known disks.old) (disks_known D.known disks.new) }
    ensures calls { OnOk result
        ((disks_known D.known disks.new).made ≡ called 5 (disks_known D.known disks.old).made) }
    ensures most_calls { (disks_known D.known disks.new).made
        ≤ called 5 (disks_known D.known disks.old).made }
    ensures cause { HasCause
        (disks_known D.known disks.old).faults (disks_known D.known disks.new).faults result }
{
    let journal = write_on(disks, to, image)?;
    name_image(disks, to)?;
    Ok(journal)
}
