//! Beginning an image anew, so that a crash leaves the old bytes, bytes that do not read, or the
//! empty image.
ghost use Rattle.std.specs.Prelude.{◌≡◌, ◌≢◌, ◌≤◌, ◌<◌, Err, IsTrue, IfOk, OnOk, [], length};
ghost use Rattle.std.specs.Prelude.{slice_index};
ghost use Rattle.u1_base.specs.Causes.{HasCause, HasCauseOf};
ghost use Rattle.disk_model.specs.Device.{IsSettled, file_of};
ghost use Rattle.disk_model.specs.Moments.{LeavesOnly};
ghost use Rattle.disk_model.specs.Counts.{called};
ghost use Rattle.journal.specs.Image.{image};
ghost use Rattle.journal.specs.Journal.{Holds, IsOnTheWay, IsExtent};
ghost use Rattle.journal.specs.inner.Restarting.{IsAnew, IsKeptOrSpoilt};
ghost use Rattle.journal.specs.declared.layout.TheConstants.{SECOND_FORMAT};

use crate::layout::FIRST_BYTE;
use crate::reading::behind;
use crate::{Header, ImageFault, Journal, NewImage};
use disk_model::{Disk, DiskFailed, cut_synced, first_byte, write_synced};
use std::alloc::Global;

/// Puts an empty image of format 2 in the place of all that the disk holds, in at most four parts,
/// each with its sync.
///
/// The first byte is spoilt unless no image begins with it, the disk is cut to it, the rest of the
/// image is written after it, and then the first byte. At `Memory` the disk was not called.
pub fn restart_image<D: Disk>(
    alloc: Global,
    disk: &mut D,
    header: &Header,
) -> Result<Journal, ImageFault>
    requires { IsTrue D.tells → IsSettled (file_of (D.known disk.old)) }
    ensures written { IsTrue D.tells
        → OnOk result ((D.known disk.new).seen ≡ image SECOND_FORMAT header.now []) }
    ensures ok { IsTrue D.tells
        → IfOk result (λ journal. Holds journal SECOND_FORMAT header.now []
        (file_of (D.known disk.new))) }
    ensures extent { IfOk result (λ journal. IsExtent SECOND_FORMAT header.now [] journal) }
    ensures beside { IsTrue D.tells → (D.known disk.new).beside ≡ (D.known disk.old).beside }
    ensures any_moment { IsTrue D.tells
        → LeavesOnly (D.known disk.old) (D.known disk.new)
        (IsOnTheWay (D.known disk.old).seen header.now) }
    ensures untouched { result ≡ Err ImageFault.Memory → disk.new ≡ disk.old }
    ensures most_calls { (D.known disk.new).made ≤ called 10 (D.known disk.old).made }
    ensures cause { HasCauseOf ImageFault.Disk (D.known disk.old).faults
        (D.known disk.new).faults result }
{
    let Ok(image) = NewImage::of(alloc, header, &[]) else {
        return Err(ImageFault::Memory);
    };
    match begin_anew(disk, image.as_slice()) {
        Ok(()) => Ok(image.journal()),
        Err(DiskFailed) => Err(ImageFault::Disk),
    }
}

fn begin_anew<D: Disk>(disk: &mut D, image: &[u8]) -> Result<(), DiskFailed>
    requires settled { IsTrue D.tells → IsSettled (file_of (D.known disk.old)) }
    requires some { 1 ≤ length image.now }
    requires first { slice_index image.now 0 ≡ FIRST_BYTE }
    ensures written { IsTrue D.tells → OnOk result ((D.known disk.new).seen ≡ image.now) }
    ensures durable { IsTrue D.tells → OnOk result (IsSettled (file_of (D.known disk.new))) }
    ensures beside { IsTrue D.tells → (D.known disk.new).beside ≡ (D.known disk.old).beside }
    ensures any_moment { IsTrue D.tells
        → LeavesOnly (D.known disk.old) (D.known disk.new)
        (IsAnew (D.known disk.old).seen image.now) }
    ensures most_calls { (D.known disk.new).made ≤ called 10 (D.known disk.old).made }
    ensures cause { HasCause (D.known disk.old).faults (D.known disk.new).faults result }
{
    let rest = behind(image, 1);
    spoil(disk)?;
    cut_synced(disk, 1)?;
    write_synced(disk, 1, rest)?;
    write_synced(disk, 0, &image[..1])
}

// Leaves a first byte with which no image begins.
fn spoil<D: Disk>(disk: &mut D) -> Result<(), DiskFailed>
    requires { IsTrue D.tells → IsSettled (file_of (D.known disk.old)) }
    ensures some { IsTrue D.tells → OnOk result (1 ≤ length (D.known disk.new).seen) }
    ensures spoilt { IsTrue D.tells
        → OnOk result (slice_index (D.known disk.new).seen 0 ≢ FIRST_BYTE) }
    ensures durable { IsTrue D.tells → OnOk result (IsSettled (file_of (D.known disk.new))) }
    ensures beside { IsTrue D.tells → (D.known disk.new).beside ≡ (D.known disk.old).beside }
    ensures any_moment { IsTrue D.tells
        → LeavesOnly (D.known disk.old) (D.known disk.new)
        (IsKeptOrSpoilt (D.known disk.old).seen) }
    ensures most_calls { (D.known disk.new).made ≤ called 4 (D.known disk.old).made }
    ensures cause { HasCause (D.known disk.old).faults (D.known disk.new).faults result }
{
    match first_byte(disk)? {
        None => write_synced(disk, 0, &[0]),
        Some(FIRST_BYTE) => write_synced(disk, 0, &[0]),
        Some(_) => Ok(()),
    }
}
