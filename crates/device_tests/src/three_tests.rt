//! Three disks: where their calls go, and an example of a run: two images are written and then the
//! root, and a stop never leaves a root without both images.
ghost use Rattle.std.specs.Prelude.{◌≡◌, IfOk, IsTrue, OnOk, [], ◌∷◌};
ghost use Rattle.disk_model.specs.MemDisk.{mem_known};
ghost use Rattle.disks.specs.Disks.{disks_known};
ghost use Rattle.disks.specs.Moments.{LeavesTogether};
ghost use Rattle.disks.specs.inner.RootLast.{AreEmpty, IsRootLast, whole};

use crash_harness::{Files, Left, NO_FAILING, are, disk_of, disks_of, got};
use disk_model::{Disk, DiskFailed, MemDisk};
use disks::{DiskName, Disks, front_synced_on, write_synced_on};
use std::alloc::Global;
use u1_base::Memory;

// Three empty disks get the image twice, and the root a byte.
fn write_root_last<D: Disk>(disks: &mut Disks<D>, image: &[u8]) -> Result<(), DiskFailed>
    requires { IsTrue D.tells → AreEmpty (disks_known D.known disks.old).files }
    ensures ok { IsTrue D.tells
        → OnOk result ((disks_known D.known disks.new).files
        ≡ record { root = whole (0 ∷ []); left = whole image.now; right = whole image.now }) }
    ensures any_moment { IsTrue D.tells
        → LeavesTogether (disks_known D.known disks.old) (disks_known D.known disks.new)
        (IsRootLast image.now) }
{
    write_synced_on(disks, DiskName::Left, 0, image)?;
    write_synced_on(disks, DiskName::Right, 0, image)?;
    write_synced_on(disks, DiskName::Root, 0, &[0])
}

// Three empty disks. Of each the call of its number fails.
fn empty_disks(alloc: Global, root: u64, left: u64, right: u64) -> Result<Disks<MemDisk>, Memory>
    ensures { IfOk result (λ disks. AreEmpty (disks_known mem_known disks).files) }
{
    let root = disk_of(alloc, &[], &[root])?;
    let left = disk_of(alloc, &[], &[left])?;
    let right = disk_of(alloc, &[], &[right])?;
    Ok(Disks::new(root, left, right))
}

const IMAGE: &[u8] = b"image";

fn is_root_last(files: &Files) -> bool {
    files.0.is_empty() || are(files.1, IMAGE) && are(files.2, IMAGE)
}

fn are_root_last(left: &Left) -> bool {
    for number in 0..Left::COUNT {
        match left.files(number) {
            Some(files) if is_root_last(&files) => {}
            _ => return false,
        }
    }
    true
}

// Whether the run succeeds or not where these calls fail, and a stop then leaves an empty root or
// both images.
fn runs(alloc: Global, root: u64, left: u64, right: u64, is_done: bool) -> Result<bool, Memory> {
    let mut disks = empty_disks(alloc, root, left, right)?;
    let done = write_root_last(&mut disks, IMAGE);
    Ok(done.is_ok() == is_done && are_root_last(&Left::of(alloc, &disks)?))
}

// Each of the three is given two calls, so the call of number 2 is not made.
#[test]
fn no_root_is_left_without_both_images(rt: HostRuntime) {
    for number in 0..3u64 {
        let alloc = rt.alloc();
        assert!(rt;
            runs(alloc, number, 2, 2, number == 2) == Ok(true)
                && runs(alloc, 2, number, 2, number == 2) == Ok(true)
                && runs(alloc, 2, 2, number, number == 2) == Ok(true)
        );
    }
}

// Whether the file of this disk begins with this byte and has this length.
fn has_front(disks: &mut Disks<MemDisk>, name: DiskName, first: u8, length: u64) -> bool {
    match front_synced_on(disks, name) {
        Ok(Some(front)) => front.first == first && front.length == length,
        _ => false,
    }
}

fn are_fronts(disks: &mut Disks<MemDisk>) -> bool {
    has_front(disks, DiskName::Root, b'r', 1)
        && has_front(disks, DiskName::Left, b'l', 4)
        && disks.length() == Ok(4)
        && got(disks, 3, 4, 0)
}

const FILES: Files = Files(b"r", b"left", b"right");

fn looks(alloc: Global) -> Result<bool, Memory> {
    Ok(are_fronts(&mut disks_of(alloc, &FILES, &NO_FAILING)?))
}

#[test]
fn calls_go_to_the_disk_that_was_named_last(rt: HostRuntime) {
    assert!(rt; looks(rt.alloc()) == Ok(true));
}
