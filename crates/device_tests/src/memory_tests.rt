//! What a stop leaves of a disk in memory, by each choice.
use crash_harness::{are, disk_of};
use disk_model::{Choice, Disk, DiskFailed, MemDisk};
use std::alloc::Global;
use u1_base::{Bytes, Memory};

// The calls that have a condition, with the condition tested.
fn write(disk: &mut MemDisk, at: u64, bytes: &[u8]) -> Result<(), DiskFailed> {
    if at > disk.bytes().len() as u64 {
        return Err(DiskFailed);
    }
    disk.write_at(at, bytes)
}

fn cut(disk: &mut MemDisk, to: u64) -> Result<(), DiskFailed> {
    if to > disk.bytes().len() as u64 {
        return Err(DiskFailed);
    }
    disk.cut(to)
}

// The calls: 0 a write over the end, 1 a sync, 2 a write inside, 3 a cut, 4 a length, 5 a sync.
fn used(alloc: Global, failing: &[u64]) -> Result<MemDisk, Memory> {
    let mut disk = disk_of(alloc, b"abcd", failing)?;
    let _ = write(&mut disk, 2, b"WXYZ");
    let _ = disk.sync();
    let _ = write(&mut disk, 0, b"1234");
    let _ = cut(&mut disk, 2);
    let _ = disk.length();
    let _ = disk.sync();
    Ok(disk)
}

// The calls that fail, and the bytes that a stop leaves by this choice during the call of this
// number, or after the last call where it is 6.
struct Lost(&'static [u64], u64, Choice, &'static [u8]);

fn image(alloc: Global, disk: &MemDisk, row: &Lost) -> Result<Bytes, Memory> {
    if row.1 < disk.calls() {
        disk.crash_image(alloc, row.1, row.2)
    } else {
        disk.crash_image_now(alloc, row.2)
    }
}

fn is_left(alloc: Global, row: &Lost) -> Result<bool, Memory> {
    let disk = used(alloc, row.0)?;
    let left = image(alloc, &disk, row)?;
    Ok(disk.calls() == 6 && are(left.as_slice(), row.3))
}

// A write that fails puts the first half of its bytes and a cut that fails goes half of the way,
// but a stop may leave all of either.
const LOST: &[Lost] = &[
    Lost(&[], 0, Choice::Nothing, b"abcd"),
    Lost(&[], 0, Choice::Whole, b"abWXYZ"),
    Lost(&[], 0, Choice::FirstHalf, b"abWX"),
    Lost(&[], 0, Choice::Fill(7), b"ab\x07\x07\x07\x07"),
    Lost(&[], 1, Choice::Nothing, b"abcd"),
    Lost(&[], 1, Choice::Whole, b"abWXYZ"),
    Lost(&[], 2, Choice::Nothing, b"abWXYZ"),
    Lost(&[], 2, Choice::Whole, b"1234YZ"),
    Lost(&[], 2, Choice::FirstHalf, b"12WXYZ"),
    Lost(&[], 2, Choice::Fill(0), b"\0\0\0\0YZ"),
    Lost(&[], 3, Choice::Nothing, b"abWXYZ"),
    Lost(&[], 3, Choice::Whole, b"12"),
    Lost(&[], 3, Choice::FirstHalf, b"1bWX"),
    Lost(&[], 3, Choice::Fill(48), b"00"),
    Lost(&[], 4, Choice::Nothing, b"abWXYZ"),
    Lost(&[], 5, Choice::Nothing, b"abWXYZ"),
    Lost(&[], 5, Choice::Whole, b"12"),
    Lost(&[], 6, Choice::Nothing, b"12"),
    Lost(&[], 6, Choice::Fill(48), b"12"),
    Lost(&[2, 3], 2, Choice::Nothing, b"abWXYZ"),
    Lost(&[2, 3], 2, Choice::Whole, b"12WXYZ"),
    Lost(&[2, 3], 2, Choice::FirstHalf, b"12WXYZ"),
    Lost(&[2, 3], 2, Choice::Fill(0), b"\0\0\0\0YZ"),
    Lost(&[2, 3], 3, Choice::Nothing, b"abWXYZ"),
    Lost(&[2, 3], 3, Choice::Whole, b"12"),
    Lost(&[2, 3], 3, Choice::FirstHalf, b"12WX"),
    Lost(&[2, 3], 4, Choice::FirstHalf, b"12WX"),
    Lost(&[2, 3], 5, Choice::Fill(48), b"00"),
    Lost(&[2, 3], 6, Choice::Nothing, b"12WX"),
    Lost(&[5], 6, Choice::Nothing, b"abWXYZ"),
    Lost(&[5], 6, Choice::Whole, b"12"),
    Lost(&[5], 6, Choice::FirstHalf, b"1bWX"),
    Lost(&[5], 6, Choice::Fill(48), b"00"),
];

#[test]
fn loses_by_choice(rt: HostRuntime) {
    for row in LOST {
        assert!(rt; is_left(rt.alloc(), row) == Ok(true), "{}", row.1);
    }
}
