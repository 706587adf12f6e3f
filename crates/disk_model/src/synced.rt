//! Writes, cuts and reads, each with its sync. No library above makes a device call of its own.
ghost use Rattle.std.specs.Prelude.{◌≡◌, ◌+◌, ◌<◌, ◌≤◌, IsTrue, IfOk, MatchOption, OnOk, length};
ghost use Rattle.std.specs.Prelude.{slice_index, take};
ghost use Rattle.u1_base.specs.Causes.{HasCause, HasCauseOf};
ghost use Rattle.disk_model.specs.Disk.{IsAny, IsCrashImage, Cut, Torn, overwritten};
ghost use Rattle.disk_model.specs.Device.{IsSettled, StaysSettled, file_of};
ghost use Rattle.disk_model.specs.Front.{front_of};
ghost use Rattle.disk_model.specs.Moments.{LeavesOnly};
ghost use Rattle.disk_model.specs.Counts.{MakesCalls, called, pieces};

use crate::{Disk, DiskFailed};
use std::alloc::Global;
use std::error::Error;
use std::fmt;
use u1_base::{Bytes, Memory};

/// The most bytes that are read by one call.
const PIECE_BYTES: usize = 1_048_576;

/// Why a disk was not read.
#[derive(Clone, Copy, Debug, PartialEq, Eq)]
pub enum ReadFault {
    Disk,
    Memory,
}

impl fmt::Display for ReadFault {
    fn fmt<W: fmt::Write>(&self, f: &mut fmt::Formatter<W>) -> fmt::Result {
        match self {
            ReadFault::Disk => f.write_str("the disk failed"),
            ReadFault::Memory => f.write_str("out of memory"),
        }
    }
}

impl Error for ReadFault {}

/// Writes over what stands at `at`, and syncs.
pub fn write_synced<D: Disk>(disk: &mut D, at: u64, bytes: &[u8]) -> Result<(), DiskFailed>
    requires { IsTrue D.tells → at ≤ length (D.known disk.old).seen }
    ensures written { IsTrue D.tells
        → OnOk result ((D.known disk.new).seen ≡ overwritten (D.known disk.old).seen at bytes.now) }
    ensures durable { IsTrue D.tells → OnOk result (IsSettled (file_of (D.known disk.new))) }
    ensures beside { IsTrue D.tells → (D.known disk.new).beside ≡ (D.known disk.old).beside }
    ensures any_moment { IsTrue D.tells → IsSettled (file_of (D.known disk.old))
        → LeavesOnly (D.known disk.old) (D.known disk.new)
        (Torn at (length bytes.now) (D.known disk.old).seen) }
    ensures calls { MakesCalls 2 (D.known disk.old) (D.known disk.new) result }
    ensures cause { HasCause (D.known disk.old).faults (D.known disk.new).faults result }
{
    disk.write_at(at, bytes)?;
    disk.sync()
}

/// Shortens to so many bytes, and syncs.
pub fn cut_synced<D: Disk>(disk: &mut D, to: u64) -> Result<(), DiskFailed>
    requires { IsTrue D.tells → to ≤ length (D.known disk.old).seen }
    ensures shortened { IsTrue D.tells
        → OnOk result ((D.known disk.new).seen ≡ take to (D.known disk.old).seen) }
    ensures durable { IsTrue D.tells → OnOk result (IsSettled (file_of (D.known disk.new))) }
    ensures beside { IsTrue D.tells → (D.known disk.new).beside ≡ (D.known disk.old).beside }
    ensures any_moment { IsTrue D.tells → IsSettled (file_of (D.known disk.old))
        → LeavesOnly (D.known disk.old) (D.known disk.new) (Cut to (D.known disk.old).seen) }
    ensures calls { MakesCalls 2 (D.known disk.old) (D.known disk.new) result }
    ensures cause { HasCause (D.known disk.old).faults (D.known disk.new).faults result }
{
    disk.cut(to)?;
    disk.sync()
}

/// Puts these bytes in the place of all that the disk holds, and syncs once. A crash on the way may
/// leave anything.
pub fn cut_write_synced<D: Disk>(disk: &mut D, bytes: &[u8]) -> Result<(), DiskFailed>
    ensures written { IsTrue D.tells → OnOk result ((D.known disk.new).seen ≡ bytes.now) }
    ensures durable { IsTrue D.tells → OnOk result (IsSettled (file_of (D.known disk.new))) }
    ensures beside { IsTrue D.tells → (D.known disk.new).beside ≡ (D.known disk.old).beside }
    ensures any_moment { IsTrue D.tells → LeavesOnly (D.known disk.old) (D.known disk.new) IsAny }
    ensures calls { MakesCalls 3 (D.known disk.old) (D.known disk.new) result }
    ensures cause { HasCause (D.known disk.old).faults (D.known disk.new).faults result }
{
    disk.cut(0)?;
    disk.write_at(0, bytes)?;
    disk.sync()
}

/// Syncs, and then reads all that the disk holds. A disk that was settled is so afterwards,
/// whatever the answer is.
pub fn read_synced<D: Disk>(alloc: Global, disk: &mut D) -> Result<Bytes, ReadFault>
    ensures bytes { IsTrue D.tells → IfOk result (λ bytes. bytes ≡ (D.known disk.old).seen) }
    ensures seen { IsTrue D.tells → (D.known disk.new).seen ≡ (D.known disk.old).seen }
    ensures durable { IsTrue D.tells → OnOk result (IsSettled (file_of (D.known disk.new))) }
    ensures stays_settled { IsTrue D.tells
        → StaysSettled (file_of (D.known disk.old)) (file_of (D.known disk.new)) }
    ensures beside { IsTrue D.tells → (D.known disk.new).beside ≡ (D.known disk.old).beside }
    ensures any_moment { IsTrue D.tells
        → LeavesOnly (D.known disk.old) (D.known disk.new) (IsCrashImage (D.known disk.old).now) }
    ensures calls { IfOk result
        (λ bytes. (D.known disk.new).made ≡ called (2 + pieces (length bytes))
        (D.known disk.old).made) }
    ensures most_calls { IsTrue D.tells
        → (D.known disk.new).made ≤ called (2 + pieces (length (D.known disk.old).seen))
        (D.known disk.old).made }
    ensures cause { HasCauseOf ReadFault.Disk (D.known disk.old).faults
        (D.known disk.new).faults result }
{
    let Ok(size) = settled_length(disk) else {
        return Err(ReadFault::Disk);
    };
    let Ok(mut bytes) = zeros(alloc, size) else {
        return Err(ReadFault::Memory);
    };
    match fill(disk, &mut bytes) {
        Ok(()) => Ok(Bytes::from_vec(bytes)),
        Err(DiskFailed) => Err(ReadFault::Disk),
    }
}

/// The first byte, where there is one. Nothing is synced.
pub fn first_byte<D: Disk>(disk: &mut D) -> Result<Option<u8>, DiskFailed>
    ensures value { IsTrue D.tells
        → IfOk result (λ first. MatchOption first (length (D.known disk.old).seen ≡ 0)
        (λ byte. (0 < length (D.known disk.old).seen)
        × (slice_index (D.known disk.old).seen 0 ≡ byte))) }
    ensures seen { IsTrue D.tells → (D.known disk.new).seen ≡ (D.known disk.old).seen }
    ensures now { IsTrue D.tells → (D.known disk.new).now ≡ (D.known disk.old).now }
    ensures beside { IsTrue D.tells → (D.known disk.new).beside ≡ (D.known disk.old).beside }
    ensures any_moment { IsTrue D.tells
        → LeavesOnly (D.known disk.old) (D.known disk.new) (IsCrashImage (D.known disk.old).now) }
    ensures most_calls { (D.known disk.new).made ≤ called 2 (D.known disk.old).made }
    ensures cause { HasCause (D.known disk.old).faults (D.known disk.new).faults result }
{
    if disk.length()? == 0 {
        return Ok(None);
    }
    let mut first = [0];
    disk.read_at(0, &mut first)?;
    Ok(Some(first[0]))
}

/// How a file begins: its first byte, and its length in bytes.
#[derive(Clone, Copy, PartialEq, Eq)]
pub struct Front {
    pub first: u8,
    pub length: u64,
}

/// Syncs, and tells how the file begins, where it is not empty.
pub fn front_synced<D: Disk>(disk: &mut D) -> Result<Option<Front>, DiskFailed>
    ensures value { IsTrue D.tells
        → IfOk result (λ front. front ≡ front_of (D.known disk.old).seen) }
    ensures seen { IsTrue D.tells → (D.known disk.new).seen ≡ (D.known disk.old).seen }
    ensures durable { IsTrue D.tells → OnOk result (IsSettled (file_of (D.known disk.new))) }
    ensures stays_settled { IsTrue D.tells
        → StaysSettled (file_of (D.known disk.old)) (file_of (D.known disk.new)) }
    ensures beside { IsTrue D.tells → (D.known disk.new).beside ≡ (D.known disk.old).beside }
    ensures any_moment { IsTrue D.tells
        → LeavesOnly (D.known disk.old) (D.known disk.new) (IsCrashImage (D.known disk.old).now) }
    ensures most_calls { (D.known disk.new).made ≤ called 3 (D.known disk.old).made }
    ensures cause { HasCause (D.known disk.old).faults (D.known disk.new).faults result }
{
    let length = settled_length(disk)?;
    if length == 0 {
        return Ok(None);
    }
    let mut first = [0];
    disk.read_at(0, &mut first)?;
    Ok(Some(Front {
        first: first[0],
        length,
    }))
}

/// Syncs, and tells the length.
fn settled_length<D: Disk>(disk: &mut D) -> Result<u64, DiskFailed>
    ensures value { IsTrue D.tells → IfOk result (λ n. n ≡ length (D.known disk.old).seen) }
    ensures seen { IsTrue D.tells → (D.known disk.new).seen ≡ (D.known disk.old).seen }
    ensures durable { IsTrue D.tells → OnOk result (IsSettled (file_of (D.known disk.new))) }
    ensures stays_settled { IsTrue D.tells
        → StaysSettled (file_of (D.known disk.old)) (file_of (D.known disk.new)) }
    ensures beside { IsTrue D.tells → (D.known disk.new).beside ≡ (D.known disk.old).beside }
    ensures any_moment { IsTrue D.tells
        → LeavesOnly (D.known disk.old) (D.known disk.new) (IsCrashImage (D.known disk.old).now) }
    ensures calls { MakesCalls 2 (D.known disk.old) (D.known disk.new) result }
    ensures cause { HasCause (D.known disk.old).faults (D.known disk.new).faults result }
{
    disk.sync()?;
    disk.length()
}

fn zeros(alloc: Global, size: u64) -> Result<Vec<u8>, Memory>
    ensures { IfOk result (λ v. length v.items ≡ size) }
{
    Ok(vec![in alloc; 0u8; size as usize]?)
}

/// Fills `into` with the first bytes of the disk, a piece at a time.
fn fill<D: Disk>(disk: &mut D, into: &mut [u8]) -> Result<(), DiskFailed>
    requires { IsTrue D.tells → length into.old ≤ length (D.known disk.old).seen }
    ensures bytes { IsTrue D.tells
        → OnOk result (into.new ≡ take (length into.old) (D.known disk.old).seen) }
    ensures seen { IsTrue D.tells → (D.known disk.new).seen ≡ (D.known disk.old).seen }
    ensures now { IsTrue D.tells → (D.known disk.new).now ≡ (D.known disk.old).now }
    ensures beside { IsTrue D.tells → (D.known disk.new).beside ≡ (D.known disk.old).beside }
    ensures any_moment { IsTrue D.tells
        → LeavesOnly (D.known disk.old) (D.known disk.new) (IsCrashImage (D.known disk.old).now) }
    ensures calls { MakesCalls (pieces (length into.old)) (D.known disk.old)
        (D.known disk.new) result }
    ensures cause { HasCause (D.known disk.old).faults (D.known disk.new).faults result }
{
    let mut at = 0;
    while at < into.len() {
        let end = into.len().min(at.saturating_add(PIECE_BYTES));
        disk.read_at(at as u64, &mut into[at..end])?;
        at = end;
    }
    Ok(())
}
