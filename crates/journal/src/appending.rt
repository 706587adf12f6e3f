//! The journal of an image that lies on a disk, and how one more body is added, or many together.
ghost use Rattle.std.specs.Prelude.{◌≡◌, ◌+◌, ◌-◌, ◌^◌, ◌<◌, IsTrue, OnOk, [], ◌∷◌, length, min};
ghost use Rattle.u1_base.specs.Causes.{HasCause};
ghost use Rattle.disk_model.specs.Disk.{overwritten};
ghost use Rattle.disk_model.specs.Device.{IsSettled, file_of};
ghost use Rattle.disk_model.specs.Moments.{LeavesOnly};
ghost use Rattle.disk_model.specs.Counts.{MakesCalls};
ghost use Rattle.journal.specs.inner.Adding.{IsAdding};

use crate::NewEntries;
use crate::layout::{BEFORE_BODY_BYTES, OPEN_GATE};
use crate::spelling::behind_the_gate;
use disk_model::{Disk, DiskFailed, write_synced};
use std::alloc::Global;
use std::error::Error;
use std::fmt;
use std::marker::Model;
use u1_base::Memory;

/// Why a body was not added.
#[derive(Clone, Copy, Debug, PartialEq, Eq)]
pub enum AppendFault {
    /// The image would need so many bytes, more than its limit.
    Full { need: u64, limit: u64 },
    Disk,
    Memory,
}

impl fmt::Display for AppendFault {
    fn fmt<W: fmt::Write>(&self, f: &mut fmt::Formatter<W>) -> fmt::Result {
        match self {
            AppendFault::Full { need, limit } => {
                write!(
                    f,
                    "the image would need {need} bytes, and its limit is {limit}"
                )
            }
            AppendFault::Disk => f.write_str("the disk failed"),
            AppendFault::Memory => f.write_str("out of memory"),
        }
    }
}

impl Error for AppendFault {}

/// The journal of an image: its length, up to and with the closed gate, and its limit, both in
/// bytes.
#[derive(Drop)]
pub struct Journal {
    length: u64,
    limit: u64,
}

impl Model for Journal {
    ghost use Rattle.std.specs.Prelude.{◌≤◌};
    ghost use Rattle.journal.specs.Image.{IsLimit};
    ghost use Rattle.journal.specs.Journal.{Extent};

    ghost Value = { Extent };

    ghost view = { λ j. record { length = j.length; limit = j.limit } };

    ghost invariant = { λ j. (1 ≤ j.length) × IsLimit j.limit };
}

impl Journal {
    ghost use Rattle.std.specs.Prelude.{◌≡◌, ◌≢◌, ℕ, ◌+◌, ◌^◌, ◌<◌, ◌≤◌, IsTrue, Err, OnOk, OnErr};
    ghost use Rattle.std.specs.Prelude.{List, [], ◌∷◌, ◌++◌, length};
    ghost use Rattle.u1_base.specs.Causes.{HasCauseOf};
    ghost use Rattle.disk_model.specs.Device.{file_of};
    ghost use Rattle.disk_model.specs.Counts.{MakesCalls};
    ghost use Rattle.journal.specs.Image.{IsLimit};
    ghost use Rattle.journal.specs.Journal.{HoldsOneMore, IsFull, IsHeld, LeavesWithOrWithout};
    ghost use Rattle.journal.specs.Journal.{need};
    ghost use Rattle.journal.specs.Entries.{AreSpelled, HoldsAllMore, LeavesAllOrNone, extended};

    pub(crate) fn of(length: u64, limit: u64) -> Journal
        requires some { 1 ≤ length }
        requires limit { IsLimit limit }
        ensures length { result.length ≡ length }
        ensures limit { result.limit ≡ limit }
    {
        Journal { length, limit }
    }

    /// The image's length in bytes, up to and with the closed gate.
    pub fn length(&self) -> u64
        ensures { result ≡ self.now.length }
    {
        self.length
    }

    /// The most bytes that the image may have.
    pub fn limit(&self) -> u64
        ensures limit { result ≡ self.now.limit }
        ensures bounds { IsLimit result }
    {
        self.limit
    }

    /// Adds a body of 1 to 2^32-1 bytes, with two writes and two syncs.
    ///
    /// At `Full` and `Memory` the disk was not called. After `Disk` the image has to be opened
    /// again; it has the body then or not.
    pub fn append<D: Disk>(
        &mut self,
        alloc: Global,
        disk: &mut D,
        body: &[u8],
    ) -> Result<(), AppendFault>
        requires some { 1 ≤ length body.now }
        requires short { length body.now < 2 ^ 32 }
        requires holds { IsTrue D.tells → IsHeld self.old (file_of (D.known disk.old)) }
        ensures ok { IsTrue D.tells
            → OnOk result (HoldsOneMore body.now self.old self.new (file_of (D.known disk.old))
            (file_of (D.known disk.new))) }
        ensures length { OnOk result
            (self.new.length ≡ self.old.length + BEFORE_BODY_BYTES + length body.now) }
        ensures limit { self.new.limit ≡ self.old.limit }
        ensures same { OnErr result (self.new ≡ self.old) }
        ensures any_moment { IsTrue D.tells
            → LeavesWithOrWithout body.now self.old (D.known disk.old) (D.known disk.new) }
        ensures beside { IsTrue D.tells → (D.known disk.new).beside ≡ (D.known disk.old).beside }
        ensures full { IsFull self.old (length body.now)
            → result ≡ Err (AppendFault.Full (need self.old (length body.now)) self.old.limit) }
        ensures only_full { (n m : ℕ) → result ≡ Err (AppendFault.Full n m)
            → IsFull self.old (length body.now) }
        ensures untouched { OnErr result (result ≢ Err AppendFault.Disk → disk.new ≡ disk.old) }
        ensures calls { MakesCalls 4 (D.known disk.old) (D.known disk.new) result }
        ensures cause { HasCauseOf AppendFault.Disk (D.known disk.old).faults
            (D.known disk.new).faults result }
    {
        let need = needed(self.length, 0, body);
        let limit = self.limit;
        if need > limit {
            return Err(AppendFault::Full { need, limit });
        }
        let Ok(behind) = behind_the_gate(alloc, body) else {
            return Err(AppendFault::Memory);
        };
        match add_behind(disk, self.length - 1, behind.as_slice()) {
            Ok(()) => {
                self.length = need;
                Ok(())
            }
            Err(DiskFailed) => Err(AppendFault::Disk),
        }
    }

    /// Adds a body of 1 to 2^32-1 bytes to entries that `append_all` is to add to this image.
    ///
    /// `Full` is returned exactly when the image with these entries and the body would be longer
    /// than its limit. `Disk` is not returned.
    pub fn stage(
        &self,
        alloc: Global,
        entries: &mut NewEntries,
        body: &[u8],
    ) -> Result<(), AppendFault>
        requires some { 1 ≤ length body.now }
        requires short { length body.now < 2 ^ 32 }
        ensures spelled { OnOk result ((bodies : List (List ℕ)) → AreSpelled bodies entries.old
            → AreSpelled (bodies ++ body.now ∷ []) entries.new) }
        ensures length { OnOk result
            (length entries.new ≡ length entries.old + BEFORE_BODY_BYTES + length body.now) }
        ensures within { OnOk result (self.now.length + length entries.new ≤ self.now.limit) }
        ensures same { OnErr result (entries.new ≡ entries.old) }
        ensures full { IsFull (extended self.now entries.old) (length body.now)
            → result ≡ Err (AppendFault.Full
            (need (extended self.now entries.old) (length body.now)) self.now.limit) }
        ensures only_full { (n m : ℕ) → result ≡ Err (AppendFault.Full n m)
            → IsFull (extended self.now entries.old) (length body.now) }
        ensures no_disk { result ≢ Err AppendFault.Disk }
    {
        let need = needed(self.length, entries.len(), body);
        let most = self.limit;
        if need > most {
            return Err(AppendFault::Full { need, limit: most });
        }
        match entries.push(alloc, body) {
            Ok(()) => Ok(()),
            Err(Memory) => Err(AppendFault::Memory),
        }
    }

    /// Adds all these entries to the image, with two writes and two syncs, and takes no memory.
    ///
    /// A crash on the way leaves the image with all of them or with none. After a failure the image
    /// has to be opened again; it has all of them then or none.
    pub fn append_all<D: Disk>(
        &mut self,
        disk: &mut D,
        entries: &NewEntries,
    ) -> Result<(), DiskFailed>
        requires some { 1 ≤ length entries.now }
        requires within { self.old.length + length entries.now ≤ self.old.limit }
        requires holds { IsTrue D.tells → IsHeld self.old (file_of (D.known disk.old)) }
        ensures ok { IsTrue D.tells
            → OnOk result (HoldsAllMore entries.now self.old self.new (file_of (D.known disk.old))
            (file_of (D.known disk.new))) }
        ensures extent { OnOk result (self.new ≡ extended self.old entries.now) }
        ensures limit { self.new.limit ≡ self.old.limit }
        ensures same { OnErr result (self.new ≡ self.old) }
        ensures any_moment { IsTrue D.tells
            → LeavesAllOrNone entries.now self.old (D.known disk.old) (D.known disk.new) }
        ensures beside { IsTrue D.tells → (D.known disk.new).beside ≡ (D.known disk.old).beside }
        ensures calls { MakesCalls 4 (D.known disk.old) (D.known disk.new) result }
        ensures cause { HasCause (D.known disk.old).faults (D.known disk.new).faults result }
    {
        let longer = self.length + entries.len() as u64;
        match add_behind(disk, self.length - 1, entries.as_slice()) {
            Ok(()) => {
                self.length = longer;
                Ok(())
            }
            Err(failed) => Err(failed),
        }
    }
}

// The length of the image with so many bytes behind its gate, and an entry of this body behind them.
fn needed(so_far: u64, staged: usize, body: &[u8]) -> u64
    ensures { result ≡ min (so_far + staged + BEFORE_BODY_BYTES + length body.now) (2 ^ 64 - 1) }
{
    so_far
        .saturating_add(staged as u64)
        .saturating_add(BEFORE_BODY_BYTES as u64)
        .saturating_add(body.len() as u64)
}

// Writes these bytes after the gate at the place, and opens the gate when they lie on the disk.
fn add_behind<D: Disk>(disk: &mut D, gate: u64, behind: &[u8]) -> Result<(), DiskFailed>
    requires place { IsTrue D.tells → gate < length (D.known disk.old).seen }
    requires room { gate + 1 < 2 ^ 64 }
    ensures written { IsTrue D.tells
        → OnOk result ((D.known disk.new).seen
        ≡ overwritten (overwritten (D.known disk.old).seen (gate + 1) behind.now) gate
        (OPEN_GATE ∷ [])) }
    ensures durable { IsTrue D.tells → OnOk result (IsSettled (file_of (D.known disk.new))) }
    ensures beside { IsTrue D.tells → (D.known disk.new).beside ≡ (D.known disk.old).beside }
    ensures any_moment { IsTrue D.tells → IsSettled (file_of (D.known disk.old))
        → LeavesOnly (D.known disk.old) (D.known disk.new)
        (IsAdding gate behind.now (D.known disk.old).seen) }
    ensures calls { MakesCalls 4 (D.known disk.old) (D.known disk.new) result }
    ensures cause { HasCause (D.known disk.old).faults (D.known disk.new).faults result }
{
    write_synced(disk, gate + 1, behind)?;
    write_synced(disk, gate, &[OPEN_GATE])
}
