//! Adding a body to the store that stands, or many together.
ghost use Rattle.std.specs.Prelude.{◌≡◌, ◌≢◌, ℕ, ◌+◌, ◌^◌, ◌<◌, ◌≤◌};
ghost use Rattle.std.specs.Prelude.{IsTrue, Err, OnErr, OnOk, length};
ghost use Rattle.u1_base.specs.Causes.{HasCause, HasCauseOf};
ghost use Rattle.disk_model.specs.Counts.{called};
ghost use Rattle.disks.specs.Disks.{disks_known, turned};
ghost use Rattle.journal.specs.Entries.{extended};
ghost use Rattle.journal.specs.Journal.{IsFull, need};
ghost use Rattle.volume.specs.Store.{IsOpen};
ghost use Rattle.volume.specs.Crashes.{LeavesOldOrAllMore, LeavesOldOrOneMore, StandsAllMore};
ghost use Rattle.volume.specs.Crashes.{StandsOneMore};

use disk_model::{Disk, DiskFailed};
use disks::{DiskName, Disks};
use journal::{AppendFault, Journal, NewEntries};
use std::alloc::Global;

/// Adds a body of 1 to 2^32-1 bytes to the image on this side, with two writes and two syncs of
/// that disk.
///
/// At `Full` and `Memory` no disk was called. After `Disk` the store has to be opened again; it has
/// the body then or not.
pub fn append_on<D: Disk>(
    alloc: Global,
    disks: &mut Disks<D>,
    journal: &mut Journal,
    side: DiskName,
    body: &[u8],
) -> Result<(), AppendFault>
    requires some { 1 ≤ length body.now }
    requires short { length body.now < 2 ^ 32 }
    requires side { side ≢ DiskName.Root }
    requires store { IsTrue D.tells
        → IsOpen journal.old side (disks_known D.known disks.old).files }
    ensures ok { IsTrue D.tells → OnOk result (StandsOneMore body.now side journal.old journal.new
        (disks_known D.known disks.old).files (disks_known D.known disks.new).files) }
    ensures length { OnOk result (journal.new.length ≡ journal.old.length + 5 + length body.now) }
    ensures limit { journal.new.limit ≡ journal.old.limit }
    ensures same { OnErr result (journal.new ≡ journal.old) }
    ensures any_moment { IsTrue D.tells → LeavesOldOrOneMore body.now side journal.old
        (disks_known D.known disks.old) (disks_known D.known disks.new) }
    ensures full { IsFull journal.old (length body.now)
        → result ≡ Err (AppendFault.Full (need journal.old (length body.now)) journal.old.limit) }
    ensures only_full { (n m : ℕ) → result ≡ Err (AppendFault.Full n m)
        → IsFull journal.old (length body.now) }
    ensures untouched { OnErr result
        (result ≢ Err AppendFault.Disk → disks.new ≡ turned side disks.old) }
    ensures calls { OnOk result
        ((disks_known D.known disks.new).made ≡ called 4 (disks_known D.known disks.old).made) }
    ensures most_calls { (disks_known D.known disks.new).made
        ≤ called 4 (disks_known D.known disks.old).made }
    ensures cause { HasCauseOf AppendFault.Disk
        (disks_known D.known disks.old).faults (disks_known D.known disks.new).faults result }
{
    disks.turn_to(side);
    journal.append(alloc, disks, body)
}

/// Adds all these entries to the image on this side, with two writes and two syncs of that disk. It
/// takes no memory.
///
/// A crash on the way leaves the store with all of them or with none. After a failure the store has
/// to be opened again; it has all of them then or none.
pub fn append_all_on<D: Disk>(
    disks: &mut Disks<D>,
    journal: &mut Journal,
    side: DiskName,
    entries: &NewEntries,
) -> Result<(), DiskFailed>
    requires some { 1 ≤ length entries.now }
    requires within { journal.old.length + length entries.now ≤ journal.old.limit }
    requires side { side ≢ DiskName.Root }
    requires store { IsTrue D.tells
        → IsOpen journal.old side (disks_known D.known disks.old).files }
    ensures ok { IsTrue D.tells → OnOk result (StandsAllMore entries.now side journal.old
        journal.new (disks_known D.known disks.old).files (disks_known D.known disks.new).files) }
    ensures extent { OnOk result (journal.new ≡ extended journal.old entries.now) }
    ensures limit { journal.new.limit ≡ journal.old.limit }
    ensures same { OnErr result (journal.new ≡ journal.old) }
    ensures any_moment { IsTrue D.tells → LeavesOldOrAllMore entries.now side journal.old
        (disks_known D.known disks.old) (disks_known D.known disks.new) }
    ensures calls { OnOk result
        ((disks_known D.known disks.new).made ≡ called 4 (disks_known D.known disks.old).made) }
    ensures most_calls { (disks_known D.known disks.new).made
        ≤ called 4 (disks_known D.known disks.old).made }
    ensures cause { HasCause
        (disks_known D.known disks.old).faults (disks_known D.known disks.new).faults result }
{
    disks.turn_to(side);
    journal.append_all(disks, entries)
}
