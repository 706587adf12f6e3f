//! Example: a store on three disks that is made, closed, and opened again.
//!
//! A `Volume` is a replica whose changes are kept in a store. It takes three disks: files for a
//! program (`FileDisk`), memory for a test (`MemDisk`).
ghost use Rattle.std.specs.Prelude.{◌≡◌, ◌⊎◌, IfErr, IfOk, IsTrue};
ghost use Rattle.vector_rev.specs.Clock.{Clock};
ghost use Rattle.replica_state.specs.Held.{meaning};
ghost use Rattle.replica_volume.specs.Volume.{IsOpenVolume};
ghost use Rattle.examples.specs.Notes.{Reads};

use crate::conflict::write_note;
use content::Content;
use disk_model::Disk;
use disks::{Disks, MakeFault, OpenFault};
use journal::Header;
use replica_core::PutFault;
use replica_volume::Volume;
use std::alloc::Global;
use std::error::Error;
use std::fmt;
use u1_base::DocId;

/// Why no store with the note was given.
#[derive(Debug, PartialEq, Eq, Drop)]
pub enum KeepFault {
    /// There is a store already, or a disk or the memory failed; after a failed disk the empty
    /// store may stand.
    Init(MakeFault),
    /// The note was refused, or a disk or the memory failed; after a failed disk it may stand.
    Write(PutFault),
    /// The store was not opened again.
    Open(OpenFault),
}

impl fmt::Display for KeepFault {
    fn fmt<W: fmt::Write>(&self, f: &mut fmt::Formatter<W>) -> fmt::Result {
        match self {
            KeepFault::Init(fault) => fmt::Display::fmt(fault, f),
            KeepFault::Write(fault) => fmt::Display::fmt(fault, f),
            KeepFault::Open(fault) => fmt::Display::fmt(fault, f),
        }
    }
}

impl Error for KeepFault {}

/// Makes a store with one note, closes it, and opens it again.
pub fn keep_note<D: Disk + Drop>(
    alloc: Global,
    disks: Disks<D>,
    header: Header,
    seed: u128,
    id: &DocId,
    text: &Content,
) -> Result<Volume<D>, KeepFault>
    // the note is there, where contracts can see the disks' bytes
    ensures kept { IsTrue D.tells → IfOk result
        (λ store. (rev : Clock) × Reads (meaning store.state) id.now rev text.now) }
    ensures open { IfOk result (IsOpenVolume D.tells D.known) }
{
    let mut store = match Volume::init(alloc, disks, header) {
        Ok(store) => store,
        // The disks come back beside the fault. Here they are let go.
        Err((_, fault)) => return Err(KeepFault::Init(fault)),
    };
    if let Err(fault) = write_note(alloc, &mut store, seed, id, text) {
        return Err(KeepFault::Write(fault));
    }
    match reopen(alloc, store) {
        Ok(store) => Ok(store),
        Err((_, fault)) => Err(KeepFault::Open(fault)),
    }
}

/// Opens the store anew, as the next run of a program does.
pub fn reopen<D: Disk>(alloc: Global, store: Volume<D>) -> Result<Volume<D>, (Disks<D>, OpenFault)>
    requires { IsOpenVolume D.tells D.known store }
    ensures same { IsTrue D.tells
        → IfOk result (λ again. meaning again.state ≡ meaning store.state) }
    ensures fails { IsTrue D.tells → IfErr result
        (λ why. (why.1 ≡ OpenFault.Disk) ⊎ (why.1 ≡ OpenFault.Memory)) }
    ensures open { IfOk result (IsOpenVolume D.tells D.known) }
{
    Volume::open_volume(alloc, store.into_disks())
}
