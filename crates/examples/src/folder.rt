//! Example: a store in a folder.
//!
//! The first call of a program that keeps documents in files. What `open_notes` gives is a
//! `Replica`, on which the calls of the other examples work.
ghost use Rattle.std.specs.Prelude.{false, IfOk};
ghost use Rattle.disk_model.specs.FileDisk.{file_known};
ghost use Rattle.replica_volume.specs.Volume.{IsOpenVolume};

use disk_model::{Disk, FileDisk, FileFault};
use disks::{DiskName, Disks, MakeFault, OpenFault};
use journal::Header;
use replica_volume::Volume;
use std::alloc::Global;
use std::error::Error;
use std::fmt;
use std::fs::{File, Files};
use std::rt::Clock;
use store_files::{StoreFiles, failed_file, files_in, lock_folder};

/// Why no store was opened or made.
#[derive(Clone, Copy, Debug)]
pub enum NotesFault {
    /// The folder around the store's cannot be locked.
    Lock(FileFault),
    /// A call on this file of the store failed.
    File(DiskName, FileFault),
    /// The store is damaged, or memory ran out.
    Open(OpenFault),
    /// No store was made: memory ran out, or another process made one meanwhile, which comes only
    /// where the system locks no folders.
    Make(MakeFault),
}

impl fmt::Display for NotesFault {
    fn fmt<W: fmt::Write>(&self, f: &mut fmt::Formatter<W>) -> fmt::Result {
        match self {
            NotesFault::Lock(fault) => fmt::Display::fmt(fault, f),
            NotesFault::File(_, fault) => fmt::Display::fmt(fault, f),
            NotesFault::Open(fault) => fmt::Display::fmt(fault, f),
            NotesFault::Make(fault) => fmt::Display::fmt(fault, f),
        }
    }
}

impl Error for NotesFault {}

/// Opens the store in the folder, or makes it there: the folder too, but not the one around it. A
/// store that is there keeps its own name, uid and limit, whatever the header has.
pub fn open_notes<R: Files<File = File> + Clock + AllocGlobal + Copy + Drop>(
    rt: &R,
    folder: &str,
    header: Header,
) -> Result<Volume<FileDisk<R>>, NotesFault>
    ensures open { IfOk result (IsOpenVolume false file_known) }
{
    // Held to the end: of two processes that come here at once one makes the store, and the other
    // opens it.
    let lock = lock_folder(rt, folder);
    match &lock {
        Ok(_) => open_files(rt, folder, header),
        Err(fault) => Err(NotesFault::Lock(*fault)),
    }
}

fn open_files<R: Files<File = File> + Clock + AllocGlobal + Copy + Drop>(
    rt: &R,
    folder: &str,
    header: Header,
) -> Result<Volume<FileDisk<R>>, NotesFault>
    ensures open { IfOk result (IsOpenVolume false file_known) }
{
    let Ok(files) = files_in(rt, folder) else {
        return Err(NotesFault::Open(OpenFault::Memory));
    };
    match open_or_make(rt.alloc(), files, header) {
        Ok(notes) => Ok(notes),
        Err((files, fault)) => Err(in_file(&files, fault)),
    }
}

// A root that is empty or not there is none, and so there is no store.
fn open_or_make<D: Disk>(
    alloc: Global,
    disks: Disks<D>,
    header: Header,
) -> Result<Volume<D>, (Disks<D>, NotesFault)>
    ensures open { IfOk result (IsOpenVolume D.tells D.known) }
{
    match Volume::open_volume(alloc, disks) {
        Ok(notes) => Ok(notes),
        Err((disks, OpenFault::Blank)) => made(alloc, disks, header),
        Err((disks, fault)) => Err((disks, NotesFault::Open(fault))),
    }
}

fn made<D: Disk>(
    alloc: Global,
    disks: Disks<D>,
    header: Header,
) -> Result<Volume<D>, (Disks<D>, NotesFault)>
    ensures open { IfOk result (IsOpenVolume D.tells D.known) }
{
    match Volume::init(alloc, disks, header) {
        Ok(notes) => Ok(notes),
        Err((disks, fault)) => Err((disks, NotesFault::Make(fault))),
    }
}

// The fault with the file that it is about, where a call on a file failed.
fn in_file<R: Files<File = File> + Clock + Alloc + Drop>(
    files: &StoreFiles<R>,
    fault: NotesFault,
) -> NotesFault {
    let Some(disk) = failed_file(files) else {
        return fault;
    };
    match files.disk(disk).fault() {
        Some(why) => NotesFault::File(disk, why),
        None => fault,
    }
}
