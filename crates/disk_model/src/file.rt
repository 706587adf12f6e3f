//! The adapter to a file. It tells nothing of the file's content: what a file does between two
//! calls is trusted.
ghost use Rattle.std.specs.Prelude.{◌≡◌, ◌≤◌, IsSome, OnErr};
ghost use Rattle.u1_base.specs.Causes.{HasCause, Rose};
ghost use Rattle.disk_model.specs.Counts.{called};
ghost use Rattle.disk_model.specs.Device.{opaque};
ghost use Rattle.disk_model.specs.FileDisk.{file_fault, file_known, file_path};

use crate::file_fault::FileFault;
use crate::real_file::RealFile;
use crate::{Disk, DiskFailed};
use std::fs::{File, Files};
use std::rt::Clock;
use u1_base::Text;

/// The file of a path, which is opened and locked when it is first used.
///
/// A file that is not there is an empty disk, and the first write makes it, readable by its owner
/// alone, and its folder where that is missing. The lock is advisory, and is held until the disk is
/// dropped. Where another holds it for longer than about five seconds the call fails. The first
/// sync puts the file's name on the disk too. Once a write, a cut or a sync has failed, every later
/// call fails. A failure of any kind raises the count, which stands still at the end of its type.
#[derive(Drop)]
pub struct FileDisk<R: Files<File = File> + Clock + Alloc + Drop> {
    real: RealFile<R>,
    fault: Option<FileFault>,
    made: u64,
    faults: u64,
}

impl<R: Files<File = File> + Clock + Alloc + Drop> FileDisk<R> {
    pub fn new(rt: R, path: Text) -> FileDisk<R>
        ensures known { file_known result ≡ opaque 0 0 }
        ensures path { file_path result ≡ path }
    {
        FileDisk {
            real: RealFile::new(rt, path),
            fault: None,
            made: 0,
            faults: 0,
        }
    }

    /// The path that it was given.
    pub fn path(&self) -> &str
        ensures { result.now ≡ file_path self.now }
    {
        self.real.path()
    }

    /// Why its last failed call failed.
    pub fn fault(&self) -> Option<FileFault>
        ensures { result ≡ file_fault self.now }
    {
        self.fault
    }

    fn count_call(&mut self)
        ensures same { self.new ≡ record self.old { made = called 1 self.old.made } }
    {
        self.made = self.made.saturating_add(1);
    }

    fn count_fault(&mut self)
        ensures same { self.new ≡ record self.old { faults = self.new.faults } }
        ensures later { self.old.faults ≤ self.new.faults }
        ensures rose { Rose self.old.faults self.new.faults }
    {
        self.faults = self.faults.saturating_add(1);
    }

    fn answer<T: Drop>(&mut self, done: Result<T, FileFault>) -> Result<T, DiskFailed>
        ensures same { self.new
            ≡ record self.old { fault = self.new.fault; faults = self.new.faults } }
        ensures cause { HasCause self.old.faults self.new.faults result }
        ensures why { OnErr result (IsSome self.new.fault) }
    {
        match done {
            Ok(value) => Ok(value),
            Err(fault) => {
                self.fault = Some(fault);
                self.count_fault();
                Err(DiskFailed)
            }
        }
    }
}

impl<R: Files<File = File> + Clock + Alloc + Drop> Disk for FileDisk<R> {
    ghost use Rattle.std.specs.Prelude.{false};
    ghost use Rattle.disk_model.specs.FileDisk.{file_known};

    ghost tells = { false };

    ghost known = { file_known };

    fn length(&mut self) -> Result<u64, DiskFailed> {
        self.count_call();
        let done = self.real.length();
        self.answer(done)
    }

    fn read_at(&mut self, at: u64, into: &mut [u8]) -> Result<(), DiskFailed> {
        self.count_call();
        let done = self.real.read_at(at, into);
        self.answer(done)
    }

    fn write_at(&mut self, at: u64, bytes: &[u8]) -> Result<(), DiskFailed> {
        self.count_call();
        let done = self.real.write_at(at, bytes);
        self.answer(done)
    }

    fn cut(&mut self, to: u64) -> Result<(), DiskFailed> {
        self.count_call();
        let done = self.real.cut(to);
        self.answer(done)
    }

    fn sync(&mut self) -> Result<(), DiskFailed> {
        self.count_call();
        let done = self.real.sync();
        self.answer(done)
    }

    ghost seen_may_stay = { λ disk tells. absurd (Prim.cc tells) };
}
