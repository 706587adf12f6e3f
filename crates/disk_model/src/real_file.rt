//! A file of the system by its path: what `FileDisk` does with it.
ghost use Rattle.std.specs.Prelude.{◌≡◌};

use crate::file_fault::{FileCall, FileFault};
use crate::size_limit::greatest_file_size;
use std::fs::{self, File, Files, Metadata, OpenOptions, TryLockError};
use std::io::{self, ErrorKind};
use std::os::unix::fs::{FileExt, OpenOptionsExt};
use std::path::Path;
use std::rt::Clock;
use std::thread;
use std::time::Duration;
use u1_base::Text;

/// How often a lock is tried: for about five seconds.
pub const LOCK_TRIES: u32 = 50;

/// The time between two tries, in milliseconds.
pub const LOCK_WAIT: u64 = 100;

/// New files are readable and writable by their owner alone.
const OWNER_ALONE: u32 = 0o600;

/// A file that is opened and locked when it is first used, and made when it is first written.
#[derive(Drop)]
pub(crate) struct RealFile<R: Files<File = File> + Clock + Alloc + Drop> {
    rt: R,
    path: Text,
    place: Place,
    // A write or a sync has failed. The system may have dropped what it could not write, and would
    // answer the next sync with Ok, so nothing is asked of the file again.
    over: Option<FileFault>,
    // The greatest size of a file, once it was asked for.
    most: Option<u64>,
}

// What is known of the file.
#[derive(Drop)]
enum Place {
    Unknown,
    /// It was not there when it was looked for.
    Missing,
    Open(Opened),
}

#[derive(Drop)]
struct Opened {
    file: File,
    // Whether its name has been synced since it was opened. Before that it may be one that a killed
    // process made.
    is_named: bool,
    // Whether it was empty when it was opened, and no sync of it has succeeded.
    is_fresh: bool,
}

impl<R: Files<File = File> + Clock + Alloc + Drop> RealFile<R> {
    pub(crate) fn new(rt: R, path: Text) -> RealFile<R>
        ensures { result.path ≡ path }
    {
        RealFile {
            rt,
            path,
            place: Place::Unknown,
            over: None,
            most: None,
        }
    }

    pub(crate) fn path(&self) -> &str
        ensures { result.now ≡ self.now.path }
    {
        self.path.as_str()
    }

    pub(crate) fn length(&mut self) -> Result<u64, FileFault> {
        self.reach()?;
        match &self.place {
            Place::Open(opened) => Ok(metadata_of(&opened.file)?.len()),
            _ => Ok(0),
        }
    }

    pub(crate) fn read_at(&mut self, at: u64, into: &mut [u8]) -> Result<(), FileFault> {
        self.reach()?;
        let done = match &self.place {
            Place::Open(opened) => opened.file.read_exact_at(into, at),
            _ if into.is_empty() => Ok(()),
            _ => Err(io::Error::from(ErrorKind::UnexpectedEof)),
        };
        FileFault::of(FileCall::Read, done)
    }

    pub(crate) fn write_at(&mut self, at: u64, bytes: &[u8]) -> Result<(), FileFault> {
        let done = self.try_write(at, bytes);
        self.last_unless_ok(done)
    }

    pub(crate) fn cut(&mut self, to: u64) -> Result<(), FileFault> {
        let done = self.try_cut(to);
        self.last_unless_ok(done)
    }

    pub(crate) fn sync(&mut self) -> Result<(), FileFault> {
        let done = self.try_sync();
        self.last_unless_ok(done)
    }

    fn try_write(&mut self, at: u64, bytes: &[u8]) -> Result<(), FileFault> {
        self.fits(at.saturating_add(bytes.len() as u64))?;
        self.make_if_missing()?;
        let done = match &self.place {
            Place::Open(opened) => opened.file.write_all_at(bytes, at),
            _ => Err(io::Error::from(ErrorKind::NotFound)),
        };
        FileFault::of(FileCall::Write, done)
    }

    fn try_cut(&mut self, to: u64) -> Result<(), FileFault> {
        self.reach()?;
        let done = match &self.place {
            Place::Open(opened) => opened.file.set_len(to),
            _ if to == 0 => Ok(()),
            _ => Err(io::Error::from(ErrorKind::NotFound)),
        };
        FileFault::of(FileCall::Cut, done)
    }

    // The first sync after the opening puts the file's name on the disk too.
    fn try_sync(&mut self) -> Result<(), FileFault> {
        self.reach()?;
        let Place::Open(opened) = &mut self.place else {
            return Ok(());
        };
        FileFault::of(FileCall::Sync, opened.file.sync_data())?;
        if !opened.is_named {
            let named = sync_folder_of(&self.rt, self.path.as_str());
            FileFault::of(FileCall::SyncName, named)?;
            opened.is_named = true;
        }
        opened.is_fresh = false;
        Ok(())
    }

    // Remembers a failure of a call that changes or syncs. A file that was empty, and of which
    // nothing was settled, is made empty again, as a crash might have left it: then what has failed
    // can be done anew.
    fn last_unless_ok(&mut self, done: Result<(), FileFault>) -> Result<(), FileFault> {
        if let Err(fault) = &done {
            self.over = Some(*fault);
            if let Place::Open(opened) = &mut self.place {
                if opened.is_fresh {
                    let _ = opened.file.set_len(0);
                    opened.is_fresh = false;
                }
            }
        }
        done
    }

    // Fails where a write up to this place would make the file longer than the process may.
    fn fits(&mut self, end: u64) -> Result<(), FileFault> {
        let most = match self.most {
            Some(most) => most,
            None => greatest_file_size(&self.rt),
        };
        self.most = Some(most);
        if end > most {
            let error = io::Error::from(ErrorKind::FileTooLarge);
            return FileFault::of(FileCall::Write, Err(error));
        }
        Ok(())
    }

    // Looks for the file, and opens it where it is there.
    fn reach(&mut self) -> Result<(), FileFault> {
        if let Some(fault) = self.over {
            return Err(fault);
        }
        if let Place::Unknown = &self.place {
            self.place = self.look()?;
        }
        Ok(())
    }

    // A device or a pipe is not even opened, since that alone may do something.
    fn look(&self) -> Result<Place, FileFault> {
        let path = self.path.as_str();
        let opened = match fs::metadata(&self.rt, path) {
            Ok(found) if found.is_file() => OpenOptions::new()
                .read(true)
                .write(true)
                .open(&self.rt, path),
            Ok(_) => Err(no_file()),
            Err(error) => Err(error),
        };
        match opened {
            Ok(file) => Ok(Place::Open(self.lock(file)?)),
            Err(error) if error.kind() == ErrorKind::NotFound => Ok(Place::Missing),
            Err(error) => FileFault::of(FileCall::Open, Err(error)),
        }
    }

    fn make_if_missing(&mut self) -> Result<(), FileFault> {
        self.reach()?;
        if let Place::Missing = &self.place {
            self.place = Place::Open(self.make()?);
        }
        Ok(())
    }

    // Makes the file, and first its folder where that is missing. The folder's own name lies on the
    // disk before the file is made in it, so that it need not be looked after once the file is
    // there.
    fn make(&self) -> Result<Opened, FileFault> {
        let path = self.path.as_str();
        let folder = folder_of(path);
        let stood = match fs::create_dir(&self.rt, folder) {
            Ok(()) => false,
            Err(error) if error.kind() == ErrorKind::AlreadyExists => true,
            Err(error) => return FileFault::of(FileCall::MakeFolder, Err(error)),
        };
        if let Err(error) = settle_name(&self.rt, folder, stood) {
            // so that the next try does not find a folder whose name is not settled
            if !stood {
                let _ = fs::remove_dir(&self.rt, folder);
            }
            return FileFault::of(FileCall::SyncName, Err(error));
        }
        let made = OpenOptions::new()
            .read(true)
            .write(true)
            .create(true)
            .mode(OWNER_ALONE)
            .open(&self.rt, path);
        let opened = self.lock(FileFault::of(FileCall::Make, made)?)?;
        if !opened.is_fresh {
            let message = "another process has made it meanwhile";
            let error = io::Error::new(ErrorKind::AlreadyExists, message);
            return FileFault::of(FileCall::Make, Err(error));
        }
        Ok(opened)
    }

    // Locks an open file, and looks at what it is.
    fn lock(&self, file: File) -> Result<Opened, FileFault> {
        FileFault::of(FileCall::Lock, self.wait_for_lock(&file))?;
        let found = metadata_of(&file)?;
        if !found.is_file() {
            return FileFault::of(FileCall::Open, Err(no_file()));
        }
        Ok(Opened {
            file,
            is_named: false,
            is_fresh: found.len() == 0,
        })
    }

    fn wait_for_lock(&self, file: &File) -> io::Result<()> {
        for _ in 1..LOCK_TRIES {
            match file.try_lock() {
                Ok(()) => return Ok(()),
                Err(TryLockError::WouldBlock) => {
                    thread::sleep(&self.rt, Duration::from_millis(LOCK_WAIT));
                }
                Err(TryLockError::Error(error)) => return Err(error),
            }
        }
        file.try_lock()?;
        Ok(())
    }
}

fn no_file() -> io::Error {
    io::Error::new(ErrorKind::InvalidInput, "it is no regular file")
}

fn metadata_of(file: &File) -> Result<Metadata, FileFault> {
    FileFault::of(FileCall::Read, file.metadata())
}

// The folder of a path; a path without one lies in the current folder.
fn folder_of(path: &str) -> &str {
    match Path::new(path).parent() {
        Some(folder) if !folder.as_str().is_empty() => folder.as_str(),
        _ => ".",
    }
}

// Syncs the name of a folder. One that stood before may lie in a folder that the user may not read,
// and so cannot sync: its name is then taken as it stands.
fn settle_name<R: Files<File = File> + Alloc>(rt: &R, folder: &str, stood: bool) -> io::Result<()> {
    match sync_folder_of(rt, folder) {
        Ok(()) => Ok(()),
        Err(error) if stood && error.kind() == ErrorKind::PermissionDenied => Ok(()),
        Err(error) => Err(error),
    }
}

// Syncs the folder in which the file of a path really lies, wherever links lead.
fn sync_folder_of<R: Files<File = File> + Alloc>(rt: &R, path: &str) -> io::Result<()> {
    let real = fs::canonicalize(rt, path)?;
    File::open(rt, folder_of(real.as_path().as_str()))?.sync_all()
}
