//! The lock under which a store is made: before there is a root, nothing of the store itself can be
//! locked.
ghost use Rattle.std.specs.Prelude.{◌≡◌, IfErr};
ghost use Rattle.store_files.specs.Lock.{IsNotLocked, holds};

use crate::files::folder_at;
use disk_model::{FileCall, FileFault, LOCK_TRIES, LOCK_WAIT};
use std::fs::{self, File, Files, TryLockError};
use std::io::{self, ErrorKind};
use std::path::Path;
use std::rt::Clock;
use std::thread;
use std::time::Duration;

/// A lock that is held until it is dropped.
#[derive(Drop)]
pub struct FolderLock {
    folder: Option<File>,
}

impl FolderLock {
    /// Whether a folder is locked. It is not where there is no folder yet that can be opened, and
    /// where the system locks no folders.
    pub fn is_held(&self) -> bool
        ensures { result ≡ holds self.now }
    {
        self.folder.is_some()
    }
}

/// Locks the folder in which the folder of a store lies. An empty path is the current folder.
///
/// Who makes a store holds this lock from before it looks for one until the store is made. So two
/// processes that would make one store come one after the other, also where its folder is not there
/// yet. The lock is advisory. Where the folder around the store's cannot be opened, the store's own
/// is locked. A system that locks no folders gives no lock, and that is no fault.
///
/// # Errors
///
/// Another process has held the lock for about five seconds, or there is no memory. The fault tells
/// that a lock was tried (`FileCall::Lock`). Nothing is held then.
pub fn lock_folder<R: Files<File = File> + Clock + Alloc>(
    rt: &R,
    store: &str,
) -> Result<FolderLock, FileFault>
    ensures why { IfErr result IsNotLocked }
{
    let store = folder_at(store);
    let found = match opened_around(rt, store)? {
        Some(folder) => Some(folder),
        None => opened(rt, store)?,
    };
    match found {
        Some(folder) => locked(rt, folder),
        None => Ok(FolderLock { folder: None }),
    }
}

// The folder around the store's. Behind a link it is not that of the path.
fn opened_around<R: Files<File = File> + Alloc>(
    rt: &R,
    store: &str,
) -> Result<Option<File>, FileFault>
    ensures { IfErr result IsNotLocked }
{
    match fs::canonicalize(rt, store) {
        Ok(real) => opened(rt, around(real.as_path().as_str())),
        Err(error) if error.kind() == ErrorKind::NotFound => opened(rt, around(store)),
        Err(error) => none_unless_starved(error),
    }
}

fn around(path: &str) -> &str {
    match Path::new(path).parent() {
        Some(folder) if !folder.as_str().is_empty() => folder.as_str(),
        Some(_) => ".",
        None => path,
    }
}

// What stands there and is no folder is not even opened, since that alone may do something.
fn opened<R: Files<File = File>>(rt: &R, folder: &str) -> Result<Option<File>, FileFault>
    ensures { IfErr result IsNotLocked }
{
    let file = match fs::metadata(rt, folder) {
        Ok(found) if found.is_dir() => File::open(rt, folder),
        Ok(_) => return Ok(None),
        Err(error) => Err(error),
    };
    match file {
        Ok(file) => Ok(Some(file)),
        Err(error) => none_unless_starved(error),
    }
}

// What is wrong with a folder that cannot be opened shows when the store is made.
fn none_unless_starved(error: io::Error) -> Result<Option<File>, FileFault>
    ensures { IfErr result IsNotLocked }
{
    match error.kind() {
        ErrorKind::OutOfMemory => Err(not_locked(error)),
        _ => Ok(None),
    }
}

// Waits for the lock.
fn locked<R: Clock>(rt: &R, folder: File) -> Result<FolderLock, FileFault>
    ensures { IfErr result IsNotLocked }
{
    match is_locked(rt, &folder) {
        Some(true) => Ok(FolderLock {
            folder: Some(folder),
        }),
        Some(false) => Ok(FolderLock { folder: None }),
        None => Err(not_locked(io::Error::from(ErrorKind::WouldBlock))),
    }
}

// Whether the system locked it; none where another process holds it.
fn is_locked<R: Clock>(rt: &R, folder: &File) -> Option<bool> {
    for _ in 0..LOCK_TRIES {
        match folder.try_lock() {
            Ok(()) => return Some(true),
            Err(TryLockError::WouldBlock) => {
                thread::sleep(rt, Duration::from_millis(LOCK_WAIT));
            }
            Err(TryLockError::Error(_)) => return Some(false),
        }
    }
    None
}

fn not_locked(error: io::Error) -> FileFault
    ensures call { result.call ≡ FileCall.Lock }
    ensures error { result.error ≡ error }
{
    FileFault {
        call: FileCall::Lock,
        error,
    }
}
