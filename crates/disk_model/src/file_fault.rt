//! Why a call on a real file failed, in words for people.
ghost use Rattle.std.specs.Prelude.{◌≡◌, option_map};
ghost use Rattle.disk_model.specs.Faults.{reason_text, tried_text};

use std::error::Error;
use std::io::ErrorKind;
use std::{fmt, io};

/// What was tried with a file.
#[derive(Clone, Copy, Debug, PartialEq, Eq)]
pub enum FileCall {
    Open,
    Lock,
    Make,
    MakeFolder,
    Read,
    Write,
    Cut,
    Sync,
    SyncName,
}

/// A failed call: what was tried, and the system's reason.
#[derive(Clone, Copy, Debug)]
pub struct FileFault {
    pub call: FileCall,
    pub error: io::Error,
}

impl FileFault {
    /// The value of a call, or its failure with what was tried.
    pub(crate) fn of<T: Drop>(call: FileCall, done: io::Result<T>) -> Result<T, FileFault> {
        match done {
            Ok(value) => Ok(value),
            Err(error) => Err(FileFault { call, error }),
        }
    }
}

impl fmt::Display for FileFault {
    ghost use Rattle.disk_model.specs.Faults.{file_fault_text};

    ghost output = { file_fault_text };

    fn fmt<W: fmt::Write>(&self, f: &mut fmt::Formatter<W>) -> fmt::Result {
        f.write_str(tried(self.call))?;
        match reason(self.call, self.error.kind()) {
            Some(words) => f.write_str(words),
            None => fmt::Display::fmt(&self.error, f),
        }
    }
}

impl Error for FileFault {}

fn tried(call: FileCall) -> &'static str
    ensures { result.now ≡ tried_text call }
{
    match call {
        FileCall::Open => "it cannot be opened: ",
        FileCall::Lock => "it cannot be locked: ",
        FileCall::Make => "it cannot be made: ",
        FileCall::MakeFolder => "its folder cannot be made: ",
        FileCall::Read => "it cannot be read: ",
        FileCall::Write => "it cannot be written: ",
        FileCall::Cut => "it cannot be cut: ",
        FileCall::Sync => "it cannot be synced: ",
        FileCall::SyncName => "its name cannot be synced: ",
    }
}

// The reasons for which there are plainer words than the system's.
fn reason(call: FileCall, kind: ErrorKind) -> Option<&'static str>
    ensures { option_map (λ words. words.now) result ≡ reason_text call kind }
{
    match kind {
        ErrorKind::WouldBlock if call == FileCall::Lock => Some("another process holds the store"),
        ErrorKind::NotFound => Some("no such folder"),
        ErrorKind::ReadOnlyFilesystem => Some("read-only file system"),
        ErrorKind::StorageFull => Some("no room"),
        ErrorKind::OutOfMemory => Some("no memory"),
        _ => None,
    }
}
