//! The standard streams: what stands in the place of a closed one, and a limit on what is written
//! to a file.
use disk_model::greatest_file_size;
use std::fs::{self, File};
use std::io::{self, ErrorKind, Write};
use std::os::fd::{AsFd, BorrowedFd};

/// What stands in the places of the standard streams that were closed when the program began.
///
/// The system gives the lowest free number to the next file that is opened. Without these that
/// would be the store's file, and what is printed would go into it.
#[derive(Drop)]
pub struct Held {
    input: Option<File>,
    output: Option<File>,
    errors: Option<File>,
}

/// Opens the root folder in the place of each standard stream that is closed. Every read and write
/// of it fails.
pub fn hold_closed(rt: &HostRuntime) -> io::Result<Held> {
    Ok(Held {
        input: hold(rt, rt.stdin().as_fd())?,
        output: hold(rt, rt.stdout().as_fd())?,
        errors: hold(rt, rt.stderr().as_fd())?,
    })
}

// A stream is closed where it cannot be doubled. Those before it are open or held by now, so its
// number is the lowest free one.
fn hold(rt: &HostRuntime, stream: BorrowedFd<'_>) -> io::Result<Option<File>> {
    if stream.try_clone_to_owned().is_ok() {
        return Ok(None);
    }
    Ok(Some(File::open(rt, "/")?))
}

// So many bytes are taken at a time.
const PIECE_BYTES: usize = 4096;

/// A writer that takes at most 4 KiB at a time. A buffer of 8 KiB behind it, which is handed on
/// when the next piece does not fit, is then more than half full.
#[derive(Drop)]
pub struct InPieces<W: Write + Drop> {
    to: W,
}

impl<W: Write + Drop> InPieces<W> {
    pub fn new(to: W) -> InPieces<W> {
        InPieces { to }
    }
}

impl<W: Write + Drop> Write for InPieces<W> {
    fn write(&mut self, buf: &[u8]) -> io::Result<usize> {
        let most = buf.len().min(PIECE_BYTES);
        self.to.write(&buf[..most])
    }

    fn flush(&mut self) -> io::Result<()> {
        self.to.flush()
    }
}

/// A writer to a standard stream. Where that is a file which may not grow so far, a write fails
/// before the system would end the program by a signal.
#[derive(Drop)]
pub struct Output<W: Write + Drop> {
    to: W,
    // How many bytes may be added.
    room: u64,
}

impl<W: Write + Drop> Output<W> {
    /// To the stream that has this entry in the system's list of open files.
    pub fn new(rt: &HostRuntime, to: W, entry: &str) -> Output<W> {
        let room = match fs::metadata(rt, entry) {
            Ok(found) if found.is_file() => greatest_file_size(rt).saturating_sub(found.len()),
            _ => u64::MAX,
        };
        Output { to, room }
    }
}

impl<W: Write + Drop> Write for Output<W> {
    fn write(&mut self, buf: &[u8]) -> io::Result<usize> {
        let room = usize::try_from(self.room).unwrap_or(usize::MAX);
        let most = room.min(buf.len());
        if most == 0 && !buf.is_empty() {
            return Err(io::Error::from(ErrorKind::FileTooLarge));
        }
        let count = self.to.write(&buf[..most])?;
        self.room = self.room.saturating_sub(count as u64);
        Ok(count)
    }

    fn flush(&mut self) -> io::Result<()> {
        self.to.flush()
    }
}
