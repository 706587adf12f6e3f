//! Reads and writes that a signal may interrupt.
ghost use Rattle.std.specs.Prelude.{◌≤◌, IfOk, length};

use std::io::{self, ErrorKind, Read};

/// Reads once, again where a signal interrupts it.
pub(crate) fn read_some<T: Read>(stream: &mut T, into: &mut [u8]) -> io::Result<usize>
    ensures { IfOk result (λ n. n ≤ length into.new) }
{
    for _ in 0..u64::MAX {
        match stream.read(into) {
            Ok(count) => return Ok(count),
            Err(error) => {
                if error.kind() != ErrorKind::Interrupted {
                    return Err(error);
                }
            }
        }
    }
    Err(io::Error::from(ErrorKind::TimedOut))
}
