//! Where bytes come from.
ghost use Rattle.std.specs.Prelude.{◌≡◌, ◌≤◌, IfOk, OnOk, length};
ghost use Rattle.std.specs.Io.KnownBytes.{ReadConsumes};
ghost use Rattle.u1_base.specs.Causes.{HasCause};
ghost use Rattle.link.specs.Streams.{Input};

use std::error::Error;
use std::fmt;

/// A read failed, and the source counted a fault.
#[derive(Clone, Copy, Debug, PartialEq, Eq)]
pub struct ReadFailed;

impl fmt::Display for ReadFailed {
    fn fmt<W: fmt::Write>(&self, f: &mut fmt::Formatter<W>) -> fmt::Result {
        f.write_str("a read failed")
    }
}

impl Error for ReadFailed {}

/// A stream of bytes that are read once.
pub trait Source {
    /// The bytes that are left, where told, and how many reads failed. That number never falls.
    ghost known: { Self → Input };

    /// What a read leaves alone of an object that is more than a source.
    ghost read_keeps: { Self → Self → Type 0 };

    /// Gives the next bytes, at least one; none only at the end, or into no room. After a failure
    /// all is left as it was.
    fn read(&mut self, into: &mut [u8]) -> Result<usize, ReadFailed>
        ensures within { IfOk result (λ n. n ≤ length into.new) }
        ensures bytes { ReadConsumes (known self.old).left (known self.new).left result into.new }
        ensures cause { HasCause (known self.old).faults (known self.new).faults result }
        ensures faultless { OnOk result ((known self.new).faults ≡ (known self.old).faults) }
        ensures keeps { read_keeps self.old self.new };
}
