//! Where bytes go.
ghost use Rattle.std.specs.Prelude.{◌≡◌, false, OnOk, OnErr};
ghost use Rattle.std.specs.Io.KnownBytes.{Appends, Keeps};
ghost use Rattle.u1_base.specs.Causes.{HasCause};
ghost use Rattle.link.specs.Streams.{AppendsFront, Output};

use std::error::Error;
use std::fmt;

/// A write failed, and the sink counted a fault.
#[derive(Clone, Copy, Debug, PartialEq, Eq)]
pub struct WriteFailed;

impl fmt::Display for WriteFailed {
    fn fmt<W: fmt::Write>(&self, f: &mut fmt::Formatter<W>) -> fmt::Result {
        f.write_str("a write failed")
    }
}

impl Error for WriteFailed {}

/// A stream that takes bytes.
pub trait Sink {
    /// The bytes that were taken, where told; whether some of them may still be held back; and how
    /// many calls failed. That number never falls.
    ghost known: { Self → Output };

    /// What a put leaves alone of an object that is more than a sink.
    ghost put_keeps: { Self → Self → Type 0 };

    /// Takes the whole piece. After a failure a front of it was taken.
    fn put(&mut self, piece: &[u8]) -> Result<(), WriteFailed>
        ensures ok { OnOk result (Appends (known self.old).taken (known self.new).taken piece.now) }
        ensures err { OnErr result
            (AppendsFront (known self.old).taken (known self.new).taken piece.now) }
        ensures cause { HasCause (known self.old).faults (known self.new).faults result }
        ensures keeps { put_keeps self.old self.new };

    /// Hands on what was taken and is still held back. Only after it is a failure of the device
    /// known.
    fn flush(&mut self) -> Result<(), WriteFailed>
        ensures handed_on { OnOk result ((known self.new).held ≡ false) }
        ensures same { Keeps (known self.old).taken (known self.new).taken }
        ensures cause { HasCause (known self.old).faults (known self.new).faults result }
        ensures keeps { put_keeps self.old self.new };
}
