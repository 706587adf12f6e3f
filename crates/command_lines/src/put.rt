//! Handing a text to a sink, piece by piece.
ghost use Rattle.std.specs.List.{flat_map};
ghost use Rattle.command_lines.specs.Puts.{Puts};

use link::{Sink, WriteFailed};
use std::error::Error;
use std::fmt;
use u1_base::Memory;

/// Why a text was not printed. A front of it was.
#[derive(Clone, Copy, Debug, PartialEq, Eq)]
pub enum PrintFault {
    /// The sink failed.
    Sink,
    Memory,
}

impl fmt::Display for PrintFault {
    fn fmt<W: fmt::Write>(&self, f: &mut fmt::Formatter<W>) -> fmt::Result {
        match self {
            PrintFault::Sink => f.write_str("the output failed"),
            PrintFault::Memory => f.write_str("out of memory"),
        }
    }
}

impl Error for PrintFault {}

impl From<Memory> for PrintFault {
    ghost use Rattle.std.specs.Prelude.{◌≡◌};
    ghost use Rattle.command_lines.specs.declared.put.PrintFault.TheVariants as fault;

    ghost from_gives = { λ _ e. e ≡ fault.Memory };

    fn from(_memory: Memory) -> PrintFault {
        PrintFault::Memory
    }
}

impl From<WriteFailed> for PrintFault {
    ghost use Rattle.std.specs.Prelude.{◌≡◌};
    ghost use Rattle.command_lines.specs.declared.put.PrintFault.TheVariants as fault;

    ghost from_gives = { λ _ e. e ≡ fault.Sink };

    fn from(_failed: WriteFailed) -> PrintFault {
        PrintFault::Sink
    }
}

/// Prints the pieces, one after the other.
pub fn put_all<K: Sink>(out: &mut K, pieces: &[&[u8]]) -> Result<(), PrintFault>
    ensures { Puts (flat_map (λ piece. piece.now) pieces.now)
        (K.known out.old) (K.known out.new) result }
{
    for piece in pieces {
        out.put(piece)?;
    }
    Ok(())
}
