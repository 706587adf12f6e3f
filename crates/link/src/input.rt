//! Reading an input to its end, or to a limit.
ghost use Rattle.std.specs.Prelude.{◌≤◌, ◌<◌, IfOk, OnErr};
ghost use Rattle.u1_base.specs.Causes.{HasCauseOf};
ghost use Rattle.link.specs.Streams.{CountStands, Reads};
ghost use Rattle.link.specs.Pieces.{AddsNext, Loses};

use crate::Source;
use std::alloc::Global;
use std::error::Error;
use std::fmt;
use u1_base::{Bytes, Memory};

/// Why an input could not be read.
#[derive(Clone, Copy, Debug, PartialEq, Eq)]
pub enum InputFault {
    /// A read failed.
    Source,
    Memory,
}

impl fmt::Display for InputFault {
    fn fmt<W: fmt::Write>(&self, f: &mut fmt::Formatter<W>) -> fmt::Result {
        match self {
            InputFault::Source => f.write_str("a read of the input failed"),
            InputFault::Memory => f.write_str("out of memory"),
        }
    }
}

impl Error for InputFault {}

impl From<Memory> for InputFault {
    ghost use Rattle.std.specs.Prelude.{◌≡◌};
    ghost use Rattle.link.specs.declared.input.InputFault.TheVariants as fault;

    ghost from_gives = { λ _ e. e ≡ fault.Memory };

    fn from(_memory: Memory) -> InputFault {
        InputFault::Memory
    }
}

// How much is read at once, in bytes.
const PIECE: usize = 4096;

/// Reads the source to its end, or its first `most` bytes, and no byte more.
pub fn read_at_most<S: Source>(
    alloc: Global,
    source: &mut S,
    most: usize,
) -> Result<Bytes, InputFault>
    ensures reads { Reads most (S.known source.old) (S.known source.new) result }
    ensures cause { HasCauseOf InputFault.Source
        (S.known source.old).faults (S.known source.new).faults result }
    ensures faultless { CountStands (S.known source.old).faults (S.known source.new).faults result }
{
    let mut bytes = Bytes::new(alloc);
    while bytes.len() < most {
        let room = PIECE.min(most - bytes.len());
        if read_piece(source, &mut bytes, room)? == 0 {
            break;
        }
    }
    Ok(bytes)
}

// Reads the next bytes, at most as many as there is room for, and adds them; none only at the end.
fn read_piece<S: Source>(
    source: &mut S,
    bytes: &mut Bytes,
    room: usize,
) -> Result<usize, InputFault>
    requires some { 0 < room }
    requires few { room ≤ PIECE }
    ensures added { IfOk result (λ n. (n ≤ room)
        × AddsNext (S.known source.old).left (S.known source.new).left bytes.old bytes.new n) }
    ensures lost { OnErr result (Loses room (S.known source.old).left (S.known source.new).left) }
    ensures cause { HasCauseOf InputFault.Source
        (S.known source.old).faults (S.known source.new).faults result }
    ensures faultless { CountStands (S.known source.old).faults (S.known source.new).faults result }
{
    let mut piece = [0; PIECE];
    match source.read(&mut piece[..room]) {
        Ok(count) => {
            bytes.extend(&piece[..count])?;
            Ok(count)
        }
        Err(_) => Err(InputFault::Source),
    }
}
