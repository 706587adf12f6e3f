//! Why bytes are no stream.
use std::fmt;
use thiserror::Error;
use u1_base::Memory;

/// Why a line is none of a stream. Lines count from 1, the line `[`.
#[derive(Clone, Copy, Debug, PartialEq, Eq, Error)]
pub enum LineFault {
    /// It is not as it must be, or it is missing.
    #[error("line {0} of the stream is not as it must be")]
    At(u64),
    /// It has more than 33,554,432 bytes before its CR LF.
    #[error("line {0} of the stream is too long")]
    TooLong(u64),
}

/// Why a call of a reader failed.
#[derive(Clone, Copy, Debug, PartialEq, Eq, Error)]
pub enum StreamFault {
    /// The line of this number is not as it must be, or it is missing.
    #[error("line {0} of the stream is not as it must be")]
    At(u64),
    /// The line of this number has more than 33,554,432 bytes before its CR LF.
    #[error("line {0} of the stream is too long")]
    TooLong(u64),
    #[error("out of memory")]
    Memory,
}

impl From<LineFault> for StreamFault {
    ghost use Rattle.std.specs.Prelude.{◌≡◌};
    ghost use Rattle.sync_stream.specs.Stream.{answered};

    ghost from_gives = { λ fault answer. answer ≡ answered fault };

    fn from(fault: LineFault) -> StreamFault {
        match fault {
            LineFault::At(number) => StreamFault::At(number),
            LineFault::TooLong(number) => StreamFault::TooLong(number),
        }
    }
}

impl From<Memory> for StreamFault {
    ghost use Rattle.std.specs.Prelude.{◌≡◌};
    ghost use Rattle.sync_stream.specs.declared.fault.StreamFault.TheVariants as fault;

    ghost from_gives = { λ _ answer. answer ≡ fault.Memory };

    fn from(_memory: Memory) -> StreamFault {
        StreamFault::Memory
    }
}
