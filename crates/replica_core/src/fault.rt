//! Why a commit fails.
use std::error::Error;
use std::fmt;
use u1_base::Memory;

/// Why a step was not committed.
#[derive(Clone, Copy, Debug, PartialEq, Eq)]
pub enum CommitFault {
    /// With the step the image would have `need` bytes, and it may have no more than `limit`.
    Full { need: u64, limit: u64 },
    /// A disk failed. The replica is closed; the step may have been written.
    Disk,
    Memory,
}

impl fmt::Display for CommitFault {
    fn fmt<W: fmt::Write>(&self, f: &mut fmt::Formatter<W>) -> fmt::Result {
        match self {
            CommitFault::Full { need: _, limit: _ } => f.write_str("the image would be too long"),
            CommitFault::Disk => f.write_str("a disk failed"),
            CommitFault::Memory => f.write_str("out of memory"),
        }
    }
}

impl Error for CommitFault {}

impl From<Memory> for CommitFault {
    ghost use Rattle.std.specs.Prelude.{◌≡◌};
    ghost use Rattle.replica_core.specs.declared.fault.CommitFault.TheVariants as fault;

    ghost from_gives = { λ _ e. e ≡ fault.Memory };

    fn from(_memory: Memory) -> CommitFault {
        CommitFault::Memory
    }
}
