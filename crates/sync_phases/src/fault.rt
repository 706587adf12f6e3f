//! Why a session ends early.
use thiserror::Error;
use u1_base::{Memory, Position};

/// Why a session ends before it is complete. The steps that were made stay.
#[derive(Debug, Error, Drop)]
pub enum SyncFault {
    /// No whole reply came back.
    #[error("the link failed")]
    Link,
    /// The reply has this status, which is not 200.
    #[error("the peer answers with status {0}")]
    Peer(u16),
    /// The line of this number of the reply is not as it must be, 0 for its head. A body that is no
    /// stream is line 1.
    #[error("line {0} of the reply is not as it must be")]
    Broken(u64),
    /// A position of the peer does not fit the log, goes back, or has another transaction id.
    #[error("a position of the peer does not fit")]
    LogCheck {
        /// The position that this replica has.
        mine: Position,
        /// The position that the peer gave.
        theirs: Position,
    },
    /// With the next step the image would have `need` bytes, and it may have no more than `limit`.
    #[error("the image would have {need} bytes of {limit}")]
    Full {
        need: u64,
        limit: u64,
    },
    /// A disk failed. The replica is closed.
    #[error("a disk failed")]
    Disk,
    #[error("out of memory")]
    Memory,
}

impl From<Memory> for SyncFault {
    ghost use Rattle.std.specs.Prelude.{◌≡◌};
    ghost use Rattle.sync_phases.specs.declared.fault.SyncFault.TheVariants as sync;

    ghost from_gives = { λ _ e. e ≡ sync.Memory };

    fn from(_memory: Memory) -> SyncFault {
        SyncFault::Memory
    }
}
