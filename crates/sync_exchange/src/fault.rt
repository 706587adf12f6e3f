//! Why a target does not go on with what a source asks.
use replica_core::{CommitFault, TakeFault};
use thiserror::Error;
use u1_base::{Memory, Position};

/// Why a document or a position of a source was not taken.
#[derive(Debug, Error, Drop)]
pub enum ExchangeFault {
    /// The position does not fit: it is not in the log, or goes back behind the one that was told.
    #[error("a position of the source does not fit")]
    LogCheck {
        /// The position that the source gave.
        asked: Position,
        /// The one that stands here.
        mine: Position,
    },
    /// With the step the image would have `need` bytes, and it may have no more than `limit`.
    #[error("the image would have {need} bytes of {limit}")]
    Full {
        need: u64,
        limit: u64,
    },
    /// A disk failed. The replica is closed; the step may have been written.
    #[error("a disk failed")]
    Disk,
    #[error("out of memory")]
    Memory,
}

impl From<Memory> for ExchangeFault {
    ghost use Rattle.std.specs.Prelude.{◌≡◌};
    ghost use Rattle.sync_exchange.specs.declared.fault.ExchangeFault.TheVariants as fault;

    ghost from_gives = { λ _ e. e ≡ fault.Memory };

    fn from(_memory: Memory) -> ExchangeFault {
        ExchangeFault::Memory
    }
}

impl From<TakeFault> for ExchangeFault {
    ghost use Rattle.std.specs.Prelude.{◌≡◌};
    ghost use Rattle.sync_exchange.specs.Faults.{exchange_fault};

    ghost from_gives = { λ fault e. e ≡ exchange_fault fault };

    fn from(fault: TakeFault) -> ExchangeFault {
        match fault {
            TakeFault::LogCheck { mine, theirs } => ExchangeFault::LogCheck {
                asked: theirs,
                mine,
            },
            TakeFault::Full { need, limit } => ExchangeFault::Full { need, limit },
            TakeFault::Disk => ExchangeFault::Disk,
            TakeFault::Memory => ExchangeFault::Memory,
        }
    }
}

impl ExchangeFault {
    ghost use Rattle.std.specs.Prelude.{◌≡◌};
    ghost use Rattle.sync_exchange.specs.Faults.{exchange_failure};

    /// The failure of the step that the fault is. None for a refusal.
    pub fn failure(&self) -> Option<CommitFault>
        ensures { result ≡ exchange_failure self.now }
    {
        match self {
            ExchangeFault::LogCheck { asked: _, mine: _ } => None,
            ExchangeFault::Full { need, limit } => Some(CommitFault::Full {
                need: *need,
                limit: *limit,
            }),
            ExchangeFault::Disk => Some(CommitFault::Disk),
            ExchangeFault::Memory => Some(CommitFault::Memory),
        }
    }
}
