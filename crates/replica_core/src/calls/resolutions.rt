//! Resolutions of conflicts.
ghost use Rattle.std.specs.Prelude.{◌≡◌, ◌⊎◌, Err, IfOk, option_copied};
ghost use Rattle.conflicts.specs.Document.{FitsDocument};
ghost use Rattle.conflicts.specs.Making.{resolved};
ghost use Rattle.replica_state.specs.Held.{meaning};
ghost use Rattle.replica_core.specs.Replica.{state_in};
ghost use Rattle.replica_core.specs.Calls.{IsDone};
ghost use Rattle.replica_core.specs.CallsDecide.{resolve_decides};
ghost use Rattle.replica_core.specs.CallsFaults.{resolve_failure};

use crate::calls::accepting::accept_made;
use crate::{CommitFault, Replica};
use conflicts::{Accept, ResolveFault, law_makings, law_members, resolve};
use content::Content;
use replica_state::State;
use std::alloc::Global;
use std::error::Error;
use std::fmt;
use u1_base::DocId;
use vector_rev::{Clock, Clocks};

/// Why a resolution was not made. The first five are refusals, tested in this order.
#[derive(Debug, PartialEq, Eq, Drop)]
pub enum ResolveDocFault {
    NoDocument,
    /// The document has one member.
    NotConflicted,
    /// No named revision is a member.
    NothingNamed,
    /// No named member has the greatest own counter among all members. The given revision is the
    /// first member that has it, the current one standing first.
    Unnamed(Clock),
    /// The own counter is 2^63-1, or the clock would have more than 64 entries.
    ClockFull,
    /// With the step the image would have `need` bytes, and it may have no more than `limit`.
    Full { need: u64, limit: u64 },
    /// A disk failed. The replica is closed; the step may have been written.
    Disk,
    Memory,
}

impl fmt::Display for ResolveDocFault {
    fn fmt<W: fmt::Write>(&self, f: &mut fmt::Formatter<W>) -> fmt::Result {
        match self {
            ResolveDocFault::NoDocument => f.write_str("there is no such document"),
            ResolveDocFault::NotConflicted => f.write_str("the document is not in conflict"),
            ResolveDocFault::NothingNamed => f.write_str("no named revision is in the conflict"),
            ResolveDocFault::Unnamed(_) => f.write_str(
                "a revision with the greatest own counter has to be named",
            ),
            ResolveDocFault::ClockFull => f.write_str("the clock is full"),
            ResolveDocFault::Full { need: _, limit: _ } => f.write_str(
                "the image would be too long",
            ),
            ResolveDocFault::Disk => f.write_str("a disk failed"),
            ResolveDocFault::Memory => f.write_str("out of memory"),
        }
    }
}

impl Error for ResolveDocFault {}

impl From<ResolveFault> for ResolveDocFault {
    ghost use Rattle.std.specs.Prelude.{◌≡◌};
    ghost use Rattle.replica_core.specs.CallsFaults.{resolve_refusal};

    ghost from_gives = { λ fault e. e ≡ resolve_refusal fault };

    fn from(fault: ResolveFault) -> ResolveDocFault {
        match fault {
            ResolveFault::NoDocument => ResolveDocFault::NoDocument,
            ResolveFault::NotConflicted => ResolveDocFault::NotConflicted,
            ResolveFault::NothingNamed => ResolveDocFault::NothingNamed,
            ResolveFault::Unnamed(leader) => ResolveDocFault::Unnamed(leader),
            ResolveFault::ClockFull => ResolveDocFault::ClockFull,
            ResolveFault::Memory => ResolveDocFault::Memory,
        }
    }
}

impl ResolveDocFault {
    ghost use Rattle.std.specs.Prelude.{◌≡◌};

    /// The failure of the commit that the fault is. None for a refusal.
    pub fn failure(&self) -> Option<CommitFault>
        ensures { result ≡ resolve_failure self.now }
    {
        match self {
            ResolveDocFault::NoDocument => None,
            ResolveDocFault::NotConflicted => None,
            ResolveDocFault::NothingNamed => None,
            ResolveDocFault::Unnamed(_) => None,
            ResolveDocFault::ClockFull => None,
            ResolveDocFault::Full { need, limit } => Some(CommitFault::Full {
                need: *need,
                limit: *limit,
            }),
            ResolveDocFault::Disk => Some(CommitFault::Disk),
            ResolveDocFault::Memory => Some(CommitFault::Memory),
        }
    }
}

impl From<CommitFault> for ResolveDocFault {
    ghost use Rattle.std.specs.Prelude.{◌≡◌};
    ghost use Rattle.replica_core.specs.CallsFaults.{resolve_failed};

    ghost from_gives = { λ fault e. e ≡ resolve_failed fault };

    fn from(fault: CommitFault) -> ResolveDocFault {
        match fault {
            CommitFault::Full { need, limit } => ResolveDocFault::Full { need, limit },
            CommitFault::Disk => ResolveDocFault::Disk,
            CommitFault::Memory => ResolveDocFault::Memory,
        }
    }
}

/// Resolves a conflict: the named members become one revision with the content, or without one
/// where it is none, and its clock is the answer. Named revisions that are no members are ignored.
///
/// The transaction id of the log's entry is made of the seed and the generation.
pub fn resolve_doc<R: Replica>(
    alloc: Global,
    replica: &mut R,
    seed: u128,
    id: &DocId,
    named: &Clocks,
    content: Option<&Content>,
) -> Result<Clock, ResolveDocFault>
    requires { R.is_open replica.old }
    ensures { IsDone R.known R.is_open R.crash resolve_failure
        (resolve_decides seed id.now named.now (option_copied content.entry)
        (state_in (R.known replica.old)))
        replica.old replica.new result }
{
    let resolution = resolution_of(alloc, replica.state(), id, named, content)?;
    Ok(accept_made(alloc, replica, seed, id, resolution)?)
}

// What a resolution makes of the document of the id.
fn resolution_of(
    alloc: Global,
    state: &State,
    id: &DocId,
    named: &Clocks,
    content: Option<&Content>,
) -> Result<Accept, ResolveFault>
    ensures made { (result ≡ Err ResolveFault.Memory)
        ⊎ (result ≡ resolved ((meaning state.now).document id.now) named.now
        (option_copied content.entry) state.now.uid) }
    ensures fits { IfOk result (FitsDocument ((meaning state.now).document id.now)) }
{
    law_makings();
    law_members();
    resolve(alloc, state.docs().get(id), named, content, state.uid())
}
