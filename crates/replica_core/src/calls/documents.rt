//! Edits and deletions.
ghost use Rattle.std.specs.Prelude.{◌≡◌, ◌⊎◌, Err, IfOk, option_copied};
ghost use Rattle.conflicts.specs.Document.{FitsDocument};
ghost use Rattle.conflicts.specs.Making.{deleted, edited};
ghost use Rattle.replica_state.specs.Held.{meaning};
ghost use Rattle.replica_core.specs.Replica.{state_in};
ghost use Rattle.replica_core.specs.Calls.{IsDone};
ghost use Rattle.replica_core.specs.CallsDecide.{delete_decides, put_decides};
ghost use Rattle.replica_core.specs.CallsFaults.{put_failure};

use crate::calls::accepting::accept_made;
use crate::{CommitFault, Replica};
use conflicts::{Accept, EditFault, delete, edit, law_makings, law_members};
use content::Content;
use replica_state::State;
use std::alloc::Global;
use std::error::Error;
use std::fmt;
use u1_base::DocId;
use vector_rev::Clock;

/// Why an edit or a deletion was not made. The first five are refusals, tested in this order.
#[derive(Debug, PartialEq, Eq, Drop)]
pub enum PutFault {
    /// There is no document, and a revision was named.
    NoDocument,
    /// The document has more than one member.
    Conflicted,
    /// The given revision is the current one, and another one was named, or none although the
    /// document is live.
    RevisionConflict(Clock),
    /// The current member has no content already.
    AlreadyDeleted,
    /// The own counter is 2^63-1, or its entry would be the 65th.
    ClockFull,
    /// With the step the image would have `need` bytes, and it may have no more than `limit`.
    Full { need: u64, limit: u64 },
    /// A disk failed. The replica is closed; the step may have been written.
    Disk,
    Memory,
}

impl fmt::Display for PutFault {
    fn fmt<W: fmt::Write>(&self, f: &mut fmt::Formatter<W>) -> fmt::Result {
        match self {
            PutFault::NoDocument => f.write_str("there is no such document"),
            PutFault::Conflicted => f.write_str("the document is in conflict"),
            PutFault::RevisionConflict(_) => f.write_str("another revision is the current one"),
            PutFault::AlreadyDeleted => f.write_str("the document is deleted already"),
            PutFault::ClockFull => f.write_str("the clock is full"),
            PutFault::Full { need: _, limit: _ } => f.write_str("the image would be too long"),
            PutFault::Disk => f.write_str("a disk failed"),
            PutFault::Memory => f.write_str("out of memory"),
        }
    }
}

impl Error for PutFault {}

impl From<EditFault> for PutFault {
    ghost use Rattle.std.specs.Prelude.{◌≡◌};
    ghost use Rattle.replica_core.specs.CallsFaults.{put_refusal};

    ghost from_gives = { λ fault e. e ≡ put_refusal fault };

    fn from(fault: EditFault) -> PutFault {
        match fault {
            EditFault::NoDocument => PutFault::NoDocument,
            EditFault::Conflicted => PutFault::Conflicted,
            EditFault::RevisionConflict(current) => PutFault::RevisionConflict(current),
            EditFault::AlreadyDeleted => PutFault::AlreadyDeleted,
            EditFault::ClockFull => PutFault::ClockFull,
            EditFault::Memory => PutFault::Memory,
        }
    }
}

impl PutFault {
    ghost use Rattle.std.specs.Prelude.{◌≡◌};

    /// The failure of the commit that the fault is. None for a refusal.
    pub fn failure(&self) -> Option<CommitFault>
        ensures { result ≡ put_failure self.now }
    {
        match self {
            PutFault::NoDocument => None,
            PutFault::Conflicted => None,
            PutFault::RevisionConflict(_) => None,
            PutFault::AlreadyDeleted => None,
            PutFault::ClockFull => None,
            PutFault::Full { need, limit } => Some(CommitFault::Full {
                need: *need,
                limit: *limit,
            }),
            PutFault::Disk => Some(CommitFault::Disk),
            PutFault::Memory => Some(CommitFault::Memory),
        }
    }
}

impl From<CommitFault> for PutFault {
    ghost use Rattle.std.specs.Prelude.{◌≡◌};
    ghost use Rattle.replica_core.specs.CallsFaults.{put_failed};

    ghost from_gives = { λ fault e. e ≡ put_failed fault };

    fn from(fault: CommitFault) -> PutFault {
        match fault {
            CommitFault::Full { need, limit } => PutFault::Full { need, limit },
            CommitFault::Disk => PutFault::Disk,
            CommitFault::Memory => PutFault::Memory,
        }
    }
}

/// Gives the document a content, and answers its new revision. `rev` names the revision that the
/// edit changes; an edit that makes a document, or that gives a deleted one a content again, may
/// name none.
///
/// The transaction id of the log's entry is made of the seed and the generation.
pub fn put_doc<R: Replica>(
    alloc: Global,
    replica: &mut R,
    seed: u128,
    id: &DocId,
    rev: Option<&Clock>,
    content: &Content,
) -> Result<Clock, PutFault>
    requires { R.is_open replica.old }
    ensures { IsDone R.known R.is_open R.crash put_failure
        (put_decides seed id.now (option_copied rev.entry) content.now
        (state_in (R.known replica.old)))
        replica.old replica.new result }
{
    let edit = edit_of(alloc, replica.state(), id, rev, content)?;
    Ok(accept_made(alloc, replica, seed, id, edit)?)
}

/// Deletes the document, and answers its new revision. `rev` names the revision that is deleted.
pub fn delete_doc<R: Replica>(
    alloc: Global,
    replica: &mut R,
    seed: u128,
    id: &DocId,
    rev: &Clock,
) -> Result<Clock, PutFault>
    requires { R.is_open replica.old }
    ensures { IsDone R.known R.is_open R.crash put_failure
        (delete_decides seed id.now rev.now (state_in (R.known replica.old)))
        replica.old replica.new result }
{
    let deletion = deletion_of(alloc, replica.state(), id, rev)?;
    Ok(accept_made(alloc, replica, seed, id, deletion)?)
}

// What an edit makes of the document of the id.
fn edit_of(
    alloc: Global,
    state: &State,
    id: &DocId,
    rev: Option<&Clock>,
    content: &Content,
) -> Result<Accept, EditFault>
    ensures made { (result ≡ Err EditFault.Memory)
        ⊎ (result ≡ edited ((meaning state.now).document id.now)
        (option_copied rev.entry) content.now state.now.uid) }
    ensures fits { IfOk result (FitsDocument ((meaning state.now).document id.now)) }
{
    law_makings();
    law_members();
    edit(alloc, state.docs().get(id), rev, content, state.uid())
}

// What a deletion makes of the document of the id.
fn deletion_of(alloc: Global, state: &State, id: &DocId, rev: &Clock) -> Result<Accept, EditFault>
    ensures made { (result ≡ Err EditFault.Memory)
        ⊎ (result ≡ deleted ((meaning state.now).document id.now) rev.now state.now.uid) }
    ensures fits { IfOk result (FitsDocument ((meaning state.now).document id.now)) }
{
    law_makings();
    law_members();
    delete(alloc, state.docs().get(id), rev, state.uid())
}
