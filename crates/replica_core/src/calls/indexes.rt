//! Indexes that are created and deleted.
ghost use Rattle.std.specs.Prelude.{◌≡◌, ◌↔◌, Err, IfNone, IsSome, IsTrue, None, Ok, Some};
ghost use Rattle.std.specs.Prelude.{if◌then◌else◌, map};
ghost use Rattle.std.specs.Option.{option_map};
ghost use Rattle.conflicts.specs.State.{IndexCreated, IndexDeleted};
ghost use Rattle.expr_parser.specs.FormOf.{form_of};
ghost use Rattle.replica_state.specs.Held.{meaning};
ghost use Rattle.replica_core.specs.Replica.{state_in};
ghost use Rattle.conflicts.specs.Writing.{Answers, same_exprs};
ghost use Rattle.replica_core.specs.Calls.{IsDone};
ghost use Rattle.replica_core.specs.CallsDecide.{create_decides, delete_index_decides};
ghost use Rattle.replica_core.specs.CallsFaults.{commit_failure, index_failure};

use crate::calls::committing::commit_for;
use crate::{CommitFault, Replica};
use expr_parser::{Expr, law_index_texts};
use replica_state::{IndexExprs, State, Step};
use std::error::Error;
use std::fmt;
use u1_base::IndexName;

/// Why an index was not created or deleted.
#[derive(Clone, Copy, Debug, PartialEq, Eq)]
pub enum IndexFault {
    /// To be created: an index of the name is there, with other expressions.
    IndexTaken,
    /// To be deleted: no index of the name is there.
    IndexUnknown,
    /// With the step the image would have `need` bytes, and it may have no more than `limit`.
    Full { need: u64, limit: u64 },
    /// A disk failed. The replica is closed; the step may have been written.
    Disk,
    Memory,
}

impl fmt::Display for IndexFault {
    fn fmt<W: fmt::Write>(&self, f: &mut fmt::Formatter<W>) -> fmt::Result {
        match self {
            IndexFault::IndexTaken => f.write_str("an index of this name has other expressions"),
            IndexFault::IndexUnknown => f.write_str("there is no such index"),
            IndexFault::Full { need: _, limit: _ } => f.write_str("the image would be too long"),
            IndexFault::Disk => f.write_str("a disk failed"),
            IndexFault::Memory => f.write_str("out of memory"),
        }
    }
}

impl Error for IndexFault {}

impl IndexFault {
    ghost use Rattle.std.specs.Prelude.{◌≡◌};

    /// The failure of the commit that the fault is. None for a refusal.
    pub fn failure(&self) -> Option<CommitFault>
        ensures { result ≡ index_failure self.now }
    {
        match self {
            IndexFault::IndexTaken => None,
            IndexFault::IndexUnknown => None,
            IndexFault::Full { need, limit } => Some(CommitFault::Full {
                need: *need,
                limit: *limit,
            }),
            IndexFault::Disk => Some(CommitFault::Disk),
            IndexFault::Memory => Some(CommitFault::Memory),
        }
    }
}

impl From<CommitFault> for IndexFault {
    ghost use Rattle.std.specs.Prelude.{◌≡◌};
    ghost use Rattle.replica_core.specs.CallsFaults.{index_failed};

    ghost from_gives = { λ fault e. e ≡ index_failed fault };

    fn from(fault: CommitFault) -> IndexFault {
        match fault {
            CommitFault::Full { need, limit } => IndexFault::Full { need, limit },
            CommitFault::Disk => IndexFault::Disk,
            CommitFault::Memory => IndexFault::Memory,
        }
    }
}

/// Creates an index over all documents. An index of the name that has the same expressions is
/// accepted as it is.
pub fn create_index<R: Replica>(
    replica: &mut R,
    name: &IndexName,
    exprs: IndexExprs,
) -> Result<(), IndexFault>
    requires { R.is_open replica.old }
    ensures { IsDone R.known R.is_open R.crash index_failure
        (create_decides name.now exprs.texts (state_in (R.known replica.old)))
        replica.old replica.new result }
{
    match is_alike(replica.state(), name, &exprs) {
        Some(alike) => accept_alike(alike),
        None => Ok(add_index(replica, name, exprs)?),
    }
}

/// Deletes the index of the name.
pub fn delete_index<R: Replica>(replica: &mut R, name: &IndexName) -> Result<(), IndexFault>
    requires { R.is_open replica.old }
    ensures { IsDone R.known R.is_open R.crash index_failure
        (delete_index_decides name.now (state_in (R.known replica.old)))
        replica.old replica.new result }
{
    if replica.state().index_table(name).is_none() {
        return Err(IndexFault::IndexUnknown);
    }
    Ok(drop_index(replica, name)?)
}

// An index that is there is accepted where it has the same expressions.
fn accept_alike(alike: bool) -> Result<(), IndexFault>
    ensures { result ≡ if alike then Ok tt else Err IndexFault.IndexTaken }
{
    if alike {
        Ok(())
    } else {
        Err(IndexFault::IndexTaken)
    }
}

fn add_index<R: Replica>(
    replica: &mut R,
    name: &IndexName,
    exprs: IndexExprs,
) -> Result<(), CommitFault>
    requires ready { R.is_open replica.old }
    requires absent { (state_in (R.known replica.old)).index name.now ≡ None }
    ensures { IsDone R.known R.is_open R.crash commit_failure
        (Answers tt (Some (IndexCreated name.now exprs.texts)))
        replica.old replica.new result }
{
    let name = name.copy()?;
    commit_for(replica, Some(Step::IndexCreate { name, exprs }), ())
}

fn drop_index<R: Replica>(replica: &mut R, name: &IndexName) -> Result<(), CommitFault>
    requires ready { R.is_open replica.old }
    requires there { IsSome ((state_in (R.known replica.old)).index name.now) }
    ensures { IsDone R.known R.is_open R.crash commit_failure
        (Answers tt (Some (IndexDeleted name.now)))
        replica.old replica.new result }
{
    let name = name.copy()?;
    commit_for(replica, Some(Step::IndexDelete { name }), ())
}

// Whether the index of the name has these expressions. None where there is no such index.
fn is_alike(state: &State, name: &IndexName, exprs: &IndexExprs) -> Option<bool>
    ensures value { result ≡ option_map (λ kept. same_exprs kept exprs.now.texts)
        ((meaning state.now).index name.now) }
    ensures none { IfNone result ((meaning state.now).index name.now ≡ None) }
{
    match state.index_table(name) {
        Some(index) => Some(have_same_texts(index.exprs(), exprs)),
        None => None,
    }
}

fn have_same_texts(kept: &IndexExprs, exprs: &IndexExprs) -> bool
    ensures { result ≡ same_exprs kept.now.texts exprs.now.texts }
{
    law_index_texts();
    are_same(kept.as_slice(), exprs.as_slice())
}

fn are_same(kept: &[Expr], exprs: &[Expr]) -> bool
    ensures { IsTrue result ↔ (map form_of kept.now ≡ map form_of exprs.now) }
{
    if kept.len() != exprs.len() {
        return false;
    }
    for place in 0..kept.len() {
        if !kept[place].same(&exprs[place]) {
            return false;
        }
    }
    true
}
