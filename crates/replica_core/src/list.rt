//! A list of calls on a replica.
ghost use Rattle.std.specs.Prelude.{◌≡◌, ◌+◌, ◌<◌, ◌≤◌, ◌++◌, ◌∷◌, [], Err, IfOk, OnErr, Ok, Some};
ghost use Rattle.std.specs.Prelude.{map, not, vec_capacity, vec_len};
ghost use Rattle.expr_parser.specs.FormOf.{form_of};
ghost use Rattle.replica_core.specs.Replica.{state_in};
ghost use Rattle.replica_core.specs.Calls.{IsDone};
ghost use Rattle.replica_core.specs.CallsDecide.{create_decides};
ghost use Rattle.replica_core.specs.CallsFaults.{index_failure, put_failure, resolve_failure};
ghost use Rattle.replica_core.specs.CallsFaults.{take_failure};
ghost use Rattle.replica_core.specs.Runs.{GoesOn, HaveRun, bare, call_decides};
ghost use Rattle.replica_core.specs.inner.Runs.{bare_end};
ghost use Rattle.replica_core.specs.Runs.{call_failure, stays_open};
ghost use Rattle.replica_core.specs.inner.Runs.{call_fault};

use crate::{
    CommitFault, IndexFault, PutFault, Replica, ResolveDocFault, TakeFault, create_index,
    delete_doc, delete_index, move_position, put_doc, put_if_newer, resolve_doc,
};
use conflicts::{Member, Move, Taken, law_members, law_state};
use content::Content;
use expr_parser::{Expr, Exprs, law_index_texts};
use replica_state::IndexExprs;
use std::alloc::Global;
use std::error::Error;
use std::fmt;
use u1_base::{DocId, IndexName, Memory};
use vector_rev::{Clock, Clocks};

/// One call of a list, with its operands.
#[derive(Drop)]
pub enum Call {
    PutDoc {
        seed: u128,
        id: DocId,
        rev: Option<Clock>,
        content: Content,
    },
    DeleteDoc {
        seed: u128,
        id: DocId,
        rev: Clock,
    },
    ResolveDoc {
        seed: u128,
        id: DocId,
        named: Clocks,
        content: Option<Content>,
    },
    PutIfNewer {
        seed: u128,
        id: DocId,
        incoming: Member,
        save: bool,
        moved: Move,
    },
    MovePosition(Move),
    CreateIndex {
        name: IndexName,
        exprs: IndexExprs,
    },
    DeleteIndex {
        name: IndexName,
    },
}

/// Why a call of a list did not succeed.
#[derive(Clone, Copy, Debug, PartialEq, Eq)]
pub enum CallFault {
    /// Its definition refuses it.
    Refused,
    /// With the step the image would have `need` bytes, and it may have no more than `limit`.
    Full { need: u64, limit: u64 },
    /// A disk failed. The replica is closed; the step may have been written.
    Disk,
    Memory,
}

impl fmt::Display for CallFault {
    fn fmt<W: fmt::Write>(&self, f: &mut fmt::Formatter<W>) -> fmt::Result {
        match self {
            CallFault::Refused => f.write_str("the call is refused"),
            CallFault::Full { need: _, limit: _ } => f.write_str("the image would be too long"),
            CallFault::Disk => f.write_str("a disk failed"),
            CallFault::Memory => f.write_str("out of memory"),
        }
    }
}

impl Error for CallFault {}

/// How each call of a list ended.
pub type Ends = Vec<Result<(), CallFault>>;

/// Makes each call in turn, whatever it answers, until a disk fails. The answer tells how each call
/// ended.
///
/// A call that succeeded has made its step, and no other has; but one in which a disk failed may
/// have written its step. A crash on the way leaves the state after the first of these steps. Where
/// memory runs out for the answer no call is made.
///
/// So a history of the replica goes on by these steps, and a member covers each revision that was
/// ever accepted, at whatever moment a crash comes.
pub fn run_all<R: Replica>(alloc: Global, replica: &mut R, calls: &[Call]) -> Result<Ends, Memory>
    requires { R.is_open replica.old }
    ensures memory { OnErr result (replica.new ≡ replica.old) }
    ensures run { IfOk result (λ ends. HaveRun R.known R.is_open R.crash
        replica.old replica.new calls.now ends.items) }
    ensures kept { IfOk result (λ ends. GoesOn R.known R.crash
        replica.old replica.new calls.now ends.items) }
{
    law_state();
    law_members();
    make_all(alloc, replica, calls)
}

fn make_all<R: Replica>(alloc: Global, replica: &mut R, calls: &[Call]) -> Result<Ends, Memory>
    requires { R.is_open replica.old }
    ensures memory { OnErr result (replica.new ≡ replica.old) }
    ensures run { IfOk result (λ ends. HaveRun R.known R.is_open R.crash
        replica.old replica.new calls.now ends.items) }
{
    let mut ends = Vec::with_capacity(alloc, calls.len())?;
    for call in calls {
        let end = make_call(alloc, replica, call);
        let open = stays_open(&end);
        push_end(&mut ends, end);
        if !open {
            return Ok(ends);
        }
    }
    Ok(ends)
}

fn push_end(ends: &mut Ends, end: Result<(), CallFault>)
    requires { vec_len ends.old < vec_capacity ends.old }
    ensures items { ends.new.items ≡ ends.old.items ++ end ∷ [] }
    ensures count { vec_len ends.new ≡ vec_len ends.old + 1 }
    ensures room { vec_capacity ends.old ≤ vec_capacity ends.new }
{
    ends.push(end).unwrap();
}

fn make_call<R: Replica>(alloc: Global, replica: &mut R, call: &Call) -> Result<(), CallFault>
    requires { R.is_open replica.old }
    ensures { IsDone R.known R.is_open R.crash call_failure
        (call_decides call.now (state_in (R.known replica.old)))
        replica.old replica.new result }
{
    match call {
        Call::PutDoc {
            seed,
            id,
            rev,
            content,
        } => end_of_put(put_doc(alloc, replica, *seed, id, rev.as_ref(), content)),
        Call::DeleteDoc { seed, id, rev } => {
            end_of_put(delete_doc(alloc, replica, *seed, id, rev))
        }
        Call::ResolveDoc {
            seed,
            id,
            named,
            content,
        } => end_of_resolve(resolve_doc(alloc, replica, *seed, id, named, content.as_ref())),
        Call::PutIfNewer {
            seed,
            id,
            incoming,
            save,
            moved,
        } => end_of_take(put_if_newer(alloc, replica, *seed, id, incoming, *save, moved)),
        Call::MovePosition(moved) => end_of_move(move_position(replica, moved)),
        Call::CreateIndex { name, exprs } => create(alloc, replica, name, exprs),
        Call::DeleteIndex { name } => end_of_index(delete_index(replica, name)),
    }
}

// The index takes the expressions, and the list keeps its own.
fn create<R: Replica>(
    alloc: Global,
    replica: &mut R,
    name: &IndexName,
    exprs: &IndexExprs,
) -> Result<(), CallFault>
    requires { R.is_open replica.old }
    ensures { IsDone R.known R.is_open R.crash call_failure
        (bare (create_decides name.now exprs.now.texts (state_in (R.known replica.old))))
        replica.old replica.new result }
{
    let Ok(exprs) = exprs_copied(alloc, exprs) else {
        return Err(CallFault::Memory);
    };
    end_of_index(create_index(replica, name, exprs))
}

fn exprs_copied(alloc: Global, exprs: &IndexExprs) -> Result<IndexExprs, Memory>
    ensures { IfOk result (λ copy. copy.texts ≡ exprs.now.texts) }
{
    law_index_texts();
    let copies = forms_copied(alloc, exprs.as_slice())?;
    Ok(IndexExprs::of(copies))
}

fn forms_copied(alloc: Global, exprs: &[Expr]) -> Result<Exprs, Memory>
    ensures { IfOk result (λ copies. map form_of copies ≡ map form_of exprs.now) }
{
    let mut copies = Exprs::new(alloc);
    for expr in exprs {
        let copy = expr.copy(alloc)?;
        copies.push(copy)?;
    }
    Ok(copies)
}

// ---- the end of a call

impl CallFault {
    fn of(failure: Option<CommitFault>) -> CallFault
        ensures { result ≡ call_fault failure }
    {
        match failure {
            None => CallFault::Refused,
            Some(failure) => CallFault::of_failure(failure),
        }
    }

    fn of_failure(failure: CommitFault) -> CallFault
        ensures { result ≡ call_fault (Some failure) }
    {
        match failure {
            CommitFault::Full { need, limit } => CallFault::Full { need, limit },
            CommitFault::Disk => CallFault::Disk,
            CommitFault::Memory => CallFault::Memory,
        }
    }
}

// Whether the replica is still open.
fn stays_open(end: &Result<(), CallFault>) -> bool
    ensures { result ≡ stays_open end.now }
{
    match end {
        Ok(()) => true,
        Err(fault) => !is_disk(*fault),
    }
}

fn is_disk(fault: CallFault) -> bool
    ensures { result ≡ not (stays_open (Err fault)) }
{
    match fault {
        CallFault::Refused => false,
        CallFault::Full { need: _, limit: _ } => false,
        CallFault::Disk => true,
        CallFault::Memory => false,
    }
}

fn end_of_put(answer: Result<Clock, PutFault>) -> Result<(), CallFault>
    ensures { result ≡ bare_end put_failure answer }
{
    match answer {
        Ok(_) => Ok(()),
        Err(fault) => Err(CallFault::of(fault.failure())),
    }
}

fn end_of_resolve(answer: Result<Clock, ResolveDocFault>) -> Result<(), CallFault>
    ensures { result ≡ bare_end resolve_failure answer }
{
    match answer {
        Ok(_) => Ok(()),
        Err(fault) => Err(CallFault::of(fault.failure())),
    }
}

fn end_of_take(answer: Result<Taken, TakeFault>) -> Result<(), CallFault>
    ensures { result ≡ bare_end take_failure answer }
{
    match answer {
        Ok(_) => Ok(()),
        Err(fault) => Err(CallFault::of(fault.failure())),
    }
}

fn end_of_move(answer: Result<(), TakeFault>) -> Result<(), CallFault>
    ensures { result ≡ bare_end take_failure answer }
{
    match answer {
        Ok(()) => Ok(()),
        Err(fault) => Err(CallFault::of(fault.failure())),
    }
}

fn end_of_index(answer: Result<(), IndexFault>) -> Result<(), CallFault>
    ensures { result ≡ bare_end index_failure answer }
{
    match answer {
        Ok(()) => Ok(()),
        Err(fault) => Err(CallFault::of(fault.failure())),
    }
}
