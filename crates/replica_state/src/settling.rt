//! Acceptances that waited are applied to their documents, in the order of the documents' ids.
ghost use Rattle.std.specs.Prelude.{◌≡◌, [], IfOk, OnOk};
ghost use Rattle.conflicts.specs.State.{Text};
ghost use Rattle.replica_state.specs.Held.{meaning};
ghost use Rattle.replica_state.specs.Indexes.{HasNoIndex};
ghost use Rattle.replica_state.specs.Waiting.{accepts_of, with_accepted};

use crate::state::State;
use crate::waiting::Waiting;
use std::mem::replace;
use u1_base::Memory;

// So many acceptances wait at least before their documents are looked up.
const FEW: usize = 4096;

/// Applies the acceptances that wait, if they are not few, and those of edits are as many as the
/// documents. So each is sorted with many others, and what waits is no more than a few times what
/// stands. `firsts` of those that wait are of first revisions, each of a document of its own.
///
/// No index comes, also where memory runs out.
pub(crate) fn settle_many(
    state: &mut State,
    waiting: &mut Vec<Waiting>,
    firsts: &mut u64,
) -> Result<(), Memory>
    requires { HasNoIndex state.old }
    ensures accepted { OnOk result (with_accepted (meaning state.new) waiting.new.items
        ≡ with_accepted (meaning state.old) waiting.old.items) }
    ensures indexes { HasNoIndex state.new }
{
    let edits = (waiting.len() as u64).saturating_sub(*firsts);
    if waiting.len() < FEW || edits < state.docs().length().saturating_add(*firsts) {
        return Ok(());
    }
    *firsts = 0;
    settle(state, waiting)?;
    Ok(())
}

/// Applies the acceptances that wait. No index comes, also where memory runs out.
pub(crate) fn settle(state: &mut State, waiting: &mut Vec<Waiting>) -> Result<(), Memory>
    requires { HasNoIndex state.old }
    ensures none { OnOk result (waiting.new.items ≡ []) }
    ensures accepted { OnOk result
        (meaning state.new ≡ with_accepted (meaning state.old) waiting.old.items) }
    ensures indexes { HasNoIndex state.new }
{
    let alloc = *waiting.allocator();
    let sorted = by_documents(replace(waiting, Vec::new(alloc)))?;
    accept_all(state, sorted)
}

// The same, one after the other.
fn accept_all(state: &mut State, waiting: Vec<Waiting>) -> Result<(), Memory>
    requires { HasNoIndex state.old }
    ensures accepted { OnOk result
        (meaning state.new ≡ with_accepted (meaning state.old) waiting.items) }
    ensures indexes { HasNoIndex state.new }
{
    // In their order each one is found near the one before.
    for waits in waiting {
        let Waiting { doc, accept, .. } = waits;
        let accept = Box::into_inner(accept);
        state.accept_alone(doc, accept)?;
    }
    Ok(())
}

// The same acceptances in the order of their documents' ids. Those of one document keep theirs.
fn by_documents(mut waiting: Vec<Waiting>) -> Result<Vec<Waiting>, Memory>
    ensures { IfOk result
        (λ sorted. (d : Text) → accepts_of d sorted.items ≡ accepts_of d waiting.items) }
{
    waiting.sort_by(|one, other| one.compare(other))?;
    Ok(waiting)
}
