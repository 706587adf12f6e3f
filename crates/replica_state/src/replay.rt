//! Steps that are made one after the other, where documents are looked up in the order of their
//! ids, many at a time, and indexes are built at the end.
ghost use Rattle.std.specs.Prelude.{◌≡◌, [], IfOk, OnOk};
ghost use Rattle.std.specs.FinMap.Entries.{put};
ghost use Rattle.u1_base.specs.Ids.{id_cmp};
ghost use Rattle.conflicts.specs.State.{Accepted, Text, after, indexes_in, state_of};
ghost use Rattle.replica_state.specs.Held.{meaning};
ghost use Rattle.replica_state.specs.Indexes.{HasNoIndex, with_indexes};
ghost use Rattle.replica_state.specs.inner.Named.{names_of};
ghost use Rattle.replica_state.specs.Steps.{step_of};

use crate::exprs::IndexExprs;
use crate::index::Index;
use crate::naming::{add_index, drop_index};
use crate::settling::{settle, settle_many};
use crate::state::State;
use crate::step::Step;
use crate::waiting::Waiting;
use conflicts::{Accept, Move};
use index_tables::IndexTable;
use std::alloc::Global;
use u1_base::{DbName, DocId, IndexName, Memory, ReplicaUid, TransId};
use vector_rev::Clock;

/// What replayed steps leave: a state without indexes, the acceptances that wait for their
/// documents, and a list of the indexes.
///
/// Many acceptances are applied together, in the order of the documents' ids. So each finds its
/// document near the last one, where the memory is at hand; one at a time, each would have to be
/// searched for. A step costs nothing for any index, and each index is built once, over the
/// documents that stand at the end.
#[derive(Drop)]
pub struct Replay {
    pub(crate) state: State,
    pub(crate) waiting: Vec<Waiting>,
    // How many of those are of first revisions.
    pub(crate) firsts: u64,
    // With empty tables, in the order of their names.
    pub(crate) listed: Vec<Index>,
    ghost none: { HasNoIndex state },
}

impl Replay {
    ghost use Rattle.replica_state.specs.Replayed.{replayed};

    /// No step was made yet. It takes no memory.
    pub fn new(alloc: Global, name: DbName, uid: ReplicaUid) -> Replay
        ensures { replayed result ≡ state_of name uid [] }
    {
        let state = State::new(alloc, name, uid);
        let waiting = Vec::new(alloc);
        let listed = Vec::new(alloc);
        Replay {
            state,
            waiting,
            firsts: 0,
            listed,
        }
    }

    /// Makes one more step. Every step may be made, also one that does not fit.
    pub fn make(&mut self, step: Step) -> Result<(), Memory>
        ensures { OnOk result (replayed self.new ≡ after (replayed self.old) (step_of step)) }
    {
        match step {
            Step::Accept {
                doc,
                accept,
                trans,
                moved,
            } => self.accept(doc, accept, trans, moved),
            Step::Gone { doc, trans, moved } => self.state.note(doc, trans, moved),
            Step::Position(moved) => make_in(&mut self.state, Step::Position(moved)),
            Step::IndexCreate { name, exprs } => list_index(&mut self.listed, name, exprs),
            Step::IndexDelete { name } => {
                drop_index(&mut self.listed, &name);
                Ok(())
            }
        }
    }

    // The log and the position have the acceptance now, the document has it later.
    fn accept(
        &mut self,
        doc: DocId,
        accept: Accept,
        trans: TransId,
        moved: Option<Move>,
    ) -> Result<(), Memory>
        ensures { OnOk result (replayed self.new
            ≡ after (replayed self.old) (Accepted doc accept trans moved)) }
    {
        if is_first(&accept.rev) {
            self.firsts = self.firsts.saturating_add(1);
        }
        let waits = Waiting::new(*self.waiting.allocator(), doc.copy()?, accept)?;
        self.state.note(doc, trans, moved)?;
        self.waiting.push(waits)?;
        settle_many(&mut self.state, &mut self.waiting, &mut self.firsts)?;
        Ok(())
    }

    /// The state of all steps, with its indexes.
    pub fn finish(self) -> Result<State, Memory>
        ensures { IfOk result (λ s. meaning s ≡ replayed self) }
    {
        let Replay {
            mut state,
            mut waiting,
            firsts: _,
            listed,
        } = self;
        settle(&mut state, &mut waiting)?;
        let mut state = build_all(state, listed)?;
        state.make_room()?;
        Ok(state)
    }
}

// Whether it is the first revision of a document, which one replica made.
fn is_first(rev: &Clock) -> bool {
    match rev.entries() {
        [only] => only.counter() == 1,
        _ => false,
    }
}

// Makes the step on the state. An index of which the step does not speak is as it was, also where
// memory runs out.
fn make_in(state: &mut State, step: Step) -> Result<(), Memory>
    ensures step { OnOk result
        (meaning state.new ≡ after (meaning state.old) (step_of step)) }
    ensures indexes { (n : Text) → indexes_in n (step_of step) ≡ []
        → (meaning state.new).index n ≡ (meaning state.old).index n }
{
    let prepared = state.prepare(step)?;
    state.apply(prepared);
    Ok(())
}

// Lists an index, in the place of one of its name.
fn list_index(listed: &mut Vec<Index>, name: IndexName, exprs: IndexExprs) -> Result<(), Memory>
    ensures { OnOk result
        (names_of listed.new.items ≡ put id_cmp name exprs.texts (names_of listed.old.items)) }
{
    listed.reserve(1)?;
    let alloc = *listed.allocator();
    let index = unbuilt(alloc, name, exprs);
    add_index(listed, index);
    Ok(())
}

// The index with an empty table.
fn unbuilt(alloc: Global, name: IndexName, exprs: IndexExprs) -> Index
    ensures name { result.name ≡ name }
    ensures exprs { result.exprs ≡ exprs }
{
    Index {
        name,
        exprs,
        table: IndexTable::new(alloc),
    }
}

// Builds the listed indexes.
fn build_all(mut state: State, mut listed: Vec<Index>) -> Result<State, Memory>
    requires { HasNoIndex state }
    ensures { IfOk result
        (λ s. meaning s ≡ with_indexes (meaning state) (names_of listed.items)) }
{
    while let Some(index) = listed.pop() {
        let Index {
            name,
            exprs,
            table: _,
        } = index;
        make_in(&mut state, Step::IndexCreate { name, exprs })?;
    }
    Ok(state)
}
