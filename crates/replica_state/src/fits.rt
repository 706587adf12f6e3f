//! Which step fits a state.
ghost use Rattle.std.specs.Prelude.{◌≡◌, ◌↔◌, IsTrue, Some, is_some};
ghost use Rattle.u1_base.specs.Places.{nowhere};
ghost use Rattle.translog.specs.Source.{passes};
ghost use Rattle.conflicts.specs.Document.{FitsDocument};
ghost use Rattle.conflicts.specs.State.{Fits, MoveFits};
ghost use Rattle.replica_state.specs.Held.{meaning};
ghost use Rattle.replica_state.specs.Steps.{step_of};

use crate::state::State;
use crate::step::Step;
use conflicts::{Accept, DocSet, Move};
use translog::goes_on;
use u1_base::{DocId, IndexName, Position};

impl State {
    /// Whether the step fits. An acceptance fits where no member is newer, it is marked current or
    /// leaves a current member, and its move fits; a move, where it does not take the position
    /// back; the creation of an index, where there is none of its name; its deletion, where there
    /// is one. `Gone` never fits. It takes no memory.
    pub fn fits(&self, step: &Step) -> bool
        ensures { IsTrue result ↔ Fits (meaning self.now) (step_of step.now) }
    {
        match step {
            Step::Accept {
                doc,
                accept,
                trans: _,
                moved,
            } => accept_fits(self, doc, accept) & moved_fits(self, moved),
            Step::Gone { .. } => false,
            Step::Position(moved) => move_fits(self, moved),
            Step::IndexCreate { name, exprs: _ } => !has_index(self, name),
            Step::IndexDelete { name } => has_index(self, name),
        }
    }
}

fn has_index(state: &State, name: &IndexName) -> bool
    ensures { result ≡ is_some ((meaning state.now).index name.now) }
{
    state.index_table(name).is_some()
}

fn accept_fits(state: &State, doc: &DocId, accept: &Accept) -> bool
    ensures { IsTrue result ↔ FitsDocument ((meaning state.now).document doc.now) accept.now }
{
    DocSet::fits(state.docs().get(doc), accept)
}

fn moved_fits(state: &State, moved: &Option<Move>) -> bool
    ensures { IsTrue result ↔ MoveFits (meaning state.now) moved.now }
{
    match moved {
        Some(moved) => move_fits(state, moved),
        None => true,
    }
}

fn move_fits(state: &State, moved: &Move) -> bool
    ensures { IsTrue result ↔ MoveFits (meaning state.now) (Some moved.now) }
{
    match state.positions(moved.table).get(&moved.uid) {
        Some(kept) => goes_on(kept, &moved.at),
        None => goes_on_from_start(&moved.at),
    }
}

// Whether a place goes on from the first one.
fn goes_on_from_start(at: &Position) -> bool
    ensures { result ≡ passes nowhere at.now }
{
    goes_on(&Position::start(), at)
}
