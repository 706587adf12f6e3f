//! What a step needs, made ahead: one function for each kind of step.
ghost use Rattle.std.specs.Prelude.{◌≡◌, IfOk};
ghost use Rattle.replica_state.specs.Held.{lists_of};
ghost use Rattle.replica_state.specs.Prepared.{IsPartsOf, IsReady};
ghost use Rattle.replica_state.specs.declared.step.Step.TheVariants as steps;

use crate::exprs::IndexExprs;
use crate::places::reserve_place;
use crate::prepared::{Parts, Prepared, Replacement};
use crate::state::State;
use crate::step::Step;
use conflicts::{Accept, Move};
use translog::Entry;
use u1_base::{DocId, IndexName, Memory, TransId};

impl State {
    /// Makes the parts of the state after the step, and takes all the memory that the step needs.
    /// What the state stands for does not change, at an error either. Every step may be prepared,
    /// also one that does not fit.
    pub fn prepare(&mut self, step: Step) -> Result<Prepared, Memory>
        ensures lists { lists_of self.new ≡ lists_of self.old }
        ensures parts { IfOk result (IsPartsOf self.new step) }
        ensures ready { IfOk result (IsReady self.new) }
    {
        match step {
            Step::Accept {
                doc,
                accept,
                trans,
                moved,
            } => self.prepare_accept(doc, accept, trans, moved),
            Step::Gone { doc, trans, moved } => self.prepare_gone(doc, trans, moved),
            Step::Position(moved) => self.prepare_move(moved),
            Step::IndexCreate { name, exprs } => self.prepare_index(name, exprs),
            Step::IndexDelete { name } => self.prepare_no_index(name),
        }
    }

    /// Makes room for a step of a document. So the first one takes no longer than those after it,
    /// each of which finds what the one before left. What the state stands for does not change, at
    /// an error either.
    pub(crate) fn make_room(&mut self) -> Result<(), Memory>
        ensures { lists_of self.new ≡ lists_of self.old }
    {
        self.log.reserve()?;
        self.collection.make_room()
    }

    fn prepare_accept(
        &mut self,
        doc: DocId,
        accept: Accept,
        trans: TransId,
        moved: Option<Move>,
    ) -> Result<Prepared, Memory>
        ensures lists { lists_of self.new ≡ lists_of self.old }
        ensures parts { IfOk result (IsPartsOf self.new (steps.Accept doc accept trans moved)) }
        ensures ready { IfOk result (IsReady self.new) }
    {
        self.reserve_entry(&moved)?;
        let replacement = self.collection.accept(&doc, accept)?;
        let parts = Parts {
            replacement,
            entry: Some(Entry { doc, trans }),
            moved,
        };
        Prepared::of(self.collection.allocator(), parts)
    }

    fn prepare_gone(
        &mut self,
        doc: DocId,
        trans: TransId,
        moved: Option<Move>,
    ) -> Result<Prepared, Memory>
        ensures lists { lists_of self.new ≡ lists_of self.old }
        ensures parts { IfOk result (IsPartsOf self.new (steps.Gone doc trans moved)) }
        ensures ready { IfOk result (IsReady self.new) }
    {
        self.reserve_entry(&moved)?;
        let parts = Parts {
            replacement: Replacement::Nothing,
            entry: Some(Entry { doc, trans }),
            moved,
        };
        Prepared::of(self.collection.allocator(), parts)
    }

    fn prepare_move(&mut self, moved: Move) -> Result<Prepared, Memory>
        ensures lists { lists_of self.new ≡ lists_of self.old }
        ensures parts { IfOk result (IsPartsOf self.new (steps.Position moved)) }
        ensures ready { IfOk result (IsReady self.new) }
    {
        let moved = Some(moved);
        reserve_place(&mut self.known, &mut self.told, &moved)?;
        let parts = Parts {
            replacement: Replacement::Nothing,
            entry: None,
            moved,
        };
        Prepared::of(self.collection.allocator(), parts)
    }

    fn prepare_index(&mut self, name: IndexName, exprs: IndexExprs) -> Result<Prepared, Memory>
        ensures lists { lists_of self.new ≡ lists_of self.old }
        ensures parts { IfOk result (IsPartsOf self.new (steps.IndexCreate name exprs)) }
        ensures ready { IfOk result (IsReady self.new) }
    {
        let replacement = self.collection.create_index(name, exprs)?;
        let parts = Parts {
            replacement,
            entry: None,
            moved: None,
        };
        Prepared::of(self.collection.allocator(), parts)
    }

    fn prepare_no_index(&mut self, name: IndexName) -> Result<Prepared, Memory>
        ensures lists { lists_of self.new ≡ lists_of self.old }
        ensures parts { IfOk result (IsPartsOf self.new (steps.IndexDelete name)) }
        ensures ready { IfOk result (IsReady self.new) }
    {
        let parts = Parts {
            replacement: Replacement::NoIndex { name },
            entry: None,
            moved: None,
        };
        Prepared::of(self.collection.allocator(), parts)
    }
}
