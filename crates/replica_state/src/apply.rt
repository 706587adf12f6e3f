//! What a step leaves.
ghost use Rattle.std.specs.Prelude.{◌≡◌, ◌≤◌, [], ◌∷◌, IfSome, OnOk, cond};
ghost use Rattle.conflicts.specs.State.{Gone, Text, after};
ghost use Rattle.replica_state.specs.Held.{lists_of, meaning};
ghost use Rattle.replica_state.specs.Indexes.{HasNoIndex};
ghost use Rattle.replica_state.specs.Prepared.{IsPartsOf, IsReady, entries_with, lists_with};
ghost use Rattle.replica_state.specs.Steps.{step_of};
ghost use Rattle.replica_state.specs.Waiting.{accepting};
ghost use Rattle.replica_state.specs.declared.step.Step.{Step};
ghost use Rattle.u1_base.specs.Ids.{same_id};

use crate::places::put_place;
use crate::prepared::{Parts, Prepared};
use crate::state::State;
use conflicts::{Accept, Move};
use translog::{Entry, Log};
use u1_base::{DocId, Memory, TransId};

impl State {
    /// Puts in what was prepared for a step: the state is the one after that step. It takes no
    /// memory.
    pub fn apply(&mut self, prepared: Prepared)
        requires { IsReady self.old prepared }
        ensures lists { lists_of self.new ≡ lists_with prepared.parts.value (lists_of self.old) }
        ensures step { (x : Step) → IsPartsOf self.old x prepared
            → meaning self.new ≡ after (meaning self.old) (step_of x) }
    {
        let Parts {
            replacement,
            entry,
            moved,
        } = Box::into_inner(prepared.parts);
        self.collection.replace(replacement);
        push_entry(&mut self.log, entry);
        put_place(&mut self.known, &mut self.told, moved);
    }

    /// Puts an entry into the log, and the place of a move. Documents and indexes stay, also where
    /// memory runs out.
    pub(crate) fn note(
        &mut self,
        doc: DocId,
        trans: TransId,
        moved: Option<Move>,
    ) -> Result<(), Memory>
        ensures step { OnOk result
            (meaning self.new ≡ after (meaning self.old) (Gone doc trans moved)) }
        ensures indexes { (n : Text) → (meaning self.new).index n ≡ (meaning self.old).index n }
    {
        self.reserve_entry(&moved)?;
        self.log.push(Entry { doc, trans });
        put_place(&mut self.known, &mut self.told, moved);
        Ok(())
    }

    /// Applies the acceptance to its document, where there is no index. The log and the positions
    /// stay.
    pub(crate) fn accept_alone(&mut self, doc: DocId, accept: Accept) -> Result<(), Memory>
        requires { HasNoIndex self.old }
        ensures accepted { OnOk result (meaning self.new
            ≡ accepting (meaning self.old) (λ d. cond (same_id d doc) (accept ∷ []) [])) }
        ensures indexes { HasNoIndex self.new }
    {
        self.collection.accept_alone(doc, accept)?;
        Ok(())
    }
}

fn push_entry(log: &mut Log, entry: Option<Entry>)
    requires { IfSome entry (λ _. 1 ≤ log.old.room) }
    ensures { log.new.entries ≡ entries_with entry log.old.entries }
{
    if let Some(entry) = entry {
        log.push(entry);
    }
}
