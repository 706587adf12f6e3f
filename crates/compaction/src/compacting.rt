//! The compaction of a list of steps, in one pass from the last one to the first.
ghost use Rattle.std.specs.Prelude.{◌≡◌, ◌++◌, ◌&&◌, not, IfOk, Some, OnOk, map, option_map};
ghost use Rattle.std.specs.Option.{option_to_list};
ghost use Rattle.conflicts.specs.Document.{has_rev};
ghost use Rattle.conflicts.specs.State.{State as Ended, Text, state_of};
ghost use Rattle.vector_rev.specs.Counts.{Uid};
ghost use Rattle.replica_state.specs.Held.{meaning};
ghost use Rattle.replica_state.specs.Steps.{step_of};
ghost use Rattle.replica_state.specs.declared.step.Step.TheVariants as steps;
ghost use Rattle.compaction.specs.Compaction.{compacted, compaction, left, marked_by};
ghost use Rattle.compaction.specs.Compaction.{nothing_later};
ghost use Rattle.compaction.specs.inner.Noted.{later_of, with_steps};

use crate::noted::Noted;
use crate::standing::{has_index, is_current, is_member};
use conflicts::{Accept, Move};
use replica_state::{IndexExprs, State, Step};
use std::alloc::Global;
use u1_base::{DocId, IndexName, Items, Memory, TransId};
use vector_rev::Clock;

/// Steps in their order.
pub type Steps = Items<Step>;

/// What the state after all steps alone tells of one of them: it is left so at most, and need not
/// be kept otherwise while the later steps are read. None where the step is not left.
///
/// So of a long list of steps no more is kept than the state has, and their places in the log.
pub fn trim(state: &State, step: Step) -> Option<Step>
    ensures { option_to_list (option_map step_of result)
        ≡ left (meaning state.now) nothing_later (step_of step) }
{
    match step {
        Step::Accept {
            doc,
            accept,
            trans,
            moved,
        } => Some(trim_accept(state, doc, accept, trans, moved)),
        Step::Gone { doc, trans, moved } => Some(Step::Gone { doc, trans, moved }),
        Step::Position(moved) => Some(Step::Position(moved)),
        Step::IndexCreate { name, exprs } => trim_creation(state, name, exprs),
        Step::IndexDelete { name: _ } => None,
    }
}

fn trim_accept(
    state: &State,
    doc: DocId,
    accept: Accept,
    trans: TransId,
    moved: Option<Move>,
) -> Step
    ensures { option_to_list (Some (step_of result))
        ≡ left (meaning state.now) nothing_later (step_of (steps.Accept doc accept trans moved)) }
{
    if !is_member(state, &doc, &accept.rev) {
        return gone(doc, accept, trans, moved);
    }
    let accept = marked_anew(state, &doc, accept);
    Step::Accept {
        doc,
        accept,
        trans,
        moved,
    }
}

fn trim_creation(state: &State, name: IndexName, exprs: IndexExprs) -> Option<Step>
    ensures { option_to_list (option_map step_of result)
        ≡ left (meaning state.now) nothing_later (step_of (steps.IndexCreate name exprs)) }
{
    if !has_index(state, &name) {
        return None;
    }
    Some(Step::IndexCreate { name, exprs })
}

/// What a compaction leaves of the steps, in their order, where the state is the one after them.
///
/// Contents are moved and not copied. Besides the lists of steps it takes a note of each member, of
/// each moved position and of each index.
pub fn compact(alloc: Global, state: &State, steps: Steps) -> Result<Steps, Memory>
    ensures left { IfOk result (λ left.
        map step_of left ≡ compacted (meaning state.now) (map step_of steps)) }
    ensures compaction { (name : Text) (uid : Uid)
        → meaning state.now ≡ state_of name uid (map step_of steps)
        → IfOk result (λ left. map step_of left ≡ compaction (map step_of steps)) }
{
    let mut noted = Noted::new(alloc);
    let mut steps = steps.into_vec();
    let mut left = Vec::new(alloc);
    while let Some(step) = steps.pop() {
        let step = left_of(&mut noted, state, step)?;
        push_some(&mut left, step)?;
    }
    left.reverse();
    Ok(Steps::from_vec(left))
}

fn push_some(left: &mut Vec<Step>, step: Option<Step>) -> Result<(), Memory>
    ensures { OnOk result (left.new.items ≡ left.old.items ++ option_to_list step) }
{
    match step {
        Some(step) => left.push(step)?,
        None => {}
    }
    Ok(())
}

// What is left of the step where these are the later ones that are left. It is noted.
fn left_of(noted: &mut Noted, state: &State, step: Step) -> Result<Option<Step>, Memory>
    ensures left { IfOk result (λ o. option_to_list (option_map step_of o)
        ≡ left (meaning state.now) (later_of noted.old) (step_of step)) }
    ensures noted { OnOk result (later_of noted.new
        ≡ with_steps (left (meaning state.now) (later_of noted.old) (step_of step))
        (later_of noted.old)) }
{
    match step {
        Step::Accept {
            doc,
            accept,
            trans,
            moved,
        } => left_of_accept(noted, state, doc, accept, trans, moved),
        Step::Gone { doc, trans, moved } => {
            noted.maybe_move(&moved)?;
            Ok(Some(Step::Gone { doc, trans, moved }))
        }
        Step::Position(moved) => left_of_move(noted, moved),
        Step::IndexCreate { name, exprs } => left_of_creation(noted, state, name, exprs),
        Step::IndexDelete { name: _ } => Ok(None),
    }
}

fn left_of_accept(
    noted: &mut Noted,
    state: &State,
    doc: DocId,
    accept: Accept,
    trans: TransId,
    moved: Option<Move>,
) -> Result<Option<Step>, Memory>
    ensures left { IfOk result (λ o. option_to_list (option_map step_of o)
        ≡ left (meaning state.now) (later_of noted.old)
        (step_of (steps.Accept doc accept trans moved))) }
    ensures noted { OnOk result (later_of noted.new
        ≡ with_steps (left (meaning state.now) (later_of noted.old)
        (step_of (steps.Accept doc accept trans moved))) (later_of noted.old)) }
{
    let is_left = is_left(noted, state, &doc, &accept.rev);
    noted.maybe_move(&moved)?;
    if !is_left {
        return Ok(Some(gone(doc, accept, trans, moved)));
    }
    noted.accept(&doc, &accept.rev)?;
    let accept = marked_anew(state, &doc, accept);
    Ok(Some(Step::Accept {
        doc,
        accept,
        trans,
        moved,
    }))
}

// Whether the revision is a member, and no later acceptance that is left has it.
fn is_left(noted: &Noted, state: &State, doc: &DocId, rev: &Clock) -> bool
    ensures { result ≡ (has_rev ((meaning state.now).document doc.now).members rev.now
        && not ((later_of noted.now).accepted doc.now rev.now)) }
{
    is_member(state, doc, rev) && !noted.has_accepted(doc, rev)
}

// What is left where the acceptance is not.
fn gone(doc: DocId, _accept: Accept, trans: TransId, moved: Option<Move>) -> Step
    ensures { step_of result ≡ step_of (steps.Gone doc trans moved) }
{
    Step::Gone { doc, trans, moved }
}

// Marked current exactly where its revision is the current one.
fn marked_anew(state: &State, doc: &DocId, accept: Accept) -> Accept
    ensures { result ≡ marked_by ((meaning state.now).document doc.now).current accept }
{
    let mut accept = accept;
    accept.current = is_current(state, doc, &accept.rev);
    accept
}

fn left_of_move(noted: &mut Noted, moved: Move) -> Result<Option<Step>, Memory>
    ensures left { (s : Ended) → IfOk result (λ o. option_to_list (option_map step_of o)
        ≡ left s (later_of noted.old) (step_of (steps.Position moved))) }
    ensures noted { (s : Ended) → OnOk result (later_of noted.new
        ≡ with_steps (left s (later_of noted.old) (step_of (steps.Position moved)))
        (later_of noted.old)) }
{
    if noted.has_moved(&moved) {
        return Ok(None);
    }
    noted.make_move(&moved)?;
    Ok(Some(Step::Position(moved)))
}

fn left_of_creation(
    noted: &mut Noted,
    state: &State,
    name: IndexName,
    exprs: IndexExprs,
) -> Result<Option<Step>, Memory>
    ensures left { IfOk result (λ o. option_to_list (option_map step_of o)
        ≡ left (meaning state.now) (later_of noted.old) (step_of (steps.IndexCreate name exprs))) }
    ensures noted { OnOk result (later_of noted.new
        ≡ with_steps (left (meaning state.now) (later_of noted.old)
        (step_of (steps.IndexCreate name exprs))) (later_of noted.old)) }
{
    if !has_index(state, &name) || noted.has_created(&name) {
        return Ok(None);
    }
    noted.create(&name)?;
    Ok(Some(Step::IndexCreate { name, exprs }))
}
