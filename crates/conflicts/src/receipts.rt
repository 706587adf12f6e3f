//! What becomes of a revision that another replica hands over.
ghost use Rattle.std.specs.Prelude.{◌≡◌, false, cond, IfOk, Some, option_copied};
ghost use Rattle.vector_rev.specs.Clock.{covers};
ghost use Rattle.conflicts.specs.Decision.{accepts as accepts_it, decides, nothing};
ghost use Rattle.conflicts.specs.Kept.{current, current_first, document};
ghost use Rattle.conflicts.specs.inner.Walk.{IsMerging};

use crate::member::copied;
use crate::merges::{Merging, Met, look_at_others, merged, merging_with};
use crate::{Accept, DocSet, Making, Member};
use std::alloc::Global;
use u1_base::{Memory, ReplicaUid};
use vector_rev::{Clocks, Order};

/// What is answered of a revision that was handed over.
#[derive(Clone, Copy, PartialEq, Eq)]
pub enum Outcome4 {
    /// It is the current revision now.
    Inserted,
    /// This replica has a newer one, or made a newer one by a merge.
    Superseded,
    /// It is the current revision already.
    Converged,
    /// It is in conflict with the current revision.
    Conflicted,
}

/// The answer, and what is accepted.
#[derive(Drop)]
pub struct Taken {
    pub outcome: Outcome4,
    pub accepted: Option<Accept>,
}

/// Decides on a revision that another replica hands over. `save` is set where this replica asked
/// for it: then a revision that is in conflict is kept.
pub fn receive(
    alloc: Global,
    set: Option<&DocSet>,
    incoming: &Member,
    save: bool,
    own: &ReplicaUid,
) -> Result<Taken, Memory>
    ensures { IfOk result (λ t. t ≡ decides
        (document (option_copied set.entry)) incoming.now save own.now) }
{
    match set {
        Some(set) => receive_over(alloc, set, incoming, save, own),
        None => accepted_as(alloc, Outcome4::Inserted, incoming),
    }
}

fn receive_over(
    alloc: Global,
    set: &DocSet,
    incoming: &Member,
    save: bool,
    own: &ReplicaUid,
) -> Result<Taken, Memory>
    ensures { IfOk result (λ t. t ≡ decides (document (Some set.now)) incoming.now save own.now) }
{
    match incoming.rev.order(&set.current().rev) {
        Order::Equal => Ok(unchanged(Outcome4::Converged)),
        Order::Older => Ok(unchanged(Outcome4::Superseded)),
        Order::Newer => accepted_as(alloc, Outcome4::Inserted, incoming),
        Order::Apart => receive_apart(alloc, set, incoming, save, own),
    }
}

// The revision is neither newer nor older than the current one.
fn receive_apart(
    alloc: Global,
    set: &DocSet,
    incoming: &Member,
    save: bool,
    own: &ReplicaUid,
) -> Result<Taken, Memory>
    requires not_newer { covers incoming.now.rev (current set.now).rev ≡ false }
    requires not_older { covers (current set.now).rev incoming.now.rev ≡ false }
    ensures { IfOk result (λ t. t ≡ decides (document (Some set.now)) incoming.now save own.now) }
{
    let mut merging = merging_with(alloc, set, incoming, own)?;
    match look_at_others(&mut merging, set, incoming, own)? {
        Met::Newer => Ok(unchanged(Outcome4::Superseded)),
        Met::Same => conflicted(alloc, incoming, save),
        Met::Neither => merge(alloc, set, merging, incoming, save, own),
    }
}

// No member covers the revision.
fn merge(
    alloc: Global,
    set: &DocSet,
    merging: Merging,
    incoming: &Member,
    save: bool,
    own: &ReplicaUid,
) -> Result<Taken, Memory>
    requires apart { covers incoming.now.rev (current set.now).rev ≡ false }
    requires merging { IsMerging set.now incoming.now own.now (current_first set.now) merging }
    ensures { IfOk result (λ t. t ≡ decides (document (Some set.now)) incoming.now save own.now) }
{
    match merged(set, merging, incoming, save, own)? {
        Some(accept) => Ok(Taken {
            outcome: Outcome4::Superseded,
            accepted: Some(accept),
        }),
        None => conflicted(alloc, incoming, save),
    }
}

fn unchanged(outcome: Outcome4) -> Taken
    ensures { result ≡ nothing outcome }
{
    Taken {
        outcome,
        accepted: None,
    }
}

fn accepted_as(alloc: Global, outcome: Outcome4, incoming: &Member) -> Result<Taken, Memory>
    ensures { IfOk result (λ t. t ≡ accepts_it outcome incoming.now) }
{
    Ok(Taken {
        outcome,
        accepted: Some(Accept {
            rev: incoming.rev.copy()?,
            content: copied(&incoming.content)?,
            making: Making::Received,
            parents: Clocks::new(alloc),
            current: true,
        }),
    })
}

fn conflicted(alloc: Global, incoming: &Member, save: bool) -> Result<Taken, Memory>
    ensures { IfOk result (λ t. t ≡ cond save (accepts_it Outcome4.Conflicted incoming.now)
        (nothing Outcome4.Conflicted)) }
{
    if save {
        accepted_as(alloc, Outcome4::Conflicted, incoming)
    } else {
        Ok(unchanged(Outcome4::Conflicted))
    }
}
