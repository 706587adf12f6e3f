//! What one more acceptance leaves of a document.
ghost use Rattle.std.specs.Prelude.{◌≡◌, ◌≤◌, ◌<◌, ◌↔◌, ◌++◌, [], ◌∷◌, cond, false, true, not};
ghost use Rattle.std.specs.Prelude.{IsTrue, T, filter, length, take, IfOk, OnOk, Some};
ghost use Rattle.std.specs.Prelude.{option_copied};
ghost use Rattle.std.specs.List.{list_any};
ghost use Rattle.vector_rev.specs.Clock.{covers, dominates};
ghost use Rattle.conflicts.specs.Document.{FitsDocument, document_after, member_of, no_document};
ghost use Rattle.conflicts.specs.Kept.{all_apart, document};

use crate::{Accept, DocSet, Member};
use std::alloc::Global;
use u1_base::Memory;
use vector_rev::{Clock, Order};

impl DocSet {
    /// Whether an acceptance fits what is there: no member is newer, and the acceptance is marked
    /// current unless a current member is there that it does not cover.
    pub fn fits(set: Option<&DocSet>, accept: &Accept) -> bool
        ensures { IsTrue result ↔ FitsDocument (document (option_copied set.entry)) accept.now }
    {
        match set {
            Some(set) => fits_beside(set, accept),
            None => fits_nothing(accept),
        }
    }

    /// Whether some member is newer than the revision.
    pub fn has_newer(&self, rev: &Clock) -> bool
        ensures { result ≡ list_any (λ m. dominates m.rev rev.now) self.now.members }
    {
        any_newer(self.members(), rev)
    }

    /// Drops the members that the accepted revision covers, adds it last, and makes it the current
    /// one where it is marked so. The condition is that the acceptance fits: no member is newer,
    /// and an acceptance that is not marked leaves the current member. Nothing is copied.
    pub fn apply(alloc: Global, set: Option<DocSet>, accept: Accept) -> Result<DocSet, Memory>
        requires { FitsDocument (document set) accept }
        ensures { IfOk result (λ s. document (Some s) ≡ document_after (document set) accept) }
    {
        match set {
            Some(set) => apply_to(set, accept),
            None => first_of(alloc, accept),
        }
    }

    /// The same for a set that stays as it is. Of its members only those are copied that the
    /// accepted revision does not cover, so nothing is copied where it covers all of them, as an
    /// edit does.
    pub fn after(alloc: Global, set: Option<&DocSet>, accept: Accept) -> Result<DocSet, Memory>
        requires { FitsDocument (document (option_copied set)) accept }
        ensures { IfOk result (λ s. document (Some s)
            ≡ document_after (document (option_copied set.entry)) accept) }
    {
        match set {
            Some(set) => after_over(alloc, set, accept),
            None => first_of(alloc, accept),
        }
    }
}

// Whether the acceptance fits where there is no document.
fn fits_nothing(accept: &Accept) -> bool
    ensures { IsTrue result ↔ FitsDocument no_document accept.now }
{
    accept.current
}

// Whether the acceptance fits where there is one.
fn fits_beside(set: &DocSet, accept: &Accept) -> bool
    ensures { IsTrue result ↔ FitsDocument (document (Some set.now)) accept.now }
{
    !set.has_newer(&accept.rev) & (accept.current | !accept.rev.covers(&set.current().rev))
}

fn first_of(alloc: Global, accept: Accept) -> Result<DocSet, Memory>
    requires { FitsDocument no_document accept }
    ensures { IfOk result (λ s. document (Some s) ≡ document_after no_document accept) }
{
    let kept = Vec::with_capacity(alloc, 1)?;
    accepted(kept, 0, accept)
}

fn apply_to(set: DocSet, accept: Accept) -> Result<DocSet, Memory>
    requires { FitsDocument (document (Some set)) accept }
    ensures { IfOk result (λ s. document (Some s) ≡ document_after (document (Some set)) accept) }
{
    let before = kept_before(&set, &accept);
    let DocSet {
        mut members,
        place: _,
    } = set;
    drop_covered(&mut members, &accept.rev);
    accepted(members, before, accept)
}

fn after_over(alloc: Global, set: &DocSet, accept: Accept) -> Result<DocSet, Memory>
    requires { FitsDocument (document (Some set.now)) accept }
    ensures { IfOk result (λ s. document (Some s)
        ≡ document_after (document (Some set.now)) accept) }
{
    let before = kept_before(set, &accept);
    let kept = uncovered_copies(alloc, set.members(), &accept.rev)?;
    accepted(kept, before, accept)
}

// How many members stay before the current one; 0 where the acceptance is marked current, since
// then nobody asks.
fn kept_before(set: &DocSet, accept: &Accept) -> usize
    ensures { result ≡ cond accept.now.current 0
        (length (filter (λ m. not (covers accept.now.rev m.rev))
        (take set.now.place set.now.members))) }
{
    if accept.current {
        0
    } else {
        uncovered_within(set.members(), set.place(), &accept.rev)
    }
}

// How many of the first members the revision does not cover.
fn uncovered_within(members: &[Member], front: usize, rev: &Clock) -> usize
    requires { front ≤ length members.now }
    ensures { result ≡ length (filter (λ m. not (covers rev.now m.rev)) (take front members.now)) }
{
    let mut count = 0;
    for place in 0..front {
        if !rev.covers(&members[place].rev) {
            count += 1;
        }
    }
    count
}

fn drop_covered(members: &mut Vec<Member>, rev: &Clock)
    ensures { members.new.items ≡ filter (λ m. not (covers rev.now m.rev)) members.old.items }
{
    members.retain(|member| !rev.covers(&member.rev));
}

// Copies of the members that the revision does not cover.
fn uncovered_copies(alloc: Global, members: &[Member], rev: &Clock) -> Result<Vec<Member>, Memory>
    ensures { IfOk result (λ v. v.items ≡ filter (λ m. not (covers rev.now m.rev)) members.now) }
{
    let mut kept = Vec::new(alloc);
    for member in members {
        if !rev.covers(&member.rev) {
            kept.push(member.copy()?)?;
        }
    }
    Ok(kept)
}

// The accepted revision stands after the members that stay. It is the current one where it is
// marked so; else the current one is the member with so many before it.
fn accepted(kept: Vec<Member>, before: usize, accept: Accept) -> Result<DocSet, Memory>
    requires there { accept.current ≡ false → before < length kept.items }
    requires apart { all_apart (kept.items ++ member_of accept ∷ []) ≡ true }
    ensures members { IfOk result (λ s. s.members ≡ kept.items ++ member_of accept ∷ []) }
    ensures place { IfOk result (λ s. s.place ≡ cond accept.current (length kept.items) before) }
{
    let place = if accept.current { kept.len() } else { before };
    let Accept {
        rev,
        content,
        making: _,
        parents: _,
        current: _,
    } = accept;
    let mut members = kept;
    members.push(Member { rev, content })?;
    Ok(DocSet { members, place })
}

fn any_newer(members: &[Member], rev: &Clock) -> bool
    ensures { result ≡ list_any (λ m. dominates m.rev rev.now) members.now }
{
    members.iter().any(|member| is_newer(&member.rev, rev))
}

pub(crate) fn is_newer(one: &Clock, other: &Clock) -> bool
    ensures { result ≡ dominates one.now other.now }
{
    match one.order(other) {
        Order::Newer => true,
        Order::Equal | Order::Older | Order::Apart => false,
    }
}
