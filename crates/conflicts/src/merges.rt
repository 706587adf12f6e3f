//! One walk over the members for a revision that is apart from the current one: whether a member
//! has it or is newer, and the merge with those that have its content.
ghost use Rattle.std.specs.Prelude.{◌≡◌, ◌<◌, ◌++◌, ◌∷◌, ◌&&◌, ◌||◌, [], max, cond, false, length};
ghost use Rattle.std.specs.Prelude.{nat_le, nat_lt, IfOk, None, OnOk};
ghost use Rattle.vector_rev.specs.Clock.{count_of, covers, dominates};
ghost use Rattle.conflicts.specs.Decision.{may_merge, merge_of, same_content};
ghost use Rattle.conflicts.specs.Kept.{current, current_first};
ghost use Rattle.conflicts.specs.Making.{greatest};
ghost use Rattle.conflicts.specs.Walk.{seen};
ghost use Rattle.conflicts.specs.inner.Walk.{FoundAt, IsMerging, StepsTo, WalksTo};
ghost use Rattle.content.specs.Values.{is_same};

use crate::apply::is_newer;
use crate::made::{greatest_in, made_of};
use crate::member::copied;
use crate::{Accept, DocSet, Making, Member};
use content::Content;
use std::alloc::Global;
use u1_base::{Memory, ReplicaUid};
use vector_rev::{Clock, Clocks, Order};

// What is found of the revision.
pub(crate) enum Met {
    // A member is newer.
    Newer,
    // A member has it.
    Same,
    Neither,
}

// The merge with the members looked at so far.
#[derive(Drop)]
pub(crate) struct Merging {
    // The incoming revision, then those of the members with its content.
    pub(crate) parents: Clocks,
    // Whether the current one is among them.
    pub(crate) leads: bool,
    // The greatest own counter among the members with another content.
    pub(crate) most: u64,
}

// The merge with the current member.
pub(crate) fn merging_with(
    alloc: Global,
    set: &DocSet,
    incoming: &Member,
    own: &ReplicaUid,
) -> Result<Merging, Memory>
    requires not_newer { covers incoming.now.rev (current set.now).rev ≡ false }
    requires not_older { covers (current set.now).rev incoming.now.rev ≡ false }
    ensures { IfOk result (λ m. IsMerging set.now incoming.now own.now (seen set.now 0) m) }
{
    let current = set.current();
    let mut parents = Clocks::new(alloc);
    parents.push(incoming.rev.copy()?)?;
    let leads = same_contents(&current.content, &incoming.content);
    let mut merging = Merging {
        parents,
        leads,
        most: 0,
    };
    note(&mut merging, current, leads, own)?;
    Ok(merging)
}

// Looks at the members that are not the current one.
pub(crate) fn look_at_others(
    merging: &mut Merging,
    set: &DocSet,
    incoming: &Member,
    own: &ReplicaUid,
) -> Result<Met, Memory>
    requires { IsMerging set.now incoming.now own.now (seen set.now 0) merging.old }
    ensures { IfOk result (WalksTo set.now incoming.now own.now merging.new) }
{
    for place in 0..set.members().len() {
        match step(merging, set, place, incoming, own)? {
            Met::Newer => return Ok(Met::Newer),
            Met::Same => return Ok(Met::Same),
            Met::Neither => {}
        }
    }
    Ok(Met::Neither)
}

// Looks at the member at the place, unless it is the current one.
fn step(
    merging: &mut Merging,
    set: &DocSet,
    place: usize,
    incoming: &Member,
    own: &ReplicaUid,
) -> Result<Met, Memory>
    requires { place < length set.now.members }
    ensures { IfOk result (StepsTo set.now incoming.now own.now place merging.old merging.new) }
{
    if place == set.place() {
        return Ok(Met::Neither);
    }
    look_at(merging, &set.members()[place], incoming, own)
}

// Contents are compared only where the clocks are apart.
fn look_at(
    merging: &mut Merging,
    member: &Member,
    incoming: &Member,
    own: &ReplicaUid,
) -> Result<Met, Memory>
    ensures { IfOk result (FoundAt incoming.now own.now member.now merging.old merging.new) }
{
    match incoming.rev.order(&member.rev) {
        Order::Older => Ok(Met::Newer),
        Order::Equal => Ok(Met::Same),
        Order::Newer => Ok(Met::Neither),
        Order::Apart => look_beside(merging, member, incoming, own),
    }
}

// The member and the revision are apart.
fn look_beside(
    merging: &mut Merging,
    member: &Member,
    incoming: &Member,
    own: &ReplicaUid,
) -> Result<Met, Memory>
    requires not_newer { covers incoming.now.rev member.now.rev ≡ false }
    requires not_older { covers member.now.rev incoming.now.rev ≡ false }
    ensures { IfOk result (FoundAt incoming.now own.now member.now merging.old merging.new) }
{
    let alike = same_contents(&member.content, &incoming.content);
    note(merging, member, alike, own)?;
    Ok(Met::Neither)
}

// Notes a member that has the content of the incoming revision, or that has another one.
fn note(merging: &mut Merging, member: &Member, alike: bool, own: &ReplicaUid) -> Result<(), Memory>
    ensures parents { OnOk result
        (merging.new.parents ≡ merging.old.parents ++ cond alike (member.now.rev ∷ []) []) }
    ensures leads { OnOk result (merging.new.leads ≡ merging.old.leads) }
    ensures most { OnOk result
        (merging.new.most ≡ max (cond alike 0 (count_of member.now.rev own.now)) merging.old.most) }
{
    if alike {
        merging.parents.push(member.rev.copy()?)?;
    } else {
        merging.most = member.rev.count(own).max(merging.most);
    }
    Ok(())
}

// The merged revision, if one is made.
pub(crate) fn merged(
    set: &DocSet,
    merging: Merging,
    incoming: &Member,
    save: bool,
    own: &ReplicaUid,
) -> Result<Option<Accept>, Memory>
    requires { IsMerging set.now incoming.now own.now (current_first set.now) merging }
    ensures { IfOk result (λ o. o ≡ cond (may_merge (current_first set.now) incoming.now own.now)
        (merge_of (current set.now).rev (current_first set.now) incoming.now save own.now) None) }
{
    if !may_be_made(&merging, own) {
        return Ok(None);
    }
    let Merging {
        parents,
        leads,
        most: _,
    } = merging;
    let Some(rev) = made_of(parents.as_slice(), own)? else {
        return Ok(None);
    };
    let current = becomes_current(save, leads, &rev, &set.current().rev);
    Ok(Some(Accept {
        rev,
        content: copied(&incoming.content)?,
        making: Making::Merge,
        parents,
        current,
    }))
}

// Whether the merged revision becomes the current one.
fn becomes_current(save: bool, leads: bool, rev: &Clock, current: &Clock) -> bool
    ensures { result ≡ ((save || leads) || dominates rev.now current.now) }
{
    save || leads || is_newer(rev, current)
}

// Whether there is a member to merge with, and no member of another content has an own counter
// above all of these.
fn may_be_made(merging: &Merging, own: &ReplicaUid) -> bool
    ensures { result ≡ nat_lt 1 (length merging.now.parents)
        && nat_le merging.now.most (greatest own.now merging.now.parents) }
{
    merging.parents.len() > 1 && merging.most <= greatest_in(merging.parents.as_slice(), own)
}

fn same_contents(one: &Option<Content>, other: &Option<Content>) -> bool
    ensures { result ≡ same_content one.now other.now }
{
    match one {
        Some(one) => match other {
            Some(other) => same_trees(one, other),
            None => false,
        },
        None => other.is_none(),
    }
}

fn same_trees(one: &Content, other: &Content) -> bool
    ensures { result ≡ is_same one.now other.now }
{
    one.same(other)
}
