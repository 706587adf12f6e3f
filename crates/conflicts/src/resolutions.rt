//! What a resolution of a conflict makes.
ghost use Rattle.std.specs.Prelude.{◌≡◌, ◌⊎◌, ◌+◌, ◌<◌, ◌≤◌, ◌++◌, ◌==◌, [], ◌∷◌, cond, Ok, Err};
ghost use Rattle.std.specs.Prelude.{IfOk, OnOk, Some, find, length, option_copied};
ghost use Rattle.std.specs.Option.{ok_or};
ghost use Rattle.vector_rev.specs.Clock.{count_of, dominates};
ghost use Rattle.conflicts.specs.Kept.{current, current_first, document};
ghost use Rattle.conflicts.specs.MadeAccepts.{made_resolution};
ghost use Rattle.conflicts.specs.Walk.{seen};
ghost use Rattle.conflicts.specs.Making.{greatest, leader, named_in, resolution_of, resolved};
ghost use Rattle.conflicts.specs.Making.{resolved_over, revs};

use crate::apply::is_newer;
use crate::made::{greatest_in, made_of};
use crate::names::{Names, stands_in};
use crate::{Accept, DocSet, Making, Member};
use content::Content;
use std::alloc::Global;
use std::error::Error;
use std::fmt;
use u1_base::{Memory, ReplicaUid};
use vector_rev::{Clock, Clocks};

/// Why a resolution is refused. The causes are tested in this order.
#[derive(Debug, PartialEq, Eq, Drop)]
pub enum ResolveFault {
    NoDocument,
    /// The document has one member.
    NotConflicted,
    /// No named revision is a member.
    NothingNamed,
    /// No named member has the greatest own counter among all members. The given revision is the
    /// first member that has it, the current one standing first.
    Unnamed(Clock),
    /// The own counter is 2^63-1, or the clock would have more than 64 entries.
    ClockFull,
    Memory,
}

impl fmt::Display for ResolveFault {
    fn fmt<W: fmt::Write>(&self, f: &mut fmt::Formatter<W>) -> fmt::Result {
        match self {
            ResolveFault::NoDocument => f.write_str("there is no such document"),
            ResolveFault::NotConflicted => f.write_str("the document is not in conflict"),
            ResolveFault::NothingNamed => f.write_str("no named revision is in the conflict"),
            ResolveFault::Unnamed(_) => f.write_str(
                "a revision with the greatest own counter has to be named",
            ),
            ResolveFault::ClockFull => f.write_str("the clock is full"),
            ResolveFault::Memory => f.write_str("out of memory"),
        }
    }
}

impl Error for ResolveFault {}

impl From<Memory> for ResolveFault {
    ghost use Rattle.std.specs.Prelude.{◌≡◌};
    ghost use Rattle.conflicts.specs.declared.resolutions.ResolveFault.TheVariants as fault;

    ghost from_gives = { λ _ e. e ≡ fault.Memory };

    fn from(_memory: Memory) -> ResolveFault {
        ResolveFault::Memory
    }
}

/// Makes a resolution: one revision of the named members, with the content or, where it is none, a
/// deletion. Named revisions that are no members are ignored.
pub fn resolve(
    alloc: Global,
    set: Option<&DocSet>,
    named: &Clocks,
    content: Option<&Content>,
    own: &ReplicaUid,
) -> Result<Accept, ResolveFault>
    ensures { (result ≡ Err ResolveFault.Memory)
        ⊎ (result ≡ resolved (document (option_copied set.entry)) named.now
        (option_copied content.entry) own.now) }
{
    match set {
        Some(set) => resolve_there(alloc, set, named, content, own),
        None => Err(ResolveFault::NoDocument),
    }
}

fn resolve_there(
    alloc: Global,
    set: &DocSet,
    named: &Clocks,
    content: Option<&Content>,
    own: &ReplicaUid,
) -> Result<Accept, ResolveFault>
    ensures { (result ≡ Err ResolveFault.Memory)
        ⊎ (result ≡ resolved (document (Some set.now)) named.now
        (option_copied content.entry) own.now) }
{
    if set.length() <= 1 {
        return Err(ResolveFault::NotConflicted);
    }
    resolve_over(alloc, set, named.as_slice(), content, own)
}

fn resolve_over(
    alloc: Global,
    set: &DocSet,
    named: &[Clock],
    content: Option<&Content>,
    own: &ReplicaUid,
) -> Result<Accept, ResolveFault>
    ensures { (result ≡ Err ResolveFault.Memory)
        ⊎ (result ≡ resolved_over (current set.now).rev (current_first set.now) named.now
        (option_copied content.entry) own.now) }
{
    let parents = named_of(alloc, set, named)?;
    if parents.as_slice().len() == 0 {
        return Err(ResolveFault::NothingNamed);
    }
    let most = greatest_of(set, own);
    if greatest_in(parents.as_slice(), own) < most {
        return Err(unnamed(set, own, most));
    }
    resolution(set, parents, content, own)
}

// The named members' clocks, the current one first.
fn named_of(alloc: Global, set: &DocSet, named: &[Clock]) -> Result<Vec<Clock>, Memory>
    ensures { IfOk result (λ v. v.items ≡ revs (named_in named.now (current_first set.now))) }
{
    let names = Names::of(alloc, named)?;
    named_members(alloc, set, &names)
}

fn named_members(alloc: Global, set: &DocSet, names: &Names) -> Result<Vec<Clock>, Memory>
    ensures { IfOk result (λ v. v.items ≡ revs
        (named_in names.now.all.now (current_first set.now))) }
{
    let mut parents = Vec::new(alloc);
    push_named(&mut parents, set.current(), names)?;
    for place in 0..set.members().len() {
        push_other(&mut parents, set, place, names)?;
    }
    Ok(parents)
}

// Adds the clock of the member at the place, if it is not the current one and is named.
fn push_other(
    into: &mut Vec<Clock>,
    set: &DocSet,
    place: usize,
    names: &Names,
) -> Result<(), Memory>
    requires { place < length set.now.members }
    ensures { OnOk result (into.old.items ≡ revs (named_in names.now.all.now (seen set.now place))
        → into.new.items ≡ revs (named_in names.now.all.now (seen set.now (place + 1)))) }
{
    if place == set.place() {
        return Ok(());
    }
    push_named(into, &set.members()[place], names)?;
    Ok(())
}

// Adds the member's clock at the end, if it is named.
fn push_named(into: &mut Vec<Clock>, member: &Member, names: &Names) -> Result<(), Memory>
    ensures { OnOk result (into.new.items ≡ into.old.items
        ++ revs (named_in names.now.all.now (member.now ∷ []))) }
{
    push_if(into, &member.rev, names.has(&member.rev))?;
    Ok(())
}

fn push_if(into: &mut Vec<Clock>, rev: &Clock, wanted: bool) -> Result<(), Memory>
    ensures { OnOk result (into.new.items ≡ into.old.items ++ cond wanted (rev.now ∷ []) []) }
{
    if !wanted {
        return Ok(());
    }
    into.push(rev.copy()?)?;
    Ok(())
}

// The greatest own counter among the members.
fn greatest_of(set: &DocSet, own: &ReplicaUid) -> u64
    ensures { result ≡ greatest own.now (revs (current_first set.now)) }
{
    greatest_among(set.members(), own)
}

fn greatest_among(members: &[Member], own: &ReplicaUid) -> u64
    ensures { result ≡ greatest own.now (revs members.now) }
{
    let mut most = 0;
    for member in members {
        most = member.rev.count(own).max(most);
    }
    most
}

fn unnamed(set: &DocSet, own: &ReplicaUid, most: u64) -> ResolveFault
    requires { most ≡ greatest own.now (revs (current_first set.now)) }
    ensures { (result ≡ ResolveFault.Memory)
        ⊎ (result ≡ ResolveFault.Unnamed
        (leader own.now (current set.now).rev (current_first set.now))) }
{
    match leader(set, own, most).copy() {
        Ok(rev) => ResolveFault::Unnamed(rev),
        Err(Memory) => ResolveFault::Memory,
    }
}

// The first member with that own counter, the current one standing first.
fn leader<'a>(set: &'a DocSet, own: &ReplicaUid, most: u64) -> &'a Clock
    requires { most ≡ greatest own.now (revs (current_first set.now)) }
    ensures { result.now ≡ leader own.now (current set.now).rev (current_first set.now) }
{
    let current = set.current();
    if current.rev.count(own) == most {
        return &current.rev;
    }
    match first_with(set.members(), own, most) {
        Some(member) => &member.rev,
        None => &current.rev,
    }
}

fn first_with<'a>(members: &'a [Member], own: &ReplicaUid, most: u64) -> Option<&'a Member>
    ensures { option_copied result ≡ find (λ m. count_of m.rev own.now == most) members.now }
{
    members.iter().find(|member| member.rev.count(own) == most)
}

fn resolution(
    set: &DocSet,
    parents: Vec<Clock>,
    content: Option<&Content>,
    own: &ReplicaUid,
) -> Result<Accept, ResolveFault>
    requires { 1 ≤ length parents.items }
    ensures { (result ≡ Err ResolveFault.Memory)
        ⊎ (result ≡ ok_or (resolution_of own.now (current set.now).rev parents.items
        (option_copied content.entry)) ResolveFault.ClockFull) }
{
    let Some(rev) = made_of(parents.as_slice(), own)? else {
        return Err(ResolveFault::ClockFull);
    };
    let current = &set.current().rev;
    let leads = stands_in(current, parents.as_slice()) | is_newer(&rev, current);
    resolution_with(rev, content, parents, leads)
}

fn resolution_with(
    rev: Clock,
    content: Option<&Content>,
    parents: Vec<Clock>,
    current: bool,
) -> Result<Accept, ResolveFault>
    ensures { (result ≡ Err ResolveFault.Memory)
        ⊎ (result ≡ Ok (made_resolution rev (option_copied content.entry) parents.items
        current)) }
{
    let content = match content {
        Some(content) => Some(content.copy()?),
        None => None,
    };
    Ok(Accept {
        rev,
        content,
        making: Making::Resolve,
        parents: Clocks::from_vec(parents),
        current,
    })
}
