//! What an edit and a deletion make.
ghost use Rattle.std.specs.Prelude.{◌≡◌, ◌⊎◌, [], ◌∷◌, Err, Ok, Some, option_copied};
ghost use Rattle.std.specs.Option.{ok_or};
ghost use Rattle.conflicts.specs.Document.{is_live};
ghost use Rattle.conflicts.specs.Kept.{current, document};
ghost use Rattle.conflicts.specs.MadeAccepts.{made_edit};
ghost use Rattle.conflicts.specs.Making.{deleted, edit_of, edited, names};

use crate::made::{first_clock, made_of};
use crate::{Accept, DocSet, Making};
use content::Content;
use std::alloc::Global;
use std::error::Error;
use std::fmt;
use u1_base::{Memory, ReplicaUid};
use vector_rev::{Clock, Clocks};

/// Why an edit or a deletion is refused. The causes are tested in this order.
#[derive(Debug, PartialEq, Eq, Drop)]
pub enum EditFault {
    /// There is no document, and a revision was named.
    NoDocument,
    /// The document has more than one member.
    Conflicted,
    /// The given revision is the current one, and another one was named, or none although the
    /// document is live.
    RevisionConflict(Clock),
    /// The current member has no content already.
    AlreadyDeleted,
    /// The own counter is 2^63-1, or its entry would be the 65th.
    ClockFull,
    Memory,
}

impl fmt::Display for EditFault {
    fn fmt<W: fmt::Write>(&self, f: &mut fmt::Formatter<W>) -> fmt::Result {
        match self {
            EditFault::NoDocument => f.write_str("there is no such document"),
            EditFault::Conflicted => f.write_str("the document is in conflict"),
            EditFault::RevisionConflict(_) => f.write_str("another revision is the current one"),
            EditFault::AlreadyDeleted => f.write_str("the document is deleted already"),
            EditFault::ClockFull => f.write_str("the clock is full"),
            EditFault::Memory => f.write_str("out of memory"),
        }
    }
}

impl Error for EditFault {}

impl From<Memory> for EditFault {
    ghost use Rattle.std.specs.Prelude.{◌≡◌};
    ghost use Rattle.conflicts.specs.declared.edits.EditFault.TheVariants as fault;

    ghost from_gives = { λ _ e. e ≡ fault.Memory };

    fn from(_memory: Memory) -> EditFault {
        EditFault::Memory
    }
}

/// Makes an edit of the document, which names the revision that it changes. An edit that makes a
/// document, or that gives a deleted one a content again, may name none.
pub fn edit(
    alloc: Global,
    set: Option<&DocSet>,
    rev: Option<&Clock>,
    content: &Content,
    own: &ReplicaUid,
) -> Result<Accept, EditFault>
    ensures { (result ≡ Err EditFault.Memory)
        ⊎ (result ≡ edited (document (option_copied set.entry))
        (option_copied rev.entry) content.now own.now) }
{
    let Some(set) = set else {
        if rev.is_some() {
            return Err(EditFault::NoDocument);
        }
        return first_edit(alloc, content, own);
    };
    if set.length() > 1 {
        return Err(EditFault::Conflicted);
    }
    if !is_named(set, rev) {
        return Err(revision_conflict(set));
    }
    edit_over(alloc, set, Some(content), own)
}

/// Makes a deletion of the document, which names the revision that it deletes.
pub fn delete(
    alloc: Global,
    set: Option<&DocSet>,
    rev: &Clock,
    own: &ReplicaUid,
) -> Result<Accept, EditFault>
    ensures { (result ≡ Err EditFault.Memory)
        ⊎ (result ≡ deleted (document (option_copied set.entry)) rev.now own.now) }
{
    let Some(set) = set else {
        return Err(EditFault::NoDocument);
    };
    if set.length() > 1 {
        return Err(EditFault::Conflicted);
    }
    if *rev != set.current().rev {
        return Err(revision_conflict(set));
    }
    if !is_live(set) {
        return Err(EditFault::AlreadyDeleted);
    }
    edit_over(alloc, set, None, own)
}

// Whether the edit names the revision that it has to name.
fn is_named(set: &DocSet, rev: Option<&Clock>) -> bool
    ensures { result ≡ names (option_copied rev.entry) (current set.now).rev
        (is_live (document (Some set.now))) }
{
    match rev {
        Some(rev) => *rev == set.current().rev,
        None => !is_live(set),
    }
}

fn is_live(set: &DocSet) -> bool
    ensures { result ≡ is_live (document (Some set.now)) }
{
    set.current().content.is_some()
}

fn revision_conflict(set: &DocSet) -> EditFault
    ensures { (result ≡ EditFault.Memory)
        ⊎ (result ≡ EditFault.RevisionConflict (current set.now).rev) }
{
    match set.current().rev.copy() {
        Ok(rev) => EditFault::RevisionConflict(rev),
        Err(Memory) => EditFault::Memory,
    }
}

fn first_edit(alloc: Global, content: &Content, own: &ReplicaUid) -> Result<Accept, EditFault>
    ensures { (result ≡ Err EditFault.Memory)
        ⊎ (result ≡ ok_or (edit_of own.now [] (Some content.now)) EditFault.ClockFull) }
{
    let rev = first_clock(alloc, own)?;
    edit_with(rev, Some(content), Clocks::new(alloc))
}

fn edit_over(
    alloc: Global,
    set: &DocSet,
    content: Option<&Content>,
    own: &ReplicaUid,
) -> Result<Accept, EditFault>
    ensures { (result ≡ Err EditFault.Memory)
        ⊎ (result ≡ ok_or (edit_of own.now ((current set.now).rev ∷ [])
        (option_copied content.entry)) EditFault.ClockFull) }
{
    let mut parents = Clocks::new(alloc);
    parents.push(set.current().rev.copy()?)?;
    match made_of(parents.as_slice(), own)? {
        Some(rev) => edit_with(rev, content, parents),
        None => Err(EditFault::ClockFull),
    }
}

fn edit_with(rev: Clock, content: Option<&Content>, parents: Clocks) -> Result<Accept, EditFault>
    ensures { (result ≡ Err EditFault.Memory)
        ⊎ (result ≡ Ok (made_edit rev (option_copied content.entry) parents)) }
{
    let content = match content {
        Some(content) => Some(content.copy()?),
        None => None,
    };
    Ok(Accept {
        rev,
        content,
        making: Making::Edit,
        parents,
        current: true,
    })
}
