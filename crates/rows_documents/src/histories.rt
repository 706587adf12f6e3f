//! `doc`: the history of a document. An answer is what is accepted, and behind `=` the members
//! then, the current one first.
//!
//! - `new ID`: there is no document any more.
//! - `edit UID REV CONTENT`, `delete UID REV`, `resolve UID REV,REV CONTENT`, and
//!   `receive UID save|sent REV CONTENT`: the calls of a replica of this uid; `-` is none.
//! - `take current|beside REV CONTENT`: an acceptance that no call makes.
//! - `newer REV`: whether a member is newer. `current ID`: the revision of the current member.
use crate::meant::say_fault;
use conflicts::{
    Accept, DocSet, EditFault, Making, Member, Outcome4, ResolveFault, Taken, delete, edit,
    receive, resolve,
};
use content::Content;
use rows::Said;
use std::alloc::Global;
use std::fmt;
use u1_base::ReplicaUid;
use vector_rev::{Clock, Clocks};

pub(crate) fn answer(
    alloc: Global,
    set: &mut Option<DocSet>,
    call: &str,
    row: &str,
    said: &mut Said,
) -> Option<()> {
    match call {
        "new" => {
            drop(set.take());
            said.line("none").ok()
        }
        "take" => take(alloc, set, row, said),
        "newer" => newer(alloc, set.as_ref()?, row, said),
        "current" => {
            say_clock(&set.as_ref()?.current().rev, said)?;
            said.end().ok()
        }
        _ => called(alloc, set, call, row, said),
    }
}

fn newer(alloc: Global, set: &DocSet, row: &str, said: &mut Said) -> Option<()> {
    let rev = Clock::read(alloc, row).ok()?;
    said.line(if set.has_newer(&rev) { "yes" } else { "no" })
        .ok()
}

fn called(
    alloc: Global,
    set: &mut Option<DocSet>,
    call: &str,
    row: &str,
    said: &mut Said,
) -> Option<()> {
    let (own, row) = row.split_once(' ')?;
    let own = ReplicaUid::read(alloc, own).ok()?;
    let asked = Asked {
        alloc,
        own: &own,
        row,
    };
    let made = match call {
        "edit" => asked.edit(set.as_ref(), said),
        "delete" => asked.delete(set.as_ref(), said),
        "resolve" => asked.resolve(set.as_ref(), said),
        "receive" => asked.receive(set.as_ref(), said),
        _ => None,
    };
    drop(own);
    match made? {
        Some(accept) => {
            let told = accepted(alloc, set, &accept, said);
            drop(accept);
            told
        }
        None => said.end().ok(),
    }
}

// A call of a replica of this uid, and what it is given.
#[derive(Clone, Copy)]
struct Asked<'a> {
    alloc: Global,
    own: &'a ReplicaUid,
    row: &'a str,
}

impl Asked<'_> {
    fn edit(self, set: Option<&DocSet>, said: &mut Said) -> Option<Option<Accept>> {
        let (rev, text) = self.row.split_once(' ')?;
        let content = Content::read(self.alloc, text.as_bytes()).ok()?;
        let rev = clock_or_none(self.alloc, rev)?;
        let made = edit(self.alloc, set, rev.as_ref(), &content, self.own);
        made_or_told(self.alloc, made, said)
    }

    fn delete(self, set: Option<&DocSet>, said: &mut Said) -> Option<Option<Accept>> {
        let rev = Clock::read(self.alloc, self.row).ok()?;
        made_or_told(self.alloc, delete(self.alloc, set, &rev, self.own), said)
    }

    fn resolve(self, set: Option<&DocSet>, said: &mut Said) -> Option<Option<Accept>> {
        let (revs, text) = self.row.split_once(' ')?;
        let content = content_or_none(self.alloc, text)?;
        let named = clocks(self.alloc, revs)?;
        let made = resolve(self.alloc, set, &named, content.as_ref(), self.own);
        made_or_told(self.alloc, made, said)
    }

    fn receive(self, set: Option<&DocSet>, said: &mut Said) -> Option<Option<Accept>> {
        let (how, row) = self.row.split_once(' ')?;
        let Taken { outcome, accepted } = self.taken(set, row, how == "save")?;
        match said.word(word_of(outcome)) {
            Ok(()) => Some(accepted),
            Err(_) => {
                drop(accepted);
                None
            }
        }
    }

    fn taken(self, set: Option<&DocSet>, row: &str, save: bool) -> Option<Taken> {
        let incoming = copy_of_member(self.alloc, row)?;
        let taken = receive(self.alloc, set, &incoming, save, self.own);
        drop(incoming);
        taken.ok()
    }
}

/// A fault that may name a revision.
trait Refusal {
    fn revision(&self) -> Option<&Clock>;
}

impl Refusal for EditFault {
    fn revision(&self) -> Option<&Clock> {
        match self {
            EditFault::RevisionConflict(rev) => Some(rev),
            _ => None,
        }
    }
}

impl Refusal for ResolveFault {
    fn revision(&self) -> Option<&Clock> {
        match self {
            ResolveFault::Unnamed(rev) => Some(rev),
            _ => None,
        }
    }
}

// What is made; the fault is said where there is none.
fn made_or_told<F: Refusal + fmt::Display + Drop>(
    alloc: Global,
    made: Result<Accept, F>,
    said: &mut Said,
) -> Option<Option<Accept>> {
    match made {
        Ok(accept) => Some(Some(accept)),
        Err(fault) => {
            say_refusal(alloc, &fault, said)?;
            Some(None)
        }
    }
}

fn say_refusal<F: Refusal + fmt::Display>(alloc: Global, fault: &F, said: &mut Said) -> Option<()> {
    say_fault(alloc, fault, said)?;
    match fault.revision() {
        Some(rev) => say_clock(rev, said),
        None => Some(()),
    }
}

// A copy of the member `REV CONTENT`.
fn copy_of_member(alloc: Global, row: &str) -> Option<Member> {
    let member = member_of(alloc, row)?;
    let copy = member.copy();
    drop(member);
    copy.ok()
}

fn word_of(outcome: Outcome4) -> &'static str {
    match outcome {
        Outcome4::Inserted => "inserted",
        Outcome4::Superseded => "superseded",
        Outcome4::Converged => "converged",
        Outcome4::Conflicted => "conflicted",
    }
}

// What is accepted, and the members after it.
fn accepted(
    alloc: Global,
    set: &mut Option<DocSet>,
    accept: &Accept,
    said: &mut Said,
) -> Option<()> {
    say_accept(accept, said)?;
    said.end().ok()?;
    if !DocSet::fits(set.as_ref(), accept) {
        return said.line("does not fit").ok();
    }
    let copy = accept.copy(alloc).ok()?;
    let after = DocSet::after(alloc, set.as_ref(), copy).ok()?;
    becomes(set, after, said)
}

// The same of an acceptance from outside, in place.
fn take(alloc: Global, set: &mut Option<DocSet>, row: &str, said: &mut Said) -> Option<()> {
    let accept = acceptance(alloc, row)?;
    if !DocSet::fits(set.as_ref(), &accept) {
        drop(accept);
        return said.line("does not fit").ok();
    }
    let after = DocSet::apply(alloc, set.take(), accept).ok()?;
    becomes(set, after, said)
}

fn acceptance(alloc: Global, row: &str) -> Option<Accept> {
    let (how, row) = row.split_once(' ')?;
    let Member { rev, content } = member_of(alloc, row)?;
    Some(Accept {
        rev,
        content,
        making: Making::Received,
        parents: Clocks::new(alloc),
        current: how == "current",
    })
}

// The document is this one now.
fn becomes(set: &mut Option<DocSet>, after: DocSet, said: &mut Said) -> Option<()> {
    drop(set.replace(after));
    say_copy(set.as_ref()?, said)
}

// The clock of a text; `-` is none.
fn clock_or_none(alloc: Global, text: &str) -> Option<Option<Clock>> {
    if text == "-" {
        return Some(None);
    }
    Some(Some(Clock::read(alloc, text).ok()?))
}

// The clocks of a text, with commas between.
fn clocks(alloc: Global, text: &str) -> Option<Clocks> {
    let mut clocks = Clocks::new(alloc);
    for text in text.split(',') {
        clocks.push(Clock::read(alloc, text).ok()?).ok()?;
    }
    Some(clocks)
}

fn content_or_none(alloc: Global, text: &str) -> Option<Option<Content>> {
    if text == "-" {
        return Some(None);
    }
    Some(Some(Content::read(alloc, text.as_bytes()).ok()?))
}

// The member `REV CONTENT`.
fn member_of(alloc: Global, row: &str) -> Option<Member> {
    let (rev, text) = row.split_once(' ')?;
    let content = content_or_none(alloc, text)?;
    Some(Member {
        rev: Clock::read(alloc, rev).ok()?,
        content,
    })
}

/// Adds the text of a clock.
pub(crate) fn say_clock(clock: &Clock, said: &mut Said) -> Option<()> {
    said.word(clock.text().ok()?.as_str()).ok()
}

// A longer content is told by its length.
const LONG: usize = 1000;

/// Adds the text of a content, or `-`.
pub(crate) fn say_content(content: &Option<Content>, said: &mut Said) -> Option<()> {
    let Some(content) = content else {
        return said.word("-").ok();
    };
    let text = content.as_str();
    if text.len() > LONG {
        said.number(text.len() as u64).ok()?;
        return said.word("bytes").ok();
    }
    said.word(text).ok()
}

/// Adds an acceptance as `REV CONTENT MAKING of PARENTS`, with `current` behind it where it is
/// marked so.
pub(crate) fn say_accept(accept: &Accept, said: &mut Said) -> Option<()> {
    say_clock(&accept.rev, said)?;
    say_content(&accept.content, said)?;
    said.word(making(accept.making)).ok()?;
    for parent in accept.parents.as_slice() {
        say_clock(parent, said)?;
    }
    if accept.current {
        said.word("current").ok()?;
    }
    Some(())
}

fn making(making: Making) -> &'static str {
    match making {
        Making::Edit => "edit of",
        Making::Resolve => "resolve of",
        Making::Merge => "merge of",
        Making::Received => "received of",
    }
}

// The members of a copy of the document.
fn say_copy(set: &DocSet, said: &mut Said) -> Option<()> {
    let copy = set.copy().ok()?;
    let told = say_members(&copy, said);
    drop(copy);
    told
}

fn say_members(set: &DocSet, said: &mut Said) -> Option<()> {
    said.word("=").ok()?;
    for place in 0..set.length() {
        let member = set.member(place)?;
        say_clock(&member.rev, said)?;
        say_content(&member.content, said)?;
        said.join(";").ok()?;
    }
    said.end().ok()
}
