//! Example: a note that two devices change.
//!
//! `write_note` changes the note on this device, `take_note` takes over what another device made of
//! it, and `settle_note` ends the conflict that this may leave. They work on any `Replica`: one in
//! memory, or one on disks.
ghost use Rattle.std.specs.Prelude.{◌≡◌, IfOk, OnErr, OnOk, false, true};
ghost use Rattle.conflicts.specs.Document.{is_conflicted};
ghost use Rattle.conflicts.specs.Kept.{current_first};
ghost use Rattle.conflicts.specs.Making.{revs};
ghost use Rattle.replica_state.specs.Held.{meaning};
ghost use Rattle.replica_core.specs.Calls.{IsDone};
ghost use Rattle.replica_core.specs.CallsDecide.{take_decides};
ghost use Rattle.replica_core.specs.CallsFaults.{put_failure, resolve_failure, take_failure};
ghost use Rattle.replica_core.specs.Replica.{state_in};
ghost use Rattle.examples.specs.Notes.{IsCovered, Reads, conflicting_in};
ghost use Rattle.examples.specs.Notes.{settle_decides, write_decides};

use conflicts::{DocSet, Member, Move, Taken};
use content::Content;
use replica_core::{
    PutFault, Replica, ResolveDocFault, TakeFault, doc_conflicts, get_doc, put_doc, put_if_newer,
    resolve_doc,
};
use replica_state::State;
use std::alloc::Global;
use u1_base::{DocId, Memory};
use vector_rev::{Clock, Clocks};

/// Gives the note a text, and answers its new revision. The note is made if it is not there. It is
/// refused as long as the note is in conflict.
pub fn write_note<R: Replica>(
    alloc: Global,
    notes: &mut R,
    seed: u128,
    id: &DocId,
    text: &Content,
) -> Result<Clock, PutFault>
    requires { R.is_open notes.old }
    ensures reads { IfOk result (λ rev. Reads (state_in (R.known notes.new)) id.now rev text.now) }
    ensures same { OnErr result (state_in (R.known notes.new) ≡ state_in (R.known notes.old)) }
    ensures done { IsDone R.known R.is_open R.crash put_failure
        (write_decides seed id.now text.now (state_in (R.known notes.old)))
        notes.old notes.new result }
{
    // An edit names the revision that it changes, so that no change is overwritten unseen.
    let Ok(rev) = revision(notes.state(), id) else {
        return Err(PutFault::Memory);
    };
    put_doc(alloc, notes, seed, id, rev.as_ref(), text)
}

/// Takes over what another device made of the note; `at` is the place of that in the other device's
/// log. It is a conflict if neither of the two devices knew of the other's change and their texts
/// differ; equal ones are merged where the rule of merges allows it.
pub fn take_note<R: Replica>(
    alloc: Global,
    notes: &mut R,
    seed: u128,
    id: &DocId,
    theirs: &Member,
    at: &Move,
) -> Result<Taken, TakeFault>
    requires { R.is_open notes.old }
    ensures kept { OnOk result (IsCovered (state_in (R.known notes.new)) id.now theirs.now.rev) }
    ensures same { OnErr result (state_in (R.known notes.new) ≡ state_in (R.known notes.old)) }
    ensures done { IsDone R.known R.is_open R.crash take_failure
        (take_decides seed id.now theirs.now true at.now (state_in (R.known notes.old)))
        notes.old notes.new result }
{
    // This device asked for the change, so a revision in conflict is kept too: `true`.
    put_if_newer(alloc, notes, seed, id, theirs, true, at)
}

/// Ends the conflict of the note: this text stands for all that the devices made of it.
pub fn settle_note<R: Replica>(
    alloc: Global,
    notes: &mut R,
    seed: u128,
    id: &DocId,
    text: &Content,
) -> Result<Clock, ResolveDocFault>
    requires { R.is_open notes.old }
    ensures reads { IfOk result (λ rev. Reads (state_in (R.known notes.new)) id.now rev text.now) }
    ensures settled { OnOk result
        (is_conflicted ((state_in (R.known notes.new)).document id.now) ≡ false) }
    ensures same { OnErr result (state_in (R.known notes.new) ≡ state_in (R.known notes.old)) }
    ensures done { IsDone R.known R.is_open R.crash resolve_failure
        (settle_decides seed id.now text.now (state_in (R.known notes.old)))
        notes.old notes.new result }
{
    // A resolution names the revisions that it stands for. Here it names all of them.
    let Ok(all) = conflicting(alloc, notes.state(), id) else {
        return Err(ResolveDocFault::Memory);
    };
    resolve_doc(alloc, notes, seed, id, &all, Some(text))
}

// The current revision of the note, also if it is deleted; none if it was never made.
fn revision(state: &State, id: &DocId) -> Result<Option<Clock>, Memory>
    ensures { IfOk result (λ rev. rev ≡ ((meaning state.now).document id.now).current) }
{
    match get_doc(state, id, true) {
        Some(member) => Ok(Some(member.rev.copy()?)),
        None => Ok(None),
    }
}

// All revisions of a note in conflict, the current one first; none of another note.
fn conflicting(alloc: Global, state: &State, id: &DocId) -> Result<Clocks, Memory>
    ensures { IfOk result (λ all. all ≡ conflicting_in ((meaning state.now).document id.now)) }
{
    match doc_conflicts(state, id) {
        Some(set) => revisions(alloc, set),
        None => Ok(Clocks::new(alloc)),
    }
}

// The revisions of the members, the current one first.
fn revisions(alloc: Global, set: &DocSet) -> Result<Clocks, Memory>
    ensures { IfOk result (λ all. all ≡ revs (current_first set.now)) }
{
    let mut all = Clocks::new(alloc);
    for place in 0..set.length() {
        let Some(member) = set.member(place) else {
            break;
        };
        all.push(member.rev.copy()?)?;
    }
    Ok(all)
}
