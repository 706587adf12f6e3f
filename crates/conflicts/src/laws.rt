//! What holds of all documents and of all histories, each as the contract of a function that does
//! nothing.
ghost use Rattle.conflicts.specs.Acceptances.{LastMarkedIsCurrent, Unfitting};
ghost use Rattle.conflicts.specs.Laws.{Makings, MembersAreKept, StateGoesOn};
ghost use Rattle.conflicts.specs.Receipts.{Receipts};

/// The members, pruned at each acceptance, are those of the whole list of acceptances, and no
/// accepted revision is lost: a member covers it, now and after every later acceptance.
pub fn law_members()
    ensures { MembersAreKept }
{}

/// Later steps change the state that a history leaves by these steps alone.
pub fn law_state()
    ensures { StateGoesOn }
{}

/// What is made and what is accepted fits. A made revision is newer than each of its parents,
/// counts no other replica more than one of them does, and has an own counter that is greater than
/// any among the members.
pub fn law_makings()
    ensures { Makings }
{}

/// What an acceptance leaves that does not fit: nothing changes where a member is newer, and else
/// it acts as if it were marked current.
pub fn law_unfitting()
    ensures { Unfitting }
{}

/// Where each acceptance fits, the last one that is marked is the current one.
pub fn law_current()
    ensures { LastMarkedIsCurrent }
{}

/// What becomes of a document to which another replica hands over a revision: a member covers it
/// where this replica asked for it, in any case some member is not older, and what is accepted then
/// is what the answer says.
pub fn law_receipts()
    ensures { Receipts }
{}
