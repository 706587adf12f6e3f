//! What holds of all sessions, each as the contract of a function that does nothing.
ghost use Rattle.sync_phases.specs.Laws.{RepliesAreHeard, TakingGoesOn, WorksAsWorked};

/// What is taken of a reply that comes in part are the first steps of what is taken where more of
/// it comes.
pub fn law_taking()
    ensures { TakingGoesOn }
{}

/// Whoever serves as it is defined replies to the question that was asked, and the bytes of the
/// reply say what a session has of it.
pub fn law_replies()
    ensures { RepliesAreHeard }
{}

/// What sessions ask, make and come to, at small states.
pub fn law_worked()
    ensures { WorksAsWorked }
{}
