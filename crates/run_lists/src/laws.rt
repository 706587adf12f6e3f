//! What holds of every store, as the contract of a function that does nothing.
ghost use Rattle.run_lists.specs.Sessions.{ChangesCompose, FilesAreFound};
ghost use Rattle.run_lists.specs.Sessions.{ListsAnswer, SessionsGoOn};

use conflicts::{law_members, law_state};
use replica_reads::law_answers;

/// Whatever lists are run one after the other on a store, and whenever each is stopped, the history
/// goes on, and what was made by the end of a run that settled the store stands in it. What was
/// answered of an index until then was the filter of the live documents.
pub fn law_sessions()
    ensures files { FilesAreFound }
    ensures changes { ChangesCompose }
    ensures sessions { SessionsGoOn }
    ensures answers { ListsAnswer }
{
    law_state();
    law_members();
    law_answers();
}
