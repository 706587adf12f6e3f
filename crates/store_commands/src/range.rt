//! `range`: shows the documents with a key between two ends.
ghost use Rattle.replica_core.specs.Commands.Indexes.{range_effect};
ghost use Rattle.replica_state.specs.Held.{lists_of};
ghost use Rattle.store_commands.specs.Carries.{Carries};
ghost use Rattle.store_commands.specs.Deeds.{over_replica};

use crate::Ended;
use crate::listing::print_documents;
use command_lines::{Outcome, Refusal};
use link::Sink;
use replica_core::{Replica, index_table, query_index_range};
use std::alloc::Global;
use u1_base::{IndexName, Key};

/// Shows the documents with a key from the start to the end, by their least such key and then by
/// id. An end that is None bounds nothing.
pub fn range<R: Replica, K: Sink>(
    alloc: Global,
    name: &IndexName,
    start: &Option<Key>,
    end: &Option<Key>,
    replica: &R,
    out: &mut K,
) -> Ended
    requires { R.is_open replica.now }
    ensures { Carries R.known R.is_open R.crash
        (over_replica
        (range_effect (lists_of (R.known replica.now).state) name.now start.now end.now))
        replica.now replica.now (K.known out.old) (K.known out.new) result }
{
    let Some(index) = index_table(replica.state(), name) else {
        return Err(Outcome::Refused(Refusal::IndexUnknown));
    };
    let ids = query_index_range(alloc, index, start.as_ref(), end.as_ref())?;
    Ok(print_documents(replica.state(), false, ids.as_slice(), out)?)
}
