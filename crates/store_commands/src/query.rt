//! `query`: shows the documents with a key that meets the values.
ghost use Rattle.replica_core.specs.Commands.Indexes.{query_effect};
ghost use Rattle.replica_state.specs.Held.{lists_of};
ghost use Rattle.store_commands.specs.Carries.{Carries};
ghost use Rattle.store_commands.specs.Deeds.{over_replica};

use crate::Ended;
use crate::listing::print_documents;
use command_lines::{Outcome, Refusal};
use link::Sink;
use replica_core::{Replica, index_table, query_index};
use std::alloc::Global;
use u1_base::{IndexName, Text};

/// Shows the documents with such a key, by their least such key and then by id.
pub fn query<R: Replica, K: Sink>(
    alloc: Global,
    name: &IndexName,
    values: &[Text],
    replica: &R,
    out: &mut K,
) -> Ended
    requires { R.is_open replica.now }
    ensures { Carries R.known R.is_open R.crash
        (over_replica (query_effect (lists_of (R.known replica.now).state) name.now values.now))
        replica.now replica.now (K.known out.old) (K.known out.new) result }
{
    let Some(index) = index_table(replica.state(), name) else {
        return Err(Outcome::Refused(Refusal::IndexUnknown));
    };
    let ids = query_index(alloc, index, values)?;
    Ok(print_documents(replica.state(), false, ids.as_slice(), out)?)
}
