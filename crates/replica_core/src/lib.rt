//! A replica, whatever keeps it: the trait, a replica in memory, the calls that a program uses on
//! one, and what its state answers.
//!
//! Each writing call decides by a definition over the state and its operands: a refusal, or an
//! answer with at most one step. Its contract is one record (`IsDone`): the answer is the decided
//! one, the state is the one after the decided step, each fault has its cause, each further step
//! needs what it needed behind that step, and a crash leaves the old state or that one.
//!
//! What a peer hands over can be staged, so that many steps are made durable together (`Stages`):
//! until they are flushed a crash leaves what was durable before.
#![tactic(auto)]

mod calls;
mod fault;
mod list;
mod memory;
mod replica;

pub use calls::documents::{PutFault, delete_doc, put_doc};
pub use calls::indexes::{IndexFault, create_index, delete_index};
pub use calls::receipts::{TakeFault, move_position, put_if_newer, stage_if_newer, stage_position};
pub use calls::resolutions::{ResolveDocFault, resolve_doc};
pub use fault::CommitFault;
pub use list::{Call, CallFault, Ends, run_all};
pub use memory::MemReplica;
pub use replica::Replica;
pub use replica_reads::{
    Changed, QueryFault, all_docs, check_log, doc_conflicts, from_index, get_doc, index_at,
    index_keys, index_table, kept_at, law_answers, law_documents, list_index_keys, position_of,
    query_index, query_index_range, range_from_index, whats_changed,
};
