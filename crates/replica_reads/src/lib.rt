//! What the state of a replica answers: its documents, its indexes, its log and its positions.
//!
//! A reading takes `&State` and changes nothing. Its contract gives its answer as a function of the
//! documents, the log or the positions, or as a relation to them; the answers of an index are also
//! given by the live documents, without its table.
#![tactic(auto)]

mod changes;
mod documents;
mod fault;
mod indexes;
mod laws;
mod positions;
mod uncounted;

pub use changes::{Changed, check_log, whats_changed};
pub use documents::{all_docs, doc_conflicts, get_doc};
pub use fault::QueryFault;
pub use indexes::{from_index, index_at, index_keys, index_table, range_from_index};
pub use laws::{law_answers, law_documents, law_index_answers, law_lists};
pub use positions::{kept_at, position_of};
pub use uncounted::{list_index_keys, query_index, query_index_range};
