//! How the lines of the program are spelled: the lines of each command, the last line of each
//! outcome, and its status.
//!
//! Each function prints one line to a sink. Its contract is one clause, `Puts`: the sink took just
//! the line's text, or a front of it where the sink failed or memory ran out. The texts are defined
//! in `specs/Lines.antt` and `specs/LastLines.antt`.
#![tactic(auto)]

mod documents;
mod indexes;
mod last;
mod outcome;
mod places;
mod put;

pub use documents::{print_conflict, print_document, print_made, print_no_document};
pub use indexes::{print_index, print_index_deleted, print_index_made, print_key};
pub use last::print_last_line;
pub use outcome::{Outcome, Refusal, UsageKind, expression_end, outcome_status};
pub use places::{
    print_change, print_compacted, print_database, print_generation, print_init, print_known,
    print_now, print_replica, print_told,
};
pub use put::{PrintFault, put_all};
