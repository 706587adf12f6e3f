//! Vector clocks (Fidge, Mattern), the revisions of documents: they are read, written, compared,
//! joined and raised.
//!
//! A contract sees a clock as one value: its entries in the order of their uids, with the proof
//! that they are a clock. What it says is the counter of each uid.
#![tactic(auto)]

mod clock;
mod compare;
mod entry;
mod join;
mod laws;
mod places;
mod read;

pub use clock::{Clock, Clocks};
pub use compare::Order;
pub use entry::{ClockEntries, ClockEntry};
pub use join::{JoinFault, NextFault};
pub use laws::{law_counters, law_covering, law_join, law_next, law_reading, law_texts};
pub use read::ClockFault;
