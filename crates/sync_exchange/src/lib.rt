//! One request of a source, taken apart into the calls that its target makes: what this replica
//! knows, whether a place fits its log, a document, what goes back, and a place that is told.
//!
//! Each call is one case of the definition of serving, over any replica. No byte is in it: a crate
//! that reads requests and writes replies stands above.
#![tactic(auto)]

mod apply;
mod asks;
mod fault;
mod laws;
mod returning;
mod seen;
mod serve;

pub use apply::apply_one;
pub use asks::{check_known, info, tell};
pub use fault::ExchangeFault;
pub use laws::law_cases;
pub use returning::returned;
pub use seen::Seen;
pub use serve::{Serve, ServeFault, Served};
