//! What the programs that measure share: a workload that is timed beside its peer, what it
//! reports, and the documents that it is about.
#![tactic(auto)]

mod documents;
mod fault;
mod report;
mod words;
mod work;

pub use documents::{NAMES, content_of, id_of, name_of, text_of, trans_of};
pub use fault::{Fault, done};
pub use report::{Report, elapsed, end, started, tell};
pub use words::{Asked, read_words};
pub use work::{Workload, measure};
