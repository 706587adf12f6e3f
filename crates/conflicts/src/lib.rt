//! What happens to a document: its members, the current one, and what is made of an edit, a
//! deletion, a resolution or a revision that another replica hands over. No accepted revision is
//! lost.
//!
//! A contract sees a set of members as one value: the members in the order of their last
//! acceptances, no two of them ordered by their clocks, and the place of the current one. What a
//! set stands for is a document: its members and its current revision.
#![tactic(auto)]

mod accept;
mod apply;
mod edits;
mod laws;
mod made;
mod member;
mod merges;
mod moves;
mod names;
mod receipts;
mod resolutions;
mod set;

pub use accept::{Accept, Making};
pub use edits::{EditFault, delete, edit};
pub use laws::{law_current, law_makings, law_members, law_receipts, law_state, law_unfitting};
pub use member::Member;
pub use moves::{Move, PosTable};
pub use receipts::{Outcome4, Taken, receive};
pub use resolutions::{ResolveFault, resolve};
pub use set::DocSet;
