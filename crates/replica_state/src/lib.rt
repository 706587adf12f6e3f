//! The state of a replica: its documents, its log, its positions, its indexes; and what one step
//! does to it.
//!
//! A contract sees a state as its sorted lists and the room in them; `meaning` leads from there to
//! the state of a history. A step is prepared first, which takes all the memory that it needs and
//! changes nothing, and then applied, which takes none. The table of each index is kept up to date
//! by each step: that it holds just the pairs of the live documents is a fact of the type.
#![tactic(auto)]

mod accepting;
mod apply;
mod build;
mod changes;
mod collection;
mod exprs;
mod fits;
mod index;
mod keys;
mod naming;
mod places;
mod prepare;
mod prepared;
mod replace;
mod replay;
mod settling;
mod state;
mod step;
mod waiting;

pub use conflicts::{Move, PosTable};
pub use exprs::IndexExprs;
pub use index::Index;
pub use prepared::Prepared;
pub use replay::Replay;
pub use state::State;
pub use step::Step;
