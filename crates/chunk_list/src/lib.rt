//! A list kept in chunks, so that an insertion or a removal moves the items of a few chunks alone.
//!
//! A contract sees the items, and how many more may be inserted without memory.
#![tactic(auto)]

mod chunks;
mod list;
mod room;
mod search;
mod spot;
mod starts;
mod walk;

pub use list::ChunkList;
pub use spot::Spot;
pub use walk::Walk;
