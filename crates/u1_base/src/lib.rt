//! The small types that every layer shares: texts, lists, ids, positions, keys and counters.
//!
//! A contract sees each of them as one plain value: a text and an id as the list of its bytes, a
//! list as its items, a counter as a number. What it costs, as capacity and allocator, is hidden.
#![tactic(auto)]

mod counting;
mod fields;
mod ids;
mod inline;
mod items;
mod key;
mod laws;
pub mod limits;
mod made;
mod memory;
mod position;
mod text;

pub use counting::Steps;
pub use fields::{u16_at, u32_at, u64_at};
pub use ids::{
    Database, DbName, DocId, Document, Form, FormOf, Id, IdFault, Ids, Index, IndexName, Replica,
    ReplicaUid, TransId, Transaction,
};
pub use items::{Bytes, Items, Numbers, Texts};
pub use key::{Key, Keys};
pub use laws::{law_ids, law_same_id, law_same_place};
pub use made::{IdKind, new_id};
pub use memory::Memory;
pub use position::Position;
pub use text::Text;
