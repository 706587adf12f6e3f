//! The fields of bodies, read and written: numbers, ids, clocks, contents, expressions, places.
//!
//! Each kind of field is a `Field` of specs/Fields.antt: how a value is spelled, and what stands at
//! the front of some bytes. A uid stands in format 2 as its number, and as its text where it is
//! named for the first time; so fields are read and written with the uids that have numbers before
//! them. A reader answers what the field reads as, or where it has no reading; a writer puts the
//! spelling of one value after what it has.
#![tactic(auto)]

mod format;
mod named;
mod read;
mod reader;
mod stop;
mod uids;
mod values;
mod writer;

pub use format::Format;
pub use reader::Reader;
pub use stop::Stop;
pub use uids::{ReplicaUids, Uids};
pub use writer::Writer;
