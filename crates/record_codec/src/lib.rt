//! Steps as the bodies of entries: written in format 2, read in formats 1 and 2.
//!
//! A uid stands in a body of format 2 as its number, and as its text where it is named for the
//! first time in the image; so a body is written and read with the uids that have numbers before
//! it. Where the same uids have numbers, each step has one body and each body says one step.
#![tactic(auto)]

mod decoding;
mod encoding;
mod kind;
mod laws;
mod makings;
mod reading;
mod tables;
mod writing;

pub use decoding::{Decoded, RecordFault, decode, decode_first};
pub use encoding::{Encoded, encode};
pub use laws::{law_bodies, law_first_bodies};
pub use record_fields::{ReplicaUids, Uids};
