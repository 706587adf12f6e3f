//! The calls that write to a replica.
mod accepting;
mod committing;
pub(crate) mod documents;
pub(crate) mod indexes;
mod positions;
pub(crate) mod receipts;
pub(crate) mod resolutions;
