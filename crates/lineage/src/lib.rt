//! The revisions of one document over all replicas: which was made where, and of which others.
//!
//! Where each history grows by what a replica may accept, a clock says just what ancestry says, and
//! no accepted revision is lost. The crate has definitions and this law; it runs nothing.
#![tactic(auto)]

mod laws;

pub use laws::law_lineage;
