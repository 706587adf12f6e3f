//! A replica on three disks: its steps are the bodies of an image.
//!
//! `Volume::init` makes an empty store, and `Volume::open_volume` opens the one that stands; an
//! image of format 1 is moved to format 2 then. An open volume is a `Replica`: a commit adds the
//! body of its step to the image, and a flush those of all steps that were staged. A crash at any
//! moment leaves what opens as the state before these steps or as the one after all of them.
//! `Volume::compact` writes the image anew with what a compaction leaves of its steps.
#![tactic(auto)]

mod committing;
mod compacting;
mod making;
mod moving;
mod opening;
mod placing;
mod replaying;
mod replica;

pub use replica::Volume;
