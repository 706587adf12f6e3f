//! The images of a store on three disks.
//!
//! The root has one byte, which names the image that counts. `init_images` makes an empty store,
//! `open_images` reads the one that stands, `append_on` adds a body to it, `append_all_on` many
//! together, and `put_in_place` writes a new image on the other side and then names that. A crash at
//! any moment leaves the store as it was or as it is to be.
#![tactic(auto)]

mod appending;
mod laws;
mod making;
mod one_disk;
mod opening;
mod replacing;
mod root;

pub use appending::{append_all_on, append_on};
pub use laws::{law_found, law_store};
pub use making::init_images;
pub use opening::{OpenedImages, open_images};
pub use replacing::put_in_place;
pub use root::other_side;
