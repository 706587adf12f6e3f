//! One image on one disk: a header, and bodies after gates.
//!
//! An image grows by one body at a time. `append` writes the body after a closed gate and opens the
//! gate only when the body lies on the disk, so that a crash leaves the bodies with the new one or
//! without it. `append_all` adds many, which were staged in memory, and a crash leaves all of them or
//! none. Opening reads the bodies up to the first closed gate, or names the place of the
//! damage.
#![tactic(auto)]

mod appending;
mod header;
mod layout;
mod new_entries;
mod new_image;
mod opening;
mod parsed;
mod passing;
mod reading;
mod restarting;
mod spelling;
mod writing;

pub use appending::{AppendFault, Journal};
pub use header::{Bodies, Header};
pub use layout::{FIRST_FORMAT, SECOND_FORMAT};
pub use new_entries::NewEntries;
pub use new_image::NewImage;
pub use opening::{OpenFault, Opened, open_image};
pub use passing::{Entry, Stored, read_image};
pub use restarting::restart_image;
pub use writing::{ImageFault, write_image};
