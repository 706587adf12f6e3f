//! What a session does with a link: it sends a request, hears the reply, and reads its lines.
//!
//! Each function says which bytes were sent and handed back, and what these say, by the definitions
//! of `sync_phases`. No replica is here.
#![tactic(auto)]

mod heads;
mod hearing;
mod lines;
mod sending;
mod small;

pub use heads::{Found, ask_fault, hear_head};
pub use hearing::{hear, hear_up_to};
pub use lines::{end_lines, next_line, stream_fault};
pub use sending::send_whole;
pub use small::{SmallBody, ask_small, hear_small};
