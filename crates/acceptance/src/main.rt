//! Makes calls that write to a replica, over a store on three disks in memory, for the check in
//! which each call for memory fails in turn. Standard input has a line as `call put-doc`: how the
//! call is made, and its name.
//!
//! | how | what is made |
//! |---|---|
//! | `look` | no call |
//! | `call` | the call |
//! | `twice` | the call, and then the same one over the same replica |
//! | `stage` | the call is staged, and then all that is staged is flushed |
//! | `stage-twice` | the call is staged, staged once more, and then flushed |
//!
//! It prints how each call and each flush ended; what is read of the replica's state then; behind a
//! line `opened again` the same of the store, which is opened again; and whether the disks were
//! called to write, with the worked image that they hold. Where memory runs out elsewhere it prints
//! `unprepared`.
#![tactic(auto)]

mod calls;
mod images;
mod readings;
mod volumes;

use std::process::ExitCode;
use std::str;

fn main(rt: HostRuntime) -> ExitCode {
    let alloc = rt.alloc();
    let mut order = String::new(alloc);
    let read = rt.read_line(&mut order);
    let printed = match volumes::told(alloc, order.as_str()) {
        Ok(out) if read.is_ok() => rt.println(str::from_utf8(out.bytes()).unwrap_or("no text")),
        _ => rt.println("unprepared"),
    };
    if printed.is_ok() {
        ExitCode::SUCCESS
    } else {
        ExitCode::from(1)
    }
}
