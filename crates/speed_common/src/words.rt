//! The words that a program is called with.
use crate::Fault;
use std::env;

/// The workload that is asked for, and its size.
#[derive(Drop)]
pub struct Asked {
    pub name: String,
    pub size: u32,
}

/// What the words ask for that the program was called with.
pub fn read_words(rt: &HostRuntime) -> Result<Asked, Fault> {
    let mut args = env::args(rt)?.skip(1);
    let (Some(name), Some(size)) = (args.next(), args.next()) else {
        return Err(Fault::Words);
    };
    match size.as_str().parse::<u32>() {
        Ok(size) => Ok(Asked { name, size }),
        Err(_) => Err(Fault::Words),
    }
}
