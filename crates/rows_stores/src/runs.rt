//! One command over disks and streams in memory.
use crate::ids::named;
use command_lines::Outcome;
use crash_harness::{Failing, Files, NO_FAILING, disks_of};
use disk_model::MemDisk;
use disks::{DiskName, Disks};
use link::{MemSink, MemSource};
use outside::{NoDoor, Outside};
use replica_cli::run;
use rows::Said;
use std::alloc::Global;
use std::str;
use sync_link::{MemLink, Replies};
use u1_base::{Bytes, Memory, Numbers, Text};

/// What stands outside of one command.
pub type Around = Outside<MemSource, MemSink, MemLink, NoDoor>;

/// What one command left: how it ended, what it printed, and the disks.
#[derive(Drop)]
pub struct Ran {
    pub outcome: Outcome,
    pub printed: MemSink,
    pub disks: Disks<MemDisk>,
}

/// The call that fails, by its number.
#[derive(Clone, Copy)]
pub enum Broken {
    Nothing,
    Disk(DiskName, u64),
    Input(u64),
    Output(u64),
}

pub fn bytes_of(alloc: Global, bytes: &[u8]) -> Result<Bytes, Memory> {
    Ok(Bytes::from_vec(bytes.to_vec(alloc)?))
}

/// What the disks hold.
pub fn files_on(disks: &Disks<MemDisk>) -> Files<'_> {
    Files(
        disks.disk(DiskName::Root).bytes(),
        disks.disk(DiskName::Left).bytes(),
        disks.disk(DiskName::Right).bytes(),
    )
}

fn disks_with(alloc: Global, stored: Files<'_>, broken: Broken) -> Result<Disks<MemDisk>, Memory> {
    match broken {
        Broken::Disk(disk, number) => {
            let calls = &[number];
            disks_of(alloc, &stored, &Failing { disk, calls })
        }
        _ => disks_of(alloc, &stored, &NO_FAILING),
    }
}

// The numbers of the calls that fail: this one, if there is one.
fn numbers(alloc: Global, number: Option<u64>) -> Result<Numbers, Memory> {
    let mut list = Numbers::new(alloc);
    if let Some(number) = number {
        list.push(number)?;
    }
    Ok(list)
}

fn source_of(alloc: Global, input: &[u8], broken: Broken) -> Result<MemSource, Memory> {
    let number = match broken {
        Broken::Input(number) => Some(number),
        _ => None,
    };
    Ok(MemSource::new(bytes_of(alloc, input)?, numbers(alloc, number)?))
}

fn sink_of(alloc: Global, broken: Broken) -> Result<MemSink, Memory> {
    let number = match broken {
        Broken::Output(number) => Some(number),
        _ => None,
    };
    Ok(MemSink::new(alloc, numbers(alloc, number)?))
}

/// What stands outside: this input and output, and no peer.
pub fn around(alloc: Global, input: MemSource, out: MemSink) -> Around {
    Outside {
        input,
        out,
        link: MemLink::new(Replies::new(alloc), 1, Numbers::new(alloc)),
        door: NoDoor,
    }
}

/// Runs the command of the words over a store of these files. All bits of the seed are 0.
pub fn run_on(
    alloc: Global,
    words: &[Text],
    stored: Files<'_>,
    input: &[u8],
    broken: Broken,
) -> Result<Ran, Memory> {
    let disks = disks_with(alloc, stored, broken)?;
    let source = source_of(alloc, input, broken)?;
    let mut outside = around(alloc, source, sink_of(alloc, broken)?);
    let (outcome, disks) = run(alloc, words, 0, disks, &mut outside);
    Ok(Ran {
        outcome,
        printed: outside.out,
        disks,
    })
}

/// An answer for each line that was printed.
pub fn push_printed(said: &mut Said, printed: &[u8]) -> Result<(), Memory> {
    let text = named(said.alloc(), str::from_utf8(printed).unwrap_or("no text"))?;
    said.lines(text.as_str())
}
