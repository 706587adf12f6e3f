//! The program: `u1db DIR COMMAND ..`.
//!
//! It makes the three disks of the store, the streams and the seed, calls `run`, and ends with
//! the status of its outcome. For people it says on standard error why a run gave no answer.
#![tactic(auto)]

mod needs;
mod output;
mod sentence;
mod usage;

use crate::needs::{Needs, needs_of};
use crate::output::{InPieces, Output, hold_closed};
use crate::sentence::{damaged, disk_fault, failed, file_fault, folder_of, full, say};
use crate::usage::usage;
use command_lines::{Outcome, outcome_status};
use disk_model::FileFault;
use link::{StdSink, StdSource};
use outside::{NoDoor, Outside};
use replica_cli::run;
use std::alloc::Global;
use std::env::{self, Args};
use std::io::{self, BufWriter, ErrorKind};
use std::process::ExitCode;
use std::random::RandomSource;
use std::rt::{Stdin, Stdout};
use store_commands::finish;
use store_files::{FolderLock, StoreFiles, files_in, lock_folder};
use sync_link::{MemLink, Replies};
use u1_base::{Memory, Numbers, Text, Texts};

/// The standard output. What is printed is handed on in pieces of 4 to 8 KiB, and the rest at the
/// end.
type Printed = StdSink<InPieces<BufWriter<Output<Stdout>>>>;

/// What a run reads from and prints to.
type Around = Outside<StdSource<Stdin>, Printed, MemLink, NoDoor>;

fn main(rt: HostRuntime) -> ExitCode {
    // Held until the end, so that no file of the store takes the number of a standard stream.
    let held = hold_closed(&rt);
    let status = match &held {
        Ok(_) => do_command(&rt),
        Err(_) => outcome_status(&Outcome::SinkFault),
    };
    ExitCode::from(status)
}

// Does the command of the words, and gives the status of its outcome.
fn do_command(rt: &HostRuntime) -> u8 {
    let outcome = match words_of(rt) {
        Ok(words) => do_words(rt, in_folder(words.as_slice())),
        Err(Memory) => Outcome::Memory,
    };
    if let Outcome::Memory = outcome {
        say(rt, Err(Memory));
    }
    outcome_status(&outcome)
}

// The words after the program's name. Words that are not all UTF-8 are none, and so wrong.
fn words_of(rt: &HostRuntime) -> Result<Texts, Memory> {
    match env::args(rt) {
        Ok(args) => texts_of(rt.alloc(), args),
        Err(error) if error.kind() == ErrorKind::OutOfMemory => Err(Memory),
        Err(_) => Ok(Texts::new(rt.alloc())),
    }
}

fn texts_of(alloc: Global, args: Args<Global>) -> Result<Texts, Memory> {
    let mut words = Texts::new(alloc);
    for word in args.skip(1) {
        push_word(&mut words, word)?;
    }
    Ok(words)
}

fn push_word(words: &mut Texts, word: String) -> Result<(), Memory> {
    words.push(Text::from_string(word)?)
}

// Words whose first, the folder of the store, is empty are none.
fn in_folder(words: &[Text]) -> &[Text] {
    match words.first() {
        Some(folder) if folder.as_str().is_empty() => &words[..0],
        _ => words,
    }
}

fn do_words(rt: &HostRuntime, words: &[Text]) -> Outcome {
    match printed(rt) {
        Ok(out) => do_around(rt, words, out),
        Err(Memory) => Outcome::Memory,
    }
}

fn do_around(rt: &HostRuntime, words: &[Text], out: Printed) -> Outcome {
    let mut outside = Outside {
        input: StdSource::new(rt.stdin()),
        out,
        link: MemLink::new(Replies::new(rt.alloc()), 1, Numbers::new(rt.alloc())),
        door: NoDoor,
    };
    carry_out(rt, words, &mut outside)
}

fn printed(rt: &HostRuntime) -> Result<Printed, Memory> {
    let output = Output::new(rt, rt.stdout(), "/proc/self/fd/1");
    match BufWriter::new(rt.alloc(), output) {
        Ok(writer) => Ok(StdSink::new(InPieces::new(writer))),
        Err(_) => Err(Memory),
    }
}

// Runs the command with what it needs, or tells what of it the system did not give.
fn carry_out(rt: &HostRuntime, words: &[Text], outside: &mut Around) -> Outcome {
    let Ok(needs) = needs_of(rt.alloc(), words) else {
        return Outcome::Memory;
    };
    match seed_for(rt, needs) {
        Ok(seed) => run_alone(rt, words, needs, seed, outside),
        Err(error) => {
            say(rt, failed(rt.alloc(), "random bytes", Some(error)));
            finish(Err(Outcome::SourceFault), &mut outside.out)
        }
    }
}

// The seed: random bytes, where ids are made of it.
fn seed_for(rt: &HostRuntime, needs: Needs) -> io::Result<u128> {
    let mut seed = [0; 16];
    if needs.seed {
        rt.fill_bytes(&mut seed)?;
    }
    Ok(u128::from_le_bytes(seed))
}

// Runs it under the lock under which a store is made, where it makes one.
fn run_alone(
    rt: &HostRuntime,
    words: &[Text],
    needs: Needs,
    seed: u128,
    outside: &mut Around,
) -> Outcome {
    let held = lock_for(rt, words, needs);
    match &held {
        Ok(_) => run_in_folder(rt, words, seed, outside),
        Err(fault) => {
            say(rt, file_fault(rt.alloc(), folder_of(words), fault));
            finish(Err(Outcome::DiskFault), &mut outside.out)
        }
    }
}

fn lock_for(
    rt: &HostRuntime,
    words: &[Text],
    needs: Needs,
) -> Result<Option<FolderLock>, FileFault> {
    if needs.folder {
        Ok(Some(lock_folder(rt, folder_of(words))?))
    } else {
        Ok(None)
    }
}

// Without words no file is ever used.
fn run_in_folder(rt: &HostRuntime, words: &[Text], seed: u128, outside: &mut Around) -> Outcome {
    match files_in(rt, folder_of(words)) {
        Ok(files) => run_on_files(rt, words, seed, files, outside),
        Err(Memory) => Outcome::Memory,
    }
}

fn run_on_files(
    rt: &HostRuntime,
    words: &[Text],
    seed: u128,
    files: StoreFiles<HostRuntime>,
    outside: &mut Around,
) -> Outcome {
    let (outcome, files) = run(rt.alloc(), words, seed, files, outside);
    explain(rt, words, &outcome, &files, outside);
    outcome
}

// Says why the run gave no answer.
fn explain(
    rt: &HostRuntime,
    words: &[Text],
    outcome: &Outcome,
    files: &StoreFiles<HostRuntime>,
    outside: &Around,
) {
    let alloc = rt.alloc();
    match outcome {
        Outcome::Usage(kind) => say(rt, usage(alloc, words, *kind)),
        Outcome::Damaged { disk, place } => say(
            rt,
            damaged(alloc, files.disk(*disk).path(), *place),
        ),
        Outcome::StoreFull { need, limit } => say(rt, full(alloc, words, *need, *limit)),
        Outcome::DiskFault => say(rt, disk_fault(alloc, words, files)),
        Outcome::SourceFault => say(rt, failed(alloc, "standard input", outside.input.fault())),
        Outcome::SinkFault => say(rt, failed(alloc, "standard output", outside.out.fault())),
        _ => {}
    }
}
