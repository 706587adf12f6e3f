//! What no command does to a store.
use crate::lists::runs;
use crate::receipts::call_on;
use crate::runs::{Broken, bytes_of, files_on};
use crate::stops::{cuts, stops};
use crate::store::{Store, word};
use crash_harness::{NO_FAILING, disks_of};
use disk_model::MemDisk;
use disks::{DiskName, Disks};
use rows::{Said, bytes_of_hex, number_of};
use u1_base::{Memory, Text};

/// Does what the words behind `! NAME` say.
pub fn act(store: &mut Store, words: &[Text], input: &[u8], said: &mut Said) -> Result<(), Memory> {
    match word(words, 2) {
        "set" => set(store, words, said),
        "cut" => cut(store, words, said),
        "add" => add(store, words, said),
        "fail" => fail(store, words, said),
        "bytes" | "length" | "calls" => look(store, words, said),
        "stops" => stops(store.files(), words, input, said),
        "cuts" => cuts(store.files(), words, said),
        "runs" => runs(store, words, input, said),
        _ => call(store, words, said),
    }
}

fn disk_of(name: &str) -> Option<DiskName> {
    match name {
        "root" => Some(DiskName::Root),
        "left" => Some(DiskName::Left),
        "right" => Some(DiskName::Right),
        _ => None,
    }
}

// The number of the word at this place.
fn number(words: &[Text], place: usize) -> u64 {
    number_of(word(words, place)).unwrap_or(0)
}

// ---- what is told of it

fn look(store: &Store, words: &[Text], said: &mut Said) -> Result<(), Memory> {
    match disk_of(word(words, 3)) {
        Some(name) => look_at(store.file(name), words, said),
        None => calls(store, said),
    }
}

fn look_at(file: &[u8], words: &[Text], said: &mut Said) -> Result<(), Memory> {
    if word(words, 2) == "length" {
        said.number(file.len() as u64)?;
        return said.end();
    }
    let from = number(words, 4) as usize;
    let rest = file.get(from..).unwrap_or(&[]);
    let count = number(words, 5) as usize;
    said.hex(rest.get(..count).unwrap_or(rest))?;
    said.end()
}

fn calls(store: &Store, said: &mut Said) -> Result<(), Memory> {
    said.word("root")?;
    said.number(store.calls.root)?;
    said.word("left")?;
    said.number(store.calls.left)?;
    said.word("right")?;
    said.number(store.calls.right)?;
    said.end()
}

// ---- what is changed

// These bytes stand in the file from the place on; it may grow at its end.
fn set(store: &mut Store, words: &[Text], said: &mut Said) -> Result<(), Memory> {
    let hex = bytes_of_hex(said.alloc(), word(words, 5))?;
    match (disk_of(word(words, 3)), hex) {
        (Some(name), Some(bytes)) => put(store, name, number(words, 4), bytes.as_slice(), said),
        _ => said.line("no such bytes"),
    }
}

fn put(
    store: &mut Store,
    name: DiskName,
    place: u64,
    bytes: &[u8],
    said: &mut Said,
) -> Result<(), Memory> {
    let place = place as usize;
    let file = store.file(name);
    let mut made = bytes_of(said.alloc(), file.get(..place).unwrap_or(file))?;
    made.extend(bytes)?;
    let end = place.saturating_add(bytes.len());
    made.extend(file.get(end..).unwrap_or(&[]))?;
    store.put_file(name, made);
    Ok(())
}

fn cut(store: &mut Store, words: &[Text], said: &mut Said) -> Result<(), Memory> {
    let length = number(words, 4) as usize;
    match disk_of(word(words, 3)) {
        Some(name) => {
            let file = store.file(name);
            let made = bytes_of(said.alloc(), file.get(..length).unwrap_or(file))?;
            store.put_file(name, made);
            Ok(())
        }
        None => said.line("no such file"),
    }
}

// An entry with this body, behind all others of the left image.
fn add(store: &mut Store, words: &[Text], said: &mut Said) -> Result<(), Memory> {
    match bytes_of_hex(said.alloc(), word(words, 3))? {
        Some(body) => add_body(store, body.as_slice(), said),
        None => said.line("no such bytes"),
    }
}

fn add_body(store: &mut Store, body: &[u8], said: &Said) -> Result<(), Memory> {
    let file = store.file(DiskName::Left);
    let mut made = bytes_of(said.alloc(), file.strip_suffix(b"\0").unwrap_or(file))?;
    made.push(1)?;
    made.extend(&u32::try_from(body.len()).unwrap_or(0).to_be_bytes())?;
    made.extend(body)?;
    made.push(0)?;
    store.put_file(DiskName::Left, made);
    Ok(())
}

fn fail(store: &mut Store, words: &[Text], said: &mut Said) -> Result<(), Memory> {
    let call = number(words, 4);
    store.broken = match (word(words, 3), disk_of(word(words, 3))) {
        ("input", _) => Broken::Input(call),
        ("output", _) => Broken::Output(call),
        (_, Some(name)) => Broken::Disk(name, call),
        _ => return said.line("no such object"),
    };
    Ok(())
}

// ---- calls of the libraries

fn call(store: &mut Store, words: &[Text], said: &mut Said) -> Result<(), Memory> {
    let disks = disks_of(said.alloc(), &store.files(), &NO_FAILING)?;
    let (disks, done) = call_on(disks, words, said);
    done?;
    keep(store, &disks, said)
}

fn keep(store: &mut Store, disks: &Disks<MemDisk>, said: &Said) -> Result<(), Memory> {
    store.put_files(said.alloc(), files_on(disks))
}
