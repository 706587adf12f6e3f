//! A store in memory.
use crate::runs::{Broken, Ran, bytes_of, files_on, push_printed, run_on};
use command_lines::outcome_status;
use crash_harness::Files;
use disks::DiskName;
use rows::Said;
use std::alloc::Global;
use u1_base::{Bytes, Memory, Text};

/// A store in memory: the bytes of its three files.
#[derive(Drop)]
pub struct Store {
    name: Text,
    root: Bytes,
    left: Bytes,
    right: Bytes,
    /// Which call of the next command fails.
    pub broken: Broken,
    /// How often the last command called each disk.
    pub calls: Calls,
}

/// How often each disk was called.
#[derive(Clone, Copy)]
pub struct Calls {
    pub root: u64,
    pub left: u64,
    pub right: u64,
}

/// The word at the place; none is the empty one.
pub fn word(words: &[Text], place: usize) -> &str {
    match words.get(place) {
        Some(word) => word.as_str(),
        None => "",
    }
}

impl Store {
    pub fn blank(alloc: Global, name: &str) -> Result<Store, Memory> {
        Store::of(alloc, name, Files(b"", b"", b""))
    }

    /// A store of this name with the same bytes.
    pub fn copy(&self, alloc: Global, name: &str) -> Result<Store, Memory> {
        Store::of(alloc, name, self.files())
    }

    fn of(alloc: Global, name: &str, files: Files<'_>) -> Result<Store, Memory> {
        Ok(Store {
            name: Text::copy(alloc, name)?,
            root: bytes_of(alloc, files.0)?,
            left: bytes_of(alloc, files.1)?,
            right: bytes_of(alloc, files.2)?,
            broken: Broken::Nothing,
            calls: Calls {
                root: 0,
                left: 0,
                right: 0,
            },
        })
    }

    pub fn is_named(&self, name: &str) -> bool {
        self.name.as_str() == name
    }

    pub fn files(&self) -> Files<'_> {
        Files(
            self.root.as_slice(),
            self.left.as_slice(),
            self.right.as_slice(),
        )
    }

    pub fn file(&self, name: DiskName) -> &[u8] {
        self.files().file(name)
    }

    pub fn put_file(&mut self, name: DiskName, bytes: Bytes) {
        match name {
            DiskName::Root => self.root = bytes,
            DiskName::Left => self.left = bytes,
            DiskName::Right => self.right = bytes,
        }
    }

    /// Takes over these files.
    pub fn put_files(&mut self, alloc: Global, files: Files<'_>) -> Result<(), Memory> {
        self.root = bytes_of(alloc, files.0)?;
        self.left = bytes_of(alloc, files.1)?;
        self.right = bytes_of(alloc, files.2)?;
        Ok(())
    }

    /// Runs the command of the words, of which the first stands for the store's folder.
    pub fn command(&mut self, words: &[Text], input: &[u8], said: &mut Said) -> Result<(), Memory> {
        let ran = run_on(said.alloc(), words, self.files(), input, self.broken)?;
        tell(&ran, said)?;
        self.keep(said.alloc(), &ran)
    }

    fn keep(&mut self, alloc: Global, ran: &Ran) -> Result<(), Memory> {
        self.broken = Broken::Nothing;
        self.calls = Calls {
            root: ran.disks.disk(DiskName::Root).calls(),
            left: ran.disks.disk(DiskName::Left).calls(),
            right: ran.disks.disk(DiskName::Right).calls(),
        };
        self.put_files(alloc, files_on(&ran.disks))
    }
}

fn tell(ran: &Ran, said: &mut Said) -> Result<(), Memory> {
    push_printed(said, ran.printed.bytes())?;
    said.status(outcome_status(&ran.outcome))
}
