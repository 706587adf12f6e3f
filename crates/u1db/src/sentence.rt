//! What is said on standard error, for people, where a run gave no answer: which file it was, what
//! was tried, and why it failed. Where it cannot be said nothing else changes.
use crate::output::Output;
use disk_model::FileFault;
use std::alloc::Global;
use std::io::{self, Write};
use store_files::{StoreFiles, failed_file};
use u1_base::{Memory, Text};

/// Says a sentence, and that there was no memory where there was none for it.
pub fn say(rt: &HostRuntime, sentence: Result<String, Memory>) {
    let mut errors = Output::new(rt, rt.stderr(), "/proc/self/fd/2");
    let _ = match sentence {
        Ok(text) => errors.write_all(text.as_bytes()),
        Err(Memory) => errors.write_all(b"u1db: no memory\n"),
    };
}

pub fn damaged(alloc: Global, path: &str, place: u64) -> Result<String, Memory> {
    Ok(format!(in alloc; "u1db: {path}: it is damaged, from byte {place} on\n")?)
}

pub fn full(alloc: Global, words: &[Text], need: u64, limit: u64) -> Result<String, Memory> {
    let folder = folder_of(words);
    Ok(format!(in alloc;
        "u1db: {folder}: its image would have {need} bytes, and may have {limit}\n"
    )?)
}

pub fn disk_fault(
    alloc: Global,
    words: &[Text],
    files: &StoreFiles<HostRuntime>,
) -> Result<String, Memory> {
    if let Some(name) = failed_file(files) {
        let file = files.disk(name);
        if let Some(fault) = file.fault() {
            return file_fault(alloc, file.path(), &fault);
        }
    }
    failing(alloc, folder_of(words), "a file failed")
}

/// Of a file or a folder.
pub fn file_fault(alloc: Global, path: &str, fault: &FileFault) -> Result<String, Memory> {
    Ok(format!(in alloc; "u1db: {path}: {fault}\n")?)
}

/// Of what has this name, which is no file of the store.
pub fn failed(alloc: Global, name: &str, error: Option<io::Error>) -> Result<String, Memory> {
    match error {
        Some(error) => Ok(format!(in alloc; "u1db: {name}: {error}\n")?),
        None => failing(alloc, name, "it failed"),
    }
}

fn failing(alloc: Global, name: &str, why: &str) -> Result<String, Memory> {
    Ok(format!(in alloc; "u1db: {name}: {why}\n")?)
}

/// The folder of the store.
pub fn folder_of(words: &[Text]) -> &str {
    match words.first() {
        Some(folder) => folder.as_str(),
        None => "",
    }
}
