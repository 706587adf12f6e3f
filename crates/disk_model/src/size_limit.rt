//! The greatest size that the system lets this process give to a file.
use std::fs::{File, Files};
use std::io::Read;

/// The greatest size of a file that this process may write, and u64's greatest number where none is
/// told.
///
/// A write past it would end the process by a signal, before it says how it ends.
pub fn greatest_file_size<R: Files<File = File>>(rt: &R) -> u64 {
    let Ok(mut limits) = File::open(rt, "/proc/self/limits") else {
        return u64::MAX;
    };
    let mut text = [0; 4096];
    match limits.read(&mut text) {
        Ok(count) if count <= text.len() => size_in(&text[..count]),
        _ => u64::MAX,
    }
}

// The first number of the line on file sizes. Where there is no limit the line has a word in its
// place.
fn size_in(limits: &[u8]) -> u64 {
    let Ok(text) = str::from_utf8(limits) else {
        return u64::MAX;
    };
    for line in text.lines() {
        if let Some(rest) = line.strip_prefix("Max file size") {
            return first_number(rest);
        }
    }
    u64::MAX
}

fn first_number(words: &str) -> u64 {
    match words.split_ascii_whitespace().next() {
        Some(word) => word.parse().unwrap_or(u64::MAX),
        None => u64::MAX,
    }
}
