//! What a crash may leave of a disk in memory, made from its log.
ghost use Rattle.std.specs.Prelude.{◌≡◌, ℕ, ◌≤◌, true, List, IfOk, OnOk, length, take, drop};
ghost use Rattle.disk_model.specs.Disk.{Cut, IsCrashImage, Torn, Unsynced, overwritten};
ghost use Rattle.std.specs.List.{list_all};
ghost use Rattle.disk_model.specs.Log.{before, now_of, step};
ghost use Rattle.disk_model.specs.inner.Log.{is_open};
ghost use Rattle.disk_model.specs.Losses.{arrived, left_of, lost, remaining};

use crate::calls::{Call, put, settled_calls, take_back};
use std::alloc::Global;
use u1_base::{Bytes, Memory};

/// What a crash leaves of that which was written and cut since the last sync.
#[derive(Clone, Copy, PartialEq, Eq)]
pub enum Choice {
    /// Nothing of it: the bytes of the last sync.
    Nothing,
    /// All of it.
    Whole,
    /// The first half of each range, and half of each cut.
    FirstHalf,
    /// Each range has this byte at each place, and all is cut.
    Fill(u8),
}

/// The image that a crash after the first `end` calls leaves by this choice; `bytes` is what a read
/// gives after all of the calls.
pub(crate) fn image_at(
    alloc: Global,
    log: &[Call],
    bytes: &[u8],
    end: usize,
    choice: Choice,
) -> Result<Bytes, Memory>
    requires { end ≤ length log.now }
    ensures may_be { IfOk result
        (λ image. IsCrashImage (now_of (take end log.now) (before (drop end log.now) bytes.now))
        image) }
    ensures by_choice { IfOk result
        (λ image. image ≡ left_of choice (take end log.now) (before (drop end log.now) bytes.now)) }
{
    let mut file = bytes.to_vec(alloc)?;
    take_back(&mut file, &log[end..])?;
    image_after(alloc, &log[..end], &file, choice)
}

/// The image that a crash after these calls leaves; `file` is what a read gives then.
pub(crate) fn image_after(
    alloc: Global,
    calls: &[Call],
    file: &[u8],
    choice: Choice,
) -> Result<Bytes, Memory>
    ensures may_be { IfOk result (λ image. IsCrashImage (now_of calls.now file.now) image) }
    ensures by_choice { IfOk result (λ image. image ≡ left_of choice calls.now file.now) }
{
    let open = &calls[settled_calls(calls)..];
    let mut image = file.to_vec(alloc)?;
    take_back(&mut image, open)?;
    lose_all(&mut image, file, open, choice)?;
    Ok(Bytes::from_vec(image))
}

// Begins with the bytes of the last sync, and loses a part of each call since then.
fn lose_all(image: &mut Vec<u8>, file: &[u8], calls: &[Call], choice: Choice) -> Result<(), Memory>
    requires open { list_all is_open calls.now ≡ true }
    requires start { image.old.items ≡ before calls.now file.now }
    ensures may_be { OnOk result (IsCrashImage (now_of calls.now file.now) image.new.items) }
    ensures by_choice { OnOk result (image.new.items ≡ left_of choice calls.now file.now) }
{
    for call in calls {
        lose(image, file, call, choice)?;
    }
    Ok(())
}

fn lose(image: &mut Vec<u8>, file: &[u8], call: &Call, choice: Choice) -> Result<(), Memory>
    requires { is_open call.now ≡ true }
    ensures may_be { OnOk result ((u : Unsynced) (after : List ℕ) → IsCrashImage u image.old.items
        → IsCrashImage (step call.now after u) image.new.items) }
    ensures by_choice { OnOk result ((after : List ℕ)
        → image.new.items ≡ lost choice file.now call.now after image.old.items) }
{
    match call {
        Call::Look => Ok(()),
        Call::Write(at, size, _, _) => tear(image, file, *at, *size, choice),
        Call::Cut(to, _) => {
            shorten(image, *to, choice);
            Ok(())
        }
        Call::Sync => unreachable!(),
    }
}

fn tear(
    image: &mut Vec<u8>,
    file: &[u8],
    at: usize,
    size: usize,
    choice: Choice,
) -> Result<(), Memory>
    ensures torn { OnOk result (Torn at size image.old.items image.new.items) }
    ensures by_choice { OnOk result
        (image.new.items ≡ overwritten image.old.items at
        (arrived choice size (take size (drop at file.now)))) }
{
    let from = at.min(file.len());
    let written = &file[from..from + size.min(file.len() - from)];
    match choice {
        Choice::Nothing => Ok(()),
        Choice::Whole => put(image, at, written),
        Choice::FirstHalf => put(image, at, &written[..written.len() / 2]),
        Choice::Fill(byte) => {
            let filled = vec![in *image.allocator(); byte; size]?;
            put(image, at, &filled)
        }
    }
}

fn shorten(image: &mut Vec<u8>, to: usize, choice: Choice)
    ensures cut { Cut to image.old.items image.new.items }
    ensures by_choice { image.new.items ≡ take
        (remaining choice to (length image.old.items)) image.old.items }
{
    let length = image.len();
    match choice {
        Choice::Nothing => {}
        Choice::Whole | Choice::Fill(_) => image.truncate(to),
        Choice::FirstHalf => image.truncate(length - length.saturating_sub(to) / 2),
    }
}
