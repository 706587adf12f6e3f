//! The calls of a disk in memory, each noted with what is wanted to take it back.
ghost use Rattle.std.specs.Prelude.{◌≡◌, ℕ, ◌≤◌, true, List, [], ◌∷◌, ◌++◌, IfOk, OnOk, OnErr};
ghost use Rattle.std.specs.Prelude.{length, take, drop};
ghost use Rattle.std.specs.List.{list_all};
ghost use Rattle.disk_model.specs.Disk.{IsCrashImage, overwritten, settled, was_cut, wrote};
ghost use Rattle.disk_model.specs.Device.{alone, moment};
ghost use Rattle.disk_model.specs.Log.{before, now_of, past_of, undone};
ghost use Rattle.disk_model.specs.inner.Log.{is_open};
ghost use Rattle.disk_model.specs.Losses.{left_of};
ghost use Rattle.disk_model.specs.declared.losses.Choice.{Choice};

use std::alloc::Global;
use u1_base::{Bytes, Memory};

/// One call, and what it replaced or removed.
#[derive(Drop)]
pub enum Call {
    /// A call that changed nothing.
    Look,
    /// A write: its place, how many bytes it was given, those that it replaced, and the length
    /// before.
    Write(usize, usize, Bytes, usize),
    /// A cut: the length that it was given, and the bytes that it removed.
    Cut(usize, Bytes),
    /// A sync that succeeded.
    Sync,
}

/// Writes over what stands at `at`. A place past the end counts as the end.
pub(crate) fn put(file: &mut Vec<u8>, at: usize, piece: &[u8]) -> Result<(), Memory>
    ensures ok { OnOk result (file.new.items ≡ overwritten file.old.items at piece.now) }
    ensures err { OnErr result (file.new.items ≡ file.old.items) }
{
    let at = at.min(file.len());
    let over = piece.len().min(file.len() - at);
    file.extend_from_slice(&piece[over..])?;
    file[at..at + over].copy_from_slice(&piece[..over]);
    Ok(())
}

/// Notes a call that changed nothing.
pub(crate) fn note_look(file: &[u8], log: &mut Vec<Call>) -> Result<(), Memory>
    ensures sound { IsCrashImage (now_of log.old.items file.now) file.now
        → IsCrashImage (now_of log.new.items file.now) file.now }
    ensures now { now_of log.new.items file.now ≡ now_of log.old.items file.now }
    ensures past { OnOk result (past_of log.new.items file.now ≡ past_of log.old.items file.now
        ++ moment (now_of log.old.items file.now) alone ∷ []) }
    ensures err { OnErr result (log.new.items ≡ log.old.items) }
{
    log.push(Call::Look)?;
    Ok(())
}

/// Notes a sync.
pub(crate) fn note_sync(file: &[u8], log: &mut Vec<Call>) -> Result<(), Memory>
    ensures sound { IsCrashImage (now_of log.old.items file.now) file.now
        → IsCrashImage (now_of log.new.items file.now) file.now }
    ensures now { OnOk result (now_of log.new.items file.now ≡ settled file.now) }
    ensures past { OnOk result (past_of log.new.items file.now ≡ past_of log.old.items file.now
        ++ moment (now_of log.old.items file.now) alone ∷ []) }
    ensures err { OnErr result (log.new.items ≡ log.old.items) }
{
    log.push(Call::Sync)?;
    Ok(())
}

/// Puts the piece at `at` and notes a write of `size` bytes.
pub(crate) fn note_write(
    file: &mut Vec<u8>,
    log: &mut Vec<Call>,
    at: usize,
    size: usize,
    piece: &[u8],
) -> Result<(), Memory>
    requires place { at ≤ length file.old.items }
    requires part { length piece.now ≤ size }
    ensures sound { IsCrashImage (now_of log.old.items file.old.items) file.old.items
        → IsCrashImage (now_of log.new.items file.new.items) file.new.items }
    ensures file { OnOk result (file.new.items ≡ overwritten file.old.items at piece.now) }
    ensures now { OnOk result
        (now_of log.new.items file.new.items
        ≡ wrote at size (now_of log.old.items file.old.items)) }
    ensures past { OnOk result
        (past_of log.new.items file.new.items ≡ past_of log.old.items file.old.items
        ++ moment (now_of log.old.items file.old.items) alone ∷ []) }
    ensures same_file { OnErr result (file.new.items ≡ file.old.items) }
    ensures same_log { OnErr result (log.new.items ≡ log.old.items) }
{
    let replaced = part_of(file, at, piece.len())?;
    log.push(Call::Write(at, size, replaced, file.len()))?;
    match put(file, at, piece) {
        Ok(()) => Ok(()),
        Err(Memory) => {
            log.pop();
            Err(Memory)
        }
    }
}

/// Shortens to `reach` bytes and notes a cut to `to`.
pub(crate) fn note_cut(
    file: &mut Vec<u8>,
    log: &mut Vec<Call>,
    to: usize,
    reach: usize,
) -> Result<(), Memory>
    requires { to ≤ reach }
    ensures sound { IsCrashImage (now_of log.old.items file.old.items) file.old.items
        → IsCrashImage (now_of log.new.items file.new.items) file.new.items }
    ensures file { OnOk result (file.new.items ≡ take reach file.old.items) }
    ensures now { OnOk result
        (now_of log.new.items file.new.items ≡ was_cut to (now_of log.old.items file.old.items)) }
    ensures past { OnOk result
        (past_of log.new.items file.new.items ≡ past_of log.old.items file.old.items
        ++ moment (now_of log.old.items file.old.items) alone ∷ []) }
    ensures same_file { OnErr result (file.new.items ≡ file.old.items) }
    ensures same_log { OnErr result (log.new.items ≡ log.old.items) }
{
    let removed = part_of(file, reach, file.len())?;
    log.push(Call::Cut(to, removed))?;
    file.truncate(reach);
    Ok(())
}

// A copy of at most `most` bytes from `from` on.
fn part_of(file: &Vec<u8>, from: usize, most: usize) -> Result<Bytes, Memory>
    ensures { IfOk result (λ part. part ≡ take most (drop from file.now.items)) }
{
    let from = from.min(file.len());
    let to = from + most.min(file.len() - from);
    Ok(Bytes::from_vec(file[from..to].to_vec(*file.allocator())?))
}

/// Takes the calls back, the last one first.
pub(crate) fn take_back(file: &mut Vec<u8>, calls: &[Call]) -> Result<(), Memory>
    ensures { OnOk result (file.new.items ≡ before calls.now file.old.items) }
{
    let mut end = calls.len();
    while end > 0 {
        end -= 1;
        take_one_back(file, &calls[end])?;
    }
    Ok(())
}

fn take_one_back(file: &mut Vec<u8>, call: &Call) -> Result<(), Memory>
    ensures { OnOk result (file.new.items ≡ undone call.now file.old.items) }
{
    match call {
        Call::Look | Call::Sync => {}
        Call::Write(at, _, replaced, former) => {
            put(file, *at, replaced.as_slice())?;
            file.truncate(*former);
        }
        Call::Cut(_, removed) => file.extend_from_slice(removed.as_slice())?,
    }
    Ok(())
}

/// How many of the calls, from the first, a crash after them all does not ask about, since a sync
/// ended them.
pub(crate) fn settled_calls(calls: &[Call]) -> usize
    ensures bound { result ≤ length calls.now }
    ensures open { list_all is_open (drop result calls.now) ≡ true }
    ensures since { (file : List ℕ) → now_of calls.now file ≡ now_of (drop result calls.now) file }
    ensures left { (file : List ℕ) (choice : Choice)
        → left_of choice calls.now file ≡ left_of choice (drop result calls.now) file }
{
    let mut begin = calls.len();
    while begin > 0 {
        if let Call::Sync = calls[begin - 1] {
            return begin;
        }
        begin -= 1;
    }
    0
}
