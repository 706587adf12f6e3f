//! Calls over a store on three disks in memory, and what stands of it then.
use crate::calls::calls_of;
use crate::images::{NEWER_RECEIVED, PREPARED, PUT, Pieces, image_of, is_image};
use crate::readings::print_state;
use command_lines::{PrintFault, put_all};
use conflicts::{Member, Move};
use crash_harness::{Files, NO_FAILING, disks_of, got};
use disk_model::MemDisk;
use disks::{DiskName, Disks};
use link::MemSink;
use replica_core::{
    Call, CallFault, Ends, Replica, TakeFault, run_all, stage_if_newer, stage_position,
};
use replica_volume::Volume;
use std::alloc::Global;
use u1_base::{DocId, Memory, Numbers};

/// Makes the calls of this order over the prepared store: what is told of them.
pub fn told(alloc: Global, order: &str) -> Result<MemSink, Memory> {
    let (how, name) = order.trim().split_once(' ').ok_or(Memory)?;
    let calls = calls_of(alloc, name, times(how))?;
    let mut out = MemSink::new(alloc, Numbers::new(alloc));
    match tell(alloc, calls.as_slice(), how.starts_with("stage"), &mut out) {
        Ok(()) => Ok(out),
        Err(_) => Err(Memory),
    }
}

fn times(how: &str) -> usize {
    match how {
        "look" => 0,
        "twice" | "stage-twice" => 2,
        _ => 1,
    }
}

fn prepared(alloc: Global) -> Result<Disks<MemDisk>, Memory> {
    let left = image_of(alloc, PREPARED)?;
    disks_of(alloc, &Files(b"\0", left.as_slice(), b""), &NO_FAILING)
}

fn tell(
    alloc: Global,
    calls: &[Call],
    are_staged: bool,
    out: &mut MemSink,
) -> Result<(), PrintFault> {
    let disks = prepared(alloc)?;
    let (disks, made) = make_on(alloc, disks, calls, are_staged, out);
    let divided = put_all(out, &[b"opened again\n"]);
    let (disks, read) = read_on(alloc, disks, out);
    let stood = put_all(out, &[calls_word(&disks), b", ", image_word(&disks)]);
    made.and(divided).and(read).and(stood)
}

// ---- the calls

// Opens the store of these disks and makes the calls.
fn make_on(
    alloc: Global,
    disks: Disks<MemDisk>,
    calls: &[Call],
    are_staged: bool,
    out: &mut MemSink,
) -> (Disks<MemDisk>, Result<(), PrintFault>) {
    match Volume::open_volume(alloc, disks) {
        Ok(mut volume) => {
            let made = make(alloc, &mut volume, calls, are_staged, out);
            (volume.into_disks(), made)
        }
        Err((disks, _)) => (disks, Err(PrintFault::Memory)),
    }
}

fn make<R: Replica>(
    alloc: Global,
    replica: &mut R,
    calls: &[Call],
    are_staged: bool,
    out: &mut MemSink,
) -> Result<(), PrintFault>
    requires { R.is_open replica.old }
{
    if are_staged {
        stage_all(alloc, replica, calls, out)?;
    } else {
        commit_all(alloc, replica, calls, out)?;
    }
    print_state(alloc, replica.state(), out)
}

fn commit_all<R: Replica>(
    alloc: Global,
    replica: &mut R,
    calls: &[Call],
    out: &mut MemSink,
) -> Result<(), PrintFault>
    requires { R.is_open replica.old }
{
    let ends = run_all(alloc, replica, calls)?;
    print_ends(&ends, out)
}

fn print_ends(ends: &Ends, out: &mut MemSink) -> Result<(), PrintFault> {
    for end in ends {
        put_all(out, &[end_word(end), b" "])?;
    }
    put_all(out, &[b"\n"])
}

fn end_word(end: &Result<(), CallFault>) -> &'static [u8] {
    match end {
        Ok(()) => b"ok",
        Err(CallFault::Refused) => b"refused",
        Err(CallFault::Full { need: _, limit: _ }) => b"full",
        Err(CallFault::Disk) => b"disk",
        Err(CallFault::Memory) => b"memory",
    }
}

// ---- calls that are staged

fn stage_all<R: Replica>(
    alloc: Global,
    replica: &mut R,
    calls: &[Call],
    out: &mut MemSink,
) -> Result<(), PrintFault>
    requires { R.is_open replica.old }
{
    let printed = stage_each(alloc, replica, calls, out);
    let flushed = flush(replica);
    printed.and(put_all(out, &[flushed, b"\n"]))
}

fn flush<R: Replica>(replica: &mut R) -> &'static [u8]
    requires { (kept : _) × R.stages replica.old kept }
{
    match replica.flush() {
        Ok(()) => b"flushed",
        Err(_) => b"disk",
    }
}

fn stage_each<R: Replica>(
    alloc: Global,
    replica: &mut R,
    calls: &[Call],
    out: &mut MemSink,
) -> Result<(), PrintFault>
    requires { R.is_open replica.old }
    ensures { (kept : _) × R.stages replica.new kept }
{
    let mut printed = Ok(());
    for call in calls {
        let word = stage(alloc, replica, call);
        printed = printed.and(put_all(out, &[word, b" "]));
    }
    printed
}

// Only what a peer hands over can be staged.
fn stage<R: Replica>(alloc: Global, replica: &mut R, call: &Call) -> &'static [u8]
    requires { (kept : _) × R.stages replica.old kept }
    ensures { (kept : _) → R.stages replica.old kept → R.stages replica.new kept }
{
    match call {
        Call::PutIfNewer {
            seed,
            id,
            incoming,
            save,
            moved,
        } => stage_receipt(alloc, replica, *seed, id, incoming, *save, moved),
        Call::MovePosition(moved) => stage_move(replica, moved),
        _ => b"refused",
    }
}

fn stage_receipt<R: Replica>(
    alloc: Global,
    replica: &mut R,
    seed: u128,
    id: &DocId,
    incoming: &Member,
    save: bool,
    moved: &Move,
) -> &'static [u8]
    requires { (kept : _) × R.stages replica.old kept }
    ensures { (kept : _) → R.stages replica.old kept → R.stages replica.new kept }
{
    staged_word(&stage_if_newer(alloc, replica, seed, id, incoming, save, moved))
}

fn stage_move<R: Replica>(replica: &mut R, moved: &Move) -> &'static [u8]
    requires { (kept : _) × R.stages replica.old kept }
    ensures { (kept : _) → R.stages replica.old kept → R.stages replica.new kept }
{
    staged_word(&stage_position(replica, moved))
}

fn staged_word<A>(staged: &Result<A, TakeFault>) -> &'static [u8] {
    match staged {
        Ok(_) => b"ok",
        Err(TakeFault::LogCheck { mine: _, theirs: _ }) => b"refused",
        Err(TakeFault::Full { need: _, limit: _ }) => b"full",
        Err(TakeFault::Disk) => b"disk",
        Err(TakeFault::Memory) => b"memory",
    }
}

// ---- what stands then

// Opens the store, and prints all of its state.
fn read_on(
    alloc: Global,
    disks: Disks<MemDisk>,
    out: &mut MemSink,
) -> (Disks<MemDisk>, Result<(), PrintFault>) {
    match Volume::open_volume(alloc, disks) {
        Ok(volume) => {
            let read = print_state(alloc, volume.state(), out);
            (volume.into_disks(), read)
        }
        Err((disks, _)) => (disks, Err(PrintFault::Memory)),
    }
}

// To open the store takes a sync, a look and a read of the root and of the image, which was done
// twice, and what is written is added to the image by four calls.
fn calls_word(disks: &Disks<MemDisk>) -> &'static [u8] {
    if got(disks, 6, 6, 0) {
        b"untouched"
    } else if got(disks, 6, 10, 0) {
        b"written once"
    } else {
        b"called otherwise"
    }
}

const IMAGES: &[(&[u8], Pieces)] = &[
    (b"prepared", PREPARED),
    (b"put", PUT),
    (b"received", NEWER_RECEIVED),
];

// The worked image that the left disk holds.
fn image_word(disks: &Disks<MemDisk>) -> &'static [u8] {
    let left = disks.disk(DiskName::Left).bytes();
    for (word, pieces) in IMAGES {
        if is_image(left, *pieces) {
            return *word;
        }
    }
    b"another image"
}
