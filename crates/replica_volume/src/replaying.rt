//! Making the steps that the bodies of an image say.
ghost use Rattle.std.specs.Prelude.{◌≡◌, ◌≢◌, ◌+◌, ◌<◌, ◌≤◌, ◌^◌, ◌++◌, ◌∷◌, [], IfOk, OnOk};
ghost use Rattle.std.specs.Prelude.{length};
ghost use Rattle.conflicts.specs.State.{after};
ghost use Rattle.replica_state.specs.Replayed.{replayed};
ghost use Rattle.replica_state.specs.Steps.{step_of};
ghost use Rattle.journal.specs.declared.layout.TheConstants.{FIRST_FORMAT};
ghost use Rattle.record_codec.specs.Decoding.{Decodes, IsBadWithin, recorded};
ghost use Rattle.record_codec.specs.Laws.{Says};
ghost use Rattle.record_fields.specs.Table.{AreNumbered};
ghost use Rattle.replica_volume.specs.inner.Replaying.{AreMade, DecodesAt, MakesAll, MakesOne};
ghost use Rattle.replica_volume.specs.inner.Replaying.{Replays};
ghost use Rattle.replica_volume.specs.Steps.{body_in, state_at};

use journal::{Entry, FIRST_FORMAT, Stored};
use json::Scratch;
use record_codec::{Decoded, RecordFault, ReplicaUids, Uids, decode, decode_first};
use replica_state::Replay;
use std::alloc::Global;
use u1_base::Memory;

/// The steps that were made so far, and the uids that have numbers behind them.
#[derive(Drop)]
pub(crate) struct Made {
    pub(crate) steps: Replay,
    pub(crate) uids: Uids,
}

/// Makes the steps that the image's bodies say, one after the other. No body is copied. The log and
/// the positions have each step at once; what a document accepts may wait in `Replay`, and no step
/// is kept once it was applied. The last acceptances are still to be applied, and the indexes to be
/// built.
///
/// The place of `Bad` is that of a byte of the file.
pub(crate) fn replay(alloc: Global, image: &Stored) -> Result<Made, RecordFault>
    ensures { Replays image.now result }
{
    let mut made = nothing_yet(alloc, image)?;
    match make_all(alloc, image, &mut made) {
        Ok(()) => Ok(made),
        Err(fault) => {
            drop(made);
            Err(fault)
        }
    }
}

// Makes the steps of all bodies, where none was made yet.
fn make_all(alloc: Global, image: &Stored, made: &mut Made) -> Result<(), RecordFault>
    requires { AreMade image.now [] made.old }
    ensures { MakesAll image.now made.new result }
{
    // One for all contents: to make one is to clear 16 kilobytes.
    let mut scratch = Scratch::new(alloc);
    let done = make_each(alloc, &mut scratch, image, made);
    drop(scratch);
    done
}

fn make_each(
    alloc: Global,
    scratch: &mut Scratch<Global>,
    image: &Stored,
    made: &mut Made,
) -> Result<(), RecordFault>
    requires { AreMade image.now [] made.old }
    ensures { MakesAll image.now made.new result }
{
    let mut place = image.start();
    while let Some(entry) = image.entry_at(place) {
        make_one(alloc, scratch, image.format(), &entry, made)?;
        place = entry.next;
    }
    Ok(())
}

// Makes the step that the entry's body says in this format.
fn make_one(
    alloc: Global,
    scratch: &mut Scratch<Global>,
    format: u8,
    entry: &Entry<'_>,
    made: &mut Made,
) -> Result<(), RecordFault>
    requires { entry.now.place + length entry.now.body.now < 2 ^ 64 }
    ensures { MakesOne entry.now.place
        (body_in format made.old.uids.uids entry.now.body.now) made.old made.new result }
{
    let decoded = step_at(alloc, scratch, format, entry, &made.uids)?;
    make(made, decoded)?;
    Ok(())
}

// No step, at the replica of this image.
fn nothing_yet(alloc: Global, image: &Stored) -> Result<Made, Memory>
    ensures state { IfOk result (λ m. replayed m.steps ≡ state_at image.now.header []) }
    ensures uids { IfOk result (λ m. m.uids.uids ≡ image.now.header.uid ∷ []) }
{
    let header = image.header();
    let uids = Uids::new(alloc, &header.uid)?;
    let steps = Replay::new(alloc, header.name.copy()?, header.uid.copy()?);
    Ok(Made { steps, uids })
}

/// What the entry's body says in this format, where these uids have numbers.
pub(crate) fn step_at(
    alloc: Global,
    scratch: &mut Scratch<Global>,
    format: u8,
    entry: &Entry<'_>,
    uids: &Uids,
) -> Result<Decoded, RecordFault>
    requires fits { entry.now.place + length entry.now.body.now < 2 ^ 64 }
    ensures says { DecodesAt entry.now.place
        (body_in format uids.now.uids entry.now.body.now) result }
    ensures spelled { format ≢ FIRST_FORMAT
        → IfOk result (λ d. Says uids.now.uids entry.now.body.now (recorded d)) }
    ensures numbered { IfOk result (λ d. AreNumbered (uids.now.uids ++ d.added)) }
{
    match step_in(alloc, scratch, format, entry.body, uids) {
        Ok(decoded) => Ok(decoded),
        Err(RecordFault::Bad(at)) => Err(RecordFault::Bad(entry.place as u64 + at)),
        Err(RecordFault::Memory) => Err(RecordFault::Memory),
    }
}

fn step_in(
    alloc: Global,
    scratch: &mut Scratch<Global>,
    format: u8,
    body: &[u8],
    uids: &Uids,
) -> Result<Decoded, RecordFault>
    ensures says { Decodes (body_in format uids.now.uids body.now) result }
    ensures spelled { format ≢ FIRST_FORMAT
        → IfOk result (λ d. Says uids.now.uids body.now (recorded d)) }
    ensures within { IsBadWithin (length body.now) result }
    ensures numbered { IfOk result (λ d. AreNumbered (uids.now.uids ++ d.added)) }
{
    if format != FIRST_FORMAT {
        return decode(alloc, scratch, body, uids);
    }
    // Lending the uids is what tells the proof that they are as they have numbers.
    let _uids = uids.as_slice();
    match decode_first(alloc, scratch, body) {
        Ok(step) => Ok(Decoded {
            step,
            added: ReplicaUids::new(alloc),
        }),
        Err(fault) => Err(fault),
    }
}

// Makes the step, and gives numbers to the uids that its body adds.
fn make(made: &mut Made, decoded: Decoded) -> Result<(), Memory>
    requires { AreNumbered (made.old.uids.uids ++ decoded.added) }
    ensures state { OnOk result
        (replayed made.new.steps ≡ after (replayed made.old.steps) (step_of decoded.step)) }
    ensures uids { OnOk result (made.new.uids.uids ≡ made.old.uids.uids ++ decoded.added) }
{
    match made.uids.reserve(decoded.added.len() as u64) {
        Ok(()) => make_in_room(made, decoded),
        Err(memory) => {
            drop(decoded);
            Err(memory)
        }
    }
}

// The same where the uids have room for those that come.
fn make_in_room(made: &mut Made, decoded: Decoded) -> Result<(), Memory>
    requires numbered { AreNumbered (made.old.uids.uids ++ decoded.added) }
    requires room { length decoded.added ≤ made.old.uids.room }
    ensures state { OnOk result
        (replayed made.new.steps ≡ after (replayed made.old.steps) (step_of decoded.step)) }
    ensures uids { OnOk result (made.new.uids.uids ≡ made.old.uids.uids ++ decoded.added) }
{
    let Decoded { step, added } = decoded;
    match made.steps.make(step) {
        Ok(()) => {
            made.uids.add(added);
            Ok(())
        }
        Err(memory) => {
            drop(added);
            Err(memory)
        }
    }
}
