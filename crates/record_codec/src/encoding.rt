//! Bodies of steps.
ghost use Rattle.std.specs.Prelude.{◌≡◌, ◌<◌, ◌≤◌, ◌^◌, IfOk, MatchBool, Ok, OnOk, length};
ghost use Rattle.replica_state.specs.Steps.{step_of};
ghost use Rattle.record_codec.specs.Bodies.{added_of, body_of, step_in};
ghost use Rattle.record_codec.specs.Encoding.{written};
ghost use Rattle.record_codec.specs.Laws.{AreBytes, Says};
ghost use Rattle.record_codec.specs.Steps.{IsStep};

use crate::writing::write_step;
use record_fields::{ReplicaUids, Uids, Writer};
use replica_state::Step;
use std::alloc::Global;
use u1_base::{Bytes, Memory};

// So many uids can have numbers.
const MOST_UIDS: usize = 4_294_967_296;

// A body is shorter than this.
const TOO_MANY_BYTES: usize = 4_294_967_296;

/// The body of a step.
#[derive(Drop)]
pub struct Encoded {
    pub bytes: Bytes,
    /// The uids to which the body gives numbers, in the order of the numbers.
    pub added: ReplicaUids,
}

/// The body of the step in format 2, where these uids have numbers. A body of 2^32 bytes or more,
/// and more than 2^32 uids, count as out of memory.
pub fn encode(alloc: Global, step: &Step, uids: &Uids) -> Result<Encoded, Memory>
    ensures body { IfOk result (λ e. e.bytes ≡ body_of uids.now.uids (step_of step.now)) }
    ensures added { IfOk result (λ e. e.added ≡ added_of uids.now.uids (step_of step.now)) }
    ensures says { IfOk result (λ e. Says uids.now.uids e.bytes (written step.now e.added)) }
    ensures reads_back { IfOk result
        (λ e. step_in uids.now.uids e.bytes ≡ Ok (written step.now e.added)) }
    ensures some { IfOk result (λ e. 1 ≤ length e.bytes) }
    ensures short { IfOk result (λ e. length e.bytes < 2 ^ 32) }
{
    // Lending the uids is what tells the proof that they are as they have numbers.
    let _uids = uids.as_slice();
    let encoded = spell(alloc, step, uids)?;
    if uids.len().saturating_add(encoded.added.len()) > MOST_UIDS {
        return Err(Memory);
    }
    let bytes = encoded.bytes.as_slice();
    if !is_short(bytes) {
        return Err(Memory);
    }
    Ok(encoded)
}

fn is_short(bytes: &[u8]) -> bool
    ensures short { MatchBool result (length bytes.now < 2 ^ 32) (2 ^ 32 ≤ length bytes.now) }
    ensures bytes { AreBytes bytes.now }
{
    bytes.len() < TOO_MANY_BYTES
}

// The body, however long it is.
fn spell(alloc: Global, step: &Step, uids: &Uids) -> Result<Encoded, Memory>
    ensures body { IfOk result (λ e. e.bytes ≡ body_of uids.now.uids (step_of step.now)) }
    ensures added { IfOk result (λ e. e.added ≡ added_of uids.now.uids (step_of step.now)) }
    ensures step { OnOk result (IsStep (step_of step.now)) }
{
    let mut writer = Writer::new(alloc, uids)?;
    write_step(&mut writer, step)?;
    let (bytes, added) = writer.into_parts();
    Ok(Encoded { bytes, added })
}
