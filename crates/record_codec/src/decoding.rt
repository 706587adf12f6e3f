//! Steps from bodies.
ghost use Rattle.std.specs.Prelude.{◌≡◌, IfOk, length};
ghost use Rattle.replica_state.specs.Steps.{step_of};
ghost use Rattle.record_codec.specs.Bodies.{first_body_of, first_step_in, recorded_in, step_in};
ghost use Rattle.record_codec.specs.Decoding.{Decodes, DecodesAlone, IsBadWithin};
ghost use Rattle.record_codec.specs.inner.Decoding.{Records};
ghost use Rattle.record_codec.specs.Decoding.{recorded};
ghost use Rattle.record_codec.specs.inner.Decoding.{read_whole};
ghost use Rattle.record_codec.specs.Laws.{Says};
ghost use Rattle.record_codec.specs.Steps.{IsStep};

use crate::reading::read_step;
use json::Scratch;
use record_fields::{Format, Reader, ReplicaUids, Stop, Uids};
use replica_state::Step;
use std::alloc::Global;
use std::error::Error;
use std::fmt;
use u1_base::Memory;

/// A step that was read.
#[derive(Drop)]
pub struct Decoded {
    pub step: Step,
    /// The uids to which the body gives numbers, in the order of the numbers.
    pub added: ReplicaUids,
}

/// Why a body was not read.
#[derive(Clone, Copy, Debug, PartialEq, Eq)]
pub enum RecordFault {
    /// The place of the first field that has no reading, or of the first byte after the last field.
    Bad(u64),
    Memory,
}

impl fmt::Display for RecordFault {
    fn fmt<W: fmt::Write>(&self, f: &mut fmt::Formatter<W>) -> fmt::Result {
        match self {
            RecordFault::Bad(place) => write!(f, "the body cannot be read from byte {place} on"),
            RecordFault::Memory => f.write_str("out of memory"),
        }
    }
}

impl Error for RecordFault {}

impl From<Memory> for RecordFault {
    ghost use Rattle.std.specs.Prelude.{◌≡◌};
    ghost use Rattle.record_codec.specs.declared.decoding.RecordFault.TheVariants as fault;

    ghost from_gives = { λ _ e. e ≡ fault.Memory };

    fn from(_memory: Memory) -> RecordFault {
        RecordFault::Memory
    }
}

/// Reads the step that a body in format 2 says, where these uids have numbers. The scratch is for
/// its content; one serves for all bodies.
pub fn decode(
    alloc: Global,
    scratch: &mut Scratch<Global>,
    bytes: &[u8],
    uids: &Uids,
) -> Result<Decoded, RecordFault>
    ensures reads { Decodes (step_in uids.now.uids bytes.now) result }
    ensures says { IfOk result (λ d. Says uids.now.uids bytes.now (recorded d)) }
    ensures within { IsBadWithin (length bytes.now) result }
{
    // Lending the uids is what tells the proof that they are as they have numbers.
    let _uids = uids.as_slice();
    record(alloc, scratch, Format::Second, bytes, uids)
}

/// Reads the step that a body in format 1 says.
pub fn decode_first(
    alloc: Global,
    scratch: &mut Scratch<Global>,
    bytes: &[u8],
) -> Result<Step, RecordFault>
    ensures reads { DecodesAlone (first_step_in bytes.now) result }
    ensures says { IfOk result (λ s. IsStep (step_of s) × (bytes.now ≡ first_body_of (step_of s))) }
    ensures within { IsBadWithin (length bytes.now) result }
{
    let unnumbered = Uids::none(alloc);
    match record(alloc, scratch, Format::First, bytes, &unnumbered) {
        Ok(decoded) => Ok(decoded.into_step()),
        Err(fault) => Err(fault),
    }
}

impl Decoded {
    fn into_step(self) -> Step
        ensures { result ≡ self.step }
    {
        let Decoded { step, added: _ } = self;
        step
    }
}

// The step, or the place of the fault.
#[tactic(auto, unfolding(crate::specs::Bodies::recorded_in))]
fn record(
    alloc: Global,
    scratch: &mut Scratch<Global>,
    format: Format,
    bytes: &[u8],
    uids: &Uids,
) -> Result<Decoded, RecordFault>
    ensures reads { Decodes (recorded_in format uids.now.uids bytes.now) result }
    ensures within { IsBadWithin (length bytes.now) result }
{
    match read_whole(alloc, scratch, format, bytes, uids) {
        Ok(decoded) => Ok(decoded),
        Err(Stop::Bad(left)) => Err(RecordFault::Bad(bytes.len().saturating_sub(left) as u64)),
        Err(Stop::Memory) => Err(RecordFault::Memory),
    }
}

// The step, after which nothing stands.
fn read_whole(
    alloc: Global,
    scratch: &mut Scratch<Global>,
    format: Format,
    bytes: &[u8],
    uids: &Uids,
) -> Result<Decoded, Stop>
    ensures { Records (read_whole format uids.now.uids bytes.now) result }
{
    let mut reader = Reader::new(alloc, bytes, uids);
    let step = read_step(&mut reader, scratch, format)?;
    let left = reader.left();
    if left != 0 {
        return Err(Stop::Bad(left));
    }
    Ok(Decoded {
        step,
        added: reader.into_added(),
    })
}
