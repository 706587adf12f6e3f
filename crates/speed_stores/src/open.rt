//! A store of many documents on disks in memory is opened, beside a plain loop over the bytes of
//! the same image that copies each body into std's `BTreeMap`, by the id of its document.
ghost use Rattle.std.specs.Prelude.{IfOk, true};
ghost use Rattle.disk_model.specs.MemDisk.{mem_known};
ghost use Rattle.replica_volume.specs.Volume.{IsOpenVolume};

use crate::image::{behind_header, first_entry, id_in};
use crate::steps::{MANY, edits, index};
use crate::stores::{disks_of, end, filled, image_of};
use disk_model::MemDisk;
use replica_core::Replica;
use replica_state::Step;
use replica_volume::Volume;
use speed_common::{Fault, Report, elapsed, started};
use std::alloc::Global;
use std::collections::BTreeMap;
use std::time::{Duration, Instant};
use u1_base::Bytes;

/// Times the opening of a store of so many documents, with an index or without. The result is the
/// number of documents.
pub fn measure(
    rt: &HostRuntime,
    name: &'static str,
    size: u32,
    indexed: bool,
) -> Result<Report, Fault> {
    let image = written(rt.alloc(), steps(rt.alloc(), size, indexed)?)?;
    let (volume, ours) = opened(rt, image.as_slice())?;
    let result = volume.state().docs().length();
    end(volume);
    let peer = copied(rt, image.as_slice(), result)?;
    Ok(Report {
        name,
        size,
        result,
        ours,
        peer,
    })
}

fn steps(alloc: Global, size: u32, indexed: bool) -> Result<Vec<Step>, Fault> {
    let mut steps = edits(alloc, 0, size, MANY)?;
    if indexed {
        steps.push(index(alloc)?)?;
    }
    Ok(steps)
}

/// The image of a store of these steps.
pub fn written(alloc: Global, steps: Vec<Step>) -> Result<Bytes, Fault> {
    Ok(image_of(alloc, &filled(alloc, steps)?)?)
}

/// Opens the store of this image, and times that. On standard error a line each stands before the
/// store is opened and where it is open, for `.ci/room`; they say the length of the image.
pub fn opened(rt: &HostRuntime, image: &[u8]) -> Result<(Volume<MemDisk>, Duration), Fault>
    ensures { IfOk result (λ opened. IsOpenVolume true mem_known opened.0) }
{
    let disks = disks_of(rt.alloc(), &[0], image)?;
    tell_length(rt, image.len())?;
    let before = started(rt)?;
    match Volume::open_volume(rt.alloc(), disks) {
        Ok(volume) => match is_open(rt, before, image.len()) {
            Ok(ours) => Ok((volume, ours)),
            Err(fault) => {
                end(volume);
                Err(fault)
            }
        },
        Err((_disks, _fault)) => Err(Fault::Run),
    }
}

// The time that opening took, and the line where the store is open.
fn is_open(rt: &HostRuntime, before: Instant, length: usize) -> Result<Duration, Fault> {
    let ours = elapsed(rt, before)?;
    tell_length(rt, length)?;
    Ok(ours)
}

fn tell_length(rt: &HostRuntime, length: usize) -> Result<(), Fault> {
    Ok(eprintln!(rt; "an image of {length} bytes")?)
}

// ---- the plain loop

// Times the peer, which has to find so many documents.
fn copied(rt: &HostRuntime, image: &[u8], documents: u64) -> Result<Duration, Fault> {
    let before = started(rt)?;
    let bodies = in_map(rt.alloc(), image)?;
    let peer = elapsed(rt, before)?;
    if bodies.len() as u64 == documents {
        Ok(peer)
    } else {
        Err(Fault::Run)
    }
}

fn in_map(alloc: Global, image: &[u8]) -> Result<BTreeMap<String, Vec<u8>>, Fault> {
    let mut bodies = BTreeMap::new(alloc);
    let mut rest = behind_header(image);
    for _ in 0..image.len() {
        let Some((entry, others)) = first_entry(rest) else {
            break;
        };
        keep(alloc, &mut bodies, entry)?;
        rest = others;
    }
    Ok(bodies)
}

// Copies the entry; that of the index has no id, and is left out.
fn keep(alloc: Global, bodies: &mut BTreeMap<String, Vec<u8>>, entry: &[u8]) -> Result<(), Fault> {
    if let Some(id) = id_in(entry) {
        let mut copy = Vec::new(alloc);
        copy.extend_from_slice(entry)?;
        bodies.insert(String::from_str(alloc, id)?, copy)?;
    }
    Ok(())
}
