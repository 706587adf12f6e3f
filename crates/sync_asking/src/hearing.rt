//! The bytes of a reply are heard.
ghost use Rattle.std.specs.Prelude.{◌≡◌, ◌≤◌, ◌<◌, ◌++◌, [], List, ℕ, length, IfErr, OnOk};
ghost use Rattle.std.specs.Io.KnownBytes.{Consumes};
ghost use Rattle.u1_base.specs.Causes.{HasCauseOf};
ghost use Rattle.sync_link.specs.Links.{given_more};
ghost use Rattle.sync_asking.specs.Carried.{IsGiven};

use sync_link::{AskFault, Link, Phase};
use u1_base::Bytes;

// How much is received at once, in bytes.
pub(crate) const PIECE: usize = 4096;

/// Receives the next bytes of a reply, at most as many as there is room for, and adds them. Bytes
/// for which there is no memory are given all the same.
pub fn hear<L: Link>(link: &mut L, heard: &mut Bytes, room: usize) -> Result<(), AskFault>
    requires phase { (L.known link.old).phase ≡ Phase.Receiving }
    requires room { (1 ≤ room) × (room ≤ PIECE) }
    ensures added { OnOk result ((piece : List ℕ) × (1 ≤ length piece) × (length piece ≤ room)
        × (heard.new ≡ heard.old ++ piece)
        × (L.known link.new ≡ given_more piece (L.known link.old))
        × Consumes (L.known link.old).coming (L.known link.new).coming piece) }
    ensures given { IfErr result (λ fault. (piece : List ℕ)
        × IsGiven (L.known link.old) (L.known link.new) piece
        × (fault ≡ AskFault.Failed → piece ≡ [])) }
    ensures cause { HasCauseOf AskFault.Failed
        (L.known link.old).faults (L.known link.new).faults result }
{
    let mut piece = [0; PIECE];
    let count = link.receive(&mut piece[..room])?;
    heard.extend(&piece[..count])?;
    Ok(())
}

/// Receives until so many bytes were heard.
pub fn hear_up_to<L: Link>(link: &mut L, heard: &mut Bytes, end: usize) -> Result<(), AskFault>
    requires phase { (L.known link.old).phase ≡ Phase.Receiving }
    ensures added { OnOk result ((piece : List ℕ)
        × (heard.new ≡ heard.old ++ piece)
        × (L.known link.new ≡ given_more piece (L.known link.old))
        × Consumes (L.known link.old).coming (L.known link.new).coming piece) }
    ensures end { OnOk result (end ≤ length heard.new) }
    ensures given { IfErr result (λ fault. (piece : List ℕ)
        × IsGiven (L.known link.old) (L.known link.new) piece
        × (fault ≡ AskFault.Failed → length (heard.old ++ piece) < end)) }
    ensures cause { HasCauseOf AskFault.Failed
        (L.known link.old).faults (L.known link.new).faults result }
{
    while heard.len() < end {
        let room = PIECE.min(end - heard.len());
        hear(link, heard, room)?;
    }
    Ok(())
}
