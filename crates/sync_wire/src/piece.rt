//! The next bytes of a connection.
ghost use Rattle.std.specs.Prelude.{◌≡◌, ◌⊎◌, ◌≤◌, ◌<◌, IfErr, IfOk, OnErr, Err, List, ℕ, length};
ghost use Rattle.std.specs.Io.KnownBytes.{Consumes, Keeps};
ghost use Rattle.u1_base.specs.Causes.{HasCauseOf};
ghost use Rattle.link.specs.Pieces.{AddsNext};
ghost use Rattle.link.specs.declared.input.InputFault.TheVariants as input;
ghost use Rattle.sync_wire.specs.Opened.{LosesPiece, ReadsUpTo};

use link::{Conn, InputFault};
use u1_base::Bytes;

/// How much is read at once, in bytes.
pub const PIECE: usize = 4096;

/// Reads the next bytes, at most as many as there is room for, and adds them; none only at the end.
pub fn read_piece<C: Conn>(
    conn: &mut C,
    bytes: &mut Bytes,
    room: usize,
) -> Result<usize, InputFault>
    requires some { 0 < room }
    requires few { room ≤ PIECE }
    ensures added { IfOk result (λ n. (n ≤ room)
        × AddsNext (C.Source.known conn.old).left (C.Source.known conn.new).left
        bytes.old bytes.new n) }
    ensures same { OnErr result (bytes.new ≡ bytes.old) }
    ensures lost { OnErr result ((lost : List ℕ)
        × Consumes (C.Source.known conn.old).left (C.Source.known conn.new).left lost) }
    ensures kept { result ≡ Err input.Source
        → Keeps (C.Source.known conn.old).left (C.Source.known conn.new).left }
    ensures cause { HasCauseOf input.Source
        (C.Source.known conn.old).faults (C.Source.known conn.new).faults result }
    ensures sink { C.Sink.known conn.new ≡ C.Sink.known conn.old }
{
    let mut piece = [0; PIECE];
    match conn.read(&mut piece[..room]) {
        Ok(count) => {
            bytes.extend(&piece[..count])?;
            Ok(count)
        }
        Err(_) => Err(InputFault::Source),
    }
}

/// Reads on until there are so many bytes, or the source ends. It never reads more, so there are
/// more only if there were before.
#[tactic(auto, using(crate::proofs::Opens::read_within))]
pub fn read_up_to<C: Conn>(conn: &mut C, bytes: &mut Bytes, end: usize) -> Result<(), InputFault>
    ensures reads { IfOk result (λ _. ReadsUpTo end
        (C.Source.known conn.old).left (C.Source.known conn.new).left bytes.old bytes.new) }
    ensures lost { IfErr result (LosesPiece
        (C.Source.known conn.old).left (C.Source.known conn.new).left bytes.old bytes.new) }
    ensures within { (length bytes.new ≤ end) ⊎ (bytes.new ≡ bytes.old) }
    ensures cause { HasCauseOf input.Source
        (C.Source.known conn.old).faults (C.Source.known conn.new).faults result }
    ensures sink { C.Sink.known conn.new ≡ C.Sink.known conn.old }
{
    while bytes.len() < end {
        let room = PIECE.min(end - bytes.len());
        match read_piece(conn, bytes, room) {
            Ok(count) => {
                if count == 0 {
                    break;
                }
            }
            Err(fault) => return Err(fault),
        }
    }
    Ok(())
}
