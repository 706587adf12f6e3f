//! The lines of the store, of its log and of the positions that it keeps.
ghost use Rattle.std.specs.Prelude.{◌≡◌, codes, unwrap_or};
ghost use Rattle.command_lines.specs.Lines.{compacted_line, init_line, line_text};
ghost use Rattle.command_lines.specs.Puts.{Puts};
ghost use Rattle.replica_core.specs.Commands.Effects.{Changed, Generation, Known, Now, OfDatabase};
ghost use Rattle.replica_core.specs.Commands.Effects.{OfReplica, Told};

use crate::put::{PrintFault, put_all};
use itoa::Buffer;
use link::Sink;
use translog::Change;
use u1_base::{DbName, Position, ReplicaUid};

/// A database that was made: `database NAME replica UID`.
pub fn print_init<K: Sink>(out: &mut K, name: &DbName, uid: &ReplicaUid) -> Result<(), PrintFault>
    ensures { Puts (init_line name.now uid.now) (K.known out.old) (K.known out.new) result }
{
    put_all(
        out,
        &[
            b"database ",
            name.as_str().as_bytes(),
            b" replica ",
            uid.as_str().as_bytes(),
            b"\n",
        ],
    )
}

/// An image that was compacted: `compacted BEFORE AFTER`, its lengths in bytes.
pub fn print_compacted<K: Sink>(out: &mut K, before: u64, after: u64) -> Result<(), PrintFault>
    ensures { Puts (compacted_line before after) (K.known out.old) (K.known out.new) result }
{
    let mut old = Buffer::new();
    let mut new = Buffer::new();
    put_all(
        out,
        &[
            b"compacted ",
            old.format(before).as_bytes(),
            b" ",
            new.format(after).as_bytes(),
            b"\n",
        ],
    )
}

/// `generation G`
pub fn print_generation<K: Sink>(out: &mut K, generation: u64) -> Result<(), PrintFault>
    ensures { Puts (line_text (Generation generation)) (K.known out.old) (K.known out.new) result }
{
    let mut buffer = Buffer::new();
    put_all(
        out,
        &[b"generation ", buffer.format(generation).as_bytes(), b"\n"],
    )
}

/// The position after all entries: `generation G TRANS`, or `generation 0 -`.
pub fn print_now<K: Sink>(out: &mut K, at: &Position) -> Result<(), PrintFault>
    ensures { Puts (line_text (Now at.now)) (K.known out.old) (K.known out.new) result }
{
    let mut buffer = Buffer::new();
    put_all(
        out,
        &[
            b"generation ",
            buffer.format(at.generation).as_bytes(),
            b" ",
            trans_or_dash(at).as_bytes(),
            b"\n",
        ],
    )
}

/// A changed document at its last entry: `ID GENERATION TRANS`.
pub fn print_change<K: Sink>(out: &mut K, change: &Change) -> Result<(), PrintFault>
    ensures { Puts (line_text (Changed change.now)) (K.known out.old) (K.known out.new) result }
{
    let mut buffer = Buffer::new();
    put_all(
        out,
        &[
            change.doc.as_str().as_bytes(),
            b" ",
            buffer.format(change.generation).as_bytes(),
            b" ",
            change.trans.as_str().as_bytes(),
            b"\n",
        ],
    )
}

/// `replica UID`
pub fn print_replica<K: Sink>(out: &mut K, uid: &ReplicaUid) -> Result<(), PrintFault>
    ensures { Puts (line_text (OfReplica uid.now)) (K.known out.old) (K.known out.new) result }
{
    put_all(out, &[b"replica ", uid.as_str().as_bytes(), b"\n"])
}

/// `database NAME`
pub fn print_database<K: Sink>(out: &mut K, name: &DbName) -> Result<(), PrintFault>
    ensures { Puts (line_text (OfDatabase name.now)) (K.known out.old) (K.known out.new) result }
{
    put_all(out, &[b"database ", name.as_str().as_bytes(), b"\n"])
}

/// What is known of a peer's log: `known UID GENERATION TRANS`.
pub fn print_known<K: Sink>(out: &mut K, uid: &ReplicaUid, at: &Position) -> Result<(), PrintFault>
    ensures { Puts (line_text (Known uid.now at.now)) (K.known out.old) (K.known out.new) result }
{
    let mut buffer = Buffer::new();
    put_all(
        out,
        &[
            b"known ",
            uid.as_str().as_bytes(),
            b" ",
            buffer.format(at.generation).as_bytes(),
            b" ",
            trans_or_dash(at).as_bytes(),
            b"\n",
        ],
    )
}

/// What a peer was told of the own log: `told UID GENERATION TRANS`.
pub fn print_told<K: Sink>(out: &mut K, uid: &ReplicaUid, at: &Position) -> Result<(), PrintFault>
    ensures { Puts (line_text (Told uid.now at.now)) (K.known out.old) (K.known out.new) result }
{
    let mut buffer = Buffer::new();
    put_all(
        out,
        &[
            b"told ",
            uid.as_str().as_bytes(),
            b" ",
            buffer.format(at.generation).as_bytes(),
            b" ",
            trans_or_dash(at).as_bytes(),
            b"\n",
        ],
    )
}

/// The transaction id of a position; a dash for the place before the first entry.
pub(crate) fn trans_or_dash(at: &Position) -> &str
    ensures { result.now ≡ unwrap_or at.entry.now.trans (codes "-") }
{
    match &at.trans {
        Some(trans) => trans.as_str(),
        None => "-",
    }
}
