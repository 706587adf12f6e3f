//! The byte of a move: which of a peer's positions moves, if one does.
ghost use Rattle.std.specs.Prelude.{◌≡◌};
ghost use Rattle.record_codec.specs.Bodies.{table_byte, table_in};

use conflicts::PosTable;

/// The outer None is a byte that says nothing; the inner one, that nothing moves.
pub(crate) fn of_byte(byte: u8) -> Option<Option<PosTable>>
    ensures { result ≡ table_in byte }
{
    match byte {
        0 => Some(None),
        1 => Some(Some(PosTable::Known)),
        2 => Some(Some(PosTable::Told)),
        _ => None,
    }
}

pub(crate) fn byte(table: Option<PosTable>) -> u8
    ensures { result ≡ table_byte table }
{
    match table {
        None => 0,
        Some(PosTable::Known) => 1,
        Some(PosTable::Told) => 2,
    }
}
