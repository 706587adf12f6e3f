//! A connection: one object that is read from and written to.
ghost use Rattle.std.specs.Prelude.{◌≡◌};

use crate::{Sink, Source};

/// A source and a sink whose two sides do not touch each other.
///
/// Without that, a fault of the one side could not be told from a fault of the other.
pub trait Conn: Source + Sink {
    ghost read_leaves_sink: { (a b : Self)
        → Self.read_keeps a b → Self.Sink.known b ≡ Self.Sink.known a };

    ghost put_leaves_source: { (a b : Self)
        → Self.put_keeps a b → Self.Source.known b ≡ Self.Source.known a };
}
