//! The kinds of bodies.
ghost use Rattle.std.specs.Prelude.{◌≡◌};
ghost use Rattle.record_codec.specs.Bodies.{kind_byte, kind_in};

/// What kind of step a body says.
#[derive(Clone, Copy, PartialEq, Eq)]
pub(crate) enum Kind {
    Accept,
    Gone,
    Position,
    IndexCreate,
    IndexDelete,
}

impl Kind {
    pub fn of_byte(byte: u8) -> Option<Kind>
        ensures { result ≡ kind_in byte }
    {
        match byte {
            1 => Some(Kind::Accept),
            2 => Some(Kind::Gone),
            3 => Some(Kind::Position),
            4 => Some(Kind::IndexCreate),
            5 => Some(Kind::IndexDelete),
            _ => None,
        }
    }

    pub fn byte(self) -> u8
        ensures { result ≡ kind_byte self }
    {
        match self {
            Kind::Accept => 1,
            Kind::Gone => 2,
            Kind::Position => 3,
            Kind::IndexCreate => 4,
            Kind::IndexDelete => 5,
        }
    }
}
