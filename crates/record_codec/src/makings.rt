//! The bytes of makings.
ghost use Rattle.std.specs.Prelude.{◌≡◌};
ghost use Rattle.record_codec.specs.Bodies.{making_byte, making_in};

use conflicts::Making;

pub(crate) fn of_byte(byte: u8) -> Option<Making>
    ensures { result ≡ making_in byte }
{
    match byte {
        0 => Some(Making::Edit),
        1 => Some(Making::Resolve),
        2 => Some(Making::Merge),
        3 => Some(Making::Received),
        _ => None,
    }
}

pub(crate) fn byte(making: Making) -> u8
    ensures { result ≡ making_byte making }
{
    match making {
        Making::Edit => 0,
        Making::Resolve => 1,
        Making::Merge => 2,
        Making::Received => 3,
    }
}
