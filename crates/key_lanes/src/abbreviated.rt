//! Abbreviated keys: the first bytes of a key as a number, by which most keys are told apart.
ghost use Rattle.std.specs.Prelude.{◌≡◌, ◌^◌, ◌<◌, ◌≤◌, slice_index};
ghost use Rattle.key_lanes.specs.AbbreviatedKeys.{IsAbbreviatedKey};

/// So many first bytes as a number, the first the highest. A place past the end counts 0. Where the
/// numbers of two keys differ, their order is that of the keys; where they are equal, nothing is
/// known.
pub fn abbreviated_key(bytes: &[u8], places: usize) -> u128
    requires { places ≤ 16 }
    ensures value { IsAbbreviatedKey places bytes.now result }
    ensures fits { result < 256 ^ places }
{
    let mut number = 0;
    for at in 0..places {
        let byte = byte_at(bytes, at);
        number = number * 256 + byte as u128;
    }
    number
}

// The byte at a place, or 0 past the end.
fn byte_at(bytes: &[u8], at: usize) -> u8
    ensures { result ≡ slice_index bytes.now at }
{
    if at < bytes.len() { bytes[at] } else { 0 }
}
