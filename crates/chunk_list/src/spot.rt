//! A place of a list, and the chunk that it was found in.

/// A place of a list, which counts from 0, and the chunk that it was found in. The chunk is a hint:
/// a next search begins there, and the list may have changed since.
#[derive(Clone, Copy)]
pub struct Spot {
    pub place: usize,
    pub(crate) chunk: usize,
}

impl Spot {
    ghost use Rattle.std.specs.Prelude.{◌≡◌};

    /// The place, without a hint.
    pub fn at(place: usize) -> Spot
        ensures { result.place ≡ place }
    {
        Spot {
            place,
            chunk: usize::MAX,
        }
    }
}
