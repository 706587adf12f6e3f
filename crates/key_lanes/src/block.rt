//! A block of bytes that is worked on at once, and its mask, in which bit k speaks of byte k.
ghost use Rattle.std.specs.Prelude.{◌≡◌};
ghost use Rattle.key_lanes.specs.inner.Blocks.{first_set};

/// How many bytes a block has.
pub(crate) const LANES: usize = 16;

/// How many bytes the block of a short key has.
pub(crate) const FEW_LANES: usize = 8;

/// The place of the lowest bit that is set.
#[inline(always)]
pub(crate) fn first_set(mask: u64) -> Option<usize>
    ensures { result ≡ first_set mask }
{
    if mask == 0 {
        None
    } else {
        Some(mask.trailing_zeros() as usize)
    }
}
