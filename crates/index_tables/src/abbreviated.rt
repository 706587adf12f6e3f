//! The abbreviated key, by which most keys are told apart.
ghost use Rattle.index_tables.specs.Abbreviated.{IsAbbreviated};

use key_lanes::abbreviated_key;
use u1_base::Text;

// How many bytes of the first text the abbreviated key has.
const ABBREVIATED: usize = 16;

// The abbreviated key of a key, or 0 of no text.
pub(crate) fn abbreviated(key: &[Text]) -> u128
    ensures { IsAbbreviated key.now result }
{
    if key.is_empty() {
        return 0;
    }
    abbreviated_key(key[0].as_str().as_bytes(), ABBREVIATED)
}
