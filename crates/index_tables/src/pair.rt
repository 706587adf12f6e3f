//! One pair of the table of an index.
ghost use Rattle.std.specs.Prelude.{◌≡◌};
ghost use Rattle.index_tables.specs.Abbreviated.{IsAbbreviated};

use crate::abbreviated::abbreviated;
use u1_base::{DocId, Key};

// A key, and the id of a document that has it. The abbreviated key stands beside it: most looks of
// a search need no more, and to read the key's first text may be to wait for memory once more.
#[derive(Drop)]
pub(crate) struct Pair {
    pub(crate) abbreviated: u128,
    pub(crate) key: Key,
    pub(crate) id: DocId,
    ghost abbreviates: { IsAbbreviated key abbreviated },
}

// One line of a processor's cache.
const _: () = prove!(size_of::<Pair>() == 64);

impl Pair {
    ghost use Rattle.index_tables.specs.Seen.{entry_of};

    pub(crate) fn of(key: Key, id: DocId) -> Pair
        ensures { entry_of result ≡ (key, id) }
    {
        Pair {
            abbreviated: abbreviated(key.texts()),
            key,
            id,
        }
    }
}
