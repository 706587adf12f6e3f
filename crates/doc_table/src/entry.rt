//! One entry of the table, and its place in the order of ids.
ghost use Rattle.std.specs.Ordering.{is_eq, is_lt};
ghost use Rattle.std.specs.Prelude.{◌≡◌, T};
ghost use Rattle.doc_table.specs.Abbreviated.{IsAbbreviated};
ghost use Rattle.doc_table.specs.Slots.{id_in, is_taken};
ghost use Rattle.u1_base.specs.Ids.{id_cmp};

use key_lanes::abbreviated_key;
use std::marker::Model;
use std::mem;
use u1_base::{FormOf, Id};

// How many bytes of an id its abbreviated key has.
const ABBREVIATED: usize = 8;

// Memory for an id and its value.
#[derive(Drop)]
pub(crate) enum Slot<F: FormOf, V> {
    Free,
    Taken { id: Id<F>, value: V },
}

// An id and its value, which lie in a slot of their own: so few bytes move where an entry comes in.
// The abbreviated key of the id stands beside it: most looks of a search need no more, and to read
// the id is to wait for memory once more.
#[derive(Drop)]
pub(crate) struct Entry<F: FormOf, V> {
    abbreviated: u64,
    slot: Box<Slot<F, V>>,
    ghost taken: { T (is_taken slot.value) },
    ghost abbreviates: { IsAbbreviated (id_in slot.value) abbreviated },
}

impl<F: FormOf, V> Model for Entry<F, V> {
    ghost use Rattle.std.specs.Prelude.{List, ℕ};
    ghost use Rattle.std.specs.Coded.{coded×, coded_list, coded_ℕ};
    ghost use Rattle.doc_table.specs.Slots.{pair_in};

    ghost Value = { List ℕ × V };

    ghost coded = { coded× (coded_list coded_ℕ) V.code };

    ghost view = { λ s. pair_in s.slot.value s.taken };
}

impl<F: FormOf, V> Entry<F, V> {
    // The slot gets the id with this abbreviated key and the value.
    pub(crate) fn of(
        mut slot: Box<Slot<F, V>>,
        abbreviated: u64,
        id: Id<F>,
        value: V,
    ) -> Entry<F, V>
    where
        V: Drop,
        requires { IsAbbreviated id abbreviated }
        ensures { result ≡ (id, value) }
    {
        *slot = Slot::Taken { id, value };
        Entry { abbreviated, slot }
    }

    pub(crate) fn id(&self) -> &Id<F>
        ensures { result.now ≡ self.now.0 }
    {
        match &*self.slot {
            Slot::Taken { id, .. } => id,
            Slot::Free => unreachable!(),
        }
    }

    pub(crate) fn value(&self) -> &V
        ensures { result.now ≡ self.now.1 }
    {
        match &*self.slot {
            Slot::Taken { value, .. } => value,
            Slot::Free => unreachable!(),
        }
    }

    // The value, and the slot, which is free again.
    pub(crate) fn into_parts(self) -> (V, Box<Slot<F, V>>)
    where
        V: Drop,
        ensures { result.0 ≡ self.1 }
    {
        let Entry { mut slot, .. } = self;
        match mem::replace(&mut *slot, Slot::Free) {
            Slot::Taken { value, .. } => (value, slot),
            Slot::Free => unreachable!(),
        }
    }

    // Whether the entry's id comes before an id with this abbreviated key. Where the keys differ they
    // decide.
    pub(crate) fn is_below(&self, abbreviated: u64, id: &Id<F>) -> bool
        requires { IsAbbreviated id.now abbreviated }
        ensures { result ≡ is_lt (id_cmp self.now.0 id.now) }
    {
        if self.abbreviated == abbreviated {
            self.id().cmp(id).is_lt()
        } else {
            self.abbreviated < abbreviated
        }
    }

    // Whether it is the entry of an id with this abbreviated key.
    pub(crate) fn is_of(&self, abbreviated: u64, id: &Id<F>) -> bool
        requires { IsAbbreviated id.now abbreviated }
        ensures { result ≡ is_eq (id_cmp self.now.0 id.now) }
    {
        self.abbreviated == abbreviated && self.id().cmp(id).is_eq()
    }
}

// The abbreviated key of an id.
pub(crate) fn abbreviated<F: FormOf>(id: &Id<F>) -> u64
    ensures { IsAbbreviated id.now result }
{
    abbreviated_key(id.as_str().as_bytes(), ABBREVIATED) as u64
}
