//! A text of the product's own.
ghost use Rattle.std.specs.Prelude.{◌≡◌, IfOk, IfSome, string_bytes};
ghost use Rattle.u1_base.specs.Storage.{bytes_of};

use crate::Memory;
use crate::inline::Inline;
use std::alloc::Global;
use std::cmp::Ordering;
use std::fmt;
use std::marker::Model;
use std::rc::{Rc, RcStr};

/// A UTF-8 text, seen as its bytes. Texts are ordered by bytes.
///
/// A text of at most 14 bytes takes no memory beside the value. A longer one lies on the heap, once
/// for all its copies.
pub struct Text {
    storage: Storage,
}

// Written by hand, so that whoever lets a text go makes one call, whatever its form.
impl Drop for Text {
    #[inline]
    fn drop(self) {
        let Text { storage } = self;
        drop(storage);
    }
}

// Where the bytes of a text lie.
#[derive(Drop)]
enum Storage {
    Short(Inline<14>),
    Medium(Rc<Inline<39>>),
    Large(Rc<Inline<103>>),
    Long(RcStr),
}

const _: () = prove!(size_of::<Text>() == 16);

// With the counts of `Rc` that is 56 bytes, the C library's least piece of memory for a made id.
const _: () = prove!(size_of::<Inline<39>>() == 40);

// With the counts 120 bytes: most contents of documents need one piece of memory so, and a `Long`
// text needs two.
const _: () = prove!(size_of::<Inline<103>>() == 104);

impl Model for Text {
    ghost use Rattle.std.specs.Prelude.{List, ℕ};
    ghost use Rattle.u1_base.specs.Storage.{bytes_of};

    ghost Value = { List ℕ };

    ghost view = { λ t. bytes_of t.storage };
}

impl Text {
    pub fn copy(alloc: Global, text: &str) -> Result<Text, Memory>
        ensures { IfOk result (λ t. t ≡ text.now) }
    {
        let storage = match inlined(alloc, text)? {
            Some(storage) => storage,
            None => Storage::Long(RcStr::from_str(alloc, text)?),
        };
        Ok(Text { storage })
    }

    /// A string of more than 103 bytes is kept, a shorter one copied.
    pub fn from_string(text: String) -> Result<Text, Memory>
        ensures { IfOk result (λ t. t ≡ string_bytes text) }
    {
        let storage = match inlined(*text.allocator(), text.as_str())? {
            Some(storage) => storage,
            None => Storage::Long(RcStr::from_string(text)?),
        };
        Ok(Text { storage })
    }

    /// The same text. It takes no memory.
    pub fn duplicate(&self) -> Result<Text, Memory>
        ensures { IfOk result (λ t. t ≡ self.now) }
    {
        let storage = match &self.storage {
            Storage::Short(text) => Storage::Short(text.again()),
            Storage::Medium(text) => Storage::Medium(text.clone()?),
            Storage::Large(text) => Storage::Large(text.clone()?),
            Storage::Long(text) => Storage::Long(text.clone()?),
        };
        Ok(Text { storage })
    }

    pub fn as_str(&self) -> &str
        ensures { result.now ≡ self.now }
    {
        match &self.storage {
            Storage::Short(text) => text.as_str(),
            Storage::Medium(text) => text.as_str(),
            Storage::Large(text) => text.as_str(),
            Storage::Long(text) => text.as_str(),
        }
    }
}

// The storage of a text that is not long.
fn inlined(alloc: Global, text: &str) -> Result<Option<Storage>, Memory>
    ensures { IfOk result (λ storage. IfSome storage (λ s. bytes_of s ≡ text.now)) }
{
    if let Some(short) = Inline::of(text) {
        return Ok(Some(Storage::Short(short)));
    }
    if let Some(medium) = Inline::of(text) {
        return Ok(Some(Storage::Medium(Rc::new(alloc, medium)?)));
    }
    match Inline::of(text) {
        Some(large) => Ok(Some(Storage::Large(Rc::new(alloc, large)?))),
        None => Ok(None),
    }
}

impl fmt::Debug for Text {
    fn fmt<W: fmt::Write>(&self, f: &mut fmt::Formatter<W>) -> fmt::Result {
        fmt::Debug::fmt(&self.as_str(), f)
    }
}

impl PartialEq for Text {
    ghost use Rattle.std.specs.Prelude.{nat_eq};
    ghost use Rattle.std.specs.Cmp.{partial_equiv_from_equiv};
    ghost use Rattle.std.specs.Cmp.Lexicographic.{nat_list_eq_equiv, pointwise};

    ghost eq = { λ a b. pointwise nat_eq a b };

    ghost laws = { partial_equiv_from_equiv nat_list_eq_equiv };

    fn eq(&self, other: &Text) -> bool {
        self.as_str() == other.as_str()
    }
}

impl Eq for Text {
    ghost use Rattle.std.specs.Cmp.Lexicographic.{nat_list_eq_equiv};

    ghost laws = { nat_list_eq_equiv };
}

impl PartialOrd for Text {
    ghost use Rattle.std.specs.Prelude.{Some};
    ghost use Rattle.std.specs.Ordering.{nat_cmp};
    ghost use Rattle.std.specs.Cmp.Lexicographic.{slice_cmp, texts_po};

    ghost partial_cmp = { λ a b. Some (slice_cmp nat_cmp a b) };

    ghost laws = { texts_po };

    fn partial_cmp(&self, other: &Text) -> Option<Ordering> {
        Some(self.cmp(other))
    }
}

impl Ord for Text {
    ghost use Rattle.std.specs.Prelude.{refl};
    ghost use Rattle.std.specs.Ordering.{nat_cmp};
    ghost use Rattle.std.specs.Cmp.Lexicographic.{nat_list_cmp_total, slice_cmp, texts_ties};

    ghost cmp = { slice_cmp nat_cmp };

    ghost total = { nat_list_cmp_total };

    ghost matches_partial_cmp = { λ a b. refl };

    ghost matches_eq = { texts_ties };

    fn cmp(&self, other: &Text) -> Ordering {
        self.as_str().cmp(other.as_str())
    }
}
