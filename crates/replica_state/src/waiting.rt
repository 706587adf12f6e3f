//! Acceptances that wait until their documents are looked up.
ghost use Rattle.key_lanes.specs.AbbreviatedKeys.{IsAbbreviatedKey};

use conflicts::Accept;
use key_lanes::abbreviated_key;
use std::alloc::Global;
use std::cmp::Ordering;
use u1_base::{DocId, Memory};

// How many bytes of an id its abbreviated key has.
const ABBREVIATED: usize = 8;

/// An acceptance of a document. The abbreviated key of the id tells most documents apart. What is
/// accepted lies apart, so that a sort moves little.
#[derive(Drop)]
pub(crate) struct Waiting {
    abbreviated: u64,
    pub(crate) doc: DocId,
    pub(crate) accept: Box<Accept>,
    ghost abbreviates: { IsAbbreviatedKey 8 doc abbreviated },
}

impl Waiting {
    ghost use Rattle.std.specs.Prelude.{◌≡◌, IfOk};
    ghost use Rattle.u1_base.specs.Ids.{id_cmp};

    pub(crate) fn new(alloc: Global, doc: DocId, accept: Accept) -> Result<Waiting, Memory>
        ensures doc { IfOk result (λ waits. waits.doc ≡ doc) }
        ensures accept { IfOk result (λ waits. waits.accept.value ≡ accept) }
    {
        let abbreviated = abbreviated_key(doc.as_str().as_bytes(), ABBREVIATED) as u64;
        Ok(Waiting {
            abbreviated,
            doc,
            accept: Box::new(alloc, accept)?,
        })
    }

    /// The order of the documents' ids. Where their abbreviated keys differ these decide.
    pub(crate) fn compare(&self, other: &Waiting) -> Ordering
        ensures { result ≡ id_cmp self.now.doc other.now.doc }
    {
        match self.abbreviated.cmp(&other.abbreviated) {
            Ordering::Less => Ordering::Less,
            Ordering::Equal => self.doc.cmp(&other.doc),
            Ordering::Greater => Ordering::Greater,
        }
    }
}
