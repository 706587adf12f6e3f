//! The numbers of uids.
ghost use Rattle.std.specs.Prelude.{◌≡◌, ◌+◌, ◌-◌, ◌<◌, ◌≤◌, [], ◌∷◌, ◌++◌, IfOk, OnOk, OnErr};
ghost use Rattle.std.specs.Prelude.{length, position, vec_len, vec_capacity};
ghost use Rattle.std.specs.Str.{bytes_eq};
ghost use Rattle.record_fields.specs.Table.{AreNumbered, number_of};

use std::alloc::Global;
use std::marker::Model;
use u1_base::{Items, Memory, ReplicaUid};

/// A list of uids.
pub type ReplicaUids = Items<ReplicaUid>;

/// The uids that have numbers, the header's first: the number of a uid is its place, counted from
/// 0. Contracts see them as their list, and how many more may be added without memory.
#[derive(Drop)]
pub struct Uids {
    list: Vec<ReplicaUid>,
    room: usize,
}

impl Model for Uids {
    ghost use Rattle.std.specs.Prelude.{◌+◌, ◌≤◌, vec_len, vec_capacity};
    ghost use Rattle.record_fields.specs.Table.{AreNumbered, Numbers, numbers_code};

    ghost Value = { Numbers };

    ghost coded = { numbers_code };

    ghost view = { λ s. record { uids = s.list.items; room = s.room } };

    ghost invariant = { λ s.
        AreNumbered s.list.items × (vec_len s.list + s.room ≤ vec_capacity s.list) };
}

impl Uids {
    /// The uid of the header has the number 0.
    #[tactic(auto, using(crate::proofs::Tables::one_numbered))]
    pub fn new(alloc: Global, own: &ReplicaUid) -> Result<Uids, Memory>
        ensures { IfOk result (λ uids. uids.uids ≡ own.now ∷ []) }
    {
        // Lending the text is what tells the proof that the uid is an id.
        let _text = own.as_str();
        let mut list = Vec::with_capacity(alloc, 1)?;
        list.push(own.copy()?)?;
        Ok(Uids { list, room: 0 })
    }

    /// No uid has a number.
    #[tactic(auto, using(crate::proofs::Tables::none_numbered))]
    pub fn none(alloc: Global) -> Uids
        ensures { result.uids ≡ [] }
    {
        Uids {
            list: Vec::new(alloc),
            room: 0,
        }
    }

    /// How many uids may be added without memory.
    pub fn room(&self) -> u64
        ensures { result ≡ self.now.room }
    {
        self.room as u64
    }

    pub fn len(&self) -> usize
        ensures { result ≡ length self.now.uids }
    {
        self.list.len()
    }

    /// The uids in the order of their numbers.
    pub fn as_slice(&self) -> &[ReplicaUid]
        ensures uids { result.now ≡ self.now.uids }
        ensures numbered { AreNumbered self.now.uids }
    {
        self.list.as_slice()
    }

    /// Makes room, so that so many uids may be added without memory. At an error there is as much
    /// room as before.
    pub fn reserve(&mut self, more: u64) -> Result<(), Memory>
        ensures uids { self.new.uids ≡ self.old.uids }
        ensures ok { OnOk result (more ≤ self.new.room) }
        ensures err { OnErr result (self.new.room ≡ self.old.room) }
    {
        let more = more as usize;
        if more <= self.room {
            return Ok(());
        }
        self.list.reserve(more)?;
        self.room = more;
        Ok(())
    }

    /// Gives numbers to uids that have none. Takes no memory.
    pub fn add(&mut self, added: ReplicaUids)
        requires room { length added ≤ self.old.room }
        requires numbered { AreNumbered (self.old.uids ++ added) }
        ensures uids { self.new.uids ≡ self.old.uids ++ added }
        ensures room { self.new.room ≡ self.old.room - length added }
    {
        let count = added.len();
        append(&mut self.list, added.into_vec());
        self.room -= count;
    }

    // The number of the uid, if it has one.
    pub(crate) fn number_of(&self, uid: &ReplicaUid) -> Option<usize>
        ensures { result ≡ number_of self.now.uids uid.now }
    {
        place_of(self.list.as_slice(), uid)
    }
}

// Puts the uids after the others, for which there is memory.
fn append(list: &mut Vec<ReplicaUid>, mut added: Vec<ReplicaUid>)
    requires { vec_len list.old + vec_len added ≤ vec_capacity list.old }
    ensures items { list.new.items ≡ list.old.items ++ added.items }
    ensures len { vec_len list.new ≡ vec_len list.old + vec_len added }
    ensures capacity { vec_capacity list.old ≤ vec_capacity list.new }
{
    match list.append(&mut added) {
        Ok(()) => {}
        Err(_) => {}
    }
}

// The place of the uid in the list.
pub(crate) fn place_of(uids: &[ReplicaUid], uid: &ReplicaUid) -> Option<usize>
    ensures { result ≡ number_of uids.now uid.now }
{
    first_same(uids, uid)
}

fn first_same(uids: &[ReplicaUid], uid: &ReplicaUid) -> Option<usize>
    ensures { result ≡ position (λ known. bytes_eq known uid.now) uids.now }
{
    uids.iter().position(|known| *known == *uid)
}
