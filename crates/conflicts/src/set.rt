//! The members of a document.
ghost use Rattle.std.specs.Prelude.{◌≡◌, ◌<◌, ◌≤◌, ◌++◌, ◌↔◌, IfOk, IsNone, OnOk, T, length};
ghost use Rattle.std.specs.Prelude.{option_copied};
ghost use Rattle.std.specs.List.{slice_get};
ghost use Rattle.conflicts.specs.Kept.{all_apart, current, current_first};

use crate::Member;
use std::marker::Model;
use u1_base::Memory;

/// A document that is there: its members in the order of their last acceptances, and which of them
/// is the current one. No two members are ordered by their clocks.
#[derive(Drop)]
pub struct DocSet {
    pub(crate) members: Vec<Member>,
    pub(crate) place: usize,
    pub(crate) ghost there: { place < length members.items },
    pub(crate) ghost apart: { T (all_apart members.items) },
}

impl Model for DocSet {
    ghost use Rattle.conflicts.specs.Kept.{Kept, at_place, kept_code};

    ghost Value = { Kept };

    ghost coded = { kept_code };

    ghost view = { λ s. record {
      members = s.members.items;
      place = s.place;
      there =
          at_place s.members.items s.place s.there;
      apart = s.apart;
    } };
}

impl DocSet {
    pub fn current(&self) -> &Member
        ensures { result.now ≡ current self.now }
    {
        &self.members[self.place]
    }

    /// The number of members.
    pub fn length(&self) -> u64
        ensures { result ≡ length self.now.members }
    {
        self.members.len() as u64
    }

    /// The member at a place: the current one at place 0, then the others in the order of their
    /// last acceptances. None exactly past the end.
    pub fn member(&self, place: u64) -> Option<&Member>
        ensures value { option_copied result ≡ slice_get (current_first self.now) place }
        ensures none { IsNone result ↔ (length self.now.members ≤ place) }
    {
        if place == 0 {
            return Some(self.current());
        }
        if place <= self.place as u64 {
            return member_at(self.members(), place - 1);
        }
        if place < self.length() {
            return member_at(self.members(), place);
        }
        None
    }

    // The members in the order of their last acceptances.
    pub(crate) fn members(&self) -> &[Member]
        ensures { result.now ≡ self.now.members }
    {
        self.members.as_slice()
    }

    // The place of the current member.
    pub(crate) fn place(&self) -> usize
        ensures value { result ≡ self.now.place }
        ensures there { result < length self.now.members }
    {
        self.place
    }

    pub fn copy(&self) -> Result<DocSet, Memory>
        ensures { IfOk result (λ s. s ≡ self.now) }
    {
        let mut members = Vec::with_capacity(*self.members.allocator(), self.members.len())?;
        push_copies(&mut members, self.members.as_slice())?;
        Ok(DocSet {
            members,
            place: self.place,
        })
    }
}

fn member_at(members: &[Member], place: u64) -> Option<&Member>
    requires { place < length members.now }
    ensures { option_copied result ≡ slice_get members.now place }
{
    members.get(place as usize)
}

// Adds copies of the members at the end. At an error some of them may have been added.
fn push_copies(into: &mut Vec<Member>, members: &[Member]) -> Result<(), Memory>
    ensures { OnOk result (into.new.items ≡ into.old.items ++ members.now) }
{
    for member in members {
        into.push(member.copy()?)?;
    }
    Ok(())
}
