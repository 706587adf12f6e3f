//! A link in memory: its replies are given beforehand, and it fails where a test wants it.
ghost use Rattle.std.specs.Prelude.{◌≡◌, ◌≢◌, ◌⊎◌, ◌↔◌, ◌≤◌, ◌<◌, [], ◌∷◌, min, length, take};
ghost use Rattle.std.specs.Prelude.{None, Some, IsSomeAnd, Err, IfOk, OnOk, OnErr, Contains};
ghost use Rattle.std.specs.Prelude.{option_copied, slice_get};
ghost use Rattle.u1_base.specs.Causes.{HasCauseOf, Rose};
ghost use Rattle.link.specs.Memory.{one_more};
ghost use Rattle.sync_link.specs.Doing.{GivesFront};
ghost use Rattle.sync_link.specs.Links.{Begins, Finishes, Gives, PeerServes, Sends};
ghost use Rattle.sync_link.specs.Links.{and_given, asks};
ghost use Rattle.sync_link.specs.Memory.{Counts, link_known};
ghost use Rattle.sync_link.specs.Serving.{ServesAsDefined, StopsAsDefined};
ghost use Rattle.sync_stream.specs.Serving.{AnyStop};

use crate::doing::Doing;
use crate::rest::Rest;
use crate::{AskFault, Carried, Link, MemAsk, Phase};
use std::alloc::Global;
use std::marker::Model;
use std::vec::IntoIter;
use sync_http::Address;
use u1_base::{Bytes, Items, Numbers};

/// The replies to the asks of a `MemLink`, in order.
pub type Replies = Items<Bytes>;

/// A link whose replies are given beforehand. It keeps the asks that it carried, and tells no peer.
///
/// Asks are numbered from 0 as they are begun, those included that failed later.
#[derive(Drop)]
pub struct MemLink {
    carried: Carried,
    doing: Doing,
    replies: IntoIter<Bytes>,
    piece: u64,
    failing: Numbers,
    faults: u64,
}

impl Model for MemLink {
    ghost use Rattle.std.specs.Prelude.{◌≤◌};
    ghost use Rattle.std.specs.Vec.Iter.{into_iter_items};
    ghost use Rattle.sync_link.specs.Doing.{coming_of, phase_of};
    ghost use Rattle.sync_link.specs.Memory.{Script};

    ghost Value = { Script };

    ghost view = { λ l. record {
      earlier = l.carried.earlier;
      ask = l.carried.last;
      phase = phase_of l.doing;
      coming = coming_of l.doing;
      replies = into_iter_items l.replies;
      piece = l.piece;
      failing = l.failing;
      faults = l.faults;
    } };

    ghost invariant = { λ l. 1 ≤ l.piece };
}

impl MemLink {
    /// A link that has carried no ask. `receive` gives at most `piece` bytes a call. The next reply
    /// of the list is taken by `finish`, which fails where none is left, and at an ask whose number
    /// stands in `failing`; it takes no reply then.
    pub fn new(replies: Replies, piece: u64, failing: Numbers) -> MemLink
        requires { 1 ≤ piece }
        ensures { result ≡ record {
          earlier = [];
          ask = None;
          phase = Phase.Idle;
          coming = None;
          replies = replies;
          piece = piece;
          failing = failing;
          faults = 0;
        } }
    {
        let replies = replies.into_vec();
        MemLink {
            carried: Carried::new(*replies.allocator()),
            doing: Doing::Idle,
            replies: replies.into_iter(),
            piece,
            failing,
            faults: 0,
        }
    }

    /// The ask of this number, if so many were begun.
    pub fn asked(&self, number: u64) -> Option<&MemAsk>
        ensures { option_copied result ≡ slice_get (asks (link_known self.now)) number }
    {
        self.carried.asked(number)
    }

    // Counts a fault, and gives the ask up.
    fn fail(&mut self)
        ensures idle { self.new ≡ record self.old {
          phase = Phase.Idle;
          coming = None;
          faults = one_more self.old.faults;
        } }
        ensures rose { Rose self.old.faults self.new.faults }
    {
        self.doing = Doing::Idle;
        self.faults = self.faults.saturating_add(1);
    }
}

impl Link for MemLink {
    ghost use Rattle.sync_link.specs.Memory.{link_known};
    ghost use Rattle.sync_link.specs.Serving.{ServesAsDefined, StopsAsDefined};
    ghost use Rattle.sync_stream.specs.Serving.{AnyStop};

    ghost known = { link_known };

    ghost serves = { ServesAsDefined AnyStop };

    ghost stops = { StopsAsDefined };

    fn begin(&mut self, to: &Address) -> Result<(), AskFault>
        ensures begins { Begins to.now (link_known self.old) (link_known self.new) result }
        ensures cause { HasCauseOf AskFault.Failed self.old.faults self.new.faults result }
        ensures never { result ≢ Err AskFault.Failed }
        ensures counts { Counts self.old self.new result }
        ensures replies { self.new.replies ≡ self.old.replies }
    {
        self.doing = Doing::Idle;
        self.carried.begin(to)?;
        self.doing = Doing::Sending;
        Ok(())
    }

    fn send(&mut self, piece: &[u8]) -> Result<(), AskFault>
        requires { self.old.phase ≡ Phase.Sending }
        ensures sends { Sends piece.now (link_known self.old) (link_known self.new) result }
        ensures none { OnErr result (self.new.ask ≡ self.old.ask) }
        ensures cause { HasCauseOf AskFault.Failed self.old.faults self.new.faults result }
        ensures never { result ≢ Err AskFault.Failed }
        ensures counts { Counts self.old self.new result }
        ensures replies { self.new.replies ≡ self.old.replies }
    {
        if self.carried.send(piece).is_err() {
            self.doing = Doing::Idle;
            return Err(AskFault::Memory);
        }
        Ok(())
    }

    fn finish(&mut self) -> Result<(), AskFault>
        requires { self.old.phase ≡ Phase.Sending }
        ensures finishes { Finishes (link_known self.old) (link_known self.new) result }
        ensures peer { PeerServes (ServesAsDefined AnyStop) StopsAsDefined
            (link_known self.old) (link_known self.new) result }
        ensures cause { HasCauseOf AskFault.Failed self.old.faults self.new.faults result }
        ensures fails { result ≡ Err AskFault.Failed
            ↔ (Contains self.old.failing (length self.old.earlier)) ⊎ (self.old.replies ≡ []) }
        ensures never { result ≢ Err AskFault.Memory }
        ensures counts { Counts self.old self.new result }
        ensures takes { OnOk result (IsSomeAnd self.new.coming
            (λ reply. self.old.replies ≡ reply ∷ self.new.replies)) }
        ensures keeps { OnErr result (self.new.replies ≡ self.old.replies) }
    {
        let number = self.carried.before_last();
        if self.failing.as_slice().contains(&number) {
            self.fail();
            return Err(AskFault::Failed);
        }
        match self.replies.next() {
            Some(reply) => {
                self.doing = Doing::Receiving(Rest::new(reply));
                Ok(())
            }
            None => {
                self.fail();
                Err(AskFault::Failed)
            }
        }
    }

    fn receive(&mut self, into: &mut [u8]) -> Result<usize, AskFault>
        requires phase { self.old.phase ≡ Phase.Receiving }
        requires room { 0 < length into.old }
        ensures gives { Gives (link_known self.old) (link_known self.new) into.old into.new result }
        ensures cause { HasCauseOf AskFault.Failed self.old.faults self.new.faults result }
        ensures fails { result ≡ Err AskFault.Failed ↔ (self.old.coming ≡ Some []) }
        ensures amount { IfOk result (λ n. IsSomeAnd self.old.coming
            (λ reply. n ≡ min (length reply) (min self.old.piece (length into.old)))) }
        ensures counts { Counts self.old self.new result }
        ensures replies { self.new.replies ≡ self.old.replies }
    {
        let most = (self.piece as usize).min(into.len());
        let Doing::Receiving(rest) = &mut self.doing else {
            unreachable!()
        };
        match give(rest, &mut self.carried, into, most) {
            Ok(count) => Ok(count),
            Err(AskFault::Failed) => {
                self.fail();
                Err(AskFault::Failed)
            }
            Err(AskFault::Memory) => {
                self.doing = Doing::Idle;
                Err(AskFault::Memory)
            }
        }
    }
}

// Gives the next bytes of the reply, as many as there are, but at most so many. It fails where
// there is none.
fn give(
    rest: &mut Rest,
    carried: &mut Carried,
    into: &mut [u8],
    most: usize,
) -> Result<usize, AskFault>
    requires room { (1 ≤ most) × (most ≤ length into.old) }
    ensures gives { IfOk result (GivesFront most rest.old rest.new into.old into.new) }
    ensures carried { IfOk result (λ n. carried.new
        ≡ record carried.old { last = and_given (take n rest.old) carried.old.last }) }
    ensures err { OnErr result ((rest.new ≡ rest.old) × (carried.new ≡ carried.old)) }
    ensures ended { result ≡ Err AskFault.Failed ↔ (rest.old ≡ []) }
{
    let left = rest.as_slice();
    if left.is_empty() {
        return Err(AskFault::Failed);
    }
    let count = left.len().min(most);
    let piece = &left[..count];
    if carried.give(piece).is_err() {
        return Err(AskFault::Memory);
    }
    into[..count].copy_from_slice(piece);
    rest.pass(count);
    Ok(count)
}
