//! `init`: makes a store.
ghost use Rattle.std.specs.Prelude.{◌≡◌, ◌≤◌, IfOk, Ok};
ghost use Rattle.cli_words.specs.declared.command.Command.TheVariants as command;
ghost use Rattle.outside.specs.Known.{outside_known};
ghost use Rattle.store_commands.specs.Carries.{Carried};
ghost use Rattle.store_commands.specs.inner.Carries.{CarriesMaking, TellsMade};
ghost use Rattle.store_commands.specs.Answer.{built};
ghost use Rattle.store_commands.specs.Deeds.{uid_made};
ghost use Rattle.u1_base.specs.declared.limits.TheConstants.{GREATEST_IMAGE_LIMIT};
ghost use Rattle.u1_base.specs.declared.limits.TheConstants.{LEAST_IMAGE_LIMIT};

use crate::{Ended, Store};
use command_lines::{Outcome, print_init};
use disks::MakeFault;
use link::{Sink, Source};
use outside::Outside;
use std::alloc::Global;
use sync_link::{Acceptor, Link};
use u1_base::limits::GREATEST_IMAGE_LIMIT;
use u1_base::{DbName, IdKind, Memory, ReplicaUid};

/// Makes the store of the database, for the replica of the given uid, or of one that is made of
/// the seed.
pub fn init<T: Store, S: Source, K: Sink, L: Link, A: Acceptor>(
    alloc: Global,
    seed: u128,
    name: &DbName,
    uid: &Option<ReplicaUid>,
    limit: Option<u64>,
    store: T,
    outside: &mut Outside<S, K, L, A>,
) -> (Ended, T)
    requires { built (command.Init name.now uid.now limit) ≡ Ok tt }
    ensures { Carried (command.Init name.now uid.now limit) seed
        (record {
          store = T.known store;
          image = T.image store;
          outside = outside_known S.known K.known L.known A.known
              A.Conn.Source.known A.Conn.Sink.known outside.old;
        })
        (record {
          store = T.known result.1;
          image = T.image result.1;
          outside = outside_known S.known K.known L.known A.known
              A.Conn.Source.known A.Conn.Sink.known outside.new;
        })
        result.0 }
{
    match uid_for(alloc, seed, uid) {
        Ok(uid) => make(
            alloc,
            name,
            &uid,
            limit.unwrap_or(GREATEST_IMAGE_LIMIT),
            store,
            &mut outside.out,
        ),
        Err(Memory) => (Err(Outcome::Memory), store),
    }
}

fn uid_for(alloc: Global, seed: u128, uid: &Option<ReplicaUid>) -> Result<ReplicaUid, Memory>
    ensures { IfOk result (λ made. made ≡ uid_made seed uid.now) }
{
    match uid {
        Some(uid) => uid.copy(),
        None => ReplicaUid::made(alloc, seed, IdKind::Replica, 0),
    }
}

fn make<T: Store, K: Sink>(
    alloc: Global,
    name: &DbName,
    uid: &ReplicaUid,
    limit: u64,
    store: T,
    out: &mut K,
) -> (Ended, T)
    requires least { LEAST_IMAGE_LIMIT ≤ limit }
    requires greatest { limit ≤ GREATEST_IMAGE_LIMIT }
    ensures { CarriesMaking name.now uid.now limit (T.known store) (T.known result.1)
        (K.known out.old) (K.known out.new) result.0 }
{
    let (made, store) = store.make(alloc, name, uid, limit);
    (print_made(made, name, uid, out), store)
}

// Prints that the store was made, or says why it was not.
fn print_made<K: Sink>(
    made: Result<(), MakeFault>,
    name: &DbName,
    uid: &ReplicaUid,
    out: &mut K,
) -> Ended
    ensures { TellsMade name.now uid.now made (K.known out.old) (K.known out.new) result }
{
    made?;
    Ok(print_init(out, name, uid)?)
}
