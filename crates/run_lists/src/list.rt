//! A list of runs.
ghost use Rattle.std.specs.Prelude.{◌≡◌, ◌+◌, ◌<◌, ◌≤◌, ◌++◌, ◌∷◌, [], IfOk, OnErr, map};
ghost use Rattle.std.specs.Prelude.{vec_capacity, vec_len};
ghost use Rattle.outside.specs.Known.{outside_known};
ghost use Rattle.run_lists.specs.Lists.{RunInTurn, RunsOnce, asked, between};
ghost use Rattle.run_lists.specs.Promise.{HaveRun};

use command_lines::Outcome;
use conflicts::{law_members, law_state};
use disk_model::Disk;
use disks::Disks;
use link::{Sink, Source};
use outside::Outside;
use replica_cli::run;
use replica_reads::law_answers;
use std::alloc::Global;
use sync_link::{Acceptor, Link};
use u1_base::{Memory, Texts};

/// A run that is asked for.
#[derive(Drop)]
pub struct Request<S: Source + Drop> {
    /// All words after the program's name.
    pub words: Texts,
    /// What ids are made of. Each run has another one.
    pub seed: u128,
    /// What the run may read.
    pub input: S,
}

/// Makes each run in turn, whatever its outcome, and answers the outcomes in their order.
///
/// The input of each request takes the place of the one that stands outside, and the last one is
/// left there. Where memory runs out for the answer nothing is run.
pub fn run_all<D: Disk, S: Source + Drop, K: Sink, L: Link, A: Acceptor>(
    alloc: Global,
    requests: Vec<Request<S>>,
    disks: Disks<D>,
    outside: &mut Outside<S, K, L, A>,
) -> (Result<Vec<Outcome>, Memory>, Disks<D>)
    ensures memory { OnErr result.0 ((result.1 ≡ disks) × (outside.new ≡ outside.old)) }
    ensures runs { IfOk result.0 (λ outcomes.
        HaveRun D.tells (map (asked S.known) requests.items)
        (between D.known disks (outside_known S.known K.known L.known A.known
        A.Conn.Source.known A.Conn.Sink.known outside.old))
        (between D.known result.1 (outside_known S.known K.known L.known A.known
        A.Conn.Source.known A.Conn.Sink.known outside.new))
        outcomes.items) }
{
    law_state();
    law_members();
    law_answers();
    run_each(alloc, requests, disks, outside)
}

fn run_each<D: Disk, S: Source + Drop, K: Sink, L: Link, A: Acceptor>(
    alloc: Global,
    requests: Vec<Request<S>>,
    disks: Disks<D>,
    outside: &mut Outside<S, K, L, A>,
) -> (Result<Vec<Outcome>, Memory>, Disks<D>)
    ensures memory { OnErr result.0 ((result.1 ≡ disks) × (outside.new ≡ outside.old)) }
    ensures runs { IfOk result.0 (λ outcomes.
        RunInTurn D.tells (map (asked S.known) requests.items)
        (between D.known disks (outside_known S.known K.known L.known A.known
        A.Conn.Source.known A.Conn.Sink.known outside.old))
        (between D.known result.1 (outside_known S.known K.known L.known A.known
        A.Conn.Source.known A.Conn.Sink.known outside.new))
        outcomes.items) }
{
    let mut disks = disks;
    let mut outcomes = match Vec::with_capacity(alloc, requests.len()) {
        Ok(outcomes) => outcomes,
        Err(fault) => return (Err(Memory::from(fault)), disks),
    };
    for request in requests {
        let (outcome, back) = run_one(alloc, request, disks, outside);
        disks = back;
        push_outcome(&mut outcomes, outcome);
    }
    (Ok(outcomes), disks)
}

// Makes one run, over its own input.
fn run_one<D: Disk, S: Source + Drop, K: Sink, L: Link, A: Acceptor>(
    alloc: Global,
    request: Request<S>,
    disks: Disks<D>,
    outside: &mut Outside<S, K, L, A>,
) -> (Outcome, Disks<D>)
    ensures { RunsOnce D.tells (asked S.known request)
        (between D.known disks (outside_known S.known K.known L.known A.known
        A.Conn.Source.known A.Conn.Sink.known outside.old))
        (between D.known result.1 (outside_known S.known K.known L.known A.known
        A.Conn.Source.known A.Conn.Sink.known outside.new))
        result.0 }
{
    let Request { words, seed, input } = request;
    outside.input = input;
    run(alloc, words.as_slice(), seed, disks, outside)
}

// There is room for it.
fn push_outcome(outcomes: &mut Vec<Outcome>, outcome: Outcome)
    requires { vec_len outcomes.old < vec_capacity outcomes.old }
    ensures items { outcomes.new.items ≡ outcomes.old.items ++ outcome ∷ [] }
    ensures count { vec_len outcomes.new ≡ vec_len outcomes.old + 1 }
    ensures room { vec_capacity outcomes.old ≤ vec_capacity outcomes.new }
{
    outcomes.push(outcome).unwrap();
}
