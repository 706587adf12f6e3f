//! Several runs over one store, one after the other.
use crate::runs::{Around, around, bytes_of, files_on, push_printed};
use crate::store::Store;
use command_lines::{Outcome, outcome_status};
use crash_harness::{NO_FAILING, disks_of};
use disk_model::MemDisk;
use disks::Disks;
use link::{MemSink, MemSource};
use rows::Said;
use run_lists::{Request, run_all};
use std::alloc::Global;
use u1_base::{Bytes, Memory, Numbers, Text, Texts};

type Requests = Vec<Request<MemSource>>;

/// Makes the runs of the words `! NAME runs WORDS ; WORDS`, each of which has this input: what all
/// of them print, and the status of each.
pub fn runs(
    store: &mut Store,
    words: &[Text],
    input: &[u8],
    said: &mut Said,
) -> Result<(), Memory> {
    let alloc = said.alloc();
    let requests = requests_of(alloc, words.get(2..).unwrap_or(&[]), input)?;
    let unread = MemSource::new(Bytes::new(alloc), Numbers::new(alloc));
    let mut outside = around(alloc, unread, MemSink::new(alloc, Numbers::new(alloc)));
    let disks = disks_of(alloc, &store.files(), &NO_FAILING)?;
    let (outcomes, disks) = run(alloc, requests, disks, &mut outside);
    store.put_files(alloc, files_on(&disks))?;
    push_printed(said, outside.out.bytes())?;
    push_statuses(outcomes?.as_slice(), said)
}

// In a function of its own: what the contract says would make the proofs of its callers long.
fn run(
    alloc: Global,
    requests: Requests,
    disks: Disks<MemDisk>,
    outside: &mut Around,
) -> (Result<Vec<Outcome>, Memory>, Disks<MemDisk>) {
    run_all(alloc, requests, disks, outside)
}

// The words of each run begin with one that stands for the store's folder.
fn requests_of(alloc: Global, words: &[Text], input: &[u8]) -> Result<Requests, Memory> {
    let mut requests = Vec::new(alloc);
    let mut texts = Texts::new(alloc);
    for word in words {
        if word.as_str() == ";" {
            push_request(&mut requests, texts, input)?;
            texts = Texts::new(alloc);
        }
        texts.push(word.duplicate()?)?;
    }
    push_request(&mut requests, texts, input)?;
    Ok(requests)
}

fn push_request(requests: &mut Requests, words: Texts, input: &[u8]) -> Result<(), Memory> {
    let alloc = *requests.allocator();
    let input = MemSource::new(bytes_of(alloc, input)?, Numbers::new(alloc));
    requests.push(Request {
        words,
        seed: 0,
        input,
    })?;
    Ok(())
}

fn push_statuses(outcomes: &[Outcome], said: &mut Said) -> Result<(), Memory> {
    for outcome in outcomes {
        said.number(u64::from(outcome_status(outcome)))?;
    }
    said.end()
}
