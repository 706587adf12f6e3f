//! Rows of documents, tables and messages: what the calls of their libraries answer.
//!
//! Standard input is a file of rows as the library `rows` reads it. A row that asks is
//! `? LIBRARY CALL WORDS`; the file of each library says which calls there are. A row that means
//! nothing is answered by `no answer`, and so is one whose answer memory does not suffice for.
#![tactic(auto)]

mod bodies;
mod callers;
mod heads;
mod histories;
mod links;
mod meant;
mod messages;
mod still;
mod streams;
mod tables;

use crate::links::Links;
use conflicts::DocSet;
use index_tables::IndexTable;
use record_codec::Uids;
use rows::{Answers, Said, run};
use std::alloc::Global;
use std::process::ExitCode;
use u1_base::Memory;

// What the rows so far have made.
#[derive(Drop)]
struct Documents {
    alloc: Global,
    set: Option<DocSet>,
    table: IndexTable,
    uids: Uids,
    links: Links,
}

impl Documents {
    fn new(alloc: Global) -> Documents {
        Documents {
            alloc,
            set: None,
            table: IndexTable::new(alloc),
            uids: Uids::none(alloc),
            links: Links::new(),
        }
    }

    fn answers(&mut self, row: &str, said: &mut Said) -> Option<()> {
        let (library, row) = row.strip_prefix("? ")?.split_once(' ')?;
        let (call, row) = row.split_once(' ')?;
        let meant = meant::meant(self.alloc, row)?;
        self.answers_meant(library, call, meant.as_slice(), said)
    }

    fn answers_meant(
        &mut self,
        library: &str,
        call: &str,
        meant: &[u8],
        said: &mut Said,
    ) -> Option<()> {
        let alloc = self.alloc;
        match library {
            "head" => heads::answer(alloc, call, meant, said),
            "message" => messages::answer(alloc, call, meant, said),
            "stream" => streams::answer(alloc, call, meant, said),
            _ => self.answers_text(library, call, str::from_utf8(meant).ok()?, said),
        }
    }

    fn answers_text(
        &mut self,
        library: &str,
        call: &str,
        row: &str,
        said: &mut Said,
    ) -> Option<()> {
        let alloc = self.alloc;
        match library {
            "doc" => histories::answer(alloc, &mut self.set, call, row, said),
            "table" => tables::answer(alloc, &mut self.table, call, row, said),
            "body" => bodies::answer(alloc, &mut self.uids, call, row, said),
            "link" => self.links.answer(alloc, call, row, said),
            _ => None,
        }
    }
}

impl Answers for Documents {
    fn answer(&mut self, line: &str, said: &mut Said) -> Result<(), Memory> {
        match self.answers(line, said) {
            Some(()) => Ok(()),
            None => said.line("no answer"),
        }
    }
}

fn main(rt: HostRuntime) -> ExitCode {
    run(&rt, &mut Documents::new(rt.alloc()))
}
