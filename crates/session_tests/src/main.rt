//! Tests of a link's session, as rows of the files in `data`: the result of each call, once with
//! enough memory.
//!
//! Depends on session_core, and on row_file for the rows. The first word of a row names the call.
#![tactic(auto)]

mod outboxes;
mod pieces;

use row_file::{Row, Trial, TrialFault};
use std::alloc::Global;
use std::process::ExitCode;

#[derive(Drop)]
struct Calls;

impl Trial for Calls {
    fn run(&mut self, alloc: Global, row: &Row, out: &mut String) -> Result<(), TrialFault> {
        match row.words.as_str() {
            "pieces" => pieces::pieces(alloc, row.input.as_str(), out),
            "outbox" => outboxes::outbox(alloc, out),
            _ => Err(TrialFault::new("no call has this name")),
        }
    }
}

fn main(rt: HostRuntime) -> ExitCode {
    row_file::run(&rt, &mut Calls)
}
