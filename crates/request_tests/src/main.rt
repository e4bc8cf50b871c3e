//! Tests of regular expressions, of the best match and of the encoding of requests, as rows of the
//! files in `data`.
//!
//! Depends on regex_patterns, route_match and request_writing, and on row_file for the rows. The
//! first word of a row names the call.
#![tactic(auto)]

mod matches;
mod patterns;
mod requests;

use row_file::{Row, Trial, TrialFault};
use std::alloc::Global;
use std::process::ExitCode;

#[derive(Drop)]
struct Calls;

impl Trial for Calls {
    fn run(&mut self, alloc: Global, row: &Row, out: &mut String) -> Result<(), TrialFault> {
        let (call, word) = row.call();
        let input = row.input.as_str();
        match call {
            "request" => requests::request(alloc, word, input, out),
            "best" => matches::best(alloc, input, out),
            "patterns" => patterns::patterns(alloc, row, out),
            _ => Err(TrialFault::new("no call has this name")),
        }
    }
}

fn main(rt: HostRuntime) -> ExitCode {
    row_file::run(&rt, &mut Calls)
}
