//! Tests of what a subscriber of endpoints is sent after rows have changed.
//!
//! Depends on pending_rows and endpoint_groups, on view_fold for views with their rows in order,
//! and on row_file for the rows in data/. A row begins with `rows exists` or `rows absent`, which
//! is what a subscriber was told of the Service, or with `groups`. The lines of its input are
//! steps.
#![tactic(auto)]

mod groups;
mod rows;
mod views;
mod words;

use crate::groups::push_groups;
use crate::rows::push_rows;
use row_file::{Row, Trial, TrialFault, run};
use std::alloc::Global;
use std::process::ExitCode;

#[derive(Drop)]
struct Pending;

impl Trial for Pending {
    fn run(&mut self, alloc: Global, row: &Row, out: &mut String) -> Result<(), TrialFault> {
        let steps = row.input.as_str();
        match row.words.as_str() {
            "rows exists" => push_rows(alloc, true, steps, out),
            "rows absent" => push_rows(alloc, false, steps, out),
            "groups" => push_groups(alloc, steps, out),
            _ => Err(TrialFault::new("no call has these words")),
        }
    }
}

fn main(rt: HostRuntime) -> ExitCode {
    run(&rt, &mut Pending)
}
