//! Tests of the rows of endpoints by slices, and of slices by the marks that their rows read.
//!
//! Depends on endpoint_rows and slice_marks, and on row_file for the rows in data/. A row begins
//! with the word `slices` or `marks`. Each line of its input goes on where the line before it
//! ended, also that of the row above it, and has a line of output.
#![tactic(auto)]

mod marks;
mod names;
mod slices;

use crate::marks::push_pods;
use crate::slices::push_slices;
use endpoint_rows::rows::EndpointRows;
use row_file::{Row, Trial, TrialFault, run};
use slice_marks::slices::SliceMarks;
use std::alloc::Global;
use std::process::ExitCode;

#[derive(Drop)]
struct SliceTrial {
    kept: EndpointRows,
    read: SliceMarks,
}

impl Trial for SliceTrial {
    fn run(&mut self, alloc: Global, row: &Row, out: &mut String) -> Result<(), TrialFault> {
        for line in row.input.as_str().lines() {
            match row.words.as_str() {
                "slices" => push_slices(alloc, &mut self.kept, line, out)?,
                "marks" => push_pods(alloc, &mut self.read, line, out)?,
                _ => return Err(TrialFault::new("no call has this word")),
            }
        }
        Ok(())
    }
}

fn main(rt: HostRuntime) -> ExitCode {
    let mut slices = SliceTrial {
        kept: EndpointRows::new(rt.alloc(), true),
        read: SliceMarks::new(rt.alloc()),
    };
    run(&rt, &mut slices)
}
