//! Tests of a server over links in memory: what is written on each link, in which order the links
//! are called, and which are closed, also if a call fails.
//!
//! Depends on serve_core and mem_links, and on row_file for the rows in data/. A row begins with
//! - `parts`: the input is parts by their names, of which the scripts of the rows below are made;
//! - `written` or `order N`, and maybe limits, as `links=1`: the input is a script. The output is
//!   what is written, or the calls of N turns;
//! - `each STEP spares=LINK`, or `each failpoll`: the script is played with the step inserted at
//!   each place. The output is at how many places it has no effect on the link, or ends the turn.
#![tactic(auto)]

mod faults;
mod parts;
mod scripts;
mod told;

use crate::faults::push_each;
use crate::parts::Parts;
use crate::scripts::{limits, number, play};
use crate::told::{push_calls, push_outcome};
use row_file::{Row, Trial, TrialFault, run};
use serve_core::server::{ServeFault, Turn};
use std::alloc::Global;
use std::process::ExitCode;

#[derive(Drop)]
struct Serving {
    parts: Parts,
}

impl Trial for Serving {
    fn run(&mut self, alloc: Global, row: &Row, out: &mut String) -> Result<(), TrialFault> {
        match row.call() {
            ("parts", _) => {
                self.parts = Parts::new(alloc, row.input.as_str())?;
                Ok(writeln!(out, "{} parts", row.input.as_str().lines().count())?)
            }
            ("written", _) => push_written(alloc, &self.parts, row, out),
            ("order", options) => push_order(&self.parts, row, options, out),
            ("each", options) => push_each(&self.parts, row, options, out),
            _ => Err(TrialFault::new("no call has this word")),
        }
    }
}

// Plays a script, and writes what is written on each link, which links are closed, and how the last
// turn ended.
fn push_written(
    alloc: Global,
    parts: &Parts,
    row: &Row,
    out: &mut String,
) -> Result<(), TrialFault> {
    let played = play(parts, &limits(row)?, row.input.as_str(), 100)?;
    push_outcome(alloc, played.links.trace(), out)?;
    push_last(&played.last, out)
}

fn push_last(last: &Result<Turn, ServeFault>, out: &mut String) -> Result<(), TrialFault> {
    match last {
        Ok(turn) => writeln!(out, "{turn:?}")?,
        Err(fault) => writeln!(out, "{fault:?}")?,
    }
    Ok(())
}

// Plays a script for the number of turns that the options begin with, and writes the calls.
fn push_order(parts: &Parts, row: &Row, options: &str, out: &mut String) -> Result<(), TrialFault> {
    let turns = match options.split_once(' ') {
        Some((turns, _)) => number(turns)?,
        None => number(options)?,
    };
    let played = play(parts, &limits(row)?, row.input.as_str(), turns)?;
    push_calls(played.links.trace(), out)
}

fn main(rt: HostRuntime) -> ExitCode {
    match Parts::new(rt.alloc(), "") {
        Ok(parts) => run(&rt, &mut Serving { parts }),
        Err(_) => ExitCode::FAILURE,
    }
}
