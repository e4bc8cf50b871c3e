//! Tests of links that play a script: the events of each step, and the results of each call.
//!
//! Depends on mem_links, and on row_file for the rows in data/. A row begins with the words
//! - `play`, or `sure` for links without failures. The input is a script and the calls. The output
//!   is what the trace tells of the calls; a close of a link that is not open is not in it. What
//!   the calls return is the same without the closes, and otherwise comes on a second line.
//! - `polls N`, or `polls N wait`. The input is a script. The output is the number of failed polls
//!   before and after each of N polls, with the number of its events, and then the number of steps.
#![tactic(auto)]

mod calls;
mod scripts;
mod trial;

use crate::trial::Scripts;
use row_file::run;
use std::process::ExitCode;

fn main(rt: HostRuntime) -> ExitCode {
    run(&rt, &mut Scripts)
}
