//! Tests of the text on standard error: for command lines that are refused, for failures, for the
//! input, for a server and its links, and on a terminal. They are the rows of the files in data/.
//!
//! Depends on row_file, which reads the rows and compares, on run_report and link_report, and on
//! mem_links for links in memory. In the rows `\n`, `\r`, `\t`, `\\` and `\xHH` stand for a line
//! feed, a carriage return, a tab, a backslash and a byte. The words of a row are:
//!
//! - `report | WORDS`: the report of a run of this command line. The input is lines `input TEXT`,
//!   of what was read, `times N TEXT`, the same N times, and `output TEXT`, of what was written.
//!   All of it is read and written in pieces of 1 to 9 bytes. Settings before the bar:
//!   `status=NAME`, `held=KIND,KIND`, and `terminal`, which also writes what a terminal is told
//!   besides.
//! - `cause STATUS CODE`: the report of a failure with an error of the system, or without `CODE`.
//! - `held`: the counts of objects of the kinds in the input.
//! - `server NOTE ADDRESS CODE`: what is told of a server.
//! - `wrong-words`: the input is words that the command refuses. Each line of the expected output
//!   is `WORDS => FAULT`.
//! - `usage WORDS`, `not-utf8`: the usage for words, or for words that are not UTF-8.
//! - `usage-text`: the lines of the usage with more than 80 bytes, and the names in the input that
//!   it does not contain.
//! - `links`: the input is what happens on links. Each line of the expected output is `CALL =>
//!   COUNTS`, a call and what is counted after it.
//! - `link-screen CALLS`: what a terminal shows of the same.
//! - `progress N`, `source-progress N`, `screen`: what a terminal shows while N parts or bytes are
//!   read, or the pieces of the input are written. The text between two carriage returns is in
//!   brackets.
//! - `last-errors`: the last error of a reader and of a writer that fail.
#![tactic(auto)]

mod links;
mod run_reports;
mod screens;
mod servers;
mod tally;
mod texts;
mod usage;

use crate::links::{push_link_counts, push_link_screen};
use crate::run_reports::{push_cause, push_held, push_report};
use crate::screens::{push_last_errors, push_progress, push_screen, push_source_progress};
use crate::servers::push_server;
use crate::usage::{push_not_utf8, push_usage, push_usage_text, push_wrong_words};
use row_file::{Row, Trial, TrialFault, run};
use std::alloc::Global;
use std::process::ExitCode;

// The rows of the reports.
#[derive(Drop)]
struct ReportRows;

impl Trial for ReportRows {
    fn run(&mut self, alloc: Global, row: &Row, out: &mut String) -> Result<(), TrialFault> {
        let input = row.input.as_str();
        let table = row.expected.as_str();
        let (call, words) = row.call();
        match call {
            "report" => push_report(alloc, words, input, out),
            "cause" => push_cause(alloc, words, out),
            "held" => push_held(alloc, input, out),
            "server" => push_server(words, out),
            "wrong-words" => push_wrong_words(alloc, input, table, out),
            "usage" => push_usage(alloc, words, out),
            "not-utf8" => push_not_utf8(alloc, out),
            "usage-text" => push_usage_text(alloc, input, out),
            "links" => push_link_counts(alloc, input, table, out),
            "link-screen" => push_link_screen(alloc, input, words, out),
            "progress" => push_progress(alloc, words, out),
            "source-progress" => push_source_progress(alloc, words, out),
            "screen" => push_screen(alloc, input, out),
            "last-errors" => push_last_errors(out),
            _ => Err(TrialFault::new("no call has this name")),
        }
    }
}

fn main(rt: HostRuntime) -> ExitCode {
    run(&rt, &mut ReportRows)
}
