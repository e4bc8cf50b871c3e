//! Tests of `top`, over inputs and outputs in memory: the rows of the files in data/.
//!
//! Depends on row_file, which reads the rows and compares, and on command_run. The words of a row
//! are a command line, with settings of the run before it, as `objects=2 message=4 | replay`. Its
//! input is the input of the command. Its output is what the command writes, and then:
//!
//! - `status NAME`, unless the status is `Done`;
//! - for a server its configuration, a line for each member.
//!
//! The settings:
//!
//! - `line=N`, `objects=N`, `subs=N`, `addrs=N`, `message=N`, `input=N`, `links=N`: a limit;
//! - `fail-read=N`, `fail-write=N`: the read or the write with this number fails;
//! - `fail-each=N`: a run without faults, and then one for each of the first N reads and N writes,
//!   which fails. Each has to end with the status of its fault and a beginning of the output;
//! - `machine=verdict`, `machine=frames`: a machine that returns replies from a list, for `top`;
//! - `reads`, `writes`: also writes how many there were;
//! - `each`: a run for each line before the last empty line of the input, alone or with the lines
//!   after the empty line;
//! - `crlf`: a second run, whose lines end with a carriage return and a line feed;
//! - `pad=N`: the first line is filled with spaces to N bytes;
//! - `no-end`: the last line has no line feed;
//! - `escapes`: in the input `\r`, `\t` and `\s` stand for a carriage return, a tab and a space;
//! - `endpoints`: a line `slice NET COUNT` stands for a slice of so many endpoints, the first of
//!   which is 10.NET.0.0, and the endpoints of a frame are written as the first and the last one.
//!
//! If all runs of a row have the same output, it is written once.
//!
//! Words that are no command line of the program: `each-command` makes a run for each line before
//! the last empty line of the input, which is its command line, over the lines after it. `argument`
//! reads a command line of one argument, which the input has in hexadecimal. `no-arguments KIND` is
//! the status for arguments that cannot be read.
#![tactic(auto)]

ghost use Rattle.std.specs.Prelude.{◌≤◌};

mod arguments;
mod endpoints;
mod scripts;
mod settings;
mod single;
mod texts;

use crate::arguments::{push_argument, push_unread};
use crate::settings::{Settings, settings_of};
use crate::single::{push_front_runs, push_run};
use crate::texts::{crlf, input_of};
use row_file::{Row, Trial, TrialFault, run};
use std::alloc::Global;
use std::process::ExitCode;

// Gathers outputs of runs, and keeps those that differ from the first.
#[derive(Drop)]
struct Outputs {
    alloc: Global,
    first: Option<String>,
}

impl Outputs {
    fn push(&mut self, out: &mut String, output: String) -> Result<(), TrialFault> {
        match &self.first {
            None => {
                out.push_str(output.as_str())?;
                self.first = Some(output);
            }
            Some(first) => {
                if first.as_str() != output.as_str() {
                    write!(out, "another output:\n{output}")?;
                }
            }
        }
        Ok(())
    }
}

// Makes the runs of a command line over an input.
fn push_runs(
    outputs: &mut Outputs,
    settings: &Settings,
    command: &str,
    input: &str,
    out: &mut String,
) -> Result<(), TrialFault>
    requires { 1 ≤ settings.now.limits.frame_addrs }
{
    let alloc = outputs.alloc;
    let mut output = String::new(alloc);
    if command == "argument" {
        push_argument(alloc, input.trim_end(), &mut output)?;
    } else {
        push_run(alloc, settings, command, input, &mut output)?;
    }
    outputs.push(out, output)?;
    if settings.crlf {
        let mut output = String::new(alloc);
        push_run(
            alloc,
            settings,
            command,
            crlf(alloc, input)?.as_str(),
            &mut output,
        )?;
        outputs.push(out, output)?;
    }
    Ok(())
}

// Makes a run for each line before the last empty line.
fn push_each(
    outputs: &mut Outputs,
    settings: &Settings,
    command: &str,
    input: &str,
    out: &mut String,
) -> Result<(), TrialFault>
    requires { 1 ≤ settings.now.limits.frame_addrs }
{
    let whole = input.strip_suffix('\n').unwrap_or(input);
    let (lines, rest) = whole.rsplit_once("\n\n").unwrap_or((whole, ""));
    for line in lines.split('\n') {
        if command == "each-command" {
            push_runs(outputs, settings, line, rest, out)?;
        } else {
            let one = format!(in outputs.alloc; "{line}\n{rest}")?;
            push_runs(outputs, settings, command, one.as_str(), out)?;
        }
    }
    Ok(())
}

// The rows of the program.
#[derive(Drop)]
struct Program;

impl Trial for Program {
    fn run(&mut self, alloc: Global, row: &Row, out: &mut String) -> Result<(), TrialFault> {
        let words = row.words.as_str();
        let (names, command) = words.split_once(" | ").unwrap_or(("", words));
        let settings = settings_of(names)?;
        if let Some(kind) = command.strip_prefix("no-arguments ") {
            return push_unread(kind, out);
        }
        let input = input_of(alloc, &settings, row.input.as_str())?;
        let mut outputs = Outputs { alloc, first: None };
        if settings.fail_each > 0 {
            return push_front_runs(alloc, &settings, command, input.as_str(), out);
        }
        if settings.each || command == "each-command" {
            return push_each(&mut outputs, &settings, command, input.as_str(), out);
        }
        push_runs(&mut outputs, &settings, command, input.as_str(), out)
    }
}

fn main(rt: HostRuntime) -> ExitCode {
    run(&rt, &mut Program)
}
