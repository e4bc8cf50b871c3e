//! Tests of the command line: each option in each form, and each value at its bounds. They are the
//! rows of the files in data/.
//!
//! Depends on row_file, which reads the rows and compares, and on command_words. The expected
//! output of a row is a table. The words of a row are:
//!
//! - `commands`: each line of the table is `WORDS => COMMAND`, a command line and the command that
//!   it gives, with each setting that is not the default, or `usage`. `''` is the empty word.
//! - `options`: each line of the table is `COMMAND | OPTION | VALUE => COMMAND`, an option beside
//!   the words of a command. Each line of the input is a form of the command line: in it, `NAME`
//!   stands for the first word of the command, `REST` for its other words, and `COMMAND`, `OPTION`
//!   and `VALUE` for what the line of the table has. All forms have to give that command.
#![tactic(auto)]

mod shown;

use crate::shown::shown;
use row_file::{Row, Trial, TrialFault, run};
use std::alloc::Global;
use std::process::ExitCode;

// The rows of the command line.
#[derive(Drop)]
struct CommandLines;

// Appends the command of each line of a table of command lines.
fn push_commands(alloc: Global, table: &str, out: &mut String) -> Result<(), TrialFault> {
    for row in table.split_terminator('\n') {
        let (line, _) = row.rsplit_once(" => ").unwrap_or((row, ""));
        let command = shown(alloc, line)?;
        write!(out, "{line} => {command}\n")?;
    }
    Ok(())
}

// Returns the command line of a form: its words are those of the command, and an option with a
// value.
fn line_of(
    alloc: Global,
    form: &str,
    command: &str,
    option: &str,
    value: &str,
) -> Result<String, TrialFault> {
    let (name, rest) = command.split_once(' ').unwrap_or((command, ""));
    let rest = if rest.is_empty() {
        String::new(alloc)
    } else {
        format!(in alloc; " {rest}")?
    };
    let line = form.replace(alloc, " REST", rest.as_str())?;
    let line = line.replace(alloc, "COMMAND", command)?;
    let line = line.replace(alloc, "NAME", name)?;
    let line = line.replace(alloc, "OPTION", option)?;
    Ok(line.replace(alloc, "VALUE", value)?)
}

// Appends the command of an option in each form, once if they are all the same.
fn push_forms(alloc: Global, forms: &str, row: &str, out: &mut String) -> Result<(), TrialFault> {
    let (cells, _) = row.rsplit_once(" => ").unwrap_or((row, ""));
    let Some((command, cell)) = cells.split_once(" | ") else {
        return Err(TrialFault::new("a row has no option"));
    };
    let Some((option, value)) = cell.split_once(" | ") else {
        return Err(TrialFault::new("a row has no value"));
    };
    let mut first = String::new(alloc);
    write!(out, "{cells}")?;
    for form in forms.split_terminator('\n') {
        let line = line_of(alloc, form, command, option, value)?;
        let found = shown(alloc, line.as_str())?;
        if found.as_str() != first.as_str() {
            write!(out, " => {found}")?;
            first = found;
        }
    }
    out.push('\n')?;
    Ok(())
}

impl Trial for CommandLines {
    fn run(&mut self, alloc: Global, row: &Row, out: &mut String) -> Result<(), TrialFault> {
        match row.words.as_str() {
            "commands" => push_commands(alloc, row.expected.as_str(), out),
            "options" => {
                for line in row.expected.as_str().split_terminator('\n') {
                    push_forms(alloc, row.input.as_str(), line, out)?;
                }
                Ok(())
            }
            _ => Err(TrialFault::new("no call has these words")),
        }
    }
}

fn main(rt: HostRuntime) -> ExitCode {
    run(&rt, &mut CommandLines)
}
