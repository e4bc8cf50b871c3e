use crate::faults::TrialFault;
use crate::reader::RowReader;
use crate::rows::Row;
use std::alloc::Global;
use std::env::Env;
use std::process::ExitCode;
use std::rt::Files;
use std::{env, fs, io};

/// The calls of a program of tests.
pub trait Trial {
    /// Makes the call of a row, and writes its output.
    fn run(&mut self, alloc: Global, row: &Row, out: &mut String) -> Result<(), TrialFault>;
}

// Prints a row and what came in place of its expected output.
fn tell<R: Print>(rt: &R, file: &str, row: &Row, came: &str) -> io::Result<()> {
    let Row {
        name,
        words,
        input,
        expected,
        line,
    } = row;
    println!(rt; "{file}:{line}: {name}")?;
    print!(rt; "{words}\n{input}---- expected\n{expected}---- came\n{came}----\n")
}

// Makes the call of a row, and returns whether its output is the expected one.
fn agrees<R: Print + AllocGlobal, T: Trial>(
    rt: &R,
    trial: &mut T,
    file: &str,
    row: &Row,
) -> io::Result<bool> {
    let mut out = String::new(rt.alloc());
    let result = trial.run(rt.alloc(), row, &mut out);
    if let Err(fault) = result {
        let text = fault.as_str();
        tell(rt, file, row, out.as_str())?;
        println!(rt; "fault: {text}")?;
        return Ok(false);
    }
    if out.as_str() == row.expected.as_str() {
        return Ok(true);
    }
    tell(rt, file, row, out.as_str())?;
    Ok(false)
}

// Runs the rows of a file, and returns whether all agree.
fn run_file<R: Files + Print + AllocGlobal, T: Trial>(
    rt: &R,
    reader: &mut RowReader,
    trial: &mut T,
    file: &str,
) -> io::Result<bool> {
    let text = fs::read_to_string(rt, file)?;
    let rows = match reader.read(text.as_str()) {
        Ok(rows) => rows,
        Err(fault) => {
            let line = fault.line;
            let problem = fault.problem;
            println!(rt; "{file}:{line}: {problem}")?;
            return Ok(false);
        }
    };
    let mut agree = true;
    for row in rows.iter() {
        if !agrees(rt, trial, file, row)? {
            agree = false;
        }
    }
    let count = rows.len();
    println!(rt; "{file}: {count} rows")?;
    Ok(agree)
}

fn run_files<R: Files + Env + Print + AllocGlobal, T: Trial>(
    rt: &R,
    trial: &mut T,
) -> io::Result<bool> {
    let mut reader = RowReader::new(rt.alloc());
    let mut agree = true;
    for file in env::args(rt)?.skip(1) {
        if !run_file(rt, &mut reader, trial, file.as_str())? {
            agree = false;
        }
    }
    Ok(agree)
}

/// Runs the rows of the files that the arguments name, and returns success if all agree.
pub fn run<R: Files + Env + Print + AllocGlobal, T: Trial>(rt: &R, trial: &mut T) -> ExitCode {
    match run_files(rt, trial) {
        Ok(true) => ExitCode::SUCCESS,
        Ok(false) => ExitCode::FAILURE,
        Err(error) => {
            let _ = println!(rt; "{error}");
            ExitCode::FAILURE
        }
    }
}
