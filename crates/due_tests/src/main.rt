//! Tests of a hub, line by line: which subscriptions are due after it, and how many objects it
//! looks up. They are the rows of the files in data/.
//!
//! Depends on row_file, which reads the rows and compares, on mesh_hub for the hub and on feed_step
//! for the lines. The words of a row are:
//!
//! - `lines`: the input is the lines that the rows after it name, each as `NAME: LINE`.
//! - `due`: each line of the expected output is `NAMES => IDS`, names of lines and the ids that are
//!   due after each of them, or `nobody`, behind `refused` if the line is refused. With `objects=N`
//!   or `message=N` the hub has that limit.
//! - `all-drained`: the same. The rows `concerned` after it begin with these lines.
//! - `concerned`: the same, on a hub with the lines that the input names, after which nobody is
//!   due, and with the subscriptions of `all-drained`.
//! - `costs`: each line of the expected output is `NAMES => ALLOWED`, where each line may look up
//!   at most so many objects, `LEAST-MOST`, or is `refused`. With `pods=N` the hub holds that many
//!   Pods with the label that the Server selects. The numbers of objects are written to standard
//!   error.
//!
//! A line with another result is written by itself, with that result.
#![tactic(auto)]

ghost use Rattle.std.specs.Prelude.{◌≤◌, IfOk};

mod steps;

use crate::steps::{Bed, Lines};
use mesh_base::limits::Limits;
use row_file::{Row, Trial, TrialFault, run};
use std::alloc::Global;
use std::process::ExitCode;

// The rows of a hub.
#[derive(Drop)]
struct HubRows<'a, R> {
    rt: &'a R,
    lines: Lines,
    all_drained: String,
}

// Returns the number of a word, or another one.
fn number_of(row: &Row, name: &str, other: u32) -> Result<u32, TrialFault> {
    match row.option(name) {
        Some(digits) => Ok(digits.parse::<u32>()?),
        None => Ok(other),
    }
}

// Returns the limits that the words of a row name.
fn limits_of(row: &Row) -> Result<Limits, TrialFault>
    ensures { IfOk result (λ limits. 1 ≤ limits.frame_addrs) }
{
    Ok(Limits {
        objects: number_of(row, "objects", Limits::USUAL.objects)?,
        message: number_of(row, "message", Limits::USUAL.message)?,
        ..Limits::USUAL
    })
}

impl<R: Eprint> HubRows<'_, R> {
    fn push_due(&self, alloc: Global, row: &Row, out: &mut String) -> Result<(), TrialFault> {
        let mut bed = Bed::new(alloc, limits_of(row)?)?;
        bed.push_due(&self.lines, row.expected.as_str(), out)
    }

    fn push_concerned(&self, alloc: Global, row: &Row, out: &mut String) -> Result<(), TrialFault> {
        let mut bed = Bed::new(alloc, Limits::USUAL)?;
        let mut before = String::new(alloc);
        for names in row.input.as_str().split_terminator('\n') {
            write!(before, "{names} => nobody\n")?;
        }
        before.push_str(self.all_drained.as_str())?;
        let mut said = String::new(alloc);
        bed.push_due(&self.lines, before.as_str(), &mut said)?;
        if said.as_str() != before.as_str() {
            write!(out, "before:\n{said}")?;
        }
        bed.push_due(&self.lines, row.expected.as_str(), out)
    }

    fn push_costs(&self, alloc: Global, row: &Row, out: &mut String) -> Result<(), TrialFault> {
        let mut bed = Bed::new(alloc, Limits::USUAL)?;
        bed.add_pods(number_of(row, "pods", 0)?)?;
        let mut told = String::new(alloc);
        let result = bed.push_costs(&self.lines, row.expected.as_str(), out, &mut told);
        let name = row.name.as_str();
        eprint!(self.rt; "{name}\n{told}")?;
        result
    }
}

impl<R: Eprint> Trial for HubRows<'_, R> {
    fn run(&mut self, alloc: Global, row: &Row, out: &mut String) -> Result<(), TrialFault> {
        let (call, _) = row.call();
        match call {
            "lines" => self.lines.add(row.input.as_str())?,
            "all-drained" => {
                self.all_drained.push_str(row.expected.as_str())?;
                self.push_due(alloc, row, out)?;
            }
            "due" => self.push_due(alloc, row, out)?,
            "concerned" => self.push_concerned(alloc, row, out)?,
            "costs" => self.push_costs(alloc, row, out)?,
            _ => return Err(TrialFault::new("no call has this name")),
        }
        Ok(())
    }
}

fn main(rt: HostRuntime) -> ExitCode {
    let mut rows = HubRows {
        rt: &rt,
        lines: Lines::new(rt.alloc()),
        all_drained: String::new(rt.alloc()),
    };
    run(&rt, &mut rows)
}
