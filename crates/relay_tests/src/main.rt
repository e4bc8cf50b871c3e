//! Tests of a relay, over inputs and outputs in memory: the rows of the file in data/.
//!
//! Depends on view_relay, and on row_file, which reads the rows and compares. The words of a row
//! are `relay` and its limits, as `relay subs=1 message=20`. Its input is the input of the relay,
//! in which `\r`, `\t` and `\s` stand for a carriage return, a tab and a space. Its output is what
//! the relay writes, and then `status NAME`, unless the status is `Done`.
#![tactic(auto)]

ghost use Rattle.std.specs.Prelude.{◌≤◌, IfOk};

use line_run::Status;
use mesh_base::limits::Limits;
use mesh_outside::{MemSink, MemSource};
use row_file::{Row, Trial, TrialFault};
use std::alloc::Global;
use std::process::ExitCode;
use view_relay::file::relay_file;
use view_types::config::Config;

fn set_limit(limits: &mut Limits, name: &str, number: u32) -> Result<(), TrialFault> {
    match name {
        "line" => limits.line = u64::from(number),
        "subs" => limits.subs = number,
        "addrs" => limits.frame_addrs = number,
        "message" => limits.message = number,
        "request" => limits.request = number,
        _ => return Err(TrialFault::new("no limit has this name")),
    }
    Ok(())
}

// Returns the limits of the words after the first.
fn limits_of(words: &str) -> Result<Limits, TrialFault>
    ensures { IfOk result (λ limits. 1 ≤ limits.frame_addrs) }
{
    let mut limits = Limits::usual();
    for word in words.split(' ') {
        if let Some((name, digits)) = word.split_once('=') {
            set_limit(&mut limits, name, digits.parse::<u32>()?)?;
        }
    }
    if limits.frame_addrs < 1 {
        return Err(TrialFault::new("a message has no address"));
    }
    Ok(limits)
}

// Returns the input that a text with escapes stands for.
fn input_of(alloc: Global, escaped: &str) -> Result<String, TrialFault> {
    let mut text = String::new(alloc);
    let Some((front, pieces)) = escaped.split_once('\\') else {
        text.push_str(escaped)?;
        return Ok(text);
    };
    text.push_str(front)?;
    for piece in pieces.split('\\') {
        let byte = match piece.get(..1) {
            Some("r") => '\r',
            Some("t") => '\t',
            Some("s") => ' ',
            _ => return Err(TrialFault::new("no escape is so")),
        };
        text.push(byte)?;
        text.push_str(piece.get(1..).unwrap_or(""))?;
    }
    Ok(text)
}

#[derive(Drop)]
struct Relays;

impl Trial for Relays {
    fn run(&mut self, alloc: Global, row: &Row, out: &mut String) -> Result<(), TrialFault> {
        let limits = limits_of(row.words.as_str())?;
        let config = Config::usual(alloc)?;
        let input = input_of(alloc, row.input.as_str())?;
        let mut input = MemSource::of(alloc, input.as_bytes().to_vec(alloc)?);
        let mut sink = MemSink::new(alloc);
        let status = relay_file(alloc, &config, &limits, &mut input, &mut sink);
        out.push_str(str::from_utf8(sink.bytes.as_slice())?)?;
        if status != Status::Done {
            write!(out, "status {status:?}\n")?;
        }
        Ok(())
    }
}

fn main(rt: HostRuntime) -> ExitCode {
    row_file::run(&rt, &mut Relays)
}
