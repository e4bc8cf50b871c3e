ghost use Rattle.std.specs.Prelude.{ℕ, None};

use line_run::{LineMachine, Status, run_lines};
use mesh_base::limits::Limits;
use mesh_base::list::List;
use mesh_outside::{MemSink, MemSource, Sink, SinkFault};
use row_file::{Row, TrialFault};
use std::alloc::{AllocError, Global};

// Writes each line behind its number, refuses those that begin with `!`, and ends in two pieces.
#[derive(Drop)]
struct Echo {
    alloc: Global,
    pieces: u8,
}

impl LineMachine for Echo {
    ghost stands = { λ start now past text refused. Unit {0} };

    ghost ending = { λ start now past text refused. Unit {0} };

    ghost ended = { λ start now past text refused. Unit {0} };

    ghost begins = { λ start now past text refused stands. stands };

    ghost keeps = { λ earlier now. Unit {0} };

    ghost keeps_itself = { λ machine. tt };

    ghost keeps_on = { λ first second third on further. tt };

    ghost pieces_left = { λ echo. echo.pieces };

    fn line(
        &mut self,
        number: u64,
        line: Option<&[u8]>,
        out: &mut Vec<u8>,
    ) -> Result<bool, AllocError> {
        let number = number.to_string(self.alloc)?;
        out.extend_from_slice(number.as_bytes())?;
        match line {
            None => {
                out.extend_from_slice(b":long|")?;
                Ok(true)
            }
            Some(line) => {
                out.extend_from_slice(b":")?;
                out.extend_from_slice(line)?;
                out.extend_from_slice(b"|")?;
                Ok(line.starts_with(b"!"))
            }
        }
    }

    fn end(&mut self, out: &mut Vec<u8>) -> Result<bool, AllocError> {
        out.extend_from_slice(b"end|")?;
        if self.pieces == 0 {
            return Ok(false);
        }
        self.pieces -= 1;
        Ok(true)
    }
}

// Takes one byte of each piece.
#[derive(Drop)]
struct OneByte {
    bytes: Vec<u8>,
}

impl Sink for OneByte {
    ghost held = { λ s. None };

    ghost faults = { λ s. 0 };

    fn write(&mut self, piece: &[u8]) -> Result<usize, SinkFault> {
        match piece.first() {
            None => Ok(0),
            Some(byte) => match self.bytes.push(*byte) {
                Ok(()) => Ok(1),
                Err(_) => Err(SinkFault::Memory),
            },
        }
    }
}

const SMALL: Limits = Limits {
    line: 4,
    input: 24,
    ..Limits::USUAL
};

fn run<K: Sink>(
    alloc: Global,
    limits: Limits,
    input: &[u8],
    fails: u64,
    sink: &mut K,
) -> Result<Status, AllocError> {
    let mut source = MemSource::of(alloc, input.to_vec(alloc)?);
    source.fails = List::from_vec(vec![in alloc; fails]?);
    let mut echo = Echo { alloc, pieces: 1 };
    Ok(run_lines(alloc, limits, &mut echo, &mut source, sink))
}

fn number_of(row: &Row, option: &str) -> Result<u64, TrialFault> {
    Ok(row.option(option).unwrap_or("0").parse::<u64>()?)
}

/// Writes the status of a run and what it wrote, which is the same where the sink takes one byte of
/// each piece.
pub fn lines(alloc: Global, row: &Row, out: &mut String) -> Result<(), TrialFault> {
    let input = row.input.as_str();
    let input = input.strip_suffix('\n').unwrap_or(input).as_bytes();
    let (read, write) = (number_of(row, "read")?, number_of(row, "write")?);
    let mut sink = MemSink::new(alloc);
    sink.fails = List::from_vec(vec![in alloc; write]?);
    let status = run(alloc, SMALL, input, read, &mut sink)?;
    let output = str::from_utf8(sink.bytes.as_slice())?;
    let blank = if output.is_empty() { "" } else { " " };
    write!(out, "{status:?}{blank}{output}\n")?;
    if write == 0 {
        let mut slow = OneByte {
            bytes: Vec::new(alloc),
        };
        let again = run(alloc, SMALL, input, read, &mut slow)?;
        if again != status || slow.bytes.as_slice() != output.as_bytes() {
            out.push_str("another, one byte at a time\n")?;
        }
    }
    Ok(())
}

/// Writes the status of a run over a line that is read in several blocks, and what it wrote.
pub fn long_line(alloc: Global, limit: &str, out: &mut String) -> Result<(), TrialFault> {
    let mut input = vec![in alloc; b'x'; 150_000]?;
    input.extend_from_slice(b"\ny")?;
    let limits = Limits {
        line: limit.trim().parse()?,
        ..Limits::USUAL
    };
    let mut sink = MemSink::new(alloc);
    let status = run(alloc, limits, &input, 0, &mut sink)?;
    let count = sink.bytes.len();
    let ends = sink.bytes.as_slice().ends_with(b"|2:y|end|end|");
    let end = if ends { "ends well" } else { "ends otherwise" };
    write!(out, "{status:?}, {count} bytes written, {end}\n")?;
    Ok(())
}
