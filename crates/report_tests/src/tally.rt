// Inputs and outputs in pieces, and a clock.
ghost use Rattle.std.specs.Prelude.{None};
ghost use Rattle.mesh_outside.specs.Causes.{none_ever};

use mesh_outside::{MemSource, Sink, SinkFault, Source, SureSink};
use row_file::TrialFault;
use run_report::{InputTally, OutputTally};
use std::alloc::Global;
use std::cell::Cell;
use std::io;
use std::time::{Clock, Duration};

// A clock that goes on by 400 milliseconds each time that it is read.
#[derive(Drop)]
pub struct Ticks {
    millis: Cell<u64>,
}

impl Ticks {
    pub fn new() -> Ticks {
        Ticks {
            millis: Cell::new(0),
        }
    }
}

impl Clock for Ticks {
    fn monotonic(&self) -> io::Result<Duration> {
        let millis = self.millis.get();
        self.millis.set(millis.saturating_add(400));
        Ok(Duration::from_millis(millis))
    }

    fn since_1970(&self) -> io::Result<Duration> {
        Ok(Duration::from_millis(0))
    }
}

// An input that was read in pieces of this size.
pub fn read_in_pieces(
    alloc: Global,
    input: &[u8],
    size: usize,
) -> Result<InputTally<MemSource, Ticks, Vec<u8>>, TrialFault> {
    let bytes = Vec::from_slice(alloc, input)?;
    let mut tally = InputTally::new(alloc, MemSource::of(alloc, bytes), None);
    let mut buf = [0; 9];
    for _ in 0..10_000 {
        let Some(front) = buf.get_mut(..size) else {
            break;
        };
        if tally.read(front) == Ok(0) {
            break;
        }
    }
    Ok(tally)
}

// An output that was written in pieces of this size.
pub fn write_in_pieces(alloc: Global, output: &str, size: usize) -> OutputTally<SureSink, Vec<u8>> {
    let sink = SureSink {
        bytes: Vec::new(alloc),
    };
    let mut tally = OutputTally::new(alloc, sink, None);
    for at in 0..output.len() {
        if at % size.max(1) == 0 {
            let rest = &output.as_bytes()[at..];
            let _ = tally.write(&rest[..size.min(rest.len())]);
        }
    }
    tally
}

// A sink that accepts so many bytes of a piece, and at least one.
#[derive(Drop)]
pub struct PartSink {
    limit: usize,
}

impl Sink for PartSink {
    ghost held = { λ s. None };

    ghost faults = { λ s. none_ever };

    fn write(&mut self, piece: &[u8]) -> Result<usize, SinkFault> {
        Ok(piece.len().min(self.limit.max(1)))
    }
}

// An output of which the sink accepts a part at a time.
pub fn write_in_parts(alloc: Global, output: &str, limit: usize) -> OutputTally<PartSink, Vec<u8>> {
    let mut tally = OutputTally::new(alloc, PartSink { limit }, None);
    let mut rest = output.as_bytes();
    for _ in 0..output.len() {
        if let Ok(n) = tally.write(rest) {
            rest = &rest[n..];
        }
    }
    tally
}
