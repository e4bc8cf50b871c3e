ghost use Rattle.std.specs.Prelude.{◌≡◌, ◌++◌, ◌<◌, ◌^◌, ℕ, List, length, OnErr, OnOk};
ghost use Rattle.std.specs.Io.KnownBytes.{Appends};
ghost use Rattle.line_run.specs.Rows.{lines_of};
ghost use Rattle.line_run.specs.Written.{FailsByCause, Moves};
ghost use Rattle.cluster_sample.specs.Counted.{counts_of, sample_text};

use crate::counts::Counts;
use line_run::{LineMachine, Status, run_lines};
use mesh_base::limits::Limits;
use mesh_outside::{Sink, SinkFault, SureSource};
use std::alloc::{AllocError, Global};

#[tactic(auto, unfolding(crate::specs::Counted::sample_text))]
fn push_sample(
    alloc: Global,
    n: u32,
    lines: u64,
    counts: Counts,
    out: &mut Vec<u8>,
) -> Result<(), AllocError>
    ensures { OnOk result (out.new.items ≡ out.old.items ++ sample_text n lines counts) }
{
    let text = format!(in alloc; "sample {n} lines {lines} {counts}\n")?;
    out.extend_from_slice(text.as_bytes())
}

/// A running count of the lines that a replay of the cluster of `n` Services writes. It writes
/// nothing before its end, and refuses no line.
#[derive(Drop)]
struct Counting {
    alloc: Global,
    n: u32,
    /// The number of lines of the cluster.
    lines: u64,
    counts: Counts,
}

impl LineMachine for Counting {
    ghost use Rattle.cluster_sample.specs.Stand.{Ended, Stands};

    ghost stands = { λ start now past text refused. Stands start.n start.lines now.n now.lines
        now.counts past text };

    ghost ending = { λ start now past text refused. Stands start.n start.lines now.n now.lines
        now.counts past text };

    ghost ended = { λ start now past text refused. Ended start.n start.lines past text };

    ghost begins = { λ start now past text refused stood. stood };

    ghost keeps = { λ earlier now. Unit {0} };

    ghost keeps_itself = { λ machine. tt };

    ghost keeps_on = { λ first second third on further. tt };

    ghost pieces_left = { λ now. 0 };

    fn line(
        &mut self,
        _number: u64,
        line: Option<&[u8]>,
        _out: &mut Vec<u8>,
    ) -> Result<bool, AllocError> {
        if let Some(line) = line {
            self.counts.add(line);
        }
        Ok(false)
    }

    fn end(&mut self, out: &mut Vec<u8>) -> Result<bool, AllocError> {
        push_sample(self.alloc, self.n, self.lines, self.counts, out)?;
        Ok(false)
    }
}

/// Counts the lines of a text that a replay of the cluster of `n` Services writes, and writes the
/// output line of the sample, or a prefix of it if a write fails or memory runs out.
pub(crate) fn write_counts<K: Sink>(
    alloc: Global,
    limits: &Limits,
    n: u32,
    lines: u64,
    text: &[u8],
    out: &mut K,
) -> Result<(), SinkFault>
    requires { length text.now < 2 ^ 64 }
    ensures whole { OnOk result (Appends (K.held out.old) (K.held out.new)
        (sample_text n lines (counts_of (lines_of text.now)))) }
    ensures front { OnErr result ((rest : List ℕ)
        × Moves (sample_text n lines (counts_of (lines_of text.now))) rest (K.held out.old)
        (K.held out.new)) }
    ensures cause { FailsByCause (K.faults out.old) (K.faults out.new) result }
{
    // No text in memory is longer, so all of it is counted.
    let limits = Limits {
        line: u64::MAX,
        input: u64::MAX,
        ..*limits
    };
    let mut machine = Counting {
        alloc,
        n,
        lines,
        counts: Counts::new(),
    };
    let mut source = SureSource { bytes: text };
    match run_lines(alloc, limits, &mut machine, &mut source, out) {
        Status::Done | Status::SomeRefused => Ok(()),
        Status::WriteFault => Err(SinkFault::Failed),
        _ => Err(SinkFault::Memory),
    }
}
