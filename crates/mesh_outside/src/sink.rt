// Sinks of bytes.
ghost use Rattle.std.specs.Prelude.{◌≡◌, ◌≤◌, ◌↔◌, List, [], ℕ, Some, None, length, Contains, IfOk, IsErrOf};
ghost use Rattle.std.specs.declared.option.Option.{Option};
ghost use Rattle.std.specs.Io.{WritesAtMost};
ghost use Rattle.std.specs.Io.KnownBytes.{WriteAppends};
ghost use Rattle.mesh_outside.specs.Causes.{WriteHasCause, one_more, counted, is_fault, had_memory, none_ever};

use mesh_base::list::List;
use std::alloc::Global;
use std::io::Write;

/// The error of a write to a sink.
#[derive(Clone, Copy, Debug, PartialEq, Eq)]
pub enum SinkFault {
    Failed,
    /// Out of memory; the sink is as before.
    Memory,
}

/// A sink for bytes.
pub trait Sink {
    ghost use Rattle.mesh_outside.specs.Causes.{WriteHasCause};

    /// The bytes that the sink holds, if specified.
    ghost held: { Self → Option (List ℕ) };

    /// The number of failed writes so far, which saturates at `u64::MAX`.
    ghost faults: { Self → ℕ };

    /// Accepts bytes from the front of the piece, and returns their number.
    fn write(&mut self, piece: &[u8]) -> Result<usize, SinkFault>
        ensures bound { WritesAtMost result piece.now }
        ensures bytes { WriteAppends (held self.old) (held self.new) result piece.now }
        ensures cause { WriteHasCause (faults self.old) (faults self.new) piece.now result }
        ensures memory { IsErrOf result SinkFault.Memory → held self.new ≡ held self.old };
}

/// A sink in memory. The calls whose numbers, from 1, are in `fails` fail.
#[derive(Drop)]
pub struct MemSink {
    /// The bytes held.
    pub bytes: Vec<u8>,
    pub fails: List<u64>,
    /// The number of calls so far, without those that ran out of memory.
    pub calls: u64,
    /// The number of failed calls so far.
    pub count: u64,
}

impl MemSink {
    /// Returns a sink that holds nothing and never fails.
    pub fn new(alloc: Global) -> MemSink
        ensures bytes { result.bytes.items ≡ [] }
        ensures fails { result.fails ≡ [] }
        ensures calls { result.calls ≡ 0 }
        ensures count { result.count ≡ 0 }
    {
        MemSink {
            bytes: Vec::new(alloc),
            fails: List::new(alloc),
            calls: 0,
            count: 0,
        }
    }
}

impl Sink for MemSink {
    ghost held = { λ s. Some s.bytes.items };

    ghost faults = { λ s. s.count };

    fn write(&mut self, piece: &[u8]) -> Result<usize, SinkFault>
        ensures bound { WritesAtMost result piece.now }
        ensures bytes { WriteAppends (Some self.old.bytes.items) (Some self.new.bytes.items) result
            piece.now }
        ensures cause { WriteHasCause self.old.count self.new.count piece.now result }
        ensures memory { IsErrOf result SinkFault.Memory
            → Some self.new.bytes.items ≡ Some self.old.bytes.items }

        // The calls in `fails` fail, others accept the whole piece. Out of memory isn't counted.
        ensures fails { IsErrOf result SinkFault.Failed
            ↔ Contains self.old.fails (one_more self.old.calls) }
        ensures whole { IfOk result (λ n. n ≡ length piece.now) }
        ensures calls { self.new.calls ≡ counted (had_memory result) self.old.calls }
        ensures count { self.new.count ≡ counted (is_fault piece.now result) self.old.count }
        ensures same { self.new.fails ≡ self.old.fails }
    {
        let number = self.calls.saturating_add(1);
        if self.fails.as_slice().contains(&number) {
            self.calls = number;
            self.count = self.count.saturating_add(1);
            return Err(SinkFault::Failed);
        }
        if self.bytes.extend_from_slice(piece).is_err() {
            return Err(SinkFault::Memory);
        }
        self.calls = number;
        Ok(piece.len())
    }
}

/// A sink in memory. Its only error is `Memory`.
#[derive(Drop)]
pub struct SureSink {
    /// The bytes held.
    pub bytes: Vec<u8>,
}

impl Sink for SureSink {
    ghost held = { λ s. Some s.bytes.items };

    ghost faults = { λ s. none_ever };

    fn write(&mut self, piece: &[u8]) -> Result<usize, SinkFault>
        ensures bound { WritesAtMost result piece.now }
        ensures bytes { WriteAppends (Some self.old.bytes.items) (Some self.new.bytes.items) result
            piece.now }
        ensures cause { WriteHasCause none_ever none_ever piece.now result }
        ensures memory { IsErrOf result SinkFault.Memory
            → Some self.new.bytes.items ≡ Some self.old.bytes.items }

        // A write accepts the whole piece.
        ensures whole { IfOk result (λ n. n ≡ length piece.now) }
        ensures none { ¬ (IsErrOf result SinkFault.Failed) }
    {
        match self.bytes.extend_from_slice(piece) {
            Ok(()) => Ok(piece.len()),
            Err(_) => Err(SinkFault::Memory),
        }
    }
}

/// A sink over any `Write`. Its bytes are specified if std does so: not for a file or stdout.
#[derive(Drop)]
pub struct WriteSink<W> {
    writer: W,
    count: u64,
}

impl<W: Write> WriteSink<W> {
    pub fn new(writer: W) -> WriteSink<W>
        ensures faults { ⟦<WriteSink<W> as Sink>⟧.faults result ≡ 0 }
        ensures held { ⟦<WriteSink<W> as Sink>⟧.held result ≡ W.contents writer }
    {
        WriteSink { writer, count: 0 }
    }
}

impl<W: Write> Sink for WriteSink<W> {
    ghost held = { λ s. W.contents s.writer };

    ghost faults = { λ s. s.count };

    fn write(&mut self, piece: &[u8]) -> Result<usize, SinkFault>
        ensures bound { WritesAtMost result piece.now }
        ensures bytes { WriteAppends (W.contents self.old.writer) (W.contents self.new.writer)
            result piece.now }
        ensures cause { WriteHasCause self.old.count self.new.count piece.now result }
        ensures memory { IsErrOf result SinkFault.Memory
            → W.contents self.new.writer ≡ W.contents self.old.writer }

        // Only faults are counted, and nothing is allocated.
        ensures count { self.new.count ≡ counted (is_fault piece.now result) self.old.count }
        ensures none { ¬ (IsErrOf result SinkFault.Memory) }
    {
        let written = self.writer.write(piece);
        match written {
            Ok(n) if n > 0 || piece.is_empty() => Ok(n),
            Ok(_) => {
                self.count = self.count.saturating_add(1);
                Ok(0)
            }
            Err(_) => {
                self.count = self.count.saturating_add(1);
                Err(SinkFault::Failed)
            }
        }
    }
}
