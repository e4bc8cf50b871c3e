// Writes whole pieces, and gathered output.
ghost use Rattle.std.specs.Prelude.{◌≡◌, ℕ, List, [], OnOk, OnErr};
ghost use Rattle.std.specs.Io.KnownBytes.{Appends};
ghost use Rattle.line_run.specs.Written.{Moves, FailsByCause};

use mesh_outside::{Sink, SinkFault};

// The number of gathered bytes from which they are written.
const GATHERED: usize = 65536;

/// Writes all of the bytes, or a front of them if a write fails or runs out of memory.
pub fn write_all<K: Sink>(sink: &mut K, bytes: &[u8]) -> Result<(), SinkFault>
    ensures whole { OnOk result (Appends (K.held sink.old) (K.held sink.new) bytes.now) }
    ensures front { (rest : List ℕ) × Moves bytes.now rest (K.held sink.old) (K.held sink.new) }
    ensures cause { FailsByCause (K.faults sink.old) (K.faults sink.new) result }
{
    let mut rest = bytes;
    while !rest.is_empty() {
        let n = sink.write(rest)?;
        if n == 0 {
            return Err(SinkFault::Failed);
        }
        rest = &rest[n..];
    }
    Ok(())
}

/// Writes the gathered output, and clears it.
pub(crate) fn flush<K: Sink>(out: &mut Vec<u8>, sink: &mut K) -> Result<(), SinkFault>
    ensures moved { OnOk result
        (Moves out.old.items out.new.items (K.held sink.old) (K.held sink.new)) }
    ensures none { OnOk result (out.new.items ≡ []) }
    ensures front { OnErr result ((rest : List ℕ)
        × Moves out.old.items rest (K.held sink.old) (K.held sink.new)) }
    ensures cause { FailsByCause (K.faults sink.old) (K.faults sink.new) result }
{
    write_all(sink, out)?;
    out.clear();
    Ok(())
}

/// Writes the gathered output, if it has at least 65,536 bytes.
pub(crate) fn flush_much<K: Sink>(out: &mut Vec<u8>, sink: &mut K) -> Result<(), SinkFault>
    ensures moved { OnOk result
        (Moves out.old.items out.new.items (K.held sink.old) (K.held sink.new)) }
    ensures front { OnErr result ((rest : List ℕ)
        × Moves out.old.items rest (K.held sink.old) (K.held sink.new)) }
    ensures cause { FailsByCause (K.faults sink.old) (K.faults sink.new) result }
{
    if out.len() < GATHERED {
        return Ok(());
    }
    flush(out, sink)
}
