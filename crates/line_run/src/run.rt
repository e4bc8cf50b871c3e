// The loop from a source to a sink.
ghost use Rattle.std.specs.Prelude.{◌≡◌, ◌≢◌, ◌+◌, ◌<◌, ◌≤◌, ◌^◌, ◌⊎◌, ℕ, Bool, true, false, List, [], Option, length, take, IfOk, OnErr, Some};
ghost use Rattle.std.specs.Io.KnownBytes.{Keeps, Consumes, IsAtEnd};
ghost use Rattle.mesh_outside.specs.Causes.{Rose, Unrisen, HasCause};
ghost use Rattle.line_run.specs.Rows.{NoBreak, past_of};
ghost use Rattle.line_run.specs.Run.{IsAnswered, IsTooLong, OnEnd, OnStop, Whole, Part, TookLimit};
ghost use Rattle.line_run.specs.Within.{now_of, Come, Says, Stopped};

use crate::feeder::Feeder;
use crate::write::flush;
use crate::{LineMachine, Status};
use mesh_base::limits::Limits;
use mesh_outside::{Failed, Sink, SinkFault, Source};
use std::alloc::{AllocError, Global};

// The greatest number of bytes of one read.
const BLOCK: usize = 65536;

fn new_block(alloc: Global) -> Result<Vec<u8>, AllocError>
    ensures { IfOk result (λ block. length block.items ≡ 65536) }
{
    Ok(vec![in alloc; 0; BLOCK]?)
}

// Reads at most `most` bytes into the front of a nonempty buffer.
fn read_front<S: Source>(source: &mut S, block: &mut [u8], most: usize) -> Result<usize, Failed>
    requires some { 0 < most }
    requires room { most ≤ length block.old }
    ensures bound { IfOk result (λ n. n ≤ most) }
    ensures bytes { IfOk result (λ n. Consumes (S.left source.old) (S.left source.new)
        (take n block.new)) }
    ensures end { IfOk result (λ n. n ≡ 0 → IsAtEnd (S.left source.new)) }
    ensures kept { OnErr result (Keeps (S.left source.old) (S.left source.new)) }
    ensures cause { HasCause (S.faults source.old) (S.faults source.new) result }
{
    source.read(&mut block[..most])
}

fn status_of(fault: SinkFault) -> Status
    ensures cause { ((result ≡ Status.WriteFault) × (fault ≡ SinkFault.Failed))
        ⊎ (result ≡ Status.Memory) }
    ensures failed { fault ≡ SinkFault.Failed → result ≡ Status.WriteFault }
{
    match fault {
        SinkFault::Failed => Status::WriteFault,
        SinkFault::Memory => Status::Memory,
    }
}

/// Reads lines to the end of the input, passes each to the machine, and writes the output. A line
/// longer than the line limit is skipped whole, and the machine gets its number; a last piece
/// without LF is a line if it isn't empty. The run reads no more bytes than the input limit.
pub fn run_lines<M: LineMachine, S: Source, K: Sink>(
    alloc: Global,
    limits: Limits,
    machine: &mut M,
    source: &mut S,
    sink: &mut K,
) -> Status
    requires { M.stands machine.old machine.old [] [] false }

    // At the end of the input, the output for all rows was written; `refused` if one was refused.
    ensures whole { OnEnd result (λ refused.
        Whole (M.ended machine.old) limits.line limits.input (S.left source.old) (K.held sink.old)
        (K.held sink.new) machine.new refused) }

    // Otherwise a front of that was written, and the machine there leads to the machine now.
    ensures part { OnStop result (Part (M.stands machine.old) (M.ending machine.old)
        (M.ended machine.old) (λ there. M.keeps there machine.new) limits.line (S.left source.old)
        (K.held sink.old) (K.held sink.new)) }

    ensures keeps { M.keeps machine.old machine.new }

    ensures read { result ≡ Status.ReadFault → Rose (S.faults source.old) (S.faults source.new) }
    ensures write { result ≡ Status.WriteFault → Rose (K.faults sink.old) (K.faults sink.new) }
    ensures long { result ≡ Status.InputTooLong → TookLimit limits.input (S.left source.old) }
    ensures usage { result ≢ Status.Usage }

    // If the source and the sink don't fail, an input below the limit is read to its end unless the
    // run is out of memory, and any other input is too long.
    ensures complete { Unrisen (S.faults source.old) (S.faults source.new)
        → Unrisen (K.faults sink.old) (K.faults sink.new)
        → (bytes : List ℕ) → S.left source.old ≡ Some bytes → length bytes < limits.input
        → IsAnswered result }
    ensures too_long { Unrisen (S.faults source.old) (S.faults source.new)
        → Unrisen (K.faults sink.old) (K.faults sink.new)
        → (bytes : List ℕ) → S.left source.old ≡ Some bytes → limits.input ≤ length bytes
        → IsTooLong result }

    // No count falls, and each error is reported by its status.
    ensures read_later { S.faults source.old ≤ S.faults source.new }
    ensures write_later { K.faults sink.old ≤ K.faults sink.new }
    ensures read_told { result ≢ Status.ReadFault → S.faults source.new ≡ S.faults source.old }
    ensures write_told { result ≢ Status.WriteFault → K.faults sink.new ≡ K.faults sink.old }
{
    let mut feeder = Feeder::new(alloc);
    let Ok(mut store) = new_block(alloc) else {
        return Status::Memory;
    };
    let block = store.as_mut_slice();
    let mut taken = 0;
    while taken < limits.input {
        let most = (limits.input - taken).min(BLOCK as u64) as usize;
        let Ok(n) = read_front(source, block, most) else {
            return Status::ReadFault;
        };
        if n == 0 {
            return end(&mut feeder, limits.line, machine, sink);
        }
        taken += n as u64;
        if let Err(fault) = feeder.feed(limits.line, machine, &block[..n], sink) {
            return status_of(fault);
        }
        if let Err(fault) = flush(&mut feeder.out, sink) {
            return status_of(fault);
        }
    }
    Status::InputTooLong
}

// Ends the run: passes the last line, writes the machine's end, and returns the status.
fn end<M: LineMachine, K: Sink>(
    feeder: &mut Feeder,
    limit: u64,
    machine: &mut M,
    sink: &mut K,
) -> Status
    requires part { NoBreak feeder.old.cutter.part.items }
    requires room { feeder.old.lines + 1 < 2 ^ 64 }
    ensures refused { OnEnd result (λ refused. feeder.new.refused ≡ refused) }
    ensures out { OnEnd result (λ refused. feeder.new.out.items ≡ []) }
    ensures whole { OnEnd result (λ refused. (start : M) (held : Option (List ℕ)) (taken : List ℕ)
        → Come (M.stands start) limit held taken feeder.old.cutter.part.items
        (now_of machine.old (K.held sink.old) feeder.old)
        → Says (M.ended start) held (past_of limit taken)
        (now_of machine.new (K.held sink.new) feeder.new)) }
    ensures part { OnStop result ((start : M) (held : Option (List ℕ)) (taken : List ℕ)
        → Come (M.stands start) limit held taken feeder.old.cutter.part.items
        (now_of machine.old (K.held sink.old) feeder.old)
        → Stopped (M.stands start) (M.ending start) (M.ended start)
        (λ there. M.keeps there machine.new) held (K.held sink.new) (past_of limit taken)) }
    ensures keeps { M.keeps machine.old machine.new }
    ensures write { result ≡ Status.WriteFault → Rose (K.faults sink.old) (K.faults sink.new) }
    ensures others { (result ≢ Status.ReadFault) × (result ≢ Status.InputTooLong) }
    ensures write_later { K.faults sink.old ≤ K.faults sink.new }
    ensures write_told { result ≢ Status.WriteFault → K.faults sink.new ≡ K.faults sink.old }
{
    if let Err(fault) = feeder.finish(limit, machine, sink) {
        return status_of(fault);
    }
    if feeder.refused {
        Status::SomeRefused
    } else {
        Status::Done
    }
}
