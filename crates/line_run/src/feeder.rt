// Passes the lines of the input to a machine, and writes its output.
ghost use Rattle.std.specs.Prelude.{◌≡◌, ◌+◌, ◌<◌, ◌≤◌, ◌^◌, ℕ, Bool, true, false, [], ◌∷◌, List, ◌++◌, Option, length, OnOk, OnErr, Ok};
ghost use Rattle.line_run.specs.Rows.{Row, NoBreak, row_of, past_from, past_of};
ghost use Rattle.line_run.specs.Within.{now_of, Come, Says, Stopped};
ghost use Rattle.line_run.specs.Written.{FailsByCause};

use crate::LineMachine;
use crate::cutter::Cutter;
use crate::write::{flush, flush_much};
use mesh_outside::{Sink, SinkFault};
use std::alloc::{AllocError, Global};

/// The state of a run between its calls.
#[derive(Drop)]
pub(crate) struct Feeder {
    pub(crate) cutter: Cutter,
    /// The number of lines passed so far.
    pub(crate) lines: u64,
    /// Whether one of them was refused.
    pub(crate) refused: bool,
    /// The output of the machine that isn't written yet.
    pub(crate) out: Vec<u8>,
}

impl Feeder {
    pub(crate) fn new(alloc: Global) -> Feeder
        ensures part { result.cutter.part.items ≡ [] }
        ensures lines { result.lines ≡ 0 }
        ensures refused { result.refused ≡ false }
        ensures out { result.out.items ≡ [] }
    {
        Feeder {
            cutter: Cutter::new(alloc),
            lines: 0,
            refused: false,
            out: Vec::new(alloc),
        }
    }

    // Passes the completed line to the machine.
    fn tell<M: LineMachine>(&mut self, limit: u64, machine: &mut M) -> Result<(), AllocError>
        requires { self.old.lines + 1 < 2 ^ 64 }
        ensures lines { self.new.lines ≡ self.old.lines + 1 }
        ensures stands { OnOk result ((start : M) (past : List Row) (sent : List ℕ)
            → self.old.lines ≡ length past
            → M.stands start machine.old past (sent ++ self.old.out.items) self.old.refused
            → M.stands start machine.new (row_of limit self.old.cutter.part.items ∷ past)
            (sent ++ self.new.out.items) self.new.refused) }
        ensures keeps { M.keeps machine.old machine.new }
    {
        self.lines += 1;
        let row = self.cutter.row(limit);
        let is_refused = machine.line(self.lines, row, &mut self.out)?;
        self.refused = self.refused || is_refused;
        Ok(())
    }

    // Passes the completed line to the machine, flushes much output, and begins the next line.
    fn give<M: LineMachine, K: Sink>(
        &mut self,
        limit: u64,
        machine: &mut M,
        sink: &mut K,
    ) -> Result<(), SinkFault>
        requires { self.old.lines + 1 < 2 ^ 64 }
        ensures lines { self.new.lines ≡ self.old.lines + 1 }
        ensures part { OnOk result (self.new.cutter.part.items ≡ []) }
        ensures stands { OnOk result ((start : M) (held : Option (List ℕ)) (past : List Row)
            → self.old.lines ≡ length past
            → Says (M.stands start) held past (now_of machine.old (K.held sink.old) self.old)
            → Says (M.stands start) held (row_of limit self.old.cutter.part.items ∷ past)
            (now_of machine.new (K.held sink.new) self.new)) }
        ensures stopped { OnErr result ((start : M) (held : Option (List ℕ)) (past rest : List Row)
            → self.old.lines ≡ length past
            → Says (M.stands start) held past (now_of machine.old (K.held sink.old) self.old)
            → Stopped (M.stands start) (M.ending start) (M.ended start)
            (λ there. M.keeps there machine.new) held (K.held sink.new)
            (past_from past (row_of limit self.old.cutter.part.items ∷ rest))) }
        ensures keeps { M.keeps machine.old machine.new }
        ensures cause { FailsByCause (K.faults sink.old) (K.faults sink.new) result }
    {
        let Ok(()) = self.tell(limit, machine) else {
            return Err(SinkFault::Memory);
        };
        flush_much(&mut self.out, sink)?;
        self.cutter.clear();
        Ok(())
    }

    // Passes each completed line to the machine, and keeps the bytes of the next.
    pub(crate) fn feed<M: LineMachine, K: Sink>(
        &mut self,
        limit: u64,
        machine: &mut M,
        block: &[u8],
        sink: &mut K,
    ) -> Result<(), SinkFault>
        requires part { NoBreak self.old.cutter.part.items }
        requires room { self.old.lines + length block.now < 2 ^ 64 }
        ensures lines { self.new.lines ≤ self.old.lines + length block.now }
        ensures part { OnOk result (NoBreak self.new.cutter.part.items) }
        ensures come { OnOk result ((start : M) (held : Option (List ℕ)) (taken : List ℕ)
            → Come (M.stands start) limit held taken self.old.cutter.part.items
            (now_of machine.old (K.held sink.old) self.old)
            → Come (M.stands start) limit held (taken ++ block.now) self.new.cutter.part.items
            (now_of machine.new (K.held sink.new) self.new)) }
        ensures stopped { OnErr result ((start : M) (held : Option (List ℕ)) (taken more : List ℕ)
            → Come (M.stands start) limit held taken self.old.cutter.part.items
            (now_of machine.old (K.held sink.old) self.old)
            → Stopped (M.stands start) (M.ending start) (M.ended start)
            (λ there. M.keeps there machine.new) held (K.held sink.new)
            (past_of limit ((taken ++ block.now) ++ more))) }
        ensures keeps { M.keeps machine.old machine.new }
        ensures cause { FailsByCause (K.faults sink.old) (K.faults sink.new) result }
    {
        let mut rest = block;
        loop {
            let Ok(found) = self.cutter.take(limit, rest) else {
                return Err(SinkFault::Memory);
            };
            let Some(after) = found else {
                return Ok(());
            };
            self.give(limit, machine, sink)?;
            rest = after;
        }
    }

    // Passes the last line to the machine, if there is one.
    fn give_last<M: LineMachine, K: Sink>(
        &mut self,
        limit: u64,
        machine: &mut M,
        sink: &mut K,
    ) -> Result<(), SinkFault>
        requires part { NoBreak self.old.cutter.part.items }
        requires room { self.old.lines + 1 < 2 ^ 64 }
        ensures stands { OnOk result ((start : M) (held : Option (List ℕ)) (taken : List ℕ)
            → Come (M.stands start) limit held taken self.old.cutter.part.items
            (now_of machine.old (K.held sink.old) self.old)
            → Says (M.stands start) held (past_of limit taken)
            (now_of machine.new (K.held sink.new) self.new)) }
        ensures stopped { OnErr result ((start : M) (held : Option (List ℕ)) (taken : List ℕ)
            → Come (M.stands start) limit held taken self.old.cutter.part.items
            (now_of machine.old (K.held sink.old) self.old)
            → Stopped (M.stands start) (M.ending start) (M.ended start)
            (λ there. M.keeps there machine.new) held (K.held sink.new) (past_of limit taken)) }
        ensures keeps { M.keeps machine.old machine.new }
        ensures cause { FailsByCause (K.faults sink.old) (K.faults sink.new) result }
    {
        if self.cutter.has_last() {
            return self.give(limit, machine, sink);
        }
        Ok(())
    }

    // Appends the next piece of the end to the output, and returns whether there is more.
    fn next_piece<M: LineMachine, K: Sink>(
        &mut self,
        machine: &mut M,
        sink: &mut K,
    ) -> Result<bool, SinkFault>
        ensures more { result ≡ Ok true → (start : M) (held : Option (List ℕ)) (past : List Row)
            → Says (M.ending start) held past (now_of machine.old (K.held sink.old) self.old)
            → Says (M.ending start) held past (now_of machine.new (K.held sink.new) self.new) }
        ensures last { result ≡ Ok false → (start : M) (held : Option (List ℕ)) (past : List Row)
            → Says (M.ending start) held past (now_of machine.old (K.held sink.old) self.old)
            → Says (M.ended start) held past (now_of machine.new (K.held sink.new) self.new) }
        ensures stopped { OnErr result ((start : M) (held : Option (List ℕ)) (past : List Row)
            → Says (M.ending start) held past (now_of machine.old (K.held sink.old) self.old)
            → Stopped (M.stands start) (M.ending start) (M.ended start)
            (λ there. M.keeps there machine.new) held (K.held sink.new) past) }
        ensures fewer { result ≡ Ok true → M.pieces_left machine.new < M.pieces_left machine.old }
        ensures keeps { M.keeps machine.old machine.new }
        ensures cause { FailsByCause (K.faults sink.old) (K.faults sink.new) result }
    {
        let Ok(more) = machine.end(&mut self.out) else {
            return Err(SinkFault::Memory);
        };
        flush_much(&mut self.out, sink)?;
        Ok(more)
    }

    // Writes the output not yet written, and the end.
    fn write_end<M: LineMachine, K: Sink>(
        &mut self,
        machine: &mut M,
        sink: &mut K,
    ) -> Result<(), SinkFault>
        ensures out { OnOk result (self.new.out.items ≡ []) }
        ensures ended { OnOk result ((start : M) (held : Option (List ℕ)) (past : List Row)
            → Says (M.ending start) held past (now_of machine.old (K.held sink.old) self.old)
            → Says (M.ended start) held past (now_of machine.new (K.held sink.new) self.new)) }
        ensures stopped { OnErr result ((start : M) (held : Option (List ℕ)) (past : List Row)
            → Says (M.ending start) held past (now_of machine.old (K.held sink.old) self.old)
            → Stopped (M.stands start) (M.ending start) (M.ended start)
            (λ there. M.keeps there machine.new) held (K.held sink.new) past) }
        ensures keeps { M.keeps machine.old machine.new }
        ensures cause { FailsByCause (K.faults sink.old) (K.faults sink.new) result }
    {
        'pieces: while self.next_piece(machine, sink)? {}
        flush(&mut self.out, sink)?;
        Ok(())
    }

    // Passes the last line to the machine, if there is one, and writes its end.
    pub(crate) fn finish<M: LineMachine, K: Sink>(
        &mut self,
        limit: u64,
        machine: &mut M,
        sink: &mut K,
    ) -> Result<(), SinkFault>
        requires part { NoBreak self.old.cutter.part.items }
        requires room { self.old.lines + 1 < 2 ^ 64 }
        ensures out { OnOk result (self.new.out.items ≡ []) }
        ensures ended { OnOk result ((start : M) (held : Option (List ℕ)) (taken : List ℕ)
            → Come (M.stands start) limit held taken self.old.cutter.part.items
            (now_of machine.old (K.held sink.old) self.old)
            → Says (M.ended start) held (past_of limit taken)
            (now_of machine.new (K.held sink.new) self.new)) }
        ensures stopped { OnErr result ((start : M) (held : Option (List ℕ)) (taken : List ℕ)
            → Come (M.stands start) limit held taken self.old.cutter.part.items
            (now_of machine.old (K.held sink.old) self.old)
            → Stopped (M.stands start) (M.ending start) (M.ended start)
            (λ there. M.keeps there machine.new) held (K.held sink.new) (past_of limit taken)) }
        ensures keeps { M.keeps machine.old machine.new }
        ensures cause { FailsByCause (K.faults sink.old) (K.faults sink.new) result }
    {
        self.give_last(limit, machine, sink)?;
        self.write_end(machine, sink)
    }
}
