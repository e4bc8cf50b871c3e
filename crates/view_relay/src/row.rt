// One row of an input: its call, and its output.
ghost use Rattle.std.specs.Prelude.{◌≡◌, ◌≢◌, ◌++◌, List, ℕ, true, IfErr, IfOk, OnOk};
ghost use Rattle.std.specs.Option.{option_copied};
ghost use Rattle.feed_history.specs.Text.{fault_line};
ghost use Rattle.view_relay.specs.Accepted.{carry_call, client_call, drain_call, leave_call, origin_call};
ghost use Rattle.view_relay.specs.Answers.{state_of};
ghost use Rattle.view_relay.specs.Relayed.{line_call, made_by, row_fault_text};
ghost use Rattle.view_relay.specs.Rows.{IsSent, IsUnsent, Takes, TookRow};
ghost use Rattle.view_relay.specs.declared.fault.RowFault.TheVariants as rows;

use crate::fault::{RelayFault, RowFault};
use crate::line::{RelayLine, read_relay_row};
use crate::relay::Relay;
use bytes::Bytes;
use feed_history::text::{push_frames, push_oversize, push_refused};
use mesh_base::list::List;
use mesh_base::sub_id::SubId;
use std::alloc::{AllocError, Global};

/// Writes what a client is sent.
pub(crate) fn push_sent(
    alloc: Global,
    id: u32,
    frames: Result<List<Bytes>, RelayFault>,
    out: &mut Vec<u8>,
) -> Result<(), RelayFault>
    ensures sent { OnOk result (IsSent id frames out.old.items out.new.items) }
    ensures unsent { IfErr result (IsUnsent frames out.old.items out.new.items) }
{
    match frames {
        Ok(frames) => Ok(push_frames(alloc, out, "frame", id, &frames)?),
        Err(RelayFault::Oversize { bytes }) => Ok(push_oversize(alloc, out, id, bytes)?),
        Err(fault) => Err(fault),
    }
}

fn carry(relay: &mut Relay, id: SubId, opening: &[u8]) -> Result<(), RelayFault>
    ensures { (text : List ℕ) → Takes (made_by (carry_call (state_of relay.old) id.0 opening.now))
        (state_of relay.old) (state_of relay.new) text text result }
{
    relay.carry(id, opening)
}

fn client(relay: &mut Relay, id: SubId, opening: &[u8]) -> Result<(), RelayFault>
    ensures { (text : List ℕ) → Takes (made_by (client_call (state_of relay.old) id.0 opening.now))
        (state_of relay.old) (state_of relay.new) text text result }
{
    relay.client(id, opening)
}

fn origin(relay: &mut Relay, id: SubId, frame: &[u8]) -> Result<(), RelayFault>
    ensures { (text : List ℕ) → Takes (made_by (origin_call (state_of relay.old) id.0 frame.now))
        (state_of relay.old) (state_of relay.new) text text result }
{
    relay.origin(id, frame)
}

fn leave(relay: &mut Relay, id: SubId) -> Result<(), RelayFault>
    ensures { (text : List ℕ) → Takes (made_by (leave_call (state_of relay.old) id.0))
        (state_of relay.old) (state_of relay.new) text text result }
{
    relay.leave(id)
}

fn drain(alloc: Global, relay: &mut Relay, id: SubId, out: &mut Vec<u8>) -> Result<(), RelayFault>
    ensures { Takes (made_by (drain_call (state_of relay.old) id.0)) (state_of relay.old)
        (state_of relay.new) out.old.items out.new.items result }
{
    let frames = relay.drain(id);
    push_sent(alloc, id.0, frames, out)
}

fn take_line(
    alloc: Global,
    relay: &mut Relay,
    line: RelayLine,
    out: &mut Vec<u8>,
) -> Result<(), RelayFault>
    ensures { Takes (line_call (state_of relay.old) line) (state_of relay.old) (state_of relay.new)
        out.old.items out.new.items result }
{
    match line {
        RelayLine::Blank => Ok(()),
        RelayLine::Carry { id, opening } => carry(relay, id, opening.as_slice()),
        RelayLine::Client { id, opening } => client(relay, id, opening.as_slice()),
        RelayLine::Frame { id, frame } => origin(relay, id, frame.as_slice()),
        RelayLine::Drain { id } => drain(alloc, relay, id, out),
        RelayLine::Leave { id } => leave(relay, id),
    }
}

// Writes the refusal of a line, unless memory ran out.
fn refuse(alloc: Global, number: u64, fault: RowFault, out: &mut Vec<u8>) -> Result<(), AllocError>
    ensures fault { OnOk result (fault ≢ rows.Refused RelayFault.Memory) }
    ensures writes { OnOk result (out.new.items
        ≡ out.old.items ++ fault_line number (row_fault_text fault)) }
{
    match fault {
        RowFault::Refused(RelayFault::Memory) => Err(AllocError),
        fault => push_refused(alloc, out, number, &fault),
    }
}

/// Takes a row, writes its output, and returns whether it was refused.
pub(crate) fn take_row(
    alloc: Global,
    relay: &mut Relay,
    number: u64,
    row: Option<&[u8]>,
    out: &mut Vec<u8>,
) -> Result<bool, AllocError>
    ensures { IfOk result (TookRow number (option_copied row.entry) (state_of relay.old)
        (state_of relay.new) out.old.items out.new.items) }
{
    let line = match read_relay_row(alloc, row) {
        Ok(line) => line,
        Err(fault) => {
            refuse(alloc, number, fault, out)?;
            return Ok(true);
        }
    };
    match take_line(alloc, relay, line, out) {
        Ok(()) => Ok(false),
        Err(fault) => {
            refuse(alloc, number, RowFault::Refused(fault), out)?;
            Ok(true)
        }
    }
}
