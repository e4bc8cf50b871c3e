ghost use Rattle.std.specs.Prelude.{IfOk};
ghost use Rattle.feed_history.specs.Optional.{Becomes, Extends};
ghost use Rattle.mesh_hub.specs.Due.{Leaves};
ghost use Rattle.feed_step.specs.Transcript.{reply_text};
ghost use Rattle.feed_step.specs.LineStep.{Drains, IsUndrained, Replied, drain_refusal};

use crate::frames::{FrameWriter, push_frames};
use feed_history::refusal::HubFault;
use feed_history::text::push_oversize;
use mesh_base::memory::Memory;
use mesh_base::sub_id::SubId;
use mesh_hub::machine::Machine;
use std::alloc::Global;

/// The outcome of a drain.
#[derive(Drop)]
pub enum Drained {
    /// The frames were written.
    Sent,
    /// A message is too long. Its length was written, and the subscription has ended.
    Ended,
    /// Nothing was written.
    Undrained(HubFault),
}

// Returns the outcome of a drain that a fault ended.
fn undrained(
    alloc: Global,
    id: SubId,
    fault: HubFault,
    out: &mut Vec<u8>,
) -> Result<Drained, Memory>
    ensures { IfOk result (IsUndrained id.0 fault out.old.items out.new.items) }
{
    match fault {
        HubFault::Memory => Err(Memory),
        HubFault::Oversize { bytes } => {
            push_oversize(alloc, out, id.0, bytes)?;
            Ok(Drained::Ended)
        }
        fault => Ok(Drained::Undrained(fault)),
    }
}

/// Drains an id and writes its frames, or the length of a message that is too long.
#[tactic(auto, using(feed_history::proofs::Optional::grows_extends))]
pub fn drain<H: Machine>(
    writer: &mut FrameWriter,
    hub: &mut H,
    id: SubId,
    out: &mut Vec<u8>,
) -> Result<Drained, Memory>
    ensures state { IfOk result (λ outcome.
        Becomes (H.state hub.old) (H.state hub.new)
        (Drains id outcome out.old.items out.new.items)) }
    ensures due { IfOk result (λ outcome. Becomes (H.due hub.old) (H.due hub.new) (Leaves id.0)) }
    ensures replies { IfOk result (λ outcome.
        Becomes (H.replies hub.old) (H.replies hub.new)
        (Replied reply_text (drain_refusal outcome) out.old.items out.new.items)) }
    ensures grows { Becomes (H.replies hub.old) (H.replies hub.new) Extends }
{
    match hub.drain(id) {
        Ok(frames) => {
            push_frames(writer, out, id.0, &frames)?;
            Ok(Drained::Sent)
        }
        Err(fault) => undrained(writer.alloc, id, fault, out),
    }
}
