ghost use Rattle.feed_history.specs.Drains.{IsOrMemory, frame_within, frames_within};

use crate::refusal::HubFault;
use bytes::Bytes;
use mesh_base::list::List;
use proto_wire::frame::frame;
use proxy_proto::writing::write_message;
use std::alloc::Global;
use view_types::message::Message;

// Returns the frame of a message, unless the message is longer than the limit.
fn frame_within(alloc: Global, limit: u32, message: &Message) -> Result<Bytes, HubFault>
    ensures { IsOrMemory (frame_within limit message.now) result }
{
    let bytes = write_message(alloc, message)?;
    if bytes.len() > limit as usize {
        return Err(HubFault::Oversize {
            bytes: bytes.len() as u64,
        });
    }
    match frame(alloc, bytes.as_slice()) {
        Ok(frame) => Ok(frame),
        Err(_) => Err(HubFault::Memory),
    }
}

/// Returns the frames of messages, or the length of the first message that is longer than the
/// limit.
pub fn frames_within(
    alloc: Global,
    limit: u32,
    messages: &[Message],
) -> Result<List<Bytes>, HubFault>
    ensures { IsOrMemory (frames_within limit messages.now) result }
{
    let mut frames = List::new(alloc);
    for message in messages {
        frames.add(frame_within(alloc, limit, message)?)?;
    }
    Ok(frames)
}
