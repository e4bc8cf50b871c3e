//! Writing messages.
ghost use Rattle.std.specs.Prelude.{◌≡◌, IfOk};
ghost use Rattle.proto_wire.specs.Frames.{frame_of};
ghost use Rattle.proxy_proto.specs.Messages.{message_records, canonical};

use crate::fields::put_bool_field;
use crate::part::{Part, write_each, write_in};
use bytes::Bytes;
use mesh_base::memory::Memory;
use proto_wire::frame::frame;
use proto_wire::front::FrontBytes;
use proto_wire::writing::put_head;
use std::alloc::Global;
use view_types::message::Message;

impl Part for Message {
    ghost records = { message_records };

    #[tactic(auto, using(proto_wire::proofs::Spellings::spellings), unfolding(crate::specs::Messages::message_records))]
    fn write(&self, out: &mut FrontBytes) -> Result<(), Memory> {
        let end = out.len();
        match self {
            Message::Add(rows) => {
                write_each(out, 1, rows.as_slice())?;
                put_head(out, 1, end)
            }
            Message::Remove(pairs) => {
                write_each(out, 1, pairs.as_slice())?;
                put_head(out, 2, end)
            }
            Message::NoEndpoints(exists) => {
                put_bool_field(out, 1, *exists)?;
                put_head(out, 3, end)
            }
            Message::Profile(view) => view.write(out),
            Message::Server(view) => view.write(out),
            Message::Outbound(view) => view.write(out),
            Message::Whole(view) => write_in(out, 1, view),
            Message::AuthzPut(rows) => {
                write_each(out, 1, rows.as_slice())?;
                put_head(out, 2, end)
            }
            Message::AuthzGone(keys) => {
                write_each(out, 1, keys.as_slice())?;
                put_head(out, 3, end)
            }
        }
    }
}

/// Returns a capacity in bytes that is enough for most messages with this number of rows. A longer
/// message is moved as it grows.
fn room_for(message: &Message) -> usize {
    match message {
        Message::Add(rows) => rows.len().saturating_mul(512),
        Message::Remove(pairs) => pairs.len().saturating_mul(32),
        Message::AuthzPut(rows) => rows.len().saturating_mul(256),
        Message::AuthzGone(keys) => keys.len().saturating_mul(64),
        _ => 1024,
    }
}

#[tactic(auto, using(proto_wire::proofs::Spellings::spellings))]
fn written(alloc: Global, message: &Message) -> Result<FrontBytes, Memory>
    ensures { IfOk result (λ bytes. bytes ≡ canonical message.now) }
{
    let mut out = FrontBytes::with_room(alloc, room_for(message))?;
    message.write(&mut out)?;
    Ok(out)
}

/// Returns the canonical encoding of a message.
pub fn write_message(alloc: Global, message: &Message) -> Result<Bytes, Memory>
    ensures { IfOk result (λ bytes. bytes ≡ canonical message.now) }
{
    let out = written(alloc, message)?;
    Ok(Bytes::copy_from_slice(alloc, out.as_slice())?)
}

/// Returns the frame that carries a message. Returns `Memory` also for a message of 2^32 bytes or
/// more, which no frame can hold.
pub fn frame_message(alloc: Global, message: &Message) -> Result<Bytes, Memory>
    ensures { IfOk result (λ bytes. bytes ≡ frame_of (canonical message.now)) }
{
    let out = written(alloc, message)?;
    if out.len() > u32::MAX as usize {
        return Err(Memory);
    }
    match frame(alloc, out.as_slice()) {
        Ok(bytes) => Ok(bytes),
        Err(_) => Err(Memory),
    }
}
