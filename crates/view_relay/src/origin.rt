// The frames of the origin.
ghost use Rattle.std.specs.Prelude.{◌≡◌};
ghost use Rattle.view_relay.specs.Accepted.{as_read, message_within, method_for};
ghost use Rattle.proxy_proto.specs.MessageReading.{message_of};
ghost use Rattle.view_relay.specs.Given.{Gives, IsAs};

use crate::fault::RelayFault;
use output_fold::fault::FoldFault;
use output_fold::frame::message_in;
use proto_wire::fault::WireFault;
use proxy_proto::fault::ProtoFault;
use proxy_proto::reading::read_message;
use std::alloc::Global;
use view_types::message::Message;
use view_types::query::{Method, Query};

/// Returns the message in bytes that are one frame, if it is not longer than the limit.
pub(crate) fn message_within(limit: u32, frame: &[u8]) -> Result<&[u8], RelayFault>
    ensures { IsAs (λ message. message.now) result (message_within limit frame.now) }
{
    match message_in(frame) {
        Ok(message) => {
            if message.len() > limit as usize {
                Err(RelayFault::NotLine)
            } else {
                Ok(message)
            }
        }
        Err(FoldFault::Compressed) => Err(RelayFault::Wire(WireFault::Compressed)),
        Err(_) => Err(RelayFault::NotLine),
    }
}

fn method_for(query: &Query) -> Method
    ensures { result ≡ method_for query.now }
{
    match query {
        Query::Get { .. } => Method::Get,
        Query::Profile { .. } => Method::GetProfile,
        Query::Port { .. } => Method::WatchPort,
        Query::Traffic { .. } => Method::Watch,
        Query::PortRows { .. } => Method::WatchPort2,
    }
}

/// Reads a message of a stream with the query.
pub(crate) fn read(alloc: Global, query: &Query, message: &[u8]) -> Result<Message, RelayFault>
    ensures { Gives result (as_read (message_of (method_for query.now) message.now)) }
{
    match read_message(alloc, method_for(query), message) {
        Ok(message) => Ok(message),
        Err(ProtoFault::Memory) => Err(RelayFault::Memory),
        Err(fault) => Err(RelayFault::Proto(fault)),
    }
}
