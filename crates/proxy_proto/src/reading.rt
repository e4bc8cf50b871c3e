//! Reading messages.
ghost use Rattle.std.specs.Prelude.{◌≡◌, map, IfOk};
ghost use Rattle.proto_wire.specs.Given.{view_record};
ghost use Rattle.proxy_proto.specs.Given.{Gives};
ghost use Rattle.proxy_proto.specs.MessageReading.{answer_schema, answer_in, message_of, server_update_in, update_in};

use crate::check::check;
use crate::fault::ProtoFault;
use crate::from_records::{FromRecords, read_each, read_in};
use crate::look_up::{flag_in, inside, is_there, records_in};
use crate::table::Schema;
use mesh_base::memory::Memory;
use mesh_base::text::Text;
use net_cidr::ip::Ip;
use proto_wire::scan::RecRef;
use std::alloc::Global;
use view_types::endpoint::EndpointRow;
use view_types::message::Message;
use view_types::outbound::{OutboundView, ProfileView};
use view_types::query::Method;
use view_types::server_view::{AuthzKind, AuthzRow, ServerView};

#[tactic(auto, unfolding(crate::specs::MessageReading::update_in))]
fn read_update(alloc: Global, records: &[RecRef<'_>]) -> Result<Message, Memory>
    ensures { IfOk result (λ message. message ≡ update_in (map view_record records.now)) }
{
    if is_there(records, 1) {
        let set = inside(alloc, records, 1)?;
        return Ok(Message::Add(read_each::<EndpointRow>(alloc, &set, 1)?));
    }
    if is_there(records, 2) {
        let set = inside(alloc, records, 2)?;
        return Ok(Message::Remove(read_each::<(Ip, u16)>(alloc, &set, 1)?));
    }
    let none = inside(alloc, records, 3)?;
    Ok(Message::NoEndpoints(flag_in(&none, 1)))
}

#[tactic(auto, unfolding(crate::specs::MessageReading::server_update_in))]
fn read_server_update(alloc: Global, records: &[RecRef<'_>]) -> Result<Message, Memory>
    ensures { IfOk result (λ message. message ≡ server_update_in (map view_record records.now)) }
{
    if is_there(records, 1) {
        return Ok(Message::Whole(read_in::<ServerView>(alloc, records, 1)?));
    }
    if is_there(records, 2) {
        let set = inside(alloc, records, 2)?;
        return Ok(Message::AuthzPut(read_each::<AuthzRow>(alloc, &set, 1)?));
    }
    let keys = inside(alloc, records, 3)?;
    Ok(Message::AuthzGone(read_each::<(AuthzKind, Text)>(alloc, &keys, 1)?))
}

fn answer_schema(method: Method) -> Schema
    ensures { result ≡ answer_schema method }
{
    match method {
        Method::Get => Schema::Update,
        Method::GetProfile => Schema::DestinationProfile,
        Method::WatchPort => Schema::Server,
        Method::Watch => Schema::OutboundPolicy,
        Method::WatchPort2 => Schema::ServerUpdate,
    }
}

fn read_answer(alloc: Global, method: Method, records: &[RecRef<'_>]) -> Result<Message, Memory>
    ensures { IfOk result (λ message. message ≡ answer_in method (map view_record records.now)) }
{
    match method {
        Method::Get => read_update(alloc, records),
        Method::GetProfile => Ok(Message::Profile(ProfileView::read(alloc, records)?)),
        Method::WatchPort => Ok(Message::Server(ServerView::read(alloc, records)?)),
        Method::Watch => Ok(Message::Outbound(OutboundView::read(alloc, records)?)),
        Method::WatchPort2 => read_server_update(alloc, records),
    }
}

/// Reads a message that answers the method, or returns its first fault.
pub fn read_message(alloc: Global, method: Method, bytes: &[u8]) -> Result<Message, ProtoFault>
    ensures { Gives result (message_of method bytes.now) }
{
    check(alloc, bytes.len() + 1, answer_schema(method), bytes)?;
    let records = records_in(alloc, bytes)?;
    let message = read_answer(alloc, method, &records)?;
    Ok(message)
}
