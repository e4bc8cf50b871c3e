//! Writing requests.
ghost use Rattle.std.specs.Prelude.{◌≡◌, ◌++◌, OnOk, IfOk};
ghost use Rattle.proto_wire.specs.Wire.{spelling};
ghost use Rattle.request_writing.specs.Requests.{canonical_request, destination_records, port_records, request_records, traffic_records};

use crate::request::{ClientRequest, GetDestination, PortSpec, TrafficSpec};
use bytes::Bytes;
use mesh_base::memory::Memory;
use proto_wire::front::FrontBytes;
use proto_wire::writing::put_chunk;
use proxy_proto::fields::{put_number_field, put_text_field};
use proxy_proto::part::write_in;
use std::alloc::Global;

#[tactic(auto, using(proto_wire::proofs::Spellings::spellings), unfolding(crate::specs::Requests::destination_records))]
fn put_destination(out: &mut FrontBytes, destination: &GetDestination) -> Result<(), Memory>
    ensures { OnOk result (out.new ≡ spelling (destination_records destination.now) ++ out.old) }
{
    put_text_field(out, 3, destination.token.as_bytes())?;
    put_text_field(out, 2, destination.path.as_bytes())
}

#[tactic(auto, using(proto_wire::proofs::Spellings::spellings), unfolding(crate::specs::Requests::port_records))]
fn put_port(out: &mut FrontBytes, spec: &PortSpec) -> Result<(), Memory>
    ensures { OnOk result (out.new ≡ spelling (port_records spec.now) ++ out.old) }
{
    put_number_field(out, 2, spec.port as u64)?;
    put_text_field(out, 1, spec.workload.as_bytes())
}

#[tactic(auto, using(proto_wire::proofs::Spellings::spellings), unfolding(crate::specs::Requests::traffic_records))]
fn put_traffic(out: &mut FrontBytes, spec: &TrafficSpec) -> Result<(), Memory>
    ensures { OnOk result (out.new ≡ spelling (traffic_records spec.now) ++ out.old) }
{
    match spec {
        TrafficSpec::Addr { ip, port } => write_in(out, 2, &(*ip, *port)),
        TrafficSpec::Authority(authority) => put_chunk(out, 3, authority.as_bytes()),
    }
}

fn put_request(out: &mut FrontBytes, request: &ClientRequest) -> Result<(), Memory>
    ensures { OnOk result (out.new ≡ spelling (request_records request.now) ++ out.old) }
{
    match request {
        ClientRequest::Get(destination) => put_destination(out, destination),
        ClientRequest::GetProfile(destination) => put_destination(out, destination),
        ClientRequest::WatchPort(spec) => put_port(out, spec),
        ClientRequest::Watch(spec) => put_traffic(out, spec),
        ClientRequest::WatchPort2(spec) => put_port(out, spec),
    }
}

/// Writes the canonical encoding of a request.
#[tactic(auto, using(proto_wire::proofs::Spellings::spellings))]
pub fn write_request(alloc: Global, request: &ClientRequest) -> Result<Bytes, Memory>
    ensures { IfOk result (λ bytes. bytes ≡ canonical_request request.now) }
{
    let mut out = FrontBytes::with_room(alloc, 256)?;
    put_request(&mut out, request)?;
    Ok(Bytes::copy_from_slice(alloc, out.as_slice())?)
}
