//! Reading requests.
ghost use Rattle.std.specs.Prelude.{◌≡◌, map, Some};
ghost use Rattle.mesh_text.specs.Workloads.{workload_of};
ghost use Rattle.proto_wire.specs.Given.{view_record};
ghost use Rattle.view_types.specs.Ports.{query_by_rows, query_whole};
ghost use Rattle.view_types.specs.declared.query.Method.TheVariants as methods;
ghost use Rattle.proxy_proto.specs.Given.{Gives};
ghost use Rattle.proxy_proto.specs.RequestReading.{endpoints_query, port_of, port_query, request_schema, query_in, request_of};
ghost use Rattle.proxy_proto.specs.LookUps.{chunk_in, number_below};

use crate::check::check;
use crate::fault::ProtoFault;
use crate::from_records::read_in;
use crate::look_up::{chunk_in, is_there, records_in, u16_in};
use crate::table::Schema;
use mesh_text::target_text::{TargetFault, read_target};
use mesh_text::token::read_context;
use mesh_text::workload_text::read_workload;
use net_cidr::ip::Ip;
use net_cidr::packed_ip::PackedIp;
use proto_wire::scan::RecRef;
use std::alloc::Global;
use view_types::config::Config;
use view_types::query::{Context, Method, PodPort, Query, Target};

fn endpoints_query(target: Target, ctx: Context) -> Result<Query, ProtoFault>
    ensures { Gives result (endpoints_query (Some target) ctx) }
{
    match target {
        Target::Service { ns, name, port } => Ok(Query::Get {
            ns,
            name,
            port,
            ctx,
        }),
        Target::Address { .. } => Err(ProtoFault::BadAuthority),
    }
}

fn read_endpoints_query(
    alloc: Global,
    records: &[RecRef<'_>],
    config: &Config,
) -> Result<Query, ProtoFault>
    ensures { Gives result (query_in config.now methods.Get (map view_record records.now)) }
{
    let ctx = read_context(alloc, chunk_in(records, 3))?;
    match read_target(alloc, chunk_in(records, 2), config) {
        Ok(target) => endpoints_query(target, ctx),
        Err(TargetFault::Bad) => Err(ProtoFault::BadAuthority),
        Err(TargetFault::Memory) => Err(ProtoFault::Memory),
    }
}

fn read_profile_query(
    alloc: Global,
    records: &[RecRef<'_>],
    config: &Config,
) -> Result<Query, ProtoFault>
    ensures { Gives result (query_in config.now methods.GetProfile (map view_record records.now)) }
{
    let ctx = read_context(alloc, chunk_in(records, 3))?;
    match read_target(alloc, chunk_in(records, 2), config) {
        Ok(target) => Ok(Query::Profile { target, ctx }),
        Err(TargetFault::Bad) => Err(ProtoFault::BadAuthority),
        Err(TargetFault::Memory) => Err(ProtoFault::Memory),
    }
}

fn read_port(alloc: Global, records: &[RecRef<'_>]) -> Result<PodPort, ProtoFault>
    ensures { Gives result
        (port_of (workload_of (chunk_in 1 (map view_record records.now)))
        (number_below 65536 2 (map view_record records.now))) }
{
    let port = u16_in(records, 2);
    match read_workload(alloc, chunk_in(records, 1)) {
        Ok((ns, pod)) => Ok(PodPort { ns, pod, port }),
        Err(TargetFault::Bad) => Err(ProtoFault::BadWorkload),
        Err(TargetFault::Memory) => Err(ProtoFault::Memory),
    }
}

fn read_port_query(alloc: Global, records: &[RecRef<'_>]) -> Result<Query, ProtoFault>
    ensures { Gives result (port_query query_whole (map view_record records.now)) }
{
    match read_port(alloc, records) {
        Ok(port) => Ok(port.whole()),
        Err(fault) => Err(fault),
    }
}

fn read_port_rows_query(alloc: Global, records: &[RecRef<'_>]) -> Result<Query, ProtoFault>
    ensures { Gives result (port_query query_by_rows (map view_record records.now)) }
{
    match read_port(alloc, records) {
        Ok(port) => Ok(port.by_rows()),
        Err(fault) => Err(fault),
    }
}

/// Returns the address of a request, whose port may be any, or else the target of its authority.
#[tactic(auto, unfolding(crate::specs::RequestReading::traffic_target))]
fn read_traffic_query(
    alloc: Global,
    records: &[RecRef<'_>],
    config: &Config,
) -> Result<Query, ProtoFault>
    ensures { Gives result (query_in config.now methods.Watch (map view_record records.now)) }
{
    if is_there(records, 2) {
        let (ip, port) = read_in::<(Ip, u16)>(alloc, records, 2)?;
        return Ok(Query::Traffic {
            target: Target::Address {
                ip: PackedIp::new(ip),
                port,
            },
        });
    }
    match read_target(alloc, chunk_in(records, 3), config) {
        Ok(target) => Ok(Query::Traffic { target }),
        Err(TargetFault::Bad) => Err(ProtoFault::BadAuthority),
        Err(TargetFault::Memory) => Err(ProtoFault::Memory),
    }
}

fn request_schema(method: Method) -> Schema
    ensures { result ≡ request_schema method }
{
    match method {
        Method::Get => Schema::GetDestination,
        Method::GetProfile => Schema::GetDestination,
        Method::WatchPort => Schema::PortSpec,
        Method::Watch => Schema::TrafficSpec,
        Method::WatchPort2 => Schema::PortSpec,
    }
}

fn read_query(
    alloc: Global,
    method: Method,
    records: &[RecRef<'_>],
    config: &Config,
) -> Result<Query, ProtoFault>
    ensures { Gives result (query_in config.now method (map view_record records.now)) }
{
    match method {
        Method::Get => read_endpoints_query(alloc, records, config),
        Method::GetProfile => read_profile_query(alloc, records, config),
        Method::WatchPort => read_port_query(alloc, records),
        Method::Watch => read_traffic_query(alloc, records, config),
        Method::WatchPort2 => read_port_rows_query(alloc, records),
    }
}

/// Reads the query of a request to the method, or returns the first fault of the request.
pub fn read_request(
    alloc: Global,
    method: Method,
    bytes: &[u8],
    config: &Config,
) -> Result<Query, ProtoFault>
    ensures { Gives result (request_of config.now method bytes.now) }
{
    check(alloc, bytes.len() + 1, request_schema(method), bytes)?;
    let records = records_in(alloc, bytes)?;
    read_query(alloc, method, &records, config)
}
