//! Faults of a message's records together.
ghost use Rattle.std.specs.Prelude.{◌≡◌, map, IfOk};
ghost use Rattle.proto_wire.specs.Given.{view_record};
ghost use Rattle.proxy_proto.specs.Faults.{bits_of, zero_fault, whole_fault};
ghost use Rattle.proxy_proto.specs.declared.table.Schema.TheVariants as schemas;

use crate::duration::nanoseconds_in;
use crate::fault::ProtoFault;
use crate::look_up::{inside, is_there, number_in};
use crate::table::Schema;
use mesh_base::memory::Memory;
use proto_wire::scan::RecRef;
use std::alloc::Global;

/// Returns the fault of a message as a whole.
pub fn whole(
    alloc: Global,
    schema: Schema,
    records: &[RecRef<'_>],
) -> Result<Option<ProtoFault>, Memory>
    ensures { IfOk result (λ fault. fault ≡ whole_fault schema (map view_record records.now)) }
{
    match schema {
        Schema::Duration => Ok(of_duration(records)),
        Schema::IpNetwork => of_network(alloc, records),
        Schema::Server => Ok(of_server(records)),
        Schema::Authz => Ok(of_number(records, 1)),
        Schema::AuthzKey => Ok(of_number(records, 1)),
        Schema::HttpRoute => Ok(of_number(records, 1)),
        Schema::PathMatch => Ok(of_number(records, 1)),
        Schema::PortSpec => Ok(of_number(records, 2)),
        _ => Ok(None),
    }
}

/// The fault of a number that is 0 or omitted.
fn of_number(records: &[RecRef<'_>], field: u32) -> Option<ProtoFault>
    ensures { result ≡ zero_fault field (map view_record records.now) }
{
    if number_in(records, field) == 0 {
        return Some(ProtoFault::Range { field });
    }
    None
}

/// The fault of a duration that is too long.
fn of_duration(records: &[RecRef<'_>]) -> Option<ProtoFault>
    ensures { result ≡ whole_fault schemas.Duration (map view_record records.now) }
{
    if nanoseconds_in(records) < 1 << 63 {
        return None;
    }
    Some(ProtoFault::Range { field: 1 })
}

/// Returns the number of bits of the address.
fn bits_of(address: &[RecRef<'_>]) -> u64
    ensures { result ≡ bits_of (map view_record address.now) }
{
    if is_there(address, 1) { 32 } else { 128 }
}

/// The fault of a network whose prefix is longer than its address.
fn of_network(alloc: Global, records: &[RecRef<'_>]) -> Result<Option<ProtoFault>, Memory>
    ensures { IfOk result
        (λ fault. fault ≡ whole_fault schemas.IpNetwork (map view_record records.now)) }
{
    if !is_there(records, 1) {
        return Ok(None);
    }
    let address = inside(alloc, records, 1)?;
    if number_in(records, 2) > bits_of(&address) {
        return Ok(Some(ProtoFault::Range { field: 2 }));
    }
    Ok(None)
}

/// The fault of a Server that has a protocol and no policy.
fn of_server(records: &[RecRef<'_>]) -> Option<ProtoFault>
    ensures { result ≡ whole_fault schemas.Server (map view_record records.now) }
{
    if number_in(records, 1) == 0 {
        return None;
    }
    of_number(records, 2)
}
