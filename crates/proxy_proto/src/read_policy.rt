//! Reading policies.
ghost use Rattle.std.specs.Prelude.{◌≡◌, map, IfOk};
ghost use Rattle.proto_wire.specs.Given.{view_record};
ghost use Rattle.proxy_proto.specs.PolicyReading.{protocol_from, policy_from, server_row_in, server_in, service_in, forward_in, outbound_in};

use crate::from_records::{FromRecords, read_each, read_in};
use crate::look_up::{
    flag_in, inside, is_there, number_in, optional_text_in, text_in, texts_in, u16_in,
};
use mesh_base::boxed::Boxed;
use mesh_base::memory::Memory;
use proto_wire::scan::RecRef;
use std::alloc::Global;
use view_types::endpoint::EndpointRow;
use view_types::outbound::OutboundView;
use view_types::policy::{Policy, Protocol};
use view_types::server_view::{AuthzRow, RouteRow, ServerRow, ServerView};

fn protocol_from(number: u64) -> Protocol
    ensures { result ≡ protocol_from number }
{
    match number {
        1 => Protocol::Unknown,
        2 => Protocol::Http1,
        3 => Protocol::Http2,
        4 => Protocol::Grpc,
        5 => Protocol::Opaque,
        _ => Protocol::Tls,
    }
}

fn policy_from(number: u64) -> Policy
    ensures { result ≡ policy_from number }
{
    match number {
        1 => Policy::AllUnauthenticated,
        2 => Policy::AllAuthenticated,
        3 => Policy::ClusterUnauthenticated,
        4 => Policy::ClusterAuthenticated,
        5 => Policy::Deny,
        _ => Policy::Audit,
    }
}

impl FromRecords for ServerRow {
    ghost said = { server_row_in };

    #[tactic(auto, unfolding(crate::specs::PolicyReading::server_row_in))]
    fn read(alloc: Global, records: &[RecRef<'_>]) -> Result<ServerRow, Memory> {
        Ok(ServerRow {
            protocol: protocol_from(number_in(records, 1)),
            policy: policy_from(number_in(records, 2)),
            server: optional_text_in(alloc, records, 3)?,
            authz: read_each::<AuthzRow>(alloc, records, 4)?,
            routes: read_each::<RouteRow>(alloc, records, 5)?,
            probes: texts_in(alloc, records, 6)?,
        })
    }
}

impl FromRecords for ServerView {
    ghost said = { server_in };

    #[tactic(auto, unfolding(crate::specs::PolicyReading::server_in))]
    fn read(alloc: Global, records: &[RecRef<'_>]) -> Result<ServerView, Memory> {
        if number_in(records, 1) == 0 {
            return Ok(ServerView::Absent);
        }
        Ok(ServerView::Present(ServerRow::read(alloc, records)?))
    }
}

#[tactic(auto, unfolding(crate::specs::PolicyReading::service_in))]
fn read_service(alloc: Global, records: &[RecRef<'_>]) -> Result<OutboundView, Memory>
    ensures { IfOk result (λ view. view ≡ service_in (map view_record records.now)) }
{
    Ok(OutboundView::Service {
        ns: text_in(alloc, records, 1)?,
        name: text_in(alloc, records, 2)?,
        port: u16_in(records, 3),
        opaque: flag_in(records, 4),
        routes: read_each::<RouteRow>(alloc, records, 5)?,
    })
}

#[tactic(auto, unfolding(crate::specs::PolicyReading::forward_in))]
fn read_forward(alloc: Global, records: &[RecRef<'_>]) -> Result<OutboundView, Memory>
    ensures { IfOk result (λ view. view ≡ forward_in (map view_record records.now)) }
{
    let row = read_in::<EndpointRow>(alloc, records, 1)?;
    Ok(OutboundView::Forward {
        endpoint: Boxed::new(alloc, row)?,
        opaque: flag_in(records, 2),
    })
}

impl FromRecords for OutboundView {
    ghost said = { outbound_in };

    #[tactic(auto, unfolding(crate::specs::PolicyReading::outbound_in))]
    fn read(alloc: Global, records: &[RecRef<'_>]) -> Result<OutboundView, Memory> {
        if is_there(records, 1) {
            return Ok(OutboundView::Absent);
        }
        if is_there(records, 2) {
            let service = inside(alloc, records, 2)?;
            return read_service(alloc, &service);
        }
        let forward = inside(alloc, records, 3)?;
        read_forward(alloc, &forward)
    }
}
