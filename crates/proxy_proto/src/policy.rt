//! Policies as messages: those of Pod ports, and those of targets.
ghost use Rattle.std.specs.Prelude.{◌≡◌, ◌++◌, OnOk};
ghost use Rattle.view_types.specs.Numbers.{policy_number, protocol_number};
ghost use Rattle.proto_wire.specs.Wire.{spelling};
ghost use Rattle.proxy_proto.specs.Policies.{server_row_records, server_records, service_records, forward_records, outbound_records};

use crate::fields::{
    put_bool_field, put_number_field, put_optional_text, put_text_field, put_texts,
};
use crate::part::{Part, write_each, write_in};
use mesh_base::list::List;
use mesh_base::memory::Memory;
use mesh_base::text::Text;
use proto_wire::front::FrontBytes;
use proto_wire::writing::{put_chunk, put_head};
use view_types::endpoint::EndpointRow;
use view_types::outbound::OutboundView;
use view_types::policy::{Policy, Protocol};
use view_types::server_view::{RouteRow, ServerRow, ServerView};

fn protocol_number(protocol: Protocol) -> u64
    ensures { result ≡ protocol_number protocol }
{
    match protocol {
        Protocol::Unknown => 1,
        Protocol::Http1 => 2,
        Protocol::Http2 => 3,
        Protocol::Grpc => 4,
        Protocol::Opaque => 5,
        Protocol::Tls => 6,
    }
}

fn policy_number(policy: Policy) -> u64
    ensures { result ≡ policy_number policy }
{
    match policy {
        Policy::AllUnauthenticated => 1,
        Policy::AllAuthenticated => 2,
        Policy::ClusterUnauthenticated => 3,
        Policy::ClusterAuthenticated => 4,
        Policy::Deny => 5,
        Policy::Audit => 6,
    }
}

impl Part for ServerRow {
    ghost records = { server_row_records };

    #[tactic(auto, using(proto_wire::proofs::Spellings::spellings), unfolding(crate::specs::Policies::server_row_records))]
    fn write(&self, out: &mut FrontBytes) -> Result<(), Memory> {
        put_texts(out, 6, self.probes.as_slice())?;
        write_each(out, 5, self.routes.as_slice())?;
        write_each(out, 4, self.authz.as_slice())?;
        put_optional_text(out, 3, &self.server)?;
        put_number_field(out, 2, policy_number(self.policy))?;
        put_number_field(out, 1, protocol_number(self.protocol))
    }
}

impl Part for ServerView {
    ghost records = { server_records };

    #[tactic(auto, using(proto_wire::proofs::Spellings::spellings))]
    fn write(&self, out: &mut FrontBytes) -> Result<(), Memory> {
        match self {
            ServerView::Absent => Ok(()),
            ServerView::Present(row) => row.write(out),
        }
    }
}

#[tactic(auto, using(proto_wire::proofs::Spellings::spellings), unfolding(crate::specs::Policies::service_records))]
fn put_service(
    out: &mut FrontBytes,
    ns: &Text,
    name: &Text,
    port: u16,
    opaque: bool,
    routes: &List<RouteRow>,
) -> Result<(), Memory>
    ensures { OnOk result
        (out.new ≡ spelling (service_records ns.now name.now port opaque routes.now) ++ out.old) }
{
    write_each(out, 5, routes.as_slice())?;
    put_bool_field(out, 4, opaque)?;
    put_number_field(out, 3, port as u64)?;
    put_text_field(out, 2, name.as_bytes())?;
    put_text_field(out, 1, ns.as_bytes())
}

#[tactic(auto, using(proto_wire::proofs::Spellings::spellings), unfolding(crate::specs::Policies::forward_records))]
fn put_forward(out: &mut FrontBytes, endpoint: &EndpointRow, opaque: bool) -> Result<(), Memory>
    ensures { OnOk result (out.new ≡ spelling (forward_records endpoint.now opaque) ++ out.old) }
{
    put_bool_field(out, 2, opaque)?;
    write_in(out, 1, endpoint)
}

impl Part for OutboundView {
    ghost records = { outbound_records };

    #[tactic(auto, using(proto_wire::proofs::Spellings::spellings), unfolding(crate::specs::Policies::outbound_records))]
    fn write(&self, out: &mut FrontBytes) -> Result<(), Memory> {
        let end = out.len();
        match self {
            OutboundView::Absent => put_chunk(out, 1, &[]),
            OutboundView::Service {
                ns,
                name,
                port,
                opaque,
                routes,
            } => {
                put_service(out, ns, name, *port, *opaque, routes)?;
                put_head(out, 2, end)
            }
            OutboundView::Forward { endpoint, opaque } => {
                put_forward(out, endpoint.get(), *opaque)?;
                put_head(out, 3, end)
            }
        }
    }
}
