// The index of outbound views.
use crate::follower::{Follower, Writing};
use mesh_base::memory::Memory;
use mesh_base::text::Text;
use net_cidr::ip::Ip;
use net_cidr::packed_ip::PackedIp;
use outbound_index::index::{OutboundIndex, new_index};
use row_file::TrialFault;
use std::alloc::Global;
use view_types::config::Config;
use view_types::endpoint::EndpointRow;
use view_types::outbound::OutboundView;
use view_types::query::Target;
use view_types::server_view::RouteRow;

#[derive(Drop)]
pub(crate) struct Views;

impl Writing<Target, OutboundView> for Views {
    fn letters(&self) -> &'static str {
        "w h s p"
    }

    fn key(&self, alloc: Global, letter: &str) -> Result<Target, TrialFault> {
        match letter {
            "w" => web(alloc, 80),
            "h" => web(alloc, 81),
            "s" => Ok(at(0x0a60_000a)),
            "p" => Ok(at(0x0a01_0203)),
            _ => Err(TrialFault::new("no key has this letter")),
        }
    }

    fn push_row(&self, all: &mut String, row: &OutboundView) -> Result<(), TrialFault> {
        match row {
            OutboundView::Absent => Ok(all.push_str("none")?),
            OutboundView::Forward { endpoint, .. } => push_pod(all, endpoint.get()),
            OutboundView::Service { name, routes, .. } => {
                all.push_str(name.as_str())?;
                for route in routes.as_slice() {
                    push_route(all, route)?;
                }
                Ok(())
            }
        }
    }
}

fn web(alloc: Global, port: u16) -> Result<Target, TrialFault> {
    Ok(Target::Service {
        ns: Text::from_str(alloc, "app")?,
        name: Text::from_str(alloc, "web")?,
        port,
    })
}

fn at(ip: u32) -> Target {
    Target::Address {
        ip: PackedIp::new(Ip::V4(ip)),
        port: 80,
    }
}

fn push_pod(all: &mut String, endpoint: &EndpointRow) -> Result<(), TrialFault> {
    all.push_str(">")?;
    if let Some(name) = endpoint.labels.get(b"pod") {
        all.push_str(name.as_str())?;
    }
    Ok(())
}

fn push_route(all: &mut String, route: &RouteRow) -> Result<(), TrialFault> {
    all.push_str("+")?;
    all.push_str(route.name.as_str())?;
    for rule in route.rules.as_slice() {
        all.push_str("(")?;
        for backend in rule.backends.as_slice() {
            all.push_str(backend.name.as_str())?;
            if backend.missing {
                all.push_str("-")?;
            }
        }
        all.push_str(")")?;
    }
    Ok(())
}

/// Returns an index without users, and the objects of these lines.
pub(crate) fn new_views(alloc: Global, objects: &str) -> Result<Follower<OutboundIndex>, Memory> {
    let config = Config::usual(alloc)?;
    let index = new_index(alloc, &config)?;
    Follower::new(alloc, objects, config, index)
}
