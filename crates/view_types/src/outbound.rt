ghost use Rattle.std.specs.Prelude.{◌≡◌, ◌↔◌, IfOk, IsTrue};

use crate::endpoint::EndpointRow;
use crate::profile::{Override, ProfileRoute};
use crate::server_view::RouteRow;
use mesh_base::boxed::Boxed;
use mesh_base::copied::Copied;
use mesh_base::list::List;
use mesh_base::memory::Memory;
use mesh_base::same::Same;
use mesh_base::text::Text;
use std::alloc::Global;

/// The profile of a target.
pub struct ProfileView {
    /// The full name of the Service, or empty.
    pub fqn: Text,
    pub opaque: bool,
    pub routes: List<ProfileRoute>,
    pub overrides: List<Override>,
    pub endpoint: Option<Boxed<EndpointRow>>,
}

/// Written by hand, as that of `Text`.
impl Drop for ProfileView {
    fn drop(self) {
        let ProfileView {
            fqn: _fqn,
            opaque: _,
            routes: _routes,
            overrides: _overrides,
            endpoint: _endpoint,
        } = self;
    }
}

/// The outbound view of a target.
pub enum OutboundView {
    Absent,
    Forward {
        endpoint: Boxed<EndpointRow>,
        opaque: bool,
    },
    Service {
        ns: Text,
        name: Text,
        port: u16,
        opaque: bool,
        routes: List<RouteRow>,
    },
}

/// Written by hand, as that of `Text`.
impl Drop for OutboundView {
    fn drop(self) {
        match self {
            OutboundView::Absent => {}
            OutboundView::Forward {
                endpoint: _endpoint,
                opaque: _opaque,
            } => {}
            OutboundView::Service {
                ns: _ns,
                name: _name,
                port: _port,
                opaque: _opaque,
                routes: _routes,
            } => {}
        }
    }
}

impl Copied for ProfileView {
    fn copy(&self, alloc: Global) -> Result<ProfileView, Memory> {
        Ok(ProfileView {
            fqn: self.fqn.copy()?,
            opaque: self.opaque,
            routes: self.routes.copy(alloc)?,
            overrides: self.overrides.copy(alloc)?,
            endpoint: self.endpoint.copy(alloc)?,
        })
    }
}

impl Same for ProfileView {
    fn is_same(&self, other: &ProfileView) -> bool {
        self.fqn.is_same(&other.fqn)
            && self.opaque.is_same(&other.opaque)
            && self.routes.is_same(&other.routes)
            && self.overrides.is_same(&other.overrides)
            && self.endpoint.is_same(&other.endpoint)
    }
}

impl Copied for OutboundView {
    fn copy(&self, alloc: Global) -> Result<OutboundView, Memory> {
        match self {
            OutboundView::Absent => Ok(OutboundView::Absent),
            OutboundView::Forward { endpoint, opaque } => Ok(OutboundView::Forward {
                endpoint: endpoint.copy(alloc)?,
                opaque: *opaque,
            }),
            OutboundView::Service {
                ns,
                name,
                port,
                opaque,
                routes,
            } => Ok(OutboundView::Service {
                ns: ns.copy()?,
                name: name.copy()?,
                port: *port,
                opaque: *opaque,
                routes: routes.copy(alloc)?,
            }),
        }
    }
}

impl Same for OutboundView {
    fn is_same(&self, other: &OutboundView) -> bool {
        match (self, other) {
            (OutboundView::Absent, OutboundView::Absent) => true,
            (
                OutboundView::Forward { endpoint, opaque },
                OutboundView::Forward {
                    endpoint: other_endpoint,
                    opaque: other_opaque,
                },
            ) => endpoint.is_same(other_endpoint) && opaque.is_same(other_opaque),
            (
                OutboundView::Service {
                    ns,
                    name,
                    port,
                    opaque,
                    routes,
                },
                OutboundView::Service {
                    ns: other_ns,
                    name: other_name,
                    port: other_port,
                    opaque: other_opaque,
                    routes: other_routes,
                },
            ) => ns.is_same(other_ns)
                && name.is_same(other_name)
                && port.is_same(other_port)
                && opaque.is_same(other_opaque)
                && routes.is_same(other_routes),
            _ => false,
        }
    }
}
