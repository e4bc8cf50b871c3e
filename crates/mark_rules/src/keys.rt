// The keys of the rows that views are joined from. Keys compare field by field; the name precedes
// the namespace, which most keys share.
use mesh_base::copied::Copied;
use mesh_base::key::ObjKey;
use mesh_base::memory::Memory;
use mesh_base::text::Text;
use std::alloc::Global;
use view_types::query::Target;

/// The key of the endpoints of a Service port.
#[derive(PartialEq, Eq, PartialOrd, Ord, Hash)]
pub struct EndpointKey {
    pub name: Text,
    pub ns: Text,
    pub port: u16,
}

/// Written by hand, as that of `Text`.
impl Drop for EndpointKey {
    fn drop(self) {
        let EndpointKey {
            name: _name,
            ns: _ns,
            port: _,
        } = self;
    }
}

/// The key of a target's profile, for a client in this namespace if it declares one.
#[derive(PartialEq, Eq, PartialOrd, Ord, Hash)]
pub struct ProfileKey {
    pub target: Target,
    pub client: Option<Text>,
}

/// Written by hand, as that of `Text`.
impl Drop for ProfileKey {
    fn drop(self) {
        let ProfileKey {
            target: _target,
            client: _client,
        } = self;
    }
}

/// The key of the protocol, the policy and the Server of a port of a Pod.
#[derive(PartialEq, Eq, PartialOrd, Ord, Hash)]
pub struct ServerKey {
    pub pod: Text,
    pub ns: Text,
    pub port: u16,
}

/// Written by hand, as that of `Text`.
impl Drop for ServerKey {
    fn drop(self) {
        let ServerKey {
            pod: _pod,
            ns: _ns,
            port: _,
        } = self;
    }
}

/// The key of a Server's routes.
#[derive(PartialEq, Eq, PartialOrd, Ord, Hash)]
pub struct RouteKey {
    pub server: Text,
    pub ns: Text,
}

/// Written by hand, as that of `Text`.
impl Drop for RouteKey {
    fn drop(self) {
        let RouteKey {
            server: _server,
            ns: _ns,
        } = self;
    }
}

/// The key of any row.
#[derive(Drop)]
pub enum RowKey {
    Endpoint(EndpointKey),
    Profile(ProfileKey),
    Server(ServerKey),
    Route(RouteKey),
    /// The authorizations of a Server or of a route.
    Authz(ObjKey),
    Outbound(Target),
}

impl Copied for EndpointKey {
    fn copy(&self, _alloc: Global) -> Result<EndpointKey, Memory> {
        Ok(EndpointKey {
            ns: self.ns.copy()?,
            name: self.name.copy()?,
            port: self.port,
        })
    }
}

impl Copied for ProfileKey {
    fn copy(&self, alloc: Global) -> Result<ProfileKey, Memory> {
        Ok(ProfileKey {
            target: self.target.copy(alloc)?,
            client: self.client.copy(alloc)?,
        })
    }
}

impl Copied for ServerKey {
    fn copy(&self, _alloc: Global) -> Result<ServerKey, Memory> {
        Ok(ServerKey {
            ns: self.ns.copy()?,
            pod: self.pod.copy()?,
            port: self.port,
        })
    }
}

impl Copied for RouteKey {
    fn copy(&self, _alloc: Global) -> Result<RouteKey, Memory> {
        Ok(RouteKey {
            ns: self.ns.copy()?,
            server: self.server.copy()?,
        })
    }
}
