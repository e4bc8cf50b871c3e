ghost use Rattle.std.specs.Prelude.{◌≡◌, IfOk};

use k8s_meta::meta::Meta;
use mesh_base::copied::Copied;
use mesh_base::list::List;
use mesh_base::memory::Memory;
use mesh_base::text::Text;
use net_cidr::ip::Ip;
use std::alloc::Global;

/// A named port of a Service, an EndpointSlice or a container.
#[derive(Drop)]
pub struct NamedPort {
    /// Empty if the port has no name.
    pub name: Text,
    /// From 1 to 65535.
    pub port: u16,
    /// Whether the protocol is TCP.
    pub tcp: bool,
}

/// A Service, v1.
#[derive(Drop)]
pub struct Service {
    pub meta: Meta,
    /// Whether the type is ExternalName.
    pub external: bool,
    /// The cluster IPs, each once.
    pub addrs: List<Ip>,
    pub ports: List<NamedPort>,
}

impl Copied for NamedPort {
    fn copy(&self, _alloc: Global) -> Result<NamedPort, Memory> {
        Ok(NamedPort {
            name: self.name.copy()?,
            port: self.port,
            tcp: self.tcp,
        })
    }
}

impl Copied for Service {
    fn copy(&self, alloc: Global) -> Result<Service, Memory> {
        Ok(Service {
            meta: self.meta.copy(alloc)?,
            external: self.external,
            addrs: self.addrs.copy(alloc)?,
            ports: self.ports.copy(alloc)?,
        })
    }
}
