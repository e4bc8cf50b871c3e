ghost use Rattle.std.specs.Prelude.{◌≡◌, IfOk};

use crate::service::NamedPort;
use k8s_meta::meta::Meta;
use mesh_base::copied::Copied;
use mesh_base::list::List;
use mesh_base::memory::Memory;
use mesh_base::text::Text;
use net_cidr::ip::Ip;
use std::alloc::Global;

/// The type of the addresses of an EndpointSlice.
#[derive(Clone, Copy, PartialEq, Eq)]
pub enum Family {
    V4,
    V6,
    Fqdn,
}

/// An endpoint of an EndpointSlice.
#[derive(Drop)]
pub struct Point {
    /// Empty for host names.
    pub addrs: List<Ip>,
    pub ready: bool,
    /// The namespace and the name of the Pod that it targets.
    pub pod: Option<(Text, Text)>,
}

/// An EndpointSlice, discovery.k8s.io/v1.
#[derive(Drop)]
pub struct Slice {
    pub meta: Meta,
    pub family: Family,
    pub points: List<Point>,
    pub ports: List<NamedPort>,
}

impl Copied for Point {
    fn copy(&self, alloc: Global) -> Result<Point, Memory> {
        Ok(Point {
            addrs: self.addrs.copy(alloc)?,
            ready: self.ready,
            pod: self.pod.copy(alloc)?,
        })
    }
}

impl Copied for Slice {
    fn copy(&self, alloc: Global) -> Result<Slice, Memory> {
        Ok(Slice {
            meta: self.meta.copy(alloc)?,
            family: self.family,
            points: self.points.copy(alloc)?,
            ports: self.ports.copy(alloc)?,
        })
    }
}
