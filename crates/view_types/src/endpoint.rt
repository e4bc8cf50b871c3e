ghost use Rattle.std.specs.Prelude.{◌≡◌, ◌↔◌, IfOk, IsTrue};

use mesh_base::copied::Copied;
use mesh_base::labels::Labels;
use mesh_base::list::List;
use mesh_base::memory::Memory;
use mesh_base::same::Same;
use mesh_base::text::Text;
use net_cidr::ip::Ip;
use std::alloc::Global;

/// An endpoint of a Service.
pub struct EndpointRow {
    pub ip: Ip,
    pub port: u16,
    pub weight: u32,
    pub labels: Labels,
    /// The identity of its proxy, if it has one.
    pub identity: Option<Text>,
    /// The port at which its proxy accepts tunnelled connections.
    pub tunnel: Option<u16>,
    /// Whether it is reached by HTTP/2.
    pub h2: bool,
}

/// Written by hand, as that of `Text`.
impl Drop for EndpointRow {
    fn drop(self) {
        let EndpointRow {
            ip: _ip,
            port: _,
            weight: _,
            labels: _labels,
            identity: _identity,
            tunnel: _tunnel,
            h2: _,
        } = self;
    }
}

/// The endpoints of a Service, by address and port, each pair once. A Service with rows exists.
pub struct EndpointView {
    pub exists: bool,
    pub rows: List<EndpointRow>,
}

/// Written by hand, as that of `Text`.
impl Drop for EndpointView {
    fn drop(self) {
        let EndpointView {
            exists: _,
            rows: _rows,
        } = self;
    }
}

impl Copied for EndpointRow {
    fn copy(&self, alloc: Global) -> Result<EndpointRow, Memory> {
        Ok(EndpointRow {
            ip: self.ip,
            port: self.port,
            weight: self.weight,
            labels: self.labels.copy(alloc)?,
            identity: self.identity.copy(alloc)?,
            tunnel: self.tunnel,
            h2: self.h2,
        })
    }
}

impl Same for EndpointRow {
    fn is_same(&self, other: &EndpointRow) -> bool {
        self.ip.is_same(&other.ip)
            && self.port.is_same(&other.port)
            && self.weight.is_same(&other.weight)
            && self.labels.is_same(&other.labels)
            && self.identity.is_same(&other.identity)
            && self.tunnel.is_same(&other.tunnel)
            && self.h2.is_same(&other.h2)
    }
}

impl Copied for EndpointView {
    fn copy(&self, alloc: Global) -> Result<EndpointView, Memory> {
        Ok(EndpointView {
            exists: self.exists,
            rows: self.rows.copy(alloc)?,
        })
    }
}

impl Same for EndpointView {
    fn is_same(&self, other: &EndpointView) -> bool {
        self.exists.is_same(&other.exists) && self.rows.is_same(&other.rows)
    }
}
