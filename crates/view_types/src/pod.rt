ghost use Rattle.std.specs.Prelude.{◌≡◌, IfOk};

use crate::service::NamedPort;
use k8s_meta::meta::Meta;
use mesh_base::copied::Copied;
use mesh_base::list::List;
use mesh_base::memory::Memory;
use mesh_base::text::Text;
use net_cidr::ip::Ip;
use std::alloc::Global;

/// A Pod, v1.
#[derive(Drop)]
pub struct Pod {
    pub meta: Meta,
    /// The name of its service account.
    pub account: Text,
    pub host_network: bool,
    pub node: Option<Text>,
    pub phase: Option<Text>,
    /// Its addresses, each once.
    pub addrs: List<Ip>,
    /// The ports of its containers.
    pub ports: List<NamedPort>,
    /// The ports and paths of its HTTP probes.
    pub probes: List<(u16, Text)>,
}

impl Copied for Pod {
    fn copy(&self, alloc: Global) -> Result<Pod, Memory> {
        Ok(Pod {
            meta: self.meta.copy(alloc)?,
            account: self.account.copy()?,
            host_network: self.host_network,
            node: self.node.copy(alloc)?,
            phase: self.phase.copy(alloc)?,
            addrs: self.addrs.copy(alloc)?,
            ports: self.ports.copy(alloc)?,
            probes: self.probes.copy(alloc)?,
        })
    }
}
