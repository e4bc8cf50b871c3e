ghost use Rattle.std.specs.Prelude.{◌≡◌, IfOk};

use crate::policy::{Policy, Protocol};
use k8s_meta::meta::Meta;
use label_select::selector::Selector;
use mesh_base::copied::Copied;
use mesh_base::memory::Memory;
use mesh_base::text::Text;
use std::alloc::Global;

/// A port by its number, or by the name of a container's port.
#[derive(Drop)]
pub enum PortRef {
    Number(u16),
    Named(Text),
}

/// A Server, policy.linkerd.io/v1beta3.
#[derive(Drop)]
pub struct ServerSpec {
    pub meta: Meta,
    /// Selects no Pod if None.
    pub pods: Option<Selector>,
    pub port: PortRef,
    pub protocol: Protocol,
    pub policy: Policy,
}

impl Copied for PortRef {
    fn copy(&self, _alloc: Global) -> Result<PortRef, Memory> {
        match self {
            PortRef::Number(port) => Ok(PortRef::Number(*port)),
            PortRef::Named(text) => Ok(PortRef::Named(text.copy()?)),
        }
    }
}

impl Copied for ServerSpec {
    fn copy(&self, alloc: Global) -> Result<ServerSpec, Memory> {
        Ok(ServerSpec {
            meta: self.meta.copy(alloc)?,
            pods: self.pods.copy(alloc)?,
            port: self.port.copy(alloc)?,
            protocol: self.protocol,
            policy: self.policy,
        })
    }
}
