ghost use Rattle.std.specs.Prelude.{◌≡◌, IfOk};
ghost use Rattle.view_types.specs.Defaults.{usual_config, usual_nets, v4_net};

use crate::policy::Policy;
use mesh_base::copied::Copied;
use mesh_base::list::List;
use mesh_base::memory::Memory;
use mesh_base::text::Text;
use net_cidr::ip::Ip;
use net_cidr::net::Net;
use std::alloc::Global;

/// The configuration of a run.
#[derive(Drop)]
pub struct Config {
    pub cluster_domain: Text,
    pub trust_domain: Text,
    /// The namespace of the control plane.
    pub control_ns: Text,
    pub cluster_nets: List<Net>,
    pub default_policy: Policy,
}

impl Copied for Config {
    fn copy(&self, alloc: Global) -> Result<Config, Memory> {
        Ok(Config {
            cluster_domain: self.cluster_domain.copy()?,
            trust_domain: self.trust_domain.copy()?,
            control_ns: self.control_ns.copy()?,
            cluster_nets: self.cluster_nets.copy(alloc)?,
            default_policy: self.default_policy,
        })
    }
}

impl Config {
    /// Returns the default configuration.
    pub fn usual(alloc: Global) -> Result<Config, Memory>
        ensures { IfOk result (λ config. config ≡ usual_config) }
    {
        Ok(Config {
            cluster_domain: Text::from_str(alloc, "cluster.local")?,
            trust_domain: Text::from_str(alloc, "cluster.local")?,
            control_ns: Text::from_str(alloc, "linkerd")?,
            cluster_nets: usual_nets(alloc)?,
            default_policy: Policy::AllUnauthenticated,
        })
    }
}

fn usual_nets(alloc: Global) -> Result<List<Net>, Memory>
    ensures { IfOk result (λ nets. nets ≡ usual_nets) }
{
    let mut nets = List::new(alloc);
    nets.add(v4_net(10, 0, 8))?;
    nets.add(v4_net(100, 64, 10))?;
    nets.add(v4_net(172, 16, 12))?;
    nets.add(v4_net(192, 168, 16))?;
    Ok(nets)
}

fn v4_net(a: u8, b: u8, bits: u8) -> Net
    ensures { result ≡ v4_net a b bits }
{
    Net {
        base: Ip::V4((u32::from(a) * 256 + u32::from(b)) * 65536),
        bits,
    }
}
