ghost use Rattle.std.specs.Prelude.{◌≡◌, IfOk, None};
ghost use Rattle.mesh_text.specs.Mesh.{identity_of, is_meshed, opaque_ranges, ranges_from};
ghost use Rattle.mesh_text.specs.Targets.{full_name};

use k8s_meta::meta::Meta;
use k8s_meta::ports::{Ports, read_port_set};
use mesh_base::list::List;
use mesh_base::memory::Memory;
use mesh_base::text::Text;
use std::alloc::Global;
use view_types::config::Config;

/// Whether the Pod's label names the configured control plane.
pub fn is_meshed(config: &Config, pod: &Meta) -> bool
    ensures { result ≡ is_meshed config.now pod.now }
{
    match pod.labels.get(b"linkerd.io/control-plane-ns") {
        Some(ns) => *ns == config.control_ns,
        None => false,
    }
}

/// Returns the identity of a service account in the mesh.
pub fn identity_of(
    alloc: Global,
    config: &Config,
    ns: &Text,
    account: &Text,
) -> Result<Text, Memory>
    ensures { IfOk result (λ identity. identity ≡ identity_of config.now ns.now account.now) }
{
    let account = account.as_str();
    let ns = ns.as_str();
    let control = config.control_ns.as_str();
    let domain = config.trust_domain.as_str();
    let text = format!(in alloc; "{account}.{ns}.serviceaccount.identity.{control}.{domain}")?;
    Ok(Text::from_string(text)?)
}

/// Returns the full name of a Service, which is the name of its profile.
pub fn full_name(alloc: Global, config: &Config, ns: &Text, name: &Text) -> Result<Text, Memory>
    ensures { IfOk result (λ full. full ≡ full_name name.now ns.now config.now.cluster_domain) }
{
    let name = name.as_str();
    let ns = ns.as_str();
    let domain = config.cluster_domain.as_str();
    let text = format!(in alloc; "{name}.{ns}.svc.{domain}")?;
    Text::from_string(text)
}

/// Returns the opaque ports of a Pod or Service, for which no protocol is detected.
pub fn opaque_ports(alloc: Global, meta: &Meta) -> Result<Ports, Memory>
    ensures { IfOk result (λ ports. ports.ranges ≡ opaque_ranges meta.now) }
{
    match meta.notes.get(b"config.linkerd.io/opaque-ports") {
        Some(text) => read_port_set(alloc, text.as_bytes()),
        None => usual_ports(alloc),
    }
}

/// Returns the default opaque ports, for objects without the annotation.
pub fn usual_ports(alloc: Global) -> Result<Ports, Memory>
    ensures { IfOk result (λ ports. ports.ranges ≡ ranges_from None) }
{
    let mut ranges = List::new(alloc);
    ranges.add((25, 25))?;
    ranges.add((587, 587))?;
    ranges.add((3306, 3306))?;
    ranges.add((4444, 4444))?;
    ranges.add((5432, 5432))?;
    ranges.add((6379, 6379))?;
    ranges.add((9300, 9300))?;
    ranges.add((11211, 11211))?;
    Ok(Ports { ranges })
}
