ghost use Rattle.std.specs.Prelude.{◌≡◌, IfOk, None};
ghost use Rattle.std.specs.Option.{option_copied};
ghost use Rattle.mesh_text.specs.Mesh.{opaque_ranges, ranges_from};
ghost use Rattle.k8s_meta.specs.PortSet.{is_within};
ghost use Rattle.view_rules.specs.Profiles.{pod_ranges, service_ranges};

use k8s_meta::meta::Meta;
use mesh_base::memory::Memory;
use mesh_text::mesh::{opaque_ports, usual_ports};
use std::alloc::Global;
use view_types::pod::Pod;
use view_types::service::Service;

/// Whether the port is opaque for the Pod or Service with this metadata.
pub fn is_opaque(alloc: Global, meta: &Meta, port: u16) -> Result<bool, Memory>
    ensures { IfOk result (λ opaque. opaque ≡ is_within (opaque_ranges meta.now) port) }
{
    Ok(opaque_ports(alloc, meta)?.holds(port))
}

/// Whether the port is opaque by default.
pub(crate) fn is_opaque_by_default(alloc: Global, port: u16) -> Result<bool, Memory>
    ensures { IfOk result (λ opaque. opaque ≡ is_within (ranges_from None) port) }
{
    Ok(usual_ports(alloc)?.holds(port))
}

/// Whether the port is opaque for the Service, if there is one.
pub(crate) fn is_opaque_for(
    alloc: Global,
    service: Option<&Service>,
    port: u16,
) -> Result<bool, Memory>
    ensures { IfOk result (λ opaque.
        opaque ≡ is_within (service_ranges (option_copied service.entry)) port) }
{
    match service {
        Some(service) if !service.external => is_opaque(alloc, &service.meta, port),
        _ => is_opaque_by_default(alloc, port),
    }
}

/// Whether the port is opaque for the Pod of an address, if there is one.
pub(crate) fn is_opaque_at(alloc: Global, pod: Option<&Pod>, port: u16) -> Result<bool, Memory>
    ensures { IfOk result (λ opaque.
        opaque ≡ is_within (pod_ranges (option_copied pod.entry)) port) }
{
    match pod {
        Some(pod) => is_opaque(alloc, &pod.meta, port),
        None => is_opaque_by_default(alloc, port),
    }
}
