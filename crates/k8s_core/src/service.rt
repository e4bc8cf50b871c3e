ghost use Rattle.std.specs.Prelude.{IfOk};
ghost use Rattle.serde_json.specs.View.{view};
ghost use Rattle.k8s_core.specs.Services.{service_at};
ghost use Rattle.k8s_meta.specs.Spots.{Reads, seen};
ghost use Rattle.view_types.specs.Lawful.{IsLawfulService};

use crate::addresses::{ClusterIp, once};
use crate::port_entry::PortEntry;
use k8s_meta::fault::ReadFault;
use k8s_meta::key::Key;
use k8s_meta::meta::meta_of;
use k8s_meta::place::Place;
use serde_json::Value;
use std::alloc::Global;
use view_types::service::Service;

/// Reads the Service at the path `at`. A fault is the first one in the order of the members.
pub fn read_service(alloc: Global, object: &Value, at: &str) -> Result<Service, ReadFault>
    ensures lawful { IfOk result IsLawfulService }
    ensures value { Reads result (service_at record { at = at.now; value = view object.now }) }
{
    service_of(&Place::top(alloc, object, at))
}

/// Reads the Service at a place.
pub fn service_of<'a>(object: &'a Place<'a>) -> Result<Service, ReadFault>
    ensures lawful { IfOk result IsLawfulService }
    ensures value { Reads result (service_at (seen object.now)) }
{
    members_of(object)
}

#[tactic(auto, unfolding(k8s_meta::specs::Spots::then, crate::specs::Services::service_at))]
fn members_of<'a>(object: &'a Place<'a>) -> Result<Service, ReadFault>
    ensures { Reads result (service_at (seen object.now)) }
{
    let meta = meta_of(object)?;
    let spec = object.part(Key::Spec)?;
    let kind = spec.str_or(Key::Type, "ClusterIP")?;
    let first = spec.default(Key::ClusterIp, &ClusterIp, None)?;
    let others = spec.each_some(Key::ClusterIps, &ClusterIp)?;
    let ports = spec.each(Key::Ports, &PortEntry { key: Key::Port })?;
    Ok(Service {
        meta,
        external: kind == "ExternalName",
        addrs: once(object.alloc(), first, others)?,
        ports,
    })
}
