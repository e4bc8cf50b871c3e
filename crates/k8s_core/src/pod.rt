ghost use Rattle.std.specs.Prelude.{◌≡◌, codes, unwrap_or, IfOk};
ghost use Rattle.serde_json.specs.View.{view};
ghost use Rattle.k8s_core.specs.Pods.{pod_at, pod_ip_at};
ghost use Rattle.k8s_meta.specs.Spots.{Reads, seen};
ghost use Rattle.view_types.specs.Lawful.{IsLawfulPod};

use crate::addresses::once;
use crate::container::{Container, ContainerEntry, joined};
use k8s_meta::fault::ReadFault;
use k8s_meta::key::Key;
use k8s_meta::meta::meta_of;
use k8s_meta::place::Place;
use k8s_meta::reader::Reader;
use k8s_meta::words::{Address, AnyText, Filled, Flag, Name};
use mesh_base::memory::Memory;
use mesh_base::text::Text;
use net_cidr::ip::Ip;
use serde_json::Value;
use std::alloc::Global;
use view_types::pod::Pod;

/// Reads the Pod at the path `at`. A fault is the first one in the order of the members.
pub fn read_pod(alloc: Global, object: &Value, at: &str) -> Result<Pod, ReadFault>
    ensures lawful { IfOk result IsLawfulPod }
    ensures value { Reads result (pod_at record { at = at.now; value = view object.now }) }
{
    pod_of(&Place::top(alloc, object, at))
}

/// Reads the Pod at a place.
pub fn pod_of<'a>(object: &'a Place<'a>) -> Result<Pod, ReadFault>
    ensures lawful { IfOk result IsLawfulPod }
    ensures value { Reads result (pod_at (seen object.now)) }
{
    members_of(object)
}

#[tactic(auto, unfolding(k8s_meta::specs::Spots::then, crate::specs::Pods::pod_at))]
fn members_of<'a>(object: &'a Place<'a>) -> Result<Pod, ReadFault>
    ensures { Reads result (pod_at (seen object.now)) }
{
    let meta = meta_of(object)?;
    let spec = object.part(Key::Spec)?;
    let account = spec.default(Key::ServiceAccountName, &Filled(Name), None)?;
    let host_network = spec.default(Key::HostNetwork, &Flag, false)?;
    let node = spec.optional(Key::NodeName, &AnyText)?;
    let containers = spec.each(Key::Containers, &ContainerEntry)?;
    let status = object.part(Key::Status)?;
    let phase = status.optional(Key::Phase, &AnyText)?;
    let first = status.default(Key::PodIp, &Filled(Address), None)?;
    let others = status.each_some(Key::PodIps, &PodIp)?;
    let account = account_or_default(object.alloc(), account)?;
    let addrs = once(object.alloc(), first, others)?;
    let Container { ports, probes } = joined(object.alloc(), containers)?;
    Ok(Pod {
        meta,
        account,
        host_network,
        node,
        phase,
        addrs,
        ports,
        probes,
    })
}

fn account_or_default(alloc: Global, account: Option<Text>) -> Result<Text, Memory>
    ensures { IfOk result (λ name. name ≡ unwrap_or account (codes "default")) }
{
    match account {
        Some(name) => Ok(name),
        None => Text::from_str(alloc, "default"),
    }
}

/// An entry of a Pod's addresses.
struct PodIp;

impl Reader for PodIp {
    type Made = Option<Ip>;

    ghost reading = { λ _. pod_ip_at };

    #[tactic(auto, unfolding(k8s_meta::specs::Spots::then, crate::specs::Pods::pod_ip_at))]
    fn read<'a>(&self, place: &'a Place<'a>) -> Result<Option<Ip>, ReadFault> {
        place.object()?;
        place.default(Key::Ip, &Filled(Address), None)
    }
}
