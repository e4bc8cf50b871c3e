ghost use Rattle.std.specs.Prelude.{IfOk};
ghost use Rattle.serde_json.specs.View.{view};
ghost use Rattle.k8s_meta.specs.Spots.{Reads, seen};
ghost use Rattle.policy_objects.specs.Servers.{server_at};
ghost use Rattle.view_types.specs.Lawful.{IsLawfulServer};

use crate::protocol_word::ProtocolWord;
use crate::selector::LabelSelector;
use k8s_meta::choice::Choice;
use k8s_meta::fault::ReadFault;
use k8s_meta::key::Key;
use k8s_meta::meta::meta_of;
use k8s_meta::place::Place;
use mesh_text::policy_word::PolicyWord;
use mesh_text::port_ref::NameOrNumber;
use serde_json::Value;
use std::alloc::Global;
use view_types::policy::{Policy, Protocol};
use view_types::server::ServerSpec;

/// Reads the Server at the path `at`. A fault is the first one in the order of the members.
pub fn read_server(alloc: Global, object: &Value, at: &str) -> Result<ServerSpec, ReadFault>
    ensures value { Reads result (server_at record { at = at.now; value = view object.now }) }
    ensures lawful { IfOk result IsLawfulServer }
{
    server_of(&Place::top(alloc, object, at))
}

/// Reads the Server at a place.
pub fn server_of<'a>(object: &'a Place<'a>) -> Result<ServerSpec, ReadFault>
    ensures value { Reads result (server_at (seen object.now)) }
    ensures lawful { IfOk result IsLawfulServer }
{
    members_of(object)
}

#[tactic(auto, unfolding(k8s_meta::specs::Spots::then, crate::specs::Servers::server_at))]
fn members_of<'a>(object: &'a Place<'a>) -> Result<ServerSpec, ReadFault>
    ensures { Reads result (server_at (seen object.now)) }
{
    let meta = meta_of(object)?;
    let spec = object.part(Key::Spec)?;
    let pods = spec.optional(Key::PodSelector, &LabelSelector)?;
    let port = spec.required(Key::Port, &NameOrNumber)?;
    let protocol = spec.default(Key::ProxyProtocol, &Choice(ProtocolWord), Protocol::Unknown)?;
    let policy = spec.default(Key::AccessPolicy, &Choice(PolicyWord), Policy::Deny)?;
    Ok(ServerSpec {
        meta,
        pods,
        port,
        protocol,
        policy,
    })
}
