ghost use Rattle.std.specs.Prelude.{IfOk};
ghost use Rattle.serde_json.specs.View.{view};
ghost use Rattle.k8s_meta.specs.Lists.{each_some};
ghost use Rattle.k8s_meta.specs.Spots.{◌·◌, Reads, seen};
ghost use Rattle.k8s_meta.specs.declared.key.Key.TheVariants.{IdentityRefs};
ghost use Rattle.policy_objects.specs.Authentications.{mesh_authn_at, net_authn_at};
ghost use Rattle.policy_objects.specs.Identities.{identity_ref_at};
ghost use Rattle.view_types.specs.Lawful.{IsLawfulMeshAuthn, IsLawfulNetAuthn};

use crate::block::NetworkBlock;
use crate::identity::{IdentityRef, WrittenIdentity, joined};
use k8s_meta::fault::ReadFault;
use k8s_meta::key::Key;
use k8s_meta::meta::meta_of;
use k8s_meta::place::Place;
use mesh_base::list::List;
use serde_json::Value;
use std::alloc::Global;
use view_types::authn::{IdSpec, MeshAuthn, NetAuthn};

/// Reads the MeshTLSAuthentication at the path `at`. A fault is the first one in the order of the
/// members.
pub fn read_mesh_authn(alloc: Global, object: &Value, at: &str) -> Result<MeshAuthn, ReadFault>
    ensures value { Reads result (mesh_authn_at record { at = at.now; value = view object.now }) }
    ensures lawful { IfOk result IsLawfulMeshAuthn }
{
    mesh_authn_of(&Place::top(alloc, object, at))
}

/// Reads the MeshTLSAuthentication at a place.
pub fn mesh_authn_of<'a>(object: &'a Place<'a>) -> Result<MeshAuthn, ReadFault>
    ensures value { Reads result (mesh_authn_at (seen object.now)) }
    ensures lawful { IfOk result IsLawfulMeshAuthn }
{
    mesh_members_of(object)
}

#[tactic(auto, unfolding(k8s_meta::specs::Spots::then, crate::specs::Authentications::mesh_authn_at))]
fn mesh_members_of<'a>(object: &'a Place<'a>) -> Result<MeshAuthn, ReadFault>
    ensures { Reads result (mesh_authn_at (seen object.now)) }
{
    let meta = meta_of(object)?;
    let spec = object.part(Key::Spec)?;
    let written = spec.each(Key::Identities, &WrittenIdentity)?;
    let referred = referred_by(&spec, meta.ns.as_str())?;
    Ok(MeshAuthn {
        meta,
        ids: joined(written, referred)?,
    })
}

fn referred_by<'a>(spec: &'a Place<'a>, own: &str) -> Result<List<IdSpec>, ReadFault>
    ensures { Reads result (each_some (identity_ref_at own.now) ((seen spec.now) · IdentityRefs)) }
{
    spec.each_some(Key::IdentityRefs, &IdentityRef { own })
}

/// Reads the NetworkAuthentication at the path `at`. A fault is the first one in the order of the
/// members.
pub fn read_net_authn(alloc: Global, object: &Value, at: &str) -> Result<NetAuthn, ReadFault>
    ensures value { Reads result (net_authn_at record { at = at.now; value = view object.now }) }
    ensures lawful { IfOk result IsLawfulNetAuthn }
{
    net_authn_of(&Place::top(alloc, object, at))
}

/// Reads the NetworkAuthentication at a place.
pub fn net_authn_of<'a>(object: &'a Place<'a>) -> Result<NetAuthn, ReadFault>
    ensures value { Reads result (net_authn_at (seen object.now)) }
    ensures lawful { IfOk result IsLawfulNetAuthn }
{
    net_members_of(object)
}

#[tactic(auto, unfolding(k8s_meta::specs::Spots::then, crate::specs::Authentications::net_authn_at))]
fn net_members_of<'a>(object: &'a Place<'a>) -> Result<NetAuthn, ReadFault>
    ensures { Reads result (net_authn_at (seen object.now)) }
{
    let meta = meta_of(object)?;
    let spec = object.part(Key::Spec)?;
    let blocks = spec.each(Key::Networks, &NetworkBlock)?;
    Ok(NetAuthn { meta, blocks })
}
