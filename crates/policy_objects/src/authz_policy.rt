ghost use Rattle.std.specs.Prelude.{IfOk};
ghost use Rattle.serde_json.specs.View.{view};
ghost use Rattle.k8s_meta.specs.Spots.{Reads, seen};
ghost use Rattle.policy_objects.specs.AuthorizationPolicies.{authz_policy_at};
ghost use Rattle.view_types.specs.Lawful.{IsLawfulPolicy};

use crate::reference::{Reference, single};
use k8s_meta::fault::ReadFault;
use k8s_meta::key::Key;
use k8s_meta::meta::meta_of;
use k8s_meta::place::Place;
use serde_json::Value;
use std::alloc::Global;
use view_types::authn::AuthzPolicy;

/// Reads the AuthorizationPolicy at the path `at`. A fault is the first one in the order of the
/// members; a second reference to networks, or to clients, is a fault of their list.
pub fn read_authz_policy(alloc: Global, object: &Value, at: &str) -> Result<AuthzPolicy, ReadFault>
    ensures value { Reads result (authz_policy_at record { at = at.now; value = view object.now }) }
    ensures lawful { IfOk result IsLawfulPolicy }
{
    authz_policy_of(&Place::top(alloc, object, at))
}

/// Reads the AuthorizationPolicy at a place.
pub fn authz_policy_of<'a>(object: &'a Place<'a>) -> Result<AuthzPolicy, ReadFault>
    ensures value { Reads result (authz_policy_at (seen object.now)) }
    ensures lawful { IfOk result IsLawfulPolicy }
{
    members_of(object)
}

#[tactic(auto, unfolding(k8s_meta::specs::Spots::then, crate::specs::AuthorizationPolicies::authz_policy_at))]
fn members_of<'a>(object: &'a Place<'a>) -> Result<AuthzPolicy, ReadFault>
    ensures { Reads result (authz_policy_at (seen object.now)) }
{
    let meta = meta_of(object)?;
    let spec = object.part(Key::Spec)?;
    let target = spec.required(Key::TargetRef, &Reference)?;
    let found = spec.each(Key::RequiredAuthenticationRefs, &Reference)?;
    let needs = single(&spec.member(Key::RequiredAuthenticationRefs), found)?;
    Ok(AuthzPolicy {
        meta,
        target,
        needs,
    })
}
