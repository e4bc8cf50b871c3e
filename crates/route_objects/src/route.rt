ghost use Rattle.std.specs.Prelude.{IfOk, IsTrue};
ghost use Rattle.serde_json.specs.View.{view};
ghost use Rattle.k8s_meta.specs.Spots.{Reads, seen};
ghost use Rattle.view_types.specs.Lawful.{IsLawfulRoute};
ghost use Rattle.route_objects.specs.Routes.{is_route, route_at};

use crate::parent::ParentRef;
use crate::rule::rules_of;
use k8s_meta::fault::ReadFault;
use k8s_meta::key::Key;
use k8s_meta::meta::meta_of;
use k8s_meta::place::Place;
use k8s_meta::words::AnyText;
use mesh_base::key::Kind;
use serde_json::Value;
use std::alloc::Global;
use view_types::route::Route;

/// Reads the HTTPRoute of the kind at the path `at`. A fault is the first one in the order of the
/// members.
pub fn read_route(alloc: Global, kind: Kind, object: &Value, at: &str) -> Result<Route, ReadFault>
    requires { IsTrue (is_route kind) }
    ensures value { Reads result (route_at kind record { at = at.now; value = view object.now }) }
    ensures lawful { IfOk result (IsLawfulRoute kind) }
{
    route_of(kind, &Place::top(alloc, object, at))
}

/// Reads the HTTPRoute of the kind at a place.
pub fn route_of<'a>(kind: Kind, object: &'a Place<'a>) -> Result<Route, ReadFault>
    requires { IsTrue (is_route kind) }
    ensures value { Reads result (route_at kind (seen object.now)) }
    ensures lawful { IfOk result (IsLawfulRoute kind) }
{
    members_of(kind, object)
}

#[tactic(auto, unfolding(k8s_meta::specs::Spots::then, crate::specs::Routes::route_at))]
fn members_of<'a>(kind: Kind, object: &'a Place<'a>) -> Result<Route, ReadFault>
    requires { IsTrue (is_route kind) }
    ensures { Reads result (route_at kind (seen object.now)) }
{
    let meta = meta_of(object)?;
    let spec = object.part(Key::Spec)?;
    let parents = spec.each_some(
        Key::ParentRefs,
        &ParentRef {
            own: meta.ns.as_str(),
        },
    )?;
    let hosts = spec.each(Key::Hostnames, &AnyText)?;
    let rules = rules_of(&spec, meta.ns.as_str())?;
    Ok(Route {
        kind,
        meta,
        parents,
        hosts,
        rules,
    })
}
