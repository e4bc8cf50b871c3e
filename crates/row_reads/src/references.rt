// The objects that an object refers to.
ghost use Rattle.std.specs.Prelude.{◌≡◌, ◌++◌, [], ◌∷◌, OnOk, flat_map, map};
ghost use Rattle.view_types.specs.declared.mark.Mark.TheVariants.{Obj};
ghost use Rattle.object_store.specs.Held.{key_with};
ghost use Rattle.view_rules.specs.Endpoints.{has_addresses};
ghost use Rattle.view_rules.specs.Policies.{ns_of};
ghost use Rattle.mark_rules.specs.Reads.{backend_marks, backends_of, need_marks, needs_of, point_marks, pods_of};
ghost use Rattle.row_reads.specs.References.{needs_from, references, rule_backends};

use mesh_base::key::{Kind, ObjKey};
use mesh_base::list::List;
use mesh_base::memory::Memory;
use mesh_base::text::Text;
use view_types::authn::{AuthzPolicy, Ref, RefKind};
use view_types::mark::Mark;
use view_types::object::Object;
use view_types::route::{BackendRef, Route, Rule};
use view_types::slice::{Family, Point, Slice};

/// A kind of references between objects.
#[derive(Clone, Copy)]
pub enum Reference {
    /// From an EndpointSlice to the Pods that its ready endpoints target.
    Pods,
    /// From an AuthorizationPolicy to authentications.
    Authentications,
    /// From an HTTPRoute to the Services of its backends.
    Backends,
}

/// Adds the marks of the objects that an object refers to.
pub fn add_references(
    marks: &mut List<Mark>,
    sort: Reference,
    object: &Object,
) -> Result<(), Memory>
    ensures { OnOk result (marks.new ≡ marks.old ++ references sort object.now) }
{
    match sort {
        Reference::Pods => match object {
            Object::EndpointSlice(slice) => add_pods(marks, slice.get()),
            _ => Ok(()),
        },
        Reference::Authentications => match object {
            Object::AuthorizationPolicy(policy) => add_needs(marks, policy.get()),
            _ => Ok(()),
        },
        Reference::Backends => match object {
            Object::LinkerdRoute(route) => add_backends(marks, route.get()),
            Object::GatewayRoute(route) => add_backends(marks, route.get()),
            _ => Ok(()),
        },
    }
}

/// Adds the marks of what these objects refer to, in their order.
pub fn add_all_references(
    marks: &mut List<Mark>,
    sort: Reference,
    objects: &[&Object],
) -> Result<(), Memory>
    ensures { OnOk result (marks.new
        ≡ marks.old ++ flat_map (references sort) (map (λ o. o.now) objects.now)) }
{
    for object in objects {
        add_references(marks, sort, object)?;
    }
    Ok(())
}

/// Adds the mark of a key.
pub fn add_key(marks: &mut List<Mark>, kind: Kind, ns: &Text, name: &Text) -> Result<(), Memory>
    ensures { OnOk result (marks.new ≡ marks.old ++ Obj (key_with kind ns.now name.now) ∷ []) }
{
    marks.add(Mark::Obj(ObjKey {
        kind,
        ns: ns.copy()?,
        name: name.copy()?,
    }))
}

// ---- slices

fn has_addresses(family: Family) -> bool
    ensures { result ≡ has_addresses family }
{
    match family {
        Family::V4 => true,
        Family::V6 => true,
        Family::Fqdn => false,
    }
}

/// Adds the marks of the Pods that the ready endpoints of a slice target.
pub fn add_pods(marks: &mut List<Mark>, slice: &Slice) -> Result<(), Memory>
    ensures { OnOk result (marks.new ≡ marks.old ++ pods_of slice.now) }
{
    if has_addresses(slice.family) {
        return add_points(marks, slice.points.as_slice());
    }
    Ok(())
}

fn add_points(marks: &mut List<Mark>, points: &[Point]) -> Result<(), Memory>
    ensures { OnOk result (marks.new ≡ marks.old ++ flat_map point_marks points.now) }
{
    for point in points {
        add_point(marks, point)?;
    }
    Ok(())
}

fn add_point(marks: &mut List<Mark>, point: &Point) -> Result<(), Memory>
    ensures { OnOk result (marks.new ≡ marks.old ++ point_marks point.now) }
{
    if !point.ready {
        return Ok(());
    }
    match &point.pod {
        Some((ns, name)) => add_key(marks, Kind::Pod, ns, name),
        None => Ok(()),
    }
}

// ---- policies

fn add_needs(marks: &mut List<Mark>, policy: &AuthzPolicy) -> Result<(), Memory>
    ensures { OnOk result (marks.new ≡ marks.old ++ needs_from policy.now) }
{
    for need in policy.needs.as_slice() {
        add_need(marks, &policy.meta.ns, need)?;
    }
    Ok(())
}

fn add_need(marks: &mut List<Mark>, own: &Text, need: &Ref) -> Result<(), Memory>
    ensures { OnOk result (marks.new ≡ marks.old
        ++ need_marks (ns_of own.now need.now) need.now.name need.now.kind) }
{
    let ns = match &need.ns {
        Some(ns) => ns,
        None => own,
    };
    match need.kind {
        RefKind::MeshAuthn => add_key(marks, Kind::MeshTLSAuthentication, ns, &need.name),
        RefKind::NetAuthn => add_key(marks, Kind::NetworkAuthentication, ns, &need.name),
        _ => Ok(()),
    }
}

// ---- routes

fn add_backends(marks: &mut List<Mark>, route: &Route) -> Result<(), Memory>
    ensures { OnOk result (marks.new ≡ marks.old ++ backends_of route.now) }
{
    for rule in route.rules.as_slice() {
        add_rule(marks, rule)?;
    }
    Ok(())
}

fn add_rule(marks: &mut List<Mark>, rule: &Rule) -> Result<(), Memory>
    ensures { OnOk result (marks.new ≡ marks.old ++ rule_backends rule.now) }
{
    for backend in rule.backends.as_slice() {
        add_backend(marks, backend)?;
    }
    Ok(())
}

fn add_backend(marks: &mut List<Mark>, backend: &BackendRef) -> Result<(), Memory>
    ensures { OnOk result (marks.new ≡ marks.old ++ backend_marks backend.now) }
{
    if backend.service {
        return add_key(marks, Kind::Service, &backend.ns, &backend.name);
    }
    Ok(())
}
