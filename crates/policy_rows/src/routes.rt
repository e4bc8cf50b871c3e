ghost use Rattle.std.specs.Prelude.{◌≡◌, ◌≤◌, ◌+◌, ◌++◌, ◌&&◌, IfOk, OnOk, filter, filter_map, map, option_to_list};
ghost use Rattle.std.specs.Cmp.Lexicographic.{slice_cmp};
ghost use Rattle.std.specs.List.{list_any};
ghost use Rattle.std.specs.Option.{option_copied};
ghost use Rattle.std.specs.Ordering.{is_eq, nat_cmp};
ghost use Rattle.std.specs.Str.{bytes_eq};
ghost use Rattle.view_rules.specs.InOrder.{in_order_by};
ghost use Rattle.view_rules.specs.Routes.{as_route, attached_routes, created_cmp, has_parent, place_of, route_cmp, route_group};
ghost use Rattle.mark_rules.specs.Reads.{count_at};

use crate::candidates::add_all;
use crate::parent::Attachment;
use mesh_base::key::Kind;
use mesh_base::memory::Memory;
use mesh_base::steps::Steps;
use mesh_base::text::Text;
use object_store::store::Store;
use std::alloc::Global;
use std::cmp::Ordering;
use view_types::object::Object;
use view_types::route::{Parent, Route};

/// Returns the attached routes of the namespace, each once: the oldest first, then by name and
/// group.
pub fn attached_routes<'a, A: Attachment, L>(
    alloc: Global,
    store: &'a Store,
    ns: &Text,
    attachment: &A,
    steps: &mut Steps<L>,
) -> Result<Vec<&'a Route>, Memory>
    ensures value { IfOk result (λ routes.
        map (λ route. route.now) routes.items
        ≡ attached_routes store.now.objects ns.now (A.is_parent attachment.now)) }
    ensures steps { steps.new ≤ steps.old
        + count_at store.now.objects (A.mark attachment.now ns.now) }
{
    let keys = attachment.keys(store, ns)?;
    let mut objects = Vec::new(alloc);
    add_all(store, keys, &mut objects, steps)?;
    routes_among(alloc, ns, attachment, objects.as_slice())
}

/// Returns those of these objects that are attached routes of the namespace, each once, in that
/// order.
pub fn routes_among<'a, A: Attachment>(
    alloc: Global,
    ns: &Text,
    attachment: &A,
    objects: &[&'a Object],
) -> Result<Vec<&'a Route>, Memory>
    ensures { IfOk result (λ routes. map (λ route. route.now) routes.items
        ≡ in_order_by route_cmp place_of (filter (has_parent ns.now (A.is_parent attachment.now))
        (filter_map as_route (map (λ o. o.now) objects.now)))) }
{
    let mut routes = Vec::new(alloc);
    for object in objects {
        add(&mut routes, attached_route(*object, ns, attachment))?;
    }
    put_in_order(&mut routes)?;
    Ok(routes)
}

fn add<'a>(routes: &mut Vec<&'a Route>, route: Option<&'a Route>) -> Result<(), Memory>
    ensures { OnOk result (map (λ r. r.now) routes.new.items
        ≡ map (λ r. r.now) routes.old.items ++ option_to_list (option_copied route.entry)) }
{
    if let Some(route) = route {
        routes.push(route)?;
    }
    Ok(())
}

fn attached_route<'a, A: Attachment>(
    object: &'a Object,
    ns: &Text,
    attachment: &A,
) -> Option<&'a Route>
    ensures { option_to_list (option_copied result)
        ≡ filter (has_parent ns.now (A.is_parent attachment.now))
        (option_to_list (as_route object.now)) }
{
    match as_route(object) {
        Some(route) if has_parent(ns, attachment, route) => Some(route),
        _ => None,
    }
}

fn as_route(object: &Object) -> Option<&Route>
    ensures { option_copied result ≡ as_route object.now }
{
    match object {
        Object::LinkerdRoute(route) => Some(route.get()),
        Object::GatewayRoute(route) => Some(route.get()),
        _ => None,
    }
}

fn has_parent<A: Attachment>(ns: &Text, attachment: &A, route: &Route) -> bool
    ensures { result ≡ has_parent ns.now (A.is_parent attachment.now) route.now }
{
    route.meta.ns == *ns && is_attached(route.parents.as_slice(), attachment)
}

fn is_attached<A: Attachment>(parents: &[Parent], attachment: &A) -> bool
    ensures { result ≡ list_any (A.is_parent attachment.now) parents.now }
{
    parents.iter().any(|parent| attachment.is_parent(parent))
}

/// Sorts routes, and keeps the first of each place in the order.
fn put_in_order(routes: &mut Vec<&Route>) -> Result<(), Memory>
    ensures { OnOk result (map (λ r. r.now) routes.new.items
        ≡ in_order_by route_cmp place_of (map (λ r. r.now) routes.old.items)) }
{
    routes.sort_by(|a, b| compare_routes(a, b))?;
    routes.dedup_by(|route, kept| is_same_place(route, kept));
    Ok(())
}

/// Compares by creation time, the oldest first and those without a time last; then by name and
/// group.
pub fn compare_routes(a: &Route, b: &Route) -> Ordering
    ensures { result ≡ route_cmp (place_of a.now) (place_of b.now) }
{
    match compare_created(&a.meta.created, &b.meta.created) {
        Ordering::Equal => match a.meta.name.cmp(&b.meta.name) {
            Ordering::Equal => compare_groups(a.kind, b.kind),
            other => other,
        },
        other => other,
    }
}

/// Compares creation times. An absent one comes last.
pub fn compare_created(a: &Option<Text>, b: &Option<Text>) -> Ordering
    ensures { result ≡ created_cmp a.now b.now }
{
    match (a, b) {
        (None, None) => Ordering::Equal,
        (None, Some(_)) => Ordering::Greater,
        (Some(_), None) => Ordering::Less,
        (Some(time), Some(other)) => time.cmp(other),
    }
}

/// Compares the API groups of two kinds of routes, by bytes.
pub fn compare_groups(a: Kind, b: Kind) -> Ordering
    ensures { result ≡ slice_cmp nat_cmp (route_group a) (route_group b) }
{
    route_group(a).as_bytes().cmp(route_group(b).as_bytes())
}

fn route_group(kind: Kind) -> &'static str
    ensures { result.now ≡ route_group kind }
{
    match kind {
        Kind::GatewayRoute => "gateway.networking.k8s.io",
        _ => "policy.linkerd.io",
    }
}

fn is_same_place(a: &Route, b: &Route) -> bool
    ensures { result ≡ is_eq (route_cmp (place_of a.now) (place_of b.now)) }
{
    compare_routes(a, b) == Ordering::Equal
}
