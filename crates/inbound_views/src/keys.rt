// The keys of the rows of ports.
ghost use Rattle.std.specs.Prelude.{◌≡◌, ◌↔◌, ◌++◌, ◌∷◌, IfOk, IsTrue, OnOk, map, option_map};
ghost use Rattle.std.specs.Option.{option_copied};
ghost use Rattle.view_types.specs.declared.query.Query.TheVariants.{Port};
ghost use Rattle.view_rules.specs.PolicyLaws.{server_key};
ghost use Rattle.mark_rules.specs.Rows.{key_of_row, name_in};
ghost use Rattle.inbound_views.specs.PortRows.{listed, port_query, query_for};

use mark_rules::keys::{RouteKey, ServerKey};
use mesh_base::key::{Kind, ObjKey};
use mesh_base::list::List;
use mesh_base::memory::Memory;
use mesh_base::same::Same;
use mesh_base::text::Text;
use server_index::kept::ServerPart;
use std::alloc::Global;
use view_types::query::Query;
use view_types::server_view::RouteRow;

/// Returns the key of the port that a query requests, or None if it is not for a port.
pub(crate) fn port_key(query: &Query) -> Result<Option<ServerKey>, Memory>
    ensures { IfOk result (λ key. option_map query_for key ≡ port_query query.now) }
{
    match query {
        Query::Port { ns, pod, port } => Ok(Some(key_of_port(ns, pod, *port)?)),
        Query::PortRows { ns, pod, port } => Ok(Some(key_of_port(ns, pod, *port)?)),
        _ => Ok(None),
    }
}

fn key_of_port(ns: &Text, pod: &Text, port: u16) -> Result<ServerKey, Memory>
    ensures { IfOk result (λ key. query_for key ≡ Port ns.now pod.now port) }
{
    Ok(ServerKey {
        ns: ns.copy()?,
        pod: pod.copy()?,
        port,
    })
}

/// Returns the name of the Server of a port, if it has one.
pub(crate) fn name_in(part: &Option<ServerPart>) -> Option<&Text>
    ensures { option_copied result ≡ name_in part.now }
{
    match part {
        Some((_, _, Some(name), _)) => Some(name),
        _ => None,
    }
}

/// Returns the key of the routes of a Server, if there is one.
pub(crate) fn listed(
    alloc: Global,
    ns: &Text,
    name: Option<&Text>,
) -> Result<List<RouteKey>, Memory>
    ensures { IfOk result (λ keys. keys ≡ listed ns.now (option_copied name.entry)) }
{
    let mut keys = List::new(alloc);
    if let Some(name) = name {
        keys.add(routes_key(ns, name)?)?;
    }
    Ok(keys)
}

/// Returns the key of the routes of a Server.
pub(crate) fn routes_key(ns: &Text, name: &Text) -> Result<RouteKey, Memory>
    ensures { IfOk result (λ key. key ≡ record { ns = ns.now; server = name.now }) }
{
    Ok(RouteKey {
        ns: ns.copy()?,
        server: name.copy()?,
    })
}

/// Whether this is the key of the routes of a Server, if there is one.
pub(crate) fn are_listed(keys: &[RouteKey], ns: &Text, name: Option<&Text>) -> bool
    ensures { IsTrue result ↔ (keys.now ≡ listed ns.now (option_copied name.entry)) }
{
    match (keys, name) {
        ([], None) => true,
        ([key], Some(name)) => key.ns.is_same(ns) && key.server.is_same(name),
        _ => false,
    }
}

/// Returns the key of a Server.
pub(crate) fn server_key(ns: &Text, name: &Text) -> Result<ObjKey, Memory>
    ensures { IfOk result (λ key. key ≡ server_key ns.now name.now) }
{
    Ok(ObjKey {
        kind: Kind::Server,
        ns: ns.copy()?,
        name: name.copy()?,
    })
}

/// Returns the key of the route of a row.
pub(crate) fn key_of_row(ns: &Text, route: &RouteRow) -> Result<ObjKey, Memory>
    ensures { IfOk result (λ key. key ≡ key_of_row ns.now route.now) }
{
    Ok(ObjKey {
        kind: route.kind,
        ns: ns.copy()?,
        name: route.name.copy()?,
    })
}

/// Appends the keys of these routes to a list.
pub(crate) fn add_routes(
    keys: &mut List<ObjKey>,
    ns: &Text,
    routes: &[RouteRow],
) -> Result<(), Memory>
    ensures { OnOk result (keys.new ≡ keys.old ++ map (key_of_row ns.now) routes.now) }
{
    for route in routes {
        keys.add(key_of_row(ns, route)?)?;
    }
    Ok(())
}

/// Whether these are the keys of the authorizations of a Server and of these routes.
pub(crate) fn are_behind(keys: &[ObjKey], server: &RouteKey, routes: &[RouteRow]) -> bool
    ensures { IsTrue result ↔ (keys.now ≡ server_key server.now.ns server.now.server
        ∷ map (key_of_row server.now.ns) routes.now) }
{
    match keys {
        [first, rest @ ..] => {
            is_key(first, Kind::Server, &server.ns, &server.server)
                && are_of_rows(rest, &server.ns, routes)
        }
        [] => false,
    }
}

// Whether these are the keys of these routes.
fn are_of_rows(keys: &[ObjKey], ns: &Text, routes: &[RouteRow]) -> bool
    ensures { IsTrue result ↔ (keys.now ≡ map (key_of_row ns.now) routes.now) }
{
    if keys.len() != routes.len() {
        return false;
    }
    for (i, route) in routes.iter().enumerate() {
        if !is_key(&keys[i], route.kind, ns, &route.name) {
            return false;
        }
    }
    true
}

// Whether an object has this key.
fn is_key(key: &ObjKey, kind: Kind, ns: &Text, name: &Text) -> bool
    ensures { IsTrue result ↔ (key.now ≡ record { kind = kind; ns = ns.now; name = name.now }) }
{
    key.kind.is_same(&kind) && key.ns.is_same(ns) && key.name.is_same(name)
}
