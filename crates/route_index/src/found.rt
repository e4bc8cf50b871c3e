// The routes of a Server among the objects held: all of them, or those with a name.
ghost use Rattle.std.specs.Prelude.{◌≡◌, ◌≤◌, ◌+◌, IfOk, filter_map, map};
ghost use Rattle.std.specs.FinMap.{get};
ghost use Rattle.mark_rules.specs.Reads.{cost, route_reads};
ghost use Rattle.mark_rules.specs.Rows.{bare_route, server_routes};
ghost use Rattle.object_store.specs.Held.{key_with};
ghost use Rattle.route_index.specs.Placed.{keys_named, rows_named};

use crate::server::Server;
use mesh_base::key::{Kind, ObjKey};
use mesh_base::list::List;
use mesh_base::memory::Memory;
use mesh_base::steps::Steps;
use mesh_base::text::Text;
use policy_rows::candidates::add_all;
use policy_rows::parent::ServerNamed;
use policy_rows::route_row::route_row;
use policy_rows::routes::{attached_routes, routes_among};
use std::alloc::Global;
use view_scratch::inbound::inbound_rules;
use view_types::object::Object;
use view_types::route::Route;
use view_types::server_view::RouteRow;

/// Returns the routes that are attached to the Server, by creation time, name and group.
pub(crate) fn server_routes<L>(
    server: &Server,
    steps: &mut Steps<L>,
) -> Result<List<RouteRow>, Memory>
    ensures rows { IfOk result (λ rows. rows
        ≡ server_routes server.now.store.now.objects server.now.key.now) }
    ensures steps { steps.new ≤ steps.old
        + cost server.now.store.now.objects (route_reads server.now.key.now) }
{
    let Server { alloc, store, key } = *server;
    let attachment = ServerNamed { name: &key.server };
    let routes = attached_routes(alloc, store, &key.ns, &attachment, steps)?;
    bare_routes(alloc, routes.as_slice())
}

/// Returns the attached routes with this name, at most one of each group.
pub(crate) fn rows_named<L>(
    server: &Server,
    name: &Text,
    steps: &mut Steps<L>,
) -> Result<List<RouteRow>, Memory>
    ensures rows { IfOk result (λ rows. rows
        ≡ rows_named server.now.store.now.objects server.now.key.now name.now) }
    ensures steps { steps.new ≤ steps.old + 2 }
{
    let Server { alloc, key, .. } = *server;
    let attachment = ServerNamed { name: &key.server };
    let objects = objects_named(server, name, steps)?;
    let routes = routes_among(alloc, &key.ns, &attachment, objects.as_slice())?;
    bare_routes(alloc, routes.as_slice())
}

/// Returns the objects under the keys of routes with this name.
fn objects_named<'a, L>(
    server: &Server<'a>,
    name: &Text,
    steps: &mut Steps<L>,
) -> Result<Vec<&'a Object>, Memory>
    ensures objects { IfOk result (λ found. map (λ o. o.now) found.items
        ≡ filter_map (get server.now.store.now.objects)
        (keys_named server.now.key.now.ns name.now)) }
    ensures steps { steps.new ≤ steps.old + 2 }
{
    let Server { alloc, store, key } = *server;
    let linkerd = route_key(Kind::LinkerdRoute, &key.ns, name)?;
    let gateway = route_key(Kind::GatewayRoute, &key.ns, name)?;
    let mut objects = Vec::new(alloc);
    add_all(store, &[linkerd, gateway], &mut objects, steps)?;
    Ok(objects)
}

fn route_key(kind: Kind, ns: &Text, name: &Text) -> Result<ObjKey, Memory>
    ensures { IfOk result (λ key. key ≡ key_with kind ns.now name.now) }
{
    Ok(ObjKey {
        kind,
        ns: ns.copy()?,
        name: name.copy()?,
    })
}

fn bare_routes(alloc: Global, routes: &[&Route]) -> Result<List<RouteRow>, Memory>
    ensures { IfOk result (λ rows. rows ≡ map (λ route. bare_route route.now) routes.now) }
{
    let mut rows = List::new(alloc);
    for route in routes {
        rows.add(bare_route(alloc, route)?)?;
    }
    Ok(rows)
}

/// Returns the row of a route, without its authorizations.
fn bare_route(alloc: Global, route: &Route) -> Result<RouteRow, Memory>
    ensures { IfOk result (λ row. row ≡ bare_route route.now) }
{
    let rules = inbound_rules(alloc, route.rules.as_slice())?;
    route_row(alloc, route, rules, List::new(alloc))
}
