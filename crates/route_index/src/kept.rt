// Updates of kept routes for a change.
ghost use Rattle.std.specs.Prelude.{◌≡◌, ◌≤◌, ◌+◌, ◌||◌, false, if◌then◌else◌, IfOk, OnOk, count_by};
ghost use Rattle.std.specs.List.{list_any};
ghost use Rattle.std.specs.Str.{bytes_eq};
ghost use Rattle.view_types.specs.Objects.{ObjectMap};
ghost use Rattle.view_types.specs.declared.mark.Mark.TheVariants.{Obj};
ghost use Rattle.mark_rules.specs.Changes.{Leads};
ghost use Rattle.mark_rules.specs.Reads.{cost, route_reads};
ghost use Rattle.mark_rules.specs.Rows.{server_routes};
ghost use Rattle.route_index.specs.Placed.{BringsUp, is_route_in, names, names_route};

use crate::changed::{is_in_place, is_route_in};
use crate::found::{rows_named, server_routes};
use crate::placed::{put_rows, take_named};
use crate::server::Server;
use mesh_base::key::ObjKey;
use mesh_base::list::List;
use mesh_base::memory::Memory;
use mesh_base::steps::Steps;
use mesh_base::text::Text;
use std::mem;
use view_types::mark::Mark;
use view_types::route::ParentKind;
use view_types::server_view::RouteRow;

/// Updates the routes of a Server for a change with these marks. If the change names at most half
/// as many routes as the Server has after it, only routes with these names are looked up, and
/// otherwise all are found again. Returns whether any may differ.
pub(crate) fn follow<L>(
    server: &Server,
    changed: &[Mark],
    rows: &mut List<RouteRow>,
    steps: &mut Steps<L>,
) -> Result<bool, Memory>
    requires { server.now.store.now.spent ≡ false }
    ensures rows { OnOk result
        ((held : ObjectMap) → rows.old ≡ server_routes held server.now.key.now
        → Leads changed.now held server.now.store.now.objects
        → rows.new ≡ server_routes server.now.store.now.objects server.now.key.now) }
    ensures differ { IfOk result (λ differs. differs ≡ false → rows.new ≡ rows.old) }
    ensures steps { steps.new ≤ steps.old
        + cost server.now.store.now.objects (route_reads server.now.key.now) }
{
    let Server { store, key, .. } = *server;
    let routes = store.routes_on(&key.ns, ParentKind::Server, &key.server);
    if !is_in_place(&key.ns, changed, routes) {
        *rows = server_routes(server, steps)?;
        return Ok(true);
    }
    follow_in_place(server, changed, rows, steps)
}

/// Updates the routes for a change with these marks. Returns whether any may differ.
fn follow_in_place<L>(
    server: &Server,
    changed: &[Mark],
    rows: &mut List<RouteRow>,
    steps: &mut Steps<L>,
) -> Result<bool, Memory>
    ensures rows { OnOk result (BringsUp server.now.store.now.objects server.now.key.now
        (λ name. list_any (names server.now.key.now.ns name) changed.now) rows.old rows.new) }
    ensures same { IfOk result (λ differs. differs ≡ false → rows.new ≡ rows.old) }
    ensures steps { steps.new ≤ steps.old
        + (count_by (names_route server.now.key.now.ns) changed.now
        + count_by (names_route server.now.key.now.ns) changed.now) }
{
    let mut all = mem::replace(rows, List::new(server.alloc)).into_vec();
    let differs = follow_marks(server, changed, &mut all, steps)?;
    *rows = List::from_vec(all);
    Ok(differs)
}

/// Does the same for routes in a vector, mark by mark.
fn follow_marks<L>(
    server: &Server,
    changed: &[Mark],
    rows: &mut Vec<RouteRow>,
    steps: &mut Steps<L>,
) -> Result<bool, Memory>
    ensures rows { OnOk result (BringsUp server.now.store.now.objects server.now.key.now
        (λ name. list_any (names server.now.key.now.ns name) changed.now) rows.old.items
        rows.new.items) }
    ensures same { IfOk result (λ differs. differs ≡ false → rows.new.items ≡ rows.old.items) }
    ensures steps { steps.new ≤ steps.old
        + (count_by (names_route server.now.key.now.ns) changed.now
        + count_by (names_route server.now.key.now.ns) changed.now) }
{
    let mut differs = false;
    for mark in changed {
        let differs_now = follow_mark(server, mark, rows, steps)?;
        differs = either(differs, differs_now);
    }
    Ok(differs)
}

fn either(one: bool, other: bool) -> bool
    ensures { result ≡ (one || other) }
{
    one || other
}

/// Updates the routes for one mark of a change. Returns whether any may differ.
fn follow_mark<L>(
    server: &Server,
    mark: &Mark,
    rows: &mut Vec<RouteRow>,
    steps: &mut Steps<L>,
) -> Result<bool, Memory>
    ensures rows { OnOk result (BringsUp server.now.store.now.objects server.now.key.now
        (λ name. names server.now.key.now.ns name mark.now) rows.old.items rows.new.items) }
    ensures same { IfOk result (λ differs. differs ≡ false → rows.new.items ≡ rows.old.items) }
    ensures steps { steps.new ≤ steps.old
        + (if names_route server.now.key.now.ns mark.now then 2 else 0) }
{
    match mark {
        Mark::Obj(key) => follow_key(server, key, rows, steps),
        _ => Ok(false),
    }
}

/// Does the same for the key of a changed object.
fn follow_key<L>(
    server: &Server,
    key: &ObjKey,
    rows: &mut Vec<RouteRow>,
    steps: &mut Steps<L>,
) -> Result<bool, Memory>
    ensures rows { OnOk result (BringsUp server.now.store.now.objects server.now.key.now
        (λ name. names server.now.key.now.ns name (Obj key.now)) rows.old.items rows.new.items) }
    ensures same { IfOk result (λ differs. differs ≡ false → rows.new.items ≡ rows.old.items) }
    ensures steps { steps.new ≤ steps.old
        + (if is_route_in server.now.key.now.ns key.now then 2 else 0) }
{
    if !is_route_in(key, &server.key.ns) {
        return Ok(false);
    }
    follow_name(server, &key.name, rows, steps)
}

/// Replaces the kept routes with a name by those attached. Returns whether any may differ.
fn follow_name<L>(
    server: &Server,
    name: &Text,
    rows: &mut Vec<RouteRow>,
    steps: &mut Steps<L>,
) -> Result<bool, Memory>
    ensures rows { OnOk result (BringsUp server.now.store.now.objects server.now.key.now
        (λ other. bytes_eq name.now other) rows.old.items rows.new.items) }
    ensures same { IfOk result (λ differs. differs ≡ false → rows.new.items ≡ rows.old.items) }
    ensures steps { steps.new ≤ steps.old + 2 }
{
    server.store.stand_at_keys();
    let found = rows_named(server, name, steps)?;
    let taken = take_named(rows, name);
    let put = put_rows(rows, found.into_vec())?;
    Ok(either(taken, put))
}
