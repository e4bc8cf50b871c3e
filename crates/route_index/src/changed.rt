// The routes that the marks of a change name.
ghost use Rattle.std.specs.Prelude.{◌≡◌, ◌≤◌, ◌+◌, IsTrue, count_by, length};
ghost use Rattle.route_index.specs.Placed.{is_route, is_route_in, names_route};

use mesh_base::key::{Kind, ObjKey};
use mesh_base::text::Text;
use view_types::mark::Mark;

/// Returns whether the change names at most half as many routes of the namespace as these.
pub(crate) fn is_in_place(ns: &Text, changed: &[Mark], routes: &[ObjKey]) -> bool
    ensures { IsTrue result → count_by (names_route ns.now) changed.now
        + count_by (names_route ns.now) changed.now ≤ length routes.now }
{
    let named = count_routes(ns, changed);
    named <= routes.len().saturating_sub(named)
}

/// Returns the number of marks that are keys of routes of the namespace.
fn count_routes(ns: &Text, marks: &[Mark]) -> usize
    ensures { result ≡ count_by (names_route ns.now) marks.now }
{
    marks.iter().filter(|mark| names_route(ns, mark)).count()
}

/// Returns whether a mark is the key of a route of the namespace.
fn names_route(ns: &Text, mark: &Mark) -> bool
    ensures { result ≡ names_route ns.now mark.now }
{
    match mark {
        Mark::Obj(key) => is_route_in(key, ns),
        _ => false,
    }
}

/// Returns whether a key is that of a route of the namespace.
pub(crate) fn is_route_in(key: &ObjKey, ns: &Text) -> bool
    ensures { result ≡ is_route_in ns.now key.now }
{
    is_route(key.kind) && key.ns == *ns
}

fn is_route(kind: Kind) -> bool
    ensures { result ≡ is_route kind }
{
    match kind {
        Kind::LinkerdRoute | Kind::GatewayRoute => true,
        _ => false,
    }
}
