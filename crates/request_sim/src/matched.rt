// The best match for a request, and its route.
ghost use Rattle.std.specs.Prelude.{◌≡◌, ◌≤◌, ◌+◌, ◌++◌, Some, IfErr, IfOk, codes, length, map, option_map};
ghost use Rattle.std.specs.Option.{option_copied};
ghost use Rattle.std.specs.String.{string_bytes, string_capacity, string_len};
ghost use Rattle.view_types.specs.declared.server_view.RouteRow.{RouteRow as TheRouteRow};
ghost use Rattle.route_match.specs.Asking.{AsksPatterns, facts_of};
ghost use Rattle.route_match.specs.Matching.{Pat, best, row_shape};
ghost use Rattle.request_sim.specs.Decision.{places_of, route_at, route_found};
ghost use Rattle.request_sim.specs.Faults.{HasRoomFor, IsOfRows, MetPattern};
ghost use Rattle.request_sim.specs.FullViews.{IsOneOf};
ghost use Rattle.request_sim.specs.declared.fault.SimFault.TheVariants.{Pattern};

use crate::fault::SimFault;
use mesh_base::memory::Memory;
use mesh_base::text::{OwnedText, Text};
use mesh_outside::Patterns;
use route_match::best::{Candidate, best_match};
use route_match::fault::MatchFault;
use std::alloc::Global;
use view_types::request::HttpRequest;
use view_types::server_view::RouteRow;

/// Returns the places of the best match, if there is one: the index of its route, that of its rule
/// in the route, and that of the match in the rule. The routes must be of the namespace.
pub fn best_of<P: Patterns>(
    alloc: Global,
    ns: &Text,
    routes: &[RouteRow],
    http: &HttpRequest,
    patterns: &mut P,
) -> Result<Option<(u64, u64, u64)>, SimFault>
    ensures places { (pat : Pat) → P.tells patterns.old ≡ Some pat → IfOk result (λ found.
        found ≡ option_map places_of (best pat http.now (map row_shape routes.now))) }
    ensures named { IfErr result (IsOfRows (facts_of P.Patterns patterns.old) ns.now routes.now
        http.now) }
    ensures asks { AsksPatterns P.Patterns patterns.old patterns.new (MetPattern result) }
{
    let Ok(room) = room_for_text(alloc, ns, routes) else {
        return Err(SimFault::Memory);
    };
    match best_match(alloc, patterns, http, routes) {
        Ok(found) => Ok(places_of(found)),
        Err(MatchFault::Refused { route, rule, item }) => {
            Err(pattern_fault(room, &routes[route], rule, item))
        }
        Err(MatchFault::Memory) => Err(SimFault::Memory),
    }
}

fn places_of(found: Option<Candidate>) -> Option<(u64, u64, u64)>
    ensures { result ≡ option_map places_of found }
{
    match found {
        Some(found) => Some((found.route as u64, found.rule as u64, found.item as u64)),
        None => None,
    }
}

/// Returns the route with the best match, if there is one. The routes must be those of a Server in
/// the namespace.
pub(crate) fn matched_route<'a, P: Patterns>(
    alloc: Global,
    ns: &Text,
    routes: &'a [RouteRow],
    http: &HttpRequest,
    patterns: &mut P,
) -> Result<Option<&'a RouteRow>, SimFault>
    ensures found { (pat : Pat) → P.tells patterns.old ≡ Some pat
        → IfOk result (λ route.
        option_copied route ≡ route_found routes.now
        (best pat http.now (map row_shape routes.now))) }
    ensures among { IfOk result (λ route. (row : TheRouteRow)
        → option_copied route ≡ Some row → IsOneOf routes.now row) }
    ensures named { IfErr result (IsOfRows (facts_of P.Patterns patterns.old) ns.now routes.now
        http.now) }
    ensures asks { AsksPatterns P.Patterns patterns.old patterns.new (MetPattern result) }
{
    match best_of(alloc, ns, routes, http, patterns) {
        Ok(found) => Ok(route_at(routes, found)),
        Err(fault) => Err(fault),
    }
}

fn route_at(routes: &[RouteRow], found: Option<(u64, u64, u64)>) -> Option<&RouteRow>
    ensures { option_copied result ≡ route_at routes.now found }
{
    match found {
        Some((route, _, _)) => routes.get(route as usize),
        None => None,
    }
}

// Allocates `namespace/` with room to append the name of any of the routes, so that a fault can be
// reported without more memory.
fn room_for_text(alloc: Global, ns: &Text, routes: &[RouteRow]) -> Result<String, Memory>
    ensures front { IfOk result (λ room. string_bytes room ≡ ns.now ++ codes "/") }
    ensures room { IfOk result
        (λ room. HasRoomFor routes.now (string_len room) (string_capacity room)) }
{
    let mut room = String::from_str(alloc, ns.as_str())?;
    room.push_str("/")?;
    for row in routes {
        room.reserve(row.name.as_str().len())?;
    }
    Ok(room)
}

// Returns the fault that names a match of the route.
fn pattern_fault(room: String, row: &RouteRow, rule: usize, item: usize) -> SimFault
    requires { string_len room + length row.now.name ≤ string_capacity room }
    ensures { result ≡ Pattern (string_bytes room ++ row.now.name) rule item }
{
    SimFault::Pattern {
        route: text_of(room, &row.name),
        rule: rule as u64,
        item: item as u64,
    }
}

fn text_of(front: String, name: &Text) -> OwnedText
    requires { string_len front + length name.now ≤ string_capacity front }
    ensures { result ≡ string_bytes front ++ name.now }
{
    let mut text = front;
    let Ok(()) = text.push_str(name.as_str()) else {
        unreachable!();
    };
    OwnedText::from_string(text)
}
