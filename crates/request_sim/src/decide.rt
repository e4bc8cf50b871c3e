ghost use Rattle.std.specs.Prelude.{◌≡◌, ◌&&◌, ℕ, List, Some, IfErr, IfOk, option_map};
ghost use Rattle.std.specs.Option.{option_copied};
ghost use Rattle.net_cidr.specs.Texts.{FitsIp};
ghost use Rattle.view_types.specs.Objects.{AtKeys, ObjectMap};
ghost use Rattle.view_types.specs.declared.server_view.AuthzRow.{AuthzRow as TheAuthzRow};
ghost use Rattle.view_types.specs.declared.server_view.RouteRow.{RouteRow as TheRouteRow};
ghost use Rattle.view_rules.specs.Inbound.{inbound};
ghost use Rattle.route_match.specs.Asking.{AsksPatterns, facts_of};
ghost use Rattle.route_match.specs.Matching.{Pat};
ghost use Rattle.request_rules.specs.Verdicts.{asks_routes};
ghost use Rattle.request_sim.specs.Decision.{by_route, by_row, by_server, has_rows};
ghost use Rattle.request_sim.specs.Faults.{IsOfServer, IsOfView, MetPattern, Simulated};
ghost use Rattle.request_sim.specs.FullViews.{IsOneOf, LooksUpOne, by_http_alone, decision_alone, full_route, full_view, routes_in};

use crate::admits::first_admitting;
use crate::either::first_of_either;
use crate::fault::SimFault;
use crate::laws::decisions_are_verdicts;
use crate::matched::matched_route;
use crate::policy::{asks_routes, by_policy};
use crate::probe::by_paths;
use crate::route_authz::RouteAuthz;
use mesh_base::memory::Memory;
use mesh_base::steps::Steps;
use mesh_outside::Patterns;
use net_cidr::ip::Ip;
use request_rules::laws::rows_show_their_matches;
use std::alloc::Global;
use view_types::config::Config;
use view_types::request::{HttpRequest, Request};
use view_types::server_view::{AuthzRow, RouteRow, ServerRow, ServerView};
use view_types::verdict::{Decider, Verdict};

/// A simulated request, and what is needed for the decision besides the view of its port.
#[derive(Drop)]
pub struct Simulation<'a, S> {
    pub config: &'a Config,
    pub request: &'a Request,
    /// The authorizations of the routes of the view.
    pub authz: &'a S,
}

/// Returns the verdict on the request, from the inbound view of its port. The authorizations of the
/// routes in the view are not read: those of the matched route are looked up. Returns `Pattern` if
/// a regular expression of an attached HTTPRoute is used and refused; no other result counts a
/// refusal.
pub fn decide<S: RouteAuthz, P: Patterns, L>(
    alloc: Global,
    simulation: &Simulation<'_, S>,
    view: &ServerView,
    patterns: &mut P,
    steps: &mut Steps<L>,
) -> Result<Verdict, SimFault>
    // Over any objects that have this view, with the authorizations of its routes, the result is
    // the verdict of the written policy.
    ensures simulated { (held : ObjectMap) (authz : TheRouteRow → List TheAuthzRow) → AtKeys held
        → S.gives simulation.now.authz.now authz
        → inbound simulation.now.config.now held simulation.now.request.now.ns
        simulation.now.request.now.pod simulation.now.request.now.port ≡ full_view authz view.now
        → Simulated simulation.now.config.now held (facts_of P.Patterns patterns.old)
        simulation.now.request.now result }
    ensures asks { AsksPatterns P.Patterns patterns.old patterns.new (MetPattern result) }
    ensures steps { (cost : TheRouteRow → ℕ) → S.costs simulation.now.authz.now cost
        → LooksUpOne (IsOneOf (routes_in view.now)) cost steps.old steps.new }
{
    decisions_are_verdicts();
    rows_show_their_matches();
    fits_its_type(simulation.request.client);
    decide_by_rows(alloc, simulation, view, patterns, steps)
}

// States that an address is a number within its type.
fn fits_its_type(ip: Ip)
    ensures { FitsIp ip }
{
    match ip {
        Ip::V4(_number) => {}
        Ip::V6(_number) => {}
    }
}

// Returns the decision on the rows, whatever objects they come from.
fn decide_by_rows<S: RouteAuthz, P: Patterns, L>(
    alloc: Global,
    simulation: &Simulation<'_, S>,
    view: &ServerView,
    patterns: &mut P,
    steps: &mut Steps<L>,
) -> Result<Verdict, SimFault>
    ensures decided { (authz : TheRouteRow → List TheAuthzRow) (pat : Pat)
        → S.gives simulation.now.authz.now authz → P.tells patterns.old ≡ Some pat
        → IfOk result (λ verdict. verdict ≡ decision_alone authz simulation.now.config.now pat
        simulation.now.request.now view.now) }
    ensures named { IfErr result (IsOfView (facts_of P.Patterns patterns.old)
        simulation.now.request.now view.now) }
    ensures asks { AsksPatterns P.Patterns patterns.old patterns.new (MetPattern result) }
    ensures steps { (cost : TheRouteRow → ℕ) → S.costs simulation.now.authz.now cost
        → LooksUpOne (IsOneOf (routes_in view.now)) cost steps.old steps.new }
{
    match view {
        ServerView::Absent => Ok(Verdict::NoWorkload),
        ServerView::Present(server) => by_http(alloc, simulation, server, patterns, steps),
    }
}

fn by_http<S: RouteAuthz, P: Patterns, L>(
    alloc: Global,
    simulation: &Simulation<'_, S>,
    server: &ServerRow,
    patterns: &mut P,
    steps: &mut Steps<L>,
) -> Result<Verdict, SimFault>
    ensures decided { (authz : TheRouteRow → List TheAuthzRow) (pat : Pat)
        → S.gives simulation.now.authz.now authz → P.tells patterns.old ≡ Some pat
        → IfOk result (λ verdict. verdict ≡ by_http_alone authz simulation.now.config.now pat
        simulation.now.request.now server.now simulation.now.request.now.http) }
    ensures named { IfErr result (IsOfServer (facts_of P.Patterns patterns.old)
        simulation.now.request.now.ns server.now simulation.now.request.now.http) }
    ensures asks { AsksPatterns P.Patterns patterns.old patterns.new (MetPattern result) }
    ensures steps { (cost : TheRouteRow → ℕ) → S.costs simulation.now.authz.now cost
        → LooksUpOne (IsOneOf server.now.routes) cost steps.old steps.new }
{
    match &simulation.request.http {
        Some(http) => by_routes(alloc, simulation, server, http, patterns, steps),
        None => match by_server(simulation.config, simulation.request, server) {
            Ok(verdict) => Ok(verdict),
            Err(_) => Err(SimFault::Memory),
        },
    }
}

fn by_routes<S: RouteAuthz, P: Patterns, L>(
    alloc: Global,
    simulation: &Simulation<'_, S>,
    server: &ServerRow,
    http: &HttpRequest,
    patterns: &mut P,
    steps: &mut Steps<L>,
) -> Result<Verdict, SimFault>
    ensures decided { (authz : TheRouteRow → List TheAuthzRow) (pat : Pat)
        → S.gives simulation.now.authz.now authz → P.tells patterns.old ≡ Some pat
        → IfOk result (λ verdict. verdict ≡ by_http_alone authz simulation.now.config.now pat
        simulation.now.request.now server.now (Some http.now)) }
    ensures named { IfErr result (IsOfServer (facts_of P.Patterns patterns.old)
        simulation.now.request.now.ns server.now (Some http.now)) }
    ensures asks { AsksPatterns P.Patterns patterns.old patterns.new (MetPattern result) }
    ensures steps { (cost : TheRouteRow → ℕ) → S.costs simulation.now.authz.now cost
        → LooksUpOne (IsOneOf server.now.routes) cost steps.old steps.new }
{
    if !routes_count(server) {
        return match by_server(simulation.config, simulation.request, server) {
            Ok(verdict) => Ok(verdict),
            Err(_) => Err(SimFault::Memory),
        };
    }
    let ns = &simulation.request.ns;
    match matched_route(alloc, ns, server.routes.as_slice(), http, patterns) {
        Ok(route) => match by_route(simulation, server, route, steps) {
            Ok(verdict) => Ok(verdict),
            Err(_) => Err(SimFault::Memory),
        },
        Err(fault) => Err(fault),
    }
}

// Whether the routes of the Server decide on HTTP requests.
fn routes_count(server: &ServerRow) -> bool
    ensures { result ≡ (has_rows server.now.routes && asks_routes server.now.protocol) }
{
    has_rows(server.routes.as_slice()) && asks_routes(server.protocol)
}

fn has_rows(routes: &[RouteRow]) -> bool
    ensures { result ≡ has_rows routes.now }
{
    match routes {
        [] => false,
        [_, ..] => true,
    }
}

// By the rows of the Server alone, then by the probes and the policy.
fn by_server(config: &Config, request: &Request, server: &ServerRow) -> Result<Verdict, Memory>
    ensures { IfOk result (λ verdict. verdict ≡ by_server config.now request.now server.now) }
{
    let row = first_admitting(server.authz.as_slice(), request);
    let probes = server.probes.as_slice();
    let otherwise = by_paths(config, request, server.protocol, server.policy, probes);
    by_row(otherwise, row)
}

// By the rows of the Server and of the matched route, then by the policy. Those of the route are
// looked up.
fn by_route<S: RouteAuthz, L>(
    simulation: &Simulation<'_, S>,
    server: &ServerRow,
    route: Option<&RouteRow>,
    steps: &mut Steps<L>,
) -> Result<Verdict, Memory>
    ensures decided { (authz : TheRouteRow → List TheAuthzRow)
        → S.gives simulation.now.authz.now authz → IfOk result (λ verdict.
        verdict ≡ by_route simulation.now.config.now simulation.now.request.now server.now
        (option_map (full_route authz) (option_copied route.entry))) }
    ensures steps { (cost : TheRouteRow → ℕ) → S.costs simulation.now.authz.now cost
        → LooksUpOne (λ row. option_copied route.entry ≡ Some row) cost steps.old steps.new }
{
    match route {
        Some(route) => {
            let authz = simulation.authz.authz_of(route, steps)?;
            let request = simulation.request;
            let row = first_of_either(server.authz.as_slice(), authz.as_slice(), request);
            by_row(by_policy(simulation.config, request, server.policy), row)
        }
        None => Ok(Verdict::NotFound),
    }
}

// The verdict by this row, or the other verdict if there is no row.
fn by_row(otherwise: Verdict, row: Option<&AuthzRow>) -> Result<Verdict, Memory>
    ensures { IfOk result (λ verdict. verdict ≡ by_row otherwise (option_copied row.entry)) }
{
    match row {
        Some(row) => Ok(Verdict::Allowed(Decider::Authz {
            kind: row.kind,
            name: row.name.copy()?,
        })),
        None => Ok(otherwise),
    }
}
