ghost use Rattle.std.specs.Prelude.{◌≡◌, ◌≤◌, ◌+◌, ◌∷◌, ◌||◌, IfOk, flat_map, map, not};
ghost use Rattle.std.specs.Option.{option_copied};
ghost use Rattle.view_types.specs.declared.mark.Mark.TheVariants.{IpService, RouteOn};
ghost use Rattle.view_types.specs.declared.route.ParentKind.TheVariants as parent;
ghost use Rattle.view_rules.specs.Outbound.{backend_row, exists, is_missing, outbound, outbound_route, outbound_routes, outbound_rule, to_address, to_pod, to_service};
ghost use Rattle.view_rules.specs.Profiles.{pod_at, service_at};
ghost use Rattle.mark_rules.specs.Reads.{address_reads, backend_marks, backends_of, cost, outbound_reads, routes_on, service_outbound_reads};
ghost use Rattle.view_scratch.specs.Reads.{rule_marks};

use crate::address::{pod_at, service_at};
use crate::endpoint::row_of;
use crate::opaque::{is_opaque, is_opaque_at};
use crate::service::service_held;
use mark_rules::laws::rows_by_marks;
use mesh_base::boxed::Boxed;
use mesh_base::copied::Copied;
use mesh_base::list::List;
use mesh_base::memory::Memory;
use mesh_base::steps::Steps;
use mesh_base::text::Text;
use net_cidr::ip::Ip;
use object_store::store::Store;
use policy_rows::parent::ServiceAt;
use policy_rows::route_row::route_row;
use policy_rows::routes::attached_routes;
use policy_rows::snapshot::Snapshot;
use std::alloc::Global;
use view_types::config::Config;
use view_types::outbound::OutboundView;
use view_types::pod::Pod;
use view_types::query::Target;
use view_types::route::{BackendRef, Route, Rule};
use view_types::server_view::{BackendRow, RouteRow, RuleRow};
use view_types::service::Service;

/// Returns the destination of traffic to a target over the objects held.
pub fn outbound<L>(
    from: &Snapshot,
    target: &Target,
    steps: &mut Steps<L>,
) -> Result<OutboundView, Memory>
    ensures value { IfOk result (λ view.
        view ≡ outbound from.now.config.now from.now.store.now.objects target.now) }
    ensures steps { steps.new ≤ steps.old + cost from.now.store.now.objects
        (outbound_reads from.now.store.now.objects target.now) }
{
    match target {
        Target::Service { ns, name, port } => to_service(from, ns, name, *port, steps),
        Target::Address { ip, port } => to_address(from, ip.get(), *port, steps),
    }
}

#[tactic(auto, using(mark_rules::proofs::Counts::cost_cons))]
fn to_address<L>(
    from: &Snapshot,
    ip: Ip,
    port: u16,
    steps: &mut Steps<L>,
) -> Result<OutboundView, Memory>
    ensures value { IfOk result (λ view.
        view ≡ to_address from.now.config.now from.now.store.now.objects ip port
        (service_at from.now.store.now.objects ip)) }
    ensures steps { steps.new ≤ steps.old + cost from.now.store.now.objects (IpService ip
        ∷ address_reads (service_outbound_reads from.now.store.now.objects) ip
        (service_at from.now.store.now.objects ip)) }
{
    match service_at(from.store, ip, steps)? {
        Some(service) => {
            let meta = &service.meta;
            to_service(from, &meta.ns, &meta.name, port, steps)
        }
        None => {
            let pod = pod_at(from.store, ip, steps)?;
            to_pod(from.alloc, from.config, pod, ip, port)
        }
    }
}

/// Returns the view of an address that no Service has: the Pod there, if there is one.
pub fn to_pod(
    alloc: Global,
    config: &Config,
    pod: Option<&Pod>,
    ip: Ip,
    port: u16,
) -> Result<OutboundView, Memory>
    ensures { IfOk result (λ view. view ≡ to_pod config.now (option_copied pod.entry) ip port) }
{
    let row = row_of(alloc, config, pod, ip, port)?;
    Ok(OutboundView::Forward {
        endpoint: Boxed::new(alloc, row)?,
        opaque: is_opaque_at(alloc, pod, port)?,
    })
}

#[tactic(auto, using(mark_rules::proofs::Counts::cost_cons))]
fn to_service<L>(
    from: &Snapshot,
    ns: &Text,
    name: &Text,
    port: u16,
    steps: &mut Steps<L>,
) -> Result<OutboundView, Memory>
    ensures value { IfOk result (λ view.
        view ≡ to_service from.now.store.now.objects ns.now name.now port) }
    ensures steps { steps.new ≤ steps.old + cost from.now.store.now.objects
        (service_outbound_reads from.now.store.now.objects ns.now name.now) }
{
    match service_held(from.store, ns, name, steps) {
        Some(service) if !service.external => Ok(OutboundView::Service {
            ns: ns.copy()?,
            name: name.copy()?,
            port,
            opaque: is_opaque(from.alloc, &service.meta, port)?,
            routes: outbound_routes(from, ns, name, port, steps)?,
        }),
        _ => Ok(OutboundView::Absent),
    }
}

fn outbound_routes<L>(
    from: &Snapshot,
    ns: &Text,
    name: &Text,
    port: u16,
    steps: &mut Steps<L>,
) -> Result<List<RouteRow>, Memory>
    ensures value { IfOk result (λ rows.
        rows ≡ outbound_routes from.now.store.now.objects ns.now name.now port) }
    ensures steps { steps.new ≤ steps.old + cost from.now.store.now.objects
        (RouteOn ns.now parent.Service name.now
        ∷ flat_map backends_of (routes_on from.now.store.now.objects ns.now name.now)) }
{
    rows_by_marks();
    let attachment = ServiceAt { name, port };
    let routes = attached_routes(from.alloc, from.store, ns, &attachment, steps)?;
    route_rows(from, routes.as_slice(), steps)
}

/// Returns the rows of these routes in an outbound view.
pub fn route_rows<L>(
    from: &Snapshot,
    routes: &[&Route],
    steps: &mut Steps<L>,
) -> Result<List<RouteRow>, Memory>
    ensures rows { IfOk result (λ rows.
        rows ≡ map (λ route. outbound_route from.now.store.now.objects route.now) routes.now) }
    ensures steps { steps.new ≤ steps.old + cost from.now.store.now.objects
        (flat_map (λ route. backends_of route.now) routes.now) }
{
    let mut rows = List::new(from.alloc);
    for route in routes {
        rows.add(outbound_route(from, route, steps)?)?;
    }
    Ok(rows)
}

/// Returns the row of a route in an outbound view, without authorizations.
fn outbound_route<L>(
    from: &Snapshot,
    route: &Route,
    steps: &mut Steps<L>,
) -> Result<RouteRow, Memory>
    ensures value { IfOk result (λ row.
        row ≡ outbound_route from.now.store.now.objects route.now) }
    ensures steps { steps.new ≤ steps.old
        + cost from.now.store.now.objects (backends_of route.now) }
{
    let rules = outbound_rules(from, route.rules.as_slice(), steps)?;
    route_row(from.alloc, route, rules, List::new(from.alloc))
}

fn outbound_rules<L>(
    from: &Snapshot,
    rules: &[Rule],
    steps: &mut Steps<L>,
) -> Result<List<RuleRow>, Memory>
    ensures rows { IfOk result (λ rows.
        rows ≡ map (outbound_rule from.now.store.now.objects) rules.now) }
    ensures steps { steps.new ≤ steps.old
        + cost from.now.store.now.objects (flat_map rule_marks rules.now) }
{
    let mut rows = List::new(from.alloc);
    for rule in rules {
        rows.add(outbound_rule(from, rule, steps)?)?;
    }
    Ok(rows)
}

fn outbound_rule<L>(from: &Snapshot, rule: &Rule, steps: &mut Steps<L>) -> Result<RuleRow, Memory>
    ensures value { IfOk result (λ row. row ≡ outbound_rule from.now.store.now.objects rule.now) }
    ensures steps { steps.new ≤ steps.old
        + cost from.now.store.now.objects (rule_marks rule.now) }
{
    Ok(RuleRow {
        matches: rule.matches.copy(from.alloc)?,
        filters: rule.filters.copy(from.alloc)?,
        backends: backend_rows(from, rule.backends.as_slice(), steps)?,
        request_timeout: rule.request_timeout,
        backend_timeout: rule.backend_timeout,
    })
}

fn backend_rows<L>(
    from: &Snapshot,
    backends: &[BackendRef],
    steps: &mut Steps<L>,
) -> Result<List<BackendRow>, Memory>
    ensures rows { IfOk result (λ rows.
        rows ≡ map (backend_row from.now.store.now.objects) backends.now) }
    ensures steps { steps.new ≤ steps.old
        + cost from.now.store.now.objects (flat_map backend_marks backends.now) }
{
    let mut rows = List::new(from.alloc);
    for backend in backends {
        rows.add(backend_row(from.store, backend, steps)?)?;
    }
    Ok(rows)
}

fn backend_row<L>(
    store: &Store,
    backend: &BackendRef,
    steps: &mut Steps<L>,
) -> Result<BackendRow, Memory>
    ensures value { IfOk result (λ row. row ≡ backend_row store.now.objects backend.now) }
    ensures steps { steps.new ≤ steps.old
        + cost store.now.objects (backend_marks backend.now) }
{
    Ok(BackendRow {
        ns: backend.ns.copy()?,
        name: backend.name.copy()?,
        port: backend.port.unwrap_or(0),
        weight: backend.weight,
        missing: is_missing(store, backend, steps),
    })
}

fn is_missing<L>(store: &Store, backend: &BackendRef, steps: &mut Steps<L>) -> bool
    ensures value { result ≡ is_missing store.now.objects backend.now }
    ensures steps { steps.new ≤ steps.old
        + cost store.now.objects (backend_marks backend.now) }
{
    !backend.service || !exists(service_held(store, &backend.ns, &backend.name, steps))
}

fn exists(service: Option<&Service>) -> bool
    ensures { result ≡ exists (option_copied service.entry) }
{
    match service {
        Some(service) => !service.external,
        None => false,
    }
}
