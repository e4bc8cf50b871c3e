ghost use Rattle.std.specs.Prelude.{◌≡◌, ◌≤◌, ◌+◌, ◌∷◌, IfOk, codes, flat_map, map, option_and_then};
ghost use Rattle.std.specs.FinMap.{get};
ghost use Rattle.std.specs.Option.{option_copied};
ghost use Rattle.view_rules.specs.Inbound.{default_policy, default_protocol, default_row, inbound, inbound_route, inbound_routes, inbound_rule, port_row, server_row};
ghost use Rattle.view_rules.specs.Routes.{attached_routes, is_server_parent, route_key};
ghost use Rattle.view_types.specs.declared.mark.Mark.TheVariants.{RouteOn};
ghost use Rattle.view_types.specs.declared.query.Query.TheVariants as query;
ghost use Rattle.view_types.specs.declared.route.ParentKind.TheVariants as parent;
ghost use Rattle.mark_rules.specs.Reads.{authz_reads, cost, query_reads};
ghost use Rattle.mesh_text.specs.PolicyWords.{policy_of};
ghost use Rattle.view_scratch.specs.Reads.{port_marks, server_marks};

use crate::opaque::is_opaque;
use crate::pod::pod_named;
use k8s_meta::choice::Word;
use mesh_base::copied::Copied;
use mesh_base::list::List;
use mesh_base::memory::Memory;
use mesh_base::steps::Steps;
use mesh_base::text::Text;
use mesh_text::policy_word::PolicyWord;
use policy_rows::parent::ServerNamed;
use policy_rows::probes::{probe_paths, unless_routes};
use policy_rows::route_row::{route_key, route_row};
use policy_rows::routes::attached_routes;
use policy_rows::rows::authz_rows;
use policy_rows::server::chosen_server;
use policy_rows::snapshot::Snapshot;
use std::alloc::Global;
use view_types::config::Config;
use view_types::pod::Pod;
use view_types::policy::{Policy, Protocol};
use view_types::route::{Route, Rule};
use view_types::server::ServerSpec;
use view_types::server_view::{RouteRow, RuleRow, ServerRow, ServerView};

/// Returns the policy of a port of the Pod of the namespace and name over the objects held.
pub fn inbound<L>(
    from: &Snapshot,
    ns: &Text,
    name: &Text,
    port: u16,
    steps: &mut Steps<L>,
) -> Result<ServerView, Memory>
    ensures value { IfOk result (λ view.
        view ≡ inbound from.now.config.now from.now.store.now.objects ns.now name.now port) }
    ensures steps { steps.new ≤ steps.old + cost from.now.store.now.objects (query_reads
        from.now.config.now from.now.store.now.objects (query.Port ns.now name.now port)) }
{
    from.store.stand_at_keys();
    match pod_named(from.store, ns, name, steps) {
        Some(pod) => {
            let server = chosen_server(from.store, ns, pod, port, steps)?;
            let row = port_row(from, pod, port, server, steps)?;
            Ok(ServerView::Present(row))
        }
        None => Ok(ServerView::Absent),
    }
}

fn port_row<L>(
    from: &Snapshot,
    pod: &Pod,
    port: u16,
    server: Option<&ServerSpec>,
    steps: &mut Steps<L>,
) -> Result<ServerRow, Memory>
    ensures value { IfOk result (λ row. row
        ≡ port_row from.now.config.now from.now.store.now.objects pod.now port
        (option_copied server.entry)) }
    ensures steps { steps.new ≤ steps.old + cost from.now.store.now.objects
        (port_marks from.now.store.now.objects (option_copied server.entry)) }
{
    match server {
        Some(server) => server_row(from, pod, port, server, steps),
        None => default_row(from.alloc, from.config, pod, port),
    }
}

fn default_row(alloc: Global, config: &Config, pod: &Pod, port: u16) -> Result<ServerRow, Memory>
    ensures { IfOk result (λ row. row ≡ default_row config.now pod.now port) }
{
    Ok(ServerRow {
        protocol: default_protocol(alloc, pod, port)?,
        policy: default_policy(config, pod),
        server: None,
        authz: List::new(alloc),
        routes: List::new(alloc),
        probes: probe_paths(alloc, pod, port)?,
    })
}

/// Returns the protocol of a Pod's port that no Server selects.
pub fn default_protocol(alloc: Global, pod: &Pod, port: u16) -> Result<Protocol, Memory>
    ensures { IfOk result (λ protocol. protocol ≡ default_protocol pod.now port) }
{
    if is_opaque(alloc, &pod.meta, port)? {
        return Ok(Protocol::Opaque);
    }
    Ok(Protocol::Unknown)
}

/// Returns the policy of a Pod's port that no Server selects: that of the Pod's annotation, or the
/// configured one.
pub fn default_policy(config: &Config, pod: &Pod) -> Policy
    ensures { result ≡ default_policy config.now pod.now }
{
    match annotated_policy(pod) {
        Some(policy) => policy,
        None => config.default_policy,
    }
}

fn annotated_policy(pod: &Pod) -> Option<Policy>
    ensures { result ≡ option_and_then policy_of
        (get pod.now.meta.notes (codes "config.linkerd.io/default-inbound-policy")) }
{
    match pod
        .meta
        .notes
        .get(b"config.linkerd.io/default-inbound-policy")
    {
        Some(word) => PolicyWord.meaning_of(word.as_str()),
        None => None,
    }
}

fn server_row<L>(
    from: &Snapshot,
    pod: &Pod,
    port: u16,
    server: &ServerSpec,
    steps: &mut Steps<L>,
) -> Result<ServerRow, Memory>
    ensures value { IfOk result (λ row. row
        ≡ server_row from.now.config.now from.now.store.now.objects pod.now port server.now) }
    ensures steps { steps.new ≤ steps.old + cost from.now.store.now.objects (server_marks
        from.now.store.now.objects server.now.meta.ns server.now.meta.name) }
{
    let name = server.meta.name.copy()?;
    let paths = probe_paths(from.alloc, pod, port)?;
    let authz = authz_rows(from, server, steps)?;
    let routes = inbound_routes(from, server, steps)?;
    let probes = unless_routes(from.alloc, routes.as_slice(), paths);
    Ok(ServerRow {
        protocol: server.protocol,
        policy: server.policy,
        server: Some(name),
        authz,
        routes,
        probes,
    })
}

fn inbound_routes<L>(
    from: &Snapshot,
    server: &ServerSpec,
    steps: &mut Steps<L>,
) -> Result<List<RouteRow>, Memory>
    ensures value { IfOk result (λ rows.
        rows ≡ inbound_routes from.now.config.now from.now.store.now.objects server.now) }
    ensures steps { steps.new ≤ steps.old + cost from.now.store.now.objects
        (RouteOn server.now.meta.ns parent.Server server.now.meta.name
        ∷ flat_map (λ route. authz_reads from.now.store.now.objects (route_key route))
        (attached_routes from.now.store.now.objects server.now.meta.ns
        (is_server_parent server.now.meta.name))) }
{
    let attachment = ServerNamed {
        name: &server.meta.name,
    };
    let routes = attached_routes(from.alloc, from.store, &server.meta.ns, &attachment, steps)?;
    route_rows(from, routes.as_slice(), steps)
}

fn route_rows<L>(
    from: &Snapshot,
    routes: &[&Route],
    steps: &mut Steps<L>,
) -> Result<List<RouteRow>, Memory>
    ensures rows { IfOk result (λ rows.
        rows ≡ map (λ route. inbound_route from.now.config.now from.now.store.now.objects route.now)
        routes.now) }
    ensures steps { steps.new ≤ steps.old + cost from.now.store.now.objects (flat_map
        (λ route. authz_reads from.now.store.now.objects (route_key route.now)) routes.now) }
{
    let mut rows = List::new(from.alloc);
    for route in routes {
        rows.add(inbound_route(from, route, steps)?)?;
    }
    Ok(rows)
}

fn inbound_route<L>(
    from: &Snapshot,
    route: &Route,
    steps: &mut Steps<L>,
) -> Result<RouteRow, Memory>
    ensures value { IfOk result (λ row. row
        ≡ inbound_route from.now.config.now from.now.store.now.objects route.now) }
    ensures steps { steps.new ≤ steps.old + cost from.now.store.now.objects
        (authz_reads from.now.store.now.objects (route_key route.now)) }
{
    let rules = inbound_rules(from.alloc, route.rules.as_slice())?;
    let authz = authz_rows(from, &route_key(route)?, steps)?;
    route_row(from.alloc, route, rules, authz)
}

/// Returns the rules of a route in an inbound view.
pub fn inbound_rules(alloc: Global, rules: &[Rule]) -> Result<List<RuleRow>, Memory>
    ensures { IfOk result (λ rows. rows ≡ map inbound_rule rules.now) }
{
    let mut rows = List::new(alloc);
    for rule in rules {
        rows.add(inbound_rule(alloc, rule)?)?;
    }
    Ok(rows)
}

/// Returns a rule in an inbound view, without backends and timeouts.
fn inbound_rule(alloc: Global, rule: &Rule) -> Result<RuleRow, Memory>
    ensures { IfOk result (λ row. row ≡ inbound_rule rule.now) }
{
    Ok(RuleRow {
        matches: rule.matches.copy(alloc)?,
        filters: rule.filters.copy(alloc)?,
        backends: List::new(alloc),
        request_timeout: None,
        backend_timeout: None,
    })
}
