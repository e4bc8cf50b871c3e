// The views of ports, joined from their rows.
ghost use Rattle.std.specs.Prelude.{◌≡◌, ◌≤◌, ◌+◌, [], IfOk, Some, map, unwrap_or};
ghost use Rattle.std.specs.Option.{option_copied};
ghost use Rattle.view_types.specs.Objects.{ObjectMap};
ghost use Rattle.view_types.specs.declared.config.Config.{Config};
ghost use Rattle.view_types.specs.declared.server_view.ServerView.TheVariants.{Present};
ghost use Rattle.mark_rules.specs.Rows.{authz_behind, join_inbound, name_in, routes_behind, row_joined, server_part, with_authz};
ghost use Rattle.row_views.specs.Costs.{cost_of};
ghost use Rattle.row_views.specs.Ids.{key_at};
ghost use Rattle.inbound_views.specs.BarePorts.{bare_behind, join_bare};
ghost use Rattle.inbound_views.specs.Costs.{cost_of_authz, cost_of_routes};
ghost use Rattle.inbound_views.specs.PortRows.{listed, own_authz};
ghost use Rattle.inbound_views.specs.Standing.{kept_authz, kept_routes};

use crate::keys::{key_of_row, routes_key, server_key};
use crate::sources::RowSource;
use crate::views::{InboundViews, KeepsRows};
use mark_rules::keys::{RouteKey, ServerKey};
use mesh_base::copied::Copied;
use mesh_base::key::ObjKey;
use mesh_base::list::List;
use mesh_base::memory::Memory;
use mesh_base::steps::Steps;
use mesh_base::text::Text;
use policy_rows::probes::unless_routes;
use server_index::kept::ServerPart;
use std::alloc::Global;
use view_types::server_view::{AuthzRow, RouteRow, ServerRow, ServerView};

impl InboundViews {
    /// Returns the view of the port of an id, which is open with this key.
    pub(crate) fn joined(&self, id: u64, key: &ServerKey) -> Result<ServerView, Memory>
        requires { key_at self.now.servers.by_id id ≡ Some key.now }
        ensures { IfOk result (λ view. (config : Config) (held : ObjectMap)
            → ⟦<InboundViews as KeepsRows>⟧.stand self.now config held
            → view ≡ join_inbound (kept_routes self.now held) (kept_authz self.now config held)
            key.now.ns (server_part config held key.now)) }
    {
        match self.servers.row(id) {
            Some(part) => {
                let part = copied_part(self.alloc, part)?;
                self.joined_port(&key.ns, part)
            }
            None => Ok(ServerView::Absent),
        }
    }

    // Returns the view of a port in a namespace with this server part.
    fn joined_port(&self, ns: &Text, part: Option<ServerPart>) -> Result<ServerView, Memory>
        ensures { IfOk result (λ view. (config : Config) (held : ObjectMap)
            → ⟦<InboundViews as KeepsRows>⟧.stand self.now config held
            → view ≡ join_inbound (kept_routes self.now held) (kept_authz self.now config held)
            ns.now part) }
    {
        match part {
            Some(part) => Ok(ServerView::Present(self.joined_row(ns, part)?)),
            None => Ok(ServerView::Absent),
        }
    }

    // Returns the row of a port with this server part.
    fn joined_row(&self, ns: &Text, part: ServerPart) -> Result<ServerRow, Memory>
        ensures { IfOk result (λ row. (config : Config) (held : ObjectMap)
            → ⟦<InboundViews as KeepsRows>⟧.stand self.now config held
            → Present row ≡ join_inbound (kept_routes self.now held)
            (kept_authz self.now config held) ns.now (Some part)) }
    {
        let server = part.2.as_ref();
        let authz = self.server_authz(ns, server)?;
        let routes = self.server_routes(ns, server)?;
        Ok(row_of_part(self.alloc, part, authz, routes))
    }

    // Returns the authorizations of a Server, if there is one.
    fn server_authz(&self, ns: &Text, server: Option<&Text>) -> Result<List<AuthzRow>, Memory>
        ensures { IfOk result (λ rows. (config : Config) (held : ObjectMap)
            → ⟦<InboundViews as KeepsRows>⟧.stand self.now config held
            → rows ≡ authz_behind (kept_authz self.now config held) ns.now
            (option_copied server.entry)) }
    {
        match server {
            Some(name) => self.copied_authz(&server_key(ns, name)?),
            None => Ok(List::new(self.alloc)),
        }
    }

    // Returns the routes of a Server, if there is one, with their authorizations.
    fn server_routes(&self, ns: &Text, server: Option<&Text>) -> Result<List<RouteRow>, Memory>
        ensures { IfOk result (λ rows. (config : Config) (held : ObjectMap)
            → ⟦<InboundViews as KeepsRows>⟧.stand self.now config held
            → rows ≡ map (with_authz (kept_authz self.now config held) ns.now)
            (routes_behind (kept_routes self.now held) ns.now (option_copied server.entry))) }
    {
        match server {
            Some(name) => {
                let routes = self.copied_routes(&routes_key(ns, name)?)?;
                self.joined_routes(ns, routes)
            }
            None => Ok(List::new(self.alloc)),
        }
    }

    // Adds the authorizations of each of these routes.
    fn joined_routes(&self, ns: &Text, routes: List<RouteRow>) -> Result<List<RouteRow>, Memory>
        ensures { IfOk result (λ rows. (config : Config) (held : ObjectMap)
            → ⟦<InboundViews as KeepsRows>⟧.stand self.now config held
            → rows ≡ map (with_authz (kept_authz self.now config held) ns.now) routes) }
    {
        let mut rows = List::new(self.alloc);
        for route in routes.into_vec() {
            rows.add(self.joined_route(ns, route)?)?;
        }
        Ok(rows)
    }

    // Adds the authorizations of a route.
    fn joined_route(&self, ns: &Text, route: RouteRow) -> Result<RouteRow, Memory>
        ensures { IfOk result (λ row. (config : Config) (held : ObjectMap)
            → ⟦<InboundViews as KeepsRows>⟧.stand self.now config held
            → row ≡ with_authz (kept_authz self.now config held) ns.now route) }
    {
        let mut route = route;
        let key = key_of_row(ns, &route)?;
        route.authz = self.copied_authz(&key)?;
        Ok(route)
    }

    // Returns the routes of a Server, without their authorizations.
    fn copied_routes(&self, key: &RouteKey) -> Result<List<RouteRow>, Memory>
        ensures { IfOk result (λ rows. (config : Config) (held : ObjectMap)
            → ⟦<InboundViews as KeepsRows>⟧.stand self.now config held
            → rows ≡ kept_routes self.now held key.now) }
    {
        copied(self.alloc, self.routes.row(key))
    }

    // Returns the authorizations of a Server or of a route.
    fn copied_authz(&self, key: &ObjKey) -> Result<List<AuthzRow>, Memory>
        ensures { IfOk result (λ rows. (config : Config) (held : ObjectMap)
            → ⟦<InboundViews as KeepsRows>⟧.stand self.now config held
            → rows ≡ kept_authz self.now config held key.now) }
    {
        copied(self.alloc, self.authz.row(key))
    }
}

/// Returns the view of a port in a namespace with this server part. Its routes are without their
/// authorizations.
pub(crate) fn bare_port<S: RowSource, L>(
    source: &S,
    alloc: Global,
    ns: &Text,
    part: Option<ServerPart>,
    steps: &mut Steps<L>,
) -> Result<ServerView, Memory>
    ensures view { IfOk result (λ view. (config : Config) (held : ObjectMap)
        → S.stand source.now config held
        → view ≡ join_bare (S.routes_at source.now held) (S.authz_at source.now config held)
        ns.now part) }
    ensures steps { (config : Config) (held : ObjectMap) → S.stand source.now config held
        → steps.new ≤ steps.old + cost_of config held (bare_behind ns.now (name_in part)) }
{
    match part {
        Some(part) => {
            let row = bare_row(source, alloc, ns, part, steps)?;
            Ok(ServerView::Present(row))
        }
        None => Ok(ServerView::Absent),
    }
}

// Returns the row of a port with this server part. Its routes are without their authorizations.
#[tactic(auto, using(crate::proofs::Bare::bare_parts))]
fn bare_row<S: RowSource, L>(
    source: &S,
    alloc: Global,
    ns: &Text,
    part: ServerPart,
    steps: &mut Steps<L>,
) -> Result<ServerRow, Memory>
    ensures row { IfOk result (λ row. (config : Config) (held : ObjectMap)
        → S.stand source.now config held → Present row ≡ join_bare
        (S.routes_at source.now held) (S.authz_at source.now config held) ns.now (Some part)) }
    ensures steps { (config : Config) (held : ObjectMap) → S.stand source.now config held
        → steps.new ≤ steps.old + cost_of config held (bare_behind ns.now part.2) }
{
    let server = part.2.as_ref();
    let authz = server_authz(source, alloc, ns, server, steps)?;
    let routes = bare_routes(source, alloc, ns, server, steps)?;
    Ok(row_of_part(alloc, part, authz, routes))
}

// Adds the authorizations of a Server and its routes, and the Pod's probes if it has no routes.
fn row_of_part(
    alloc: Global,
    part: ServerPart,
    authz: List<AuthzRow>,
    routes: List<RouteRow>,
) -> ServerRow
    ensures { result ≡ row_joined part authz routes }
{
    let (protocol, policy, server, probes) = part;
    let probes = unless_routes(alloc, routes.as_slice(), probes);
    ServerRow {
        protocol,
        policy,
        server,
        authz,
        routes,
        probes,
    }
}

// Returns the authorizations of a Server, if there is one.
fn server_authz<S: RowSource, L>(
    source: &S,
    alloc: Global,
    ns: &Text,
    server: Option<&Text>,
    steps: &mut Steps<L>,
) -> Result<List<AuthzRow>, Memory>
    ensures rows { IfOk result (λ rows. (config : Config) (held : ObjectMap)
        → S.stand source.now config held → rows ≡ authz_behind (S.authz_at source.now config held)
        ns.now (option_copied server.entry)) }
    ensures steps { (config : Config) (held : ObjectMap) → S.stand source.now config held
        → steps.new ≤ steps.old
        + cost_of_authz held (own_authz ns.now (option_copied server.entry)) }
{
    match server {
        Some(name) => source.authz(&server_key(ns, name)?, steps),
        None => Ok(List::new(alloc)),
    }
}

// Returns the routes of a Server, if there is one, without their authorizations.
#[tactic(auto, using(crate::proofs::Costs::one_route))]
fn bare_routes<S: RowSource, L>(
    source: &S,
    alloc: Global,
    ns: &Text,
    server: Option<&Text>,
    steps: &mut Steps<L>,
) -> Result<List<RouteRow>, Memory>
    ensures rows { IfOk result (λ rows. (config : Config) (held : ObjectMap)
        → S.stand source.now config held → rows ≡ routes_behind (S.routes_at source.now held)
        ns.now (option_copied server.entry)) }
    ensures steps { (config : Config) (held : ObjectMap) → S.stand source.now config held
        → steps.new ≤ steps.old
        + cost_of_routes held (listed ns.now (option_copied server.entry)) }
{
    match server {
        Some(name) => source.routes(&routes_key(ns, name)?, steps),
        None => Ok(List::new(alloc)),
    }
}

/// Copies the server part of a port.
pub(crate) fn copied_part(
    alloc: Global,
    part: &Option<ServerPart>,
) -> Result<Option<ServerPart>, Memory>
    ensures { IfOk result (λ copy. copy ≡ part.now) }
{
    match part {
        Some(part) => Ok(Some((part.0, part.1, part.2.copy(alloc)?, part.3.copy(alloc)?))),
        None => Ok(None),
    }
}

// Copies the rows, if there are any.
fn copied<T: Copied>(alloc: Global, rows: Option<&List<T>>) -> Result<List<T>, Memory>
    ensures { IfOk result (λ copy. copy ≡ unwrap_or (option_copied rows.entry) []) }
{
    match rows {
        Some(rows) => rows.copy(alloc),
        None => Ok(List::new(alloc)),
    }
}
