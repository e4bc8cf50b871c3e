// The policy of the port of a simulated request.
ghost use Rattle.std.specs.Prelude.{◌≡◌, ◌≤◌, ◌+◌, IfOk};
ghost use Rattle.view_types.specs.declared.config.Config.{Config};
ghost use Rattle.row_views.specs.Costs.{cost_of};
ghost use Rattle.inbound_views.specs.BarePorts.{bare_port, bare_rows};
ghost use Rattle.mesh_hub.specs.Ports.{port_of};

use kept_views::views::KeptViews;
use mark_rules::keys::ServerKey;
use mesh_base::list::List;
use mesh_base::memory::Memory;
use mesh_base::steps::Steps;
use mesh_base::text::Text;
use object_store::store::Store;
use request_sim::route_authz::RouteAuthz;
use row_views::query_views::QueryViews;
use view_types::request::Request;
use view_types::server_view::{AuthzRow, RouteRow, ServerView};

/// The authorizations of the routes of a namespace over the objects of a store, whether or not they
/// are kept.
#[derive(Drop)]
pub struct PeekedAuthz<'a> {
    pub views: &'a KeptViews,
    pub store: &'a Store,
    pub ns: &'a Text,
}

impl RouteAuthz for PeekedAuthz<'_> {
    ghost use Rattle.mesh_hub.specs.Ports.{CostsOfRoutes, GivesOfRoutes};

    ghost gives = { λ s authz. GivesOfRoutes ⟦<KeptViews as QueryViews>⟧.stands
        s.views.now s.store.now.objects s.ns.now authz };

    ghost costs = { λ s cost. CostsOfRoutes ⟦<KeptViews as QueryViews>⟧.stands
        s.views.now s.store.now.objects s.ns.now cost };

    fn authz_of<L>(
        &self,
        route: &RouteRow,
        steps: &mut Steps<L>,
    ) -> Result<List<AuthzRow>, Memory> {
        self.views.peek_authz(self.store, self.ns, route, steps)
    }
}

/// Returns the view of the port of a request, whether or not there is a subscription to it. Its
/// routes are without their authorizations.
pub fn peek_port<L>(
    views: &KeptViews,
    store: &Store,
    request: &Request,
    steps: &mut Steps<L>,
) -> Result<ServerView, Memory>
    ensures view { IfOk result (λ view. (config : Config)
        → ⟦<KeptViews as QueryViews>⟧.stands views.now config store.now.objects
        → view ≡ bare_port config store.now.objects (port_of request.now)) }
    ensures steps { (config : Config)
        → ⟦<KeptViews as QueryViews>⟧.stands views.now config store.now.objects
        → steps.new ≤ steps.old + cost_of config store.now.objects
        (bare_rows config store.now.objects (port_of request.now)) }
{
    let key = port_of(request)?;
    views.peek_port(store, &key, steps)
}

// Returns the key of the port of a request.
fn port_of(request: &Request) -> Result<ServerKey, Memory>
    ensures { IfOk result (λ key. key ≡ port_of request.now) }
{
    Ok(ServerKey {
        ns: request.ns.copy()?,
        pod: request.pod.copy()?,
        port: request.port,
    })
}
