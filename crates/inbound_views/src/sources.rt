// Sources of the rows of ports.
ghost use Rattle.std.specs.Prelude.{◌≡◌, ◌≤◌, ◌+◌, List, IfOk};
ghost use Rattle.mesh_base.specs.declared.key.ObjKey.{ObjKey as TheObjKey};
ghost use Rattle.view_types.specs.Objects.{ObjectMap};
ghost use Rattle.view_types.specs.declared.config.Config.{Config};
ghost use Rattle.view_types.specs.declared.server_view.AuthzRow.{AuthzRow as TheAuthzRow};
ghost use Rattle.view_types.specs.declared.server_view.RouteRow.{RouteRow as TheRouteRow};
ghost use Rattle.mark_rules.specs.Reads.{authz_reads, cost, route_reads};
ghost use Rattle.mark_rules.specs.declared.keys.RouteKey.{RouteKey as TheRouteKey};

use mark_rules::keys::RouteKey;
use mesh_base::key::ObjKey;
use mesh_base::list::List;
use mesh_base::memory::Memory;
use mesh_base::steps::Steps;
use view_types::server_view::{AuthzRow, RouteRow};

/// The routes and the authorizations of ports, each list by its key.
pub trait RowSource {
    /// The lists are those over these objects.
    ghost stand: { Self → Config → ObjectMap → Type 0 };

    ghost routes_at: { Self → ObjectMap → TheRouteKey → List TheRouteRow };

    ghost authz_at: { Self → Config → ObjectMap → TheObjKey → List TheAuthzRow };

    /// Returns the routes of a Server, without their authorizations.
    fn routes<L>(&self, key: &RouteKey, steps: &mut Steps<L>) -> Result<List<RouteRow>, Memory>
        ensures rows { IfOk result (λ rows. (config : Config) (held : ObjectMap)
            → stand self.now config held → rows ≡ routes_at self.now held key.now) }
        ensures steps { (config : Config) (held : ObjectMap) → stand self.now config held
            → steps.new ≤ steps.old + cost held (route_reads key.now) };

    /// Returns the authorizations of a Server or of a route.
    fn authz<L>(&self, key: &ObjKey, steps: &mut Steps<L>) -> Result<List<AuthzRow>, Memory>
        ensures rows { IfOk result (λ rows. (config : Config) (held : ObjectMap)
            → stand self.now config held → rows ≡ authz_at self.now config held key.now) }
        ensures steps { (config : Config) (held : ObjectMap) → stand self.now config held
            → steps.new ≤ steps.old + cost held (authz_reads held key.now) };
}
