// Where the authorizations of routes come from.
ghost use Rattle.std.specs.Prelude.{◌≡◌, ◌≤◌, ◌+◌, ℕ, List, IfOk};
ghost use Rattle.view_types.specs.declared.server_view.AuthzRow.{AuthzRow as TheAuthzRow};
ghost use Rattle.view_types.specs.declared.server_view.RouteRow.{RouteRow as TheRouteRow};

use mesh_base::list::List;
use mesh_base::memory::Memory;
use mesh_base::steps::Steps;
use view_types::server_view::{AuthzRow, RouteRow};

/// A source of the authorizations of routes.
pub trait RouteAuthz {
    /// The function gives the authorizations of each route.
    ghost gives: { Self → (TheRouteRow → List TheAuthzRow) → Type 0 };

    /// The function gives the most objects that are looked up for each route.
    ghost costs: { Self → (TheRouteRow → ℕ) → Type 0 };

    /// Returns the authorizations of a route.
    fn authz_of<L>(&self, route: &RouteRow, steps: &mut Steps<L>) -> Result<List<AuthzRow>, Memory>
        ensures rows { IfOk result (λ rows. (authz : TheRouteRow → List TheAuthzRow)
            → gives self.now authz → rows ≡ authz route.now) }
        ensures steps { (cost : TheRouteRow → ℕ) → costs self.now cost
            → steps.new ≤ steps.old + cost route.now };
}
