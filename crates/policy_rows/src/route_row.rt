ghost use Rattle.std.specs.Prelude.{◌≡◌, IfOk, List as Items, map};
ghost use Rattle.view_types.specs.declared.route.Rule.{Rule as Written};
ghost use Rattle.view_types.specs.declared.server_view.RuleRow.{RuleRow as Shown};
ghost use Rattle.view_rules.specs.Routes.{route_key, route_row};

use mesh_base::copied::Copied;
use mesh_base::key::ObjKey;
use mesh_base::list::List;
use mesh_base::memory::Memory;
use std::alloc::Global;
use view_types::route::Route;
use view_types::server_view::{AuthzRow, RouteRow, RuleRow};

/// Returns the row of a route, with these rules and authorizations.
pub fn route_row(
    alloc: Global,
    route: &Route,
    rules: List<RuleRow>,
    authz: List<AuthzRow>,
) -> Result<RouteRow, Memory>
    ensures { IfOk result (λ row. (rule_row : Written → Shown)
        → rules ≡ map rule_row route.now.rules → row ≡ route_row rule_row authz route.now) }
{
    Ok(RouteRow {
        kind: route.kind,
        name: route.meta.name.copy()?,
        created: route.meta.created.copy(alloc)?,
        hosts: route.hosts.copy(alloc)?,
        rules,
        authz,
    })
}

/// Returns the key of the route.
pub fn route_key(route: &Route) -> Result<ObjKey, Memory>
    ensures { IfOk result (λ key. key ≡ route_key route.now) }
{
    Ok(ObjKey {
        kind: route.kind,
        ns: route.meta.ns.copy()?,
        name: route.meta.name.copy()?,
    })
}
