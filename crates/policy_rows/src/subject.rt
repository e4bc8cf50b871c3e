ghost use Rattle.std.specs.Prelude.{◌≡◌, ◌≤◌, ◌+◌, ◌&&◌, Bool, List, IfOk, map};
ghost use Rattle.view_types.specs.Objects.{ObjectMap};
ghost use Rattle.view_types.specs.declared.mark.Mark.{Mark};
ghost use Rattle.view_types.specs.declared.object.Object.{Object as Held};
ghost use Rattle.view_rules.specs.Policies.{applies_to_route, applies_to_server, authorizes, is_complete, is_on_route, is_on_server, is_route_kind, names_server, policy_applies};
ghost use Rattle.mark_rules.specs.Marks.{objects_with};
ghost use Rattle.mark_rules.specs.Reads.{cost, server_authz_marks};
ghost use Rattle.policy_rows.specs.ByMark.{AreAmong, route_target};
ghost use Rattle.policy_rows.specs.References.{is_whole, route_marks};

use crate::candidates::{route_candidates, server_candidates};
use crate::refs::ns_of;
use crate::selects::selects;
use mesh_base::key::{Kind, ObjKey};
use mesh_base::memory::Memory;
use mesh_base::steps::Steps;
use mesh_base::text::Text;
use object_store::store::Store;
use std::alloc::Global;
use view_types::authn::{AuthzPolicy, RefKind, ServerAuthz, ServerRef};
use view_types::object::Object;
use view_types::server::ServerSpec;

/// What authorizations apply to: a Server, or the route of a key.
pub trait Subject {
    /// Whether an object applies to it.
    ghost applies: { ObjectMap → Self → Held → Bool };

    /// The marks of the objects that may apply to it.
    ghost marks: { Self → List Mark };

    /// Whether an object applies to it if none of the object's references is missing.
    fn concerns(&self, object: &Object) -> bool
        ensures { (held : ObjectMap)
            → applies held self.now object.now ≡ (result && is_whole held object.now) };

    /// Returns the objects with one of its marks, in the order of their keys. These are all that
    /// may apply.
    fn candidates<'a, L>(
        &self,
        alloc: Global,
        store: &'a Store,
        steps: &mut Steps<L>,
    ) -> Result<Vec<&'a Object>, Memory>
        ensures objects { IfOk result (λ found.
            map (λ o. o.now) found.items ≡ objects_with store.now.objects (marks self.now)) }
        ensures among { IfOk result (λ found. AreAmong store.now.objects
            (applies store.now.objects self.now) (map (λ o. o.now) found.items)) }
        ensures steps { steps.new ≤ steps.old + cost store.now.objects (marks self.now) };
}

impl Subject for ServerSpec {
    ghost applies = { applies_to_server };

    ghost marks = { λ server. server_authz_marks server.meta.ns server.meta.name };

    fn concerns(&self, object: &Object) -> bool {
        match object {
            Object::ServerAuthorization(authz) => authorizes(authz.get(), self),
            Object::AuthorizationPolicy(policy) => {
                let target = &policy.get().target;
                let is_target = is_on_server(self, target.kind, &target.name);
                is_aimed(&self.meta.ns, is_target, policy.get())
            }
            _ => false,
        }
    }

    fn candidates<'a, L>(
        &self,
        alloc: Global,
        store: &'a Store,
        steps: &mut Steps<L>,
    ) -> Result<Vec<&'a Object>, Memory> {
        server_candidates(alloc, store, &self.meta.ns, &self.meta.name, steps)
    }
}

impl Subject for ObjKey {
    ghost applies = { applies_to_route };

    ghost marks = { λ route. route_marks route (route_target route.kind) };

    fn concerns(&self, object: &Object) -> bool {
        match object {
            Object::AuthorizationPolicy(policy) => {
                let target = &policy.get().target;
                let is_target = is_on_route(self, target.kind, &target.name);
                is_aimed(&self.ns, is_target, policy.get())
            }
            _ => false,
        }
    }

    fn candidates<'a, L>(
        &self,
        alloc: Global,
        store: &'a Store,
        steps: &mut Steps<L>,
    ) -> Result<Vec<&'a Object>, Memory> {
        match route_target(self.kind) {
            Some(target) => route_candidates(alloc, store, self, target, steps),
            None => Ok(Vec::new(alloc)),
        }
    }
}

/// Whether the policy and its target are in the namespace, and the target passes.
fn is_aimed(ns: &Text, is_target: bool, policy: &AuthzPolicy) -> bool
    ensures { (held : ObjectMap) → policy_applies held ns.now (λ kind name. is_target) policy.now
        ≡ (result && is_complete held policy.now) }
{
    let own = &policy.meta.ns;
    *own == *ns && *ns_of(own, &policy.target) == *ns && is_target
}

fn is_on_server(server: &ServerSpec, kind: RefKind, name: &Text) -> bool
    ensures { result ≡ is_on_server server.now kind name.now }
{
    match kind {
        RefKind::Server => *name == server.meta.name,
        RefKind::Namespace => *name == server.meta.ns,
        _ => false,
    }
}

fn is_on_route(route: &ObjKey, kind: RefKind, name: &Text) -> bool
    ensures { result ≡ is_on_route route.now kind name.now }
{
    is_route_kind(route.kind, kind) && *name == route.name
}

fn authorizes(authz: &ServerAuthz, server: &ServerSpec) -> bool
    ensures { result ≡ authorizes authz.now server.now }
{
    authz.meta.ns == server.meta.ns && names_server(&authz.server, server)
}

fn names_server(reference: &ServerRef, server: &ServerSpec) -> bool
    ensures { result ≡ names_server reference.now server.now }
{
    match reference {
        ServerRef::Named(name) => *name == server.meta.name,
        ServerRef::Chosen(selector) => selects(selector, &server.meta.labels),
    }
}

/// Returns the kind of target of an AuthorizationPolicy that names routes of the kind.
fn route_target(kind: Kind) -> Option<RefKind>
    ensures { result ≡ route_target kind }
{
    match kind {
        Kind::LinkerdRoute => Some(RefKind::LinkerdRoute),
        Kind::GatewayRoute => Some(RefKind::GatewayRoute),
        _ => None,
    }
}

fn is_route_kind(kind: Kind, target: RefKind) -> bool
    ensures { result ≡ is_route_kind kind target }
{
    match (kind, target) {
        (Kind::LinkerdRoute, RefKind::LinkerdRoute) => true,
        (Kind::GatewayRoute, RefKind::GatewayRoute) => true,
        _ => false,
    }
}
