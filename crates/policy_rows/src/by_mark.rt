// Keys by mark. The keys of a spent store can be older than its objects, so it returns Memory.
ghost use Rattle.std.specs.Prelude.{◌≡◌, false, IfOk, OnOk};
ghost use Rattle.view_types.specs.declared.mark.Mark.TheVariants.{PolicyOn, RouteOn, ServerAuthzIn, ServersIn, SlicesOf};
ghost use Rattle.policy_rows.specs.ByMark.{FindsObjects, HoldMarked};

use mark_rules::laws::keys_by_mark;
use mesh_base::key::ObjKey;
use mesh_base::memory::Memory;
use mesh_base::text::Text;
use object_store::store::Store;
use view_types::authn::RefKind;
use view_types::route::ParentKind;

/// Checks that the store is not spent. Then the objects under the keys that it finds for a mark are
/// those with the mark.
pub fn check_going(store: &Store) -> Result<(), Memory>
    ensures going { OnOk result (store.now.spent ≡ false) }
    ensures finds { OnOk result (FindsObjects store.now) }
{
    keys_by_mark();
    store.stand_at_keys();
    if store.is_spent() {
        return Err(Memory);
    }
    Ok(())
}

/// Returns the keys of the EndpointSlices of the Service, in order.
pub fn slices_of<'a>(store: &'a Store, ns: &Text, service: &Text) -> Result<&'a [ObjKey], Memory>
    ensures { IfOk result (λ keys.
        HoldMarked store.now.objects (SlicesOf ns.now service.now) keys.now) }
{
    check_going(store)?;
    Ok(store.slices_of(ns, service))
}

/// Returns the keys of the Servers of the namespace, in order.
pub fn servers_in<'a>(store: &'a Store, ns: &Text) -> Result<&'a [ObjKey], Memory>
    ensures { IfOk result (λ keys. HoldMarked store.now.objects (ServersIn ns.now) keys.now) }
{
    check_going(store)?;
    Ok(store.servers_in(ns))
}

/// Returns the keys of the ServerAuthorizations of the namespace, in order.
pub fn server_authz_in<'a>(store: &'a Store, ns: &Text) -> Result<&'a [ObjKey], Memory>
    ensures { IfOk result (λ keys. HoldMarked store.now.objects (ServerAuthzIn ns.now) keys.now) }
{
    check_going(store)?;
    Ok(store.server_authz_in(ns))
}

/// Returns the keys of the AuthorizationPolicies of the namespace with this target, in order.
pub fn policies_on<'a>(
    store: &'a Store,
    ns: &Text,
    kind: RefKind,
    name: &Text,
) -> Result<&'a [ObjKey], Memory>
    ensures { IfOk result (λ keys.
        HoldMarked store.now.objects (PolicyOn ns.now kind name.now) keys.now) }
{
    check_going(store)?;
    Ok(store.policies_on(ns, kind, name))
}

/// Returns the keys of the routes of the namespace with this parent, in order.
pub fn routes_on<'a>(
    store: &'a Store,
    ns: &Text,
    kind: ParentKind,
    name: &Text,
) -> Result<&'a [ObjKey], Memory>
    ensures { IfOk result (λ keys.
        HoldMarked store.now.objects (RouteOn ns.now kind name.now) keys.now) }
{
    check_going(store)?;
    Ok(store.routes_on(ns, kind, name))
}
