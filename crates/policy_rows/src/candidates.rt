ghost use Rattle.std.specs.Prelude.{◌≡◌, ◌≤◌, ◌+◌, ◌++◌, [], ◌∷◌, IfOk, OnOk, filter_map, length, map, option_to_list};
ghost use Rattle.std.specs.FinMap.{get};
ghost use Rattle.std.specs.Option.{option_copied};
ghost use Rattle.std.specs.Ordering.{is_eq};
ghost use Rattle.mesh_base.specs.KeyOrder.{key_cmp};
ghost use Rattle.view_types.specs.Objects.{key_of};
ghost use Rattle.view_types.specs.declared.mark.Mark.TheVariants.{PolicyOn};
ghost use Rattle.view_rules.specs.InOrder.{in_order_by};
ghost use Rattle.mark_rules.specs.Marks.{objects_with};
ghost use Rattle.mark_rules.specs.Reads.{cost, count_at, server_authz_marks};

use crate::by_mark::{policies_on, server_authz_in};
use mesh_base::key::ObjKey;
use mesh_base::memory::Memory;
use mesh_base::steps::Steps;
use mesh_base::text::Text;
use object_store::store::Store;
use std::alloc::Global;
use std::cmp::Ordering;
use view_types::authn::RefKind;
use view_types::object::Object;

/// Returns the authorizations that may apply to a Server, in the order of their keys: the
/// ServerAuthorizations of its namespace, and the AuthorizationPolicies that target the Server or
/// its namespace.
pub fn server_candidates<'a, L>(
    alloc: Global,
    store: &'a Store,
    ns: &Text,
    name: &Text,
    steps: &mut Steps<L>,
) -> Result<Vec<&'a Object>, Memory>
    ensures objects { IfOk result (λ found. map (λ o. o.now) found.items
        ≡ objects_with store.now.objects (server_authz_marks ns.now name.now)) }
    ensures steps { steps.new ≤ steps.old
        + cost store.now.objects (server_authz_marks ns.now name.now) }
{
    store.stand_at_keys();
    let in_namespace = server_authz_in(store, ns)?;
    let on_server = policies_on(store, ns, RefKind::Server, name)?;
    let on_namespace = policies_on(store, ns, RefKind::Namespace, ns)?;
    let mut found = Vec::new(alloc);
    add_all(store, in_namespace, &mut found, steps)?;
    add_all(store, on_server, &mut found, steps)?;
    add_all(store, on_namespace, &mut found, steps)?;
    put_in_order(&mut found)?;
    Ok(found)
}

/// Returns the AuthorizationPolicies that target a route of this kind, in the order of their keys.
pub(crate) fn route_candidates<'a, L>(
    alloc: Global,
    store: &'a Store,
    route: &ObjKey,
    target: RefKind,
    steps: &mut Steps<L>,
) -> Result<Vec<&'a Object>, Memory>
    ensures objects { IfOk result (λ found. map (λ o. o.now) found.items
        ≡ objects_with store.now.objects (PolicyOn route.now.ns target route.now.name ∷ [])) }
    ensures steps { steps.new ≤ steps.old
        + count_at store.now.objects (PolicyOn route.now.ns target route.now.name) }
{
    let mut found = Vec::new(alloc);
    let keys = policies_on(store, &route.ns, target, &route.name)?;
    add_all(store, keys, &mut found, steps)?;
    Ok(found)
}

/// Adds the objects under the keys.
pub fn add_all<'a, L>(
    store: &'a Store,
    keys: &[ObjKey],
    found: &mut Vec<&'a Object>,
    steps: &mut Steps<L>,
) -> Result<(), Memory>
    ensures objects { OnOk result (map (λ o. o.now) found.new.items
        ≡ map (λ o. o.now) found.old.items ++ filter_map (get store.now.objects) keys.now) }
    ensures steps { steps.new ≤ steps.old
        + length (filter_map (get store.now.objects) keys.now) }
{
    for key in keys {
        add(found, store.get(key, steps))?;
    }
    Ok(())
}

fn add<'a>(found: &mut Vec<&'a Object>, object: Option<&'a Object>) -> Result<(), Memory>
    ensures { OnOk result (map (λ o. o.now) found.new.items
        ≡ map (λ o. o.now) found.old.items ++ option_to_list (option_copied object.entry)) }
{
    if let Some(object) = object {
        found.push(object)?;
    }
    Ok(())
}

/// Sorts objects by key, and keeps the first object of each key.
fn put_in_order(objects: &mut Vec<&Object>) -> Result<(), Memory>
    ensures { OnOk result (map (λ o. o.now) objects.new.items
        ≡ in_order_by key_cmp key_of (map (λ o. o.now) objects.old.items)) }
{
    objects.sort_by(|a, b| a.compare_keys(b))?;
    objects.dedup_by(|object, kept| is_same_key(object, kept));
    Ok(())
}

fn is_same_key(a: &Object, b: &Object) -> bool
    ensures { result ≡ is_eq (key_cmp (key_of a.now) (key_of b.now)) }
{
    a.compare_keys(b) == Ordering::Equal
}
