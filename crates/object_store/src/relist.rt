ghost use Rattle.std.specs.Prelude.{◌≡◌, ◌≤◌, false, map, IfOk, IfErr, OnOk};
ghost use Rattle.std.specs.List.{IsDistinct};
ghost use Rattle.std.specs.List.Sorted.{IsPermutation};
ghost use Rattle.std.specs.Ordering.{eq_by_cmp};
ghost use Rattle.std.specs.FinMap.{len};
ghost use Rattle.mesh_base.specs.KeyOrder.{key_cmp};
ghost use Rattle.mesh_base.specs.Keyed.{IsKeyed};
ghost use Rattle.view_types.specs.Objects.{key_of, IsListOf};
ghost use Rattle.object_store.specs.Changes.{IsFull};
ghost use Rattle.object_store.specs.Relisted.{Relists, exceeds};
ghost use Rattle.object_store.specs.KeyLists.{StayUnlessSpent};
ghost use Rattle.object_store.specs.ServerKeys.{AreKept};

use crate::change::{Change, StoreFault};
use crate::objects::Objects;
use crate::store_keys::StoreKeys;
use crate::upkeep::follow_kind;
use mark_rules::object_marks::add_all_marks;
use mesh_base::key::{Kind, ObjKey};
use mesh_base::list::List;
use mesh_base::memory::Memory;
use std::alloc::Global;
use view_types::object::Object;

/// Replaces all objects of the kind by the items, which it sorts. Other kinds are not moved.
pub fn relist(
    alloc: Global,
    objects: &mut Objects,
    keys: &mut StoreKeys,
    limit: u32,
    kind: Kind,
    items: List<Object>,
) -> Result<Change, StoreFault>
    requires list { IsListOf kind items }
    requires within { len objects.old ≤ limit }
    ensures ok { IfOk result (Relists objects.old objects.new kind items) }
    ensures room { OnOk result (exceeds objects.old limit kind items ≡ false) }
    ensures full { IfErr result
        (IsFull objects.old objects.new (exceeds objects.old limit kind items)) }
    ensures kept { len objects.new ≤ limit }
    ensures keys { OnOk result (AreKept objects.old keys.old → AreKept objects.new keys.new) }
    ensures keys_stay { IfErr result (StayUnlessSpent keys.old keys.new) }
{
    objects.stand_at_keys();
    let items = arrange(items);
    if objects.lacks_room_for(limit, kind, items.as_slice()) {
        return Err(StoreFault::Full {
            held: objects.len() as u32,
        });
    }
    let new = keys_of(alloc, items.as_slice())?;
    let mut marks = List::new(alloc);
    add_all_marks(alloc, &mut marks, items.as_slice())?;
    let old = objects.replace(alloc, kind, items)?;
    let change = Change::from(alloc, marks, old, new)?;
    follow_kind(alloc, objects, keys, kind, &change)?;
    Ok(change)
}

/// Returns the items in the order of their keys.
fn arrange(items: List<Object>) -> Vec<Object>
    requires { IsDistinct (eq_by_cmp key_cmp) (map key_of items) }
    ensures sorted { IsKeyed key_cmp key_of (λ o. o) result.items }
    ensures moved { IsPermutation items result.items }
{
    let mut items = items.into_vec();
    items.sort_unstable_by(|a, b| a.compare_keys(b));
    items
}

fn keys_of(alloc: Global, objects: &[Object]) -> Result<List<ObjKey>, Memory>
    ensures { IfOk result (λ keys. keys ≡ map key_of objects.now) }
{
    let mut keys = List::new(alloc);
    for object in objects {
        keys.add(object.key(alloc)?)?;
    }
    Ok(keys)
}
