ghost use Rattle.std.specs.Prelude.{◌≡◌, ◌&&◌, ◌||◌, not, true, OnOk};
ghost use Rattle.std.specs.List.{All};
ghost use Rattle.mesh_base.specs.declared.key.ObjKey.{ObjKey};
ghost use Rattle.view_types.specs.Objects.{key_of};
ghost use Rattle.view_types.specs.declared.mark.Mark.{Mark};
ghost use Rattle.object_store.specs.KeyLists.{ArePut, AreTaken, Follows, comes_at, has_other, is_kept, is_new, is_old, was_at};
ghost use Rattle.object_store.specs.Relisted.{is_of};
ghost use Rattle.object_store.specs.ServerKeys.{Place, ServersFollow, is_kept_for, requires_value};

use crate::aside::{put_back, set_aside};
use crate::change::Change;
use crate::objects::Objects;
use crate::store_keys::StoreKeys;
use mark_rules::object_marks::add_others;
use mesh_base::key::{Kind, ObjKey};
use mesh_base::list::List;
use mesh_base::memory::Memory;
use std::alloc::Global;
use view_types::object::Object;

/// Removes the keys of the old objects of the change, and adds those of its new objects.
pub fn follow(
    alloc: Global,
    objects: &Objects,
    keys: &mut StoreKeys,
    change: &Change,
) -> Result<(), Memory>
    ensures marked { OnOk result
        (Follows objects.now keys.old.marked keys.new.marked change.now) }
    ensures servers { OnOk result
        (ServersFollow objects.now keys.old.servers keys.new.servers change.now) }
{
    take_objects(alloc, keys, change.old.as_slice())?;
    put_objects(alloc, objects, keys, change.new.as_slice())
}

/// Does `follow` for a change of objects of one kind, with the keys of later kinds set aside.
pub fn follow_kind(
    alloc: Global,
    objects: &Objects,
    keys: &mut StoreKeys,
    kind: Kind,
    change: &Change,
) -> Result<(), Memory>
    requires { All (λ o. is_of kind (key_of o) ≡ true) change.now.old }
    ensures marked { OnOk result
        (Follows objects.now keys.old.marked keys.new.marked change.now) }
    ensures servers { OnOk result
        (ServersFollow objects.now keys.old.servers keys.new.servers change.now) }
{
    let asides = set_aside(alloc, &mut keys.marked, kind, change.marks.as_slice())?;
    follow(alloc, objects, keys, change)?;
    put_back(alloc, &mut keys.marked, asides)
}

/// Removes the keys of the objects, the last first: removal at the end of a list is fastest.
fn take_objects(alloc: Global, keys: &mut StoreKeys, old: &[Object]) -> Result<(), Memory>
    ensures marked { OnOk result
        (AreTaken has_other old.now (is_kept keys.old.marked) (is_kept keys.new.marked)) }
    ensures servers { OnOk result (AreTaken requires_value old.now
        (is_kept_for keys.old.servers) (is_kept_for keys.new.servers)) }
{
    for at in (0..old.len()).rev() {
        take_object(alloc, keys, &old[at])?;
    }
    Ok(())
}

fn put_objects(
    alloc: Global,
    objects: &Objects,
    keys: &mut StoreKeys,
    new: &[ObjKey],
) -> Result<(), Memory>
    ensures marked { OnOk result (ArePut has_other objects.now new.now
        (is_kept keys.old.marked) (is_kept keys.new.marked)) }
    ensures servers { OnOk result (ArePut requires_value objects.now new.now
        (is_kept_for keys.old.servers) (is_kept_for keys.new.servers)) }
{
    for key in new {
        put_object(alloc, objects, keys, key)?;
    }
    Ok(())
}

fn take_object(alloc: Global, keys: &mut StoreKeys, object: &Object) -> Result<(), Memory>
    ensures marked { OnOk result ((m : Mark) (k : ObjKey) → is_kept keys.new.marked m k
        ≡ (not (is_old m k object.now) && is_kept keys.old.marked m k)) }
    ensures servers { OnOk result ((place : Place) (k : ObjKey)
        → is_kept_for keys.new.servers place k
        ≡ (not (was_at requires_value place k object.now)
        && is_kept_for keys.old.servers place k)) }
{
    let mut marks = List::new(alloc);
    add_others(&mut marks, object)?;
    let key = object.key(alloc)?;
    keys.marked.take(marks.as_slice(), &key);
    keys.servers.take(object, &key);
    Ok(())
}

fn put_object(
    alloc: Global,
    objects: &Objects,
    keys: &mut StoreKeys,
    key: &ObjKey,
) -> Result<(), Memory>
    ensures marked { OnOk result ((m : Mark) (k : ObjKey) → is_kept keys.new.marked m k
        ≡ (is_new objects.now m k key.now || is_kept keys.old.marked m k)) }
    ensures servers { OnOk result ((place : Place) (k : ObjKey)
        → is_kept_for keys.new.servers place k
        ≡ (comes_at requires_value objects.now place k key.now
        || is_kept_for keys.old.servers place k)) }
{
    match objects.get(key) {
        Some(object) => {
            let mut marks = List::new(alloc);
            add_others(&mut marks, object)?;
            keys.marked.put(alloc, marks.as_slice(), key)?;
            keys.servers.put(alloc, object, key)
        }
        None => Ok(()),
    }
}
