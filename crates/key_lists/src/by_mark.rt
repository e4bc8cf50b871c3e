ghost use Rattle.std.specs.Prelude.{◌≡◌, ◌<◌, ◌&&◌, ◌||◌, not, true, false, [], IfOk, OnOk, length, List};
ghost use Rattle.std.specs.BTreeMap.{btree_map_len};
ghost use Rattle.std.specs.Ordering.{eq_by_cmp};
ghost use Rattle.mesh_base.specs.declared.key.ObjKey.{ObjKey};
ghost use Rattle.key_lists.specs.Keys.{AllHaveKeys, has_key, is_key, key_at, keys_at, OthersHaveKeys, Rises};

use crate::key_list::KeyList;
use mesh_base::copied::Copied;
use mesh_base::key::ObjKey;
use mesh_base::memory::Memory;
use std::alloc::Global;
use std::collections::BTreeMap;

/// Returns the keys at a mark.
pub fn keys_at<'a, M: Ord + Copied>(by: &'a BTreeMap<M, KeyList>, mark: &M) -> &'a [ObjKey]
    ensures value { result.now ≡ keys_at M.cmp by.now mark.now }
    ensures rise { Rises (keys_at M.cmp by.now mark.now) }
{
    match by.get(mark) {
        Some(keys) => keys.as_slice(),
        None => &[],
    }
}

/// Inserts a key at a mark.
pub fn put_one<M: Ord + Copied>(
    alloc: Global,
    by: &mut BTreeMap<M, KeyList>,
    mark: &M,
    key: &ObjKey,
) -> Result<(), Memory>
    ensures put { OnOk result ((m : M) (k : ObjKey)
        → key_at M.cmp by.new m k
        ≡ ((eq_by_cmp M.cmp mark.now m && is_key k key.now) || key_at M.cmp by.old m k)) }
    ensures kept { AllHaveKeys M.cmp by.old → OnOk result (AllHaveKeys M.cmp by.new) }
    ensures filled { OnOk result (0 < btree_map_len by.new) }
{
    let key = key.copy(alloc)?;
    match by.get_mut(mark) {
        Some(keys) => {
            keys.put(key)?;
        }
        None => {
            let mut keys = KeyList::new(alloc);
            keys.put(key)?;
            by.insert(mark.copy(alloc)?, keys)?;
        }
    }
    Ok(())
}

/// Inserts the keys of a list at a mark.
pub fn put_list<M: Ord + Copied>(
    alloc: Global,
    by: &mut BTreeMap<M, KeyList>,
    mark: &M,
    list: KeyList,
) -> Result<(), Memory>
    requires { 0 < length list }
    ensures put { OnOk result ((m : M) (k : ObjKey)
        → key_at M.cmp by.new m k
        ≡ ((eq_by_cmp M.cmp mark.now m && has_key k list) || key_at M.cmp by.old m k)) }
    ensures kept { AllHaveKeys M.cmp by.old → OnOk result (AllHaveKeys M.cmp by.new) }
    ensures filled { OnOk result (0 < btree_map_len by.new) }
{
    match by.get_mut(mark) {
        Some(keys) => {
            keys.put_all(list)?;
        }
        None => {
            by.insert(mark.copy(alloc)?, list)?;
        }
    }
    Ok(())
}

/// Removes the list at a mark, and returns it. It is empty if there is none.
pub fn take_list<M: Ord + Copied>(alloc: Global, by: &mut BTreeMap<M, KeyList>, mark: &M) -> KeyList
    ensures list { (m : M) (k : ObjKey)
        → key_at M.cmp by.old m k
        ≡ ((eq_by_cmp M.cmp mark.now m && has_key k result) || key_at M.cmp by.new m k) }
    ensures gone { keys_at M.cmp by.new mark.now ≡ [] }
    ensures kept { AllHaveKeys M.cmp by.old → AllHaveKeys M.cmp by.new }
{
    match by.remove(mark) {
        Some(list) => list,
        None => KeyList::new(alloc),
    }
}

/// Removes a key at a mark, if it is there.
pub fn take_one<M: Ord + Copied>(by: &mut BTreeMap<M, KeyList>, mark: &M, key: &ObjKey)
    ensures taken { (m : M) (k : ObjKey)
        → key_at M.cmp by.new m k
        ≡ (not (eq_by_cmp M.cmp mark.now m && is_key k key.now) && key_at M.cmp by.old m k) }
    ensures kept { AllHaveKeys M.cmp by.old → AllHaveKeys M.cmp by.new }
{
    if take_from(by, mark, key) {
        let_go(by, mark);
    }
}

/// Removes a key from the list at a mark. Returns whether there is a list, empty now.
fn take_from<M: Ord + Copied>(by: &mut BTreeMap<M, KeyList>, mark: &M, key: &ObjKey) -> bool
    ensures taken { (m : M) (k : ObjKey)
        → key_at M.cmp by.new m k
        ≡ (not (eq_by_cmp M.cmp mark.now m && is_key k key.now) && key_at M.cmp by.old m k) }
    ensures emptied { result ≡ true → keys_at M.cmp by.new mark.now ≡ [] }
    ensures kept { AllHaveKeys M.cmp by.old → OthersHaveKeys M.cmp mark.now by.new }
    ensures filled { AllHaveKeys M.cmp by.old → result ≡ false → AllHaveKeys M.cmp by.new }
{
    match by.get_mut(mark) {
        Some(keys) => {
            keys.take(key);
            keys.is_empty()
        }
        None => false,
    }
}

/// Removes the list at a mark that has no keys.
fn let_go<M: Ord + Copied>(by: &mut BTreeMap<M, KeyList>, mark: &M)
    requires { keys_at M.cmp by.old mark.now ≡ [] }
    ensures same { (m : M) (k : ObjKey) → key_at M.cmp by.new m k ≡ key_at M.cmp by.old m k }
    ensures kept { OthersHaveKeys M.cmp mark.now by.old → AllHaveKeys M.cmp by.new }
{
    by.remove(mark);
}
