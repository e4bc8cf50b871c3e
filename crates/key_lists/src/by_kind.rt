//! Lists of keys at marks of a kind and two parts. A kind without lists stays, as kinds are few.
ghost use Rattle.std.specs.Prelude.{◌≡◌, ◌<◌, ◌&&◌, ◌||◌, not, [], OnOk, length};
ghost use Rattle.std.specs.Ordering.{eq_by_cmp};
ghost use Rattle.mesh_base.specs.declared.key.ObjKey.{ObjKey};
ghost use Rattle.key_lists.specs.Keys.{AllKindsHaveLists, has_key, is_key, key_by_kind, keys_by_kind, Rises};

use crate::key_list::KeyList;
use crate::nested;
use mesh_base::copied::Copied;
use mesh_base::key::ObjKey;
use mesh_base::memory::Memory;
use std::alloc::Global;
use std::collections::BTreeMap;

/// Returns the keys at the kind and the two parts of a mark.
pub fn keys_at<'a, K: Ord + Copy, A: Ord + Copied, B: Ord + Copied>(
    by: &'a BTreeMap<K, BTreeMap<A, BTreeMap<B, KeyList>>>,
    kind: K,
    a: &A,
    b: &B,
) -> &'a [ObjKey]
    ensures value { result.now ≡ keys_by_kind K.cmp A.cmp B.cmp by.now kind a.now b.now }
    ensures rise { Rises (keys_by_kind K.cmp A.cmp B.cmp by.now kind a.now b.now) }
{
    match by.get(&kind) {
        Some(inner) => nested::keys_at(inner, a, b),
        None => &[],
    }
}

/// Inserts a key at the kind and the two parts of a mark.
pub fn put_one<K: Ord + Copy, A: Ord + Copied, B: Ord + Copied>(
    alloc: Global,
    by: &mut BTreeMap<K, BTreeMap<A, BTreeMap<B, KeyList>>>,
    kind: K,
    a: &A,
    b: &B,
    key: &ObjKey,
) -> Result<(), Memory>
    ensures put { OnOk result ((q : K) (x : A) (y : B) (k : ObjKey)
        → key_by_kind K.cmp A.cmp B.cmp by.new q x y k
        ≡ ((eq_by_cmp K.cmp kind q
        && (eq_by_cmp A.cmp a.now x && (eq_by_cmp B.cmp b.now y && is_key k key.now)))
        || key_by_kind K.cmp A.cmp B.cmp by.old q x y k)) }
    ensures kept { AllKindsHaveLists K.cmp A.cmp B.cmp by.old
        → OnOk result (AllKindsHaveLists K.cmp A.cmp B.cmp by.new) }
{
    match by.get_mut(&kind) {
        Some(inner) => {
            nested::put_one(alloc, inner, a, b, key)?;
        }
        None => {
            let mut inner = BTreeMap::new(alloc);
            nested::put_one(alloc, &mut inner, a, b, key)?;
            by.insert(kind, inner)?;
        }
    }
    Ok(())
}

/// Inserts the keys of a list at the kind and the two parts of a mark.
pub fn put_list<K: Ord + Copy, A: Ord + Copied, B: Ord + Copied>(
    alloc: Global,
    by: &mut BTreeMap<K, BTreeMap<A, BTreeMap<B, KeyList>>>,
    kind: K,
    a: &A,
    b: &B,
    list: KeyList,
) -> Result<(), Memory>
    requires { 0 < length list }
    ensures put { OnOk result ((q : K) (x : A) (y : B) (k : ObjKey)
        → key_by_kind K.cmp A.cmp B.cmp by.new q x y k
        ≡ ((eq_by_cmp K.cmp kind q
        && (eq_by_cmp A.cmp a.now x && (eq_by_cmp B.cmp b.now y && has_key k list)))
        || key_by_kind K.cmp A.cmp B.cmp by.old q x y k)) }
    ensures kept { AllKindsHaveLists K.cmp A.cmp B.cmp by.old
        → OnOk result (AllKindsHaveLists K.cmp A.cmp B.cmp by.new) }
{
    match by.get_mut(&kind) {
        Some(inner) => {
            nested::put_list(alloc, inner, a, b, list)?;
        }
        None => {
            let mut inner = BTreeMap::new(alloc);
            nested::put_list(alloc, &mut inner, a, b, list)?;
            by.insert(kind, inner)?;
        }
    }
    Ok(())
}

/// Removes the list at the kind and the two parts of a mark, and returns it.
pub fn take_list<K: Ord + Copy, A: Ord + Copied, B: Ord + Copied>(
    alloc: Global,
    by: &mut BTreeMap<K, BTreeMap<A, BTreeMap<B, KeyList>>>,
    kind: K,
    a: &A,
    b: &B,
) -> KeyList
    ensures list { (q : K) (x : A) (y : B) (k : ObjKey)
        → key_by_kind K.cmp A.cmp B.cmp by.old q x y k
        ≡ ((eq_by_cmp K.cmp kind q
        && (eq_by_cmp A.cmp a.now x && (eq_by_cmp B.cmp b.now y && has_key k result)))
        || key_by_kind K.cmp A.cmp B.cmp by.new q x y k) }
    ensures gone { keys_by_kind K.cmp A.cmp B.cmp by.new kind a.now b.now ≡ [] }
    ensures kept { AllKindsHaveLists K.cmp A.cmp B.cmp by.old
        → AllKindsHaveLists K.cmp A.cmp B.cmp by.new }
{
    match by.get_mut(&kind) {
        Some(inner) => nested::take_list(alloc, inner, a, b),
        None => KeyList::new(alloc),
    }
}

/// Removes a key at the kind and the two parts of a mark, if it is there.
pub fn take_one<K: Ord + Copy, A: Ord + Copied, B: Ord + Copied>(
    by: &mut BTreeMap<K, BTreeMap<A, BTreeMap<B, KeyList>>>,
    kind: K,
    a: &A,
    b: &B,
    key: &ObjKey,
)
    ensures taken { (q : K) (x : A) (y : B) (k : ObjKey)
        → key_by_kind K.cmp A.cmp B.cmp by.new q x y k
        ≡ (not (eq_by_cmp K.cmp kind q
        && (eq_by_cmp A.cmp a.now x && (eq_by_cmp B.cmp b.now y && is_key k key.now)))
        && key_by_kind K.cmp A.cmp B.cmp by.old q x y k) }
    ensures kept { AllKindsHaveLists K.cmp A.cmp B.cmp by.old
        → AllKindsHaveLists K.cmp A.cmp B.cmp by.new }
{
    match by.get_mut(&kind) {
        Some(inner) => nested::take_one(inner, a, b, key),
        None => {}
    }
}
