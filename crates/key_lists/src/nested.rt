//! Lists of keys at marks of two parts. A part with no list left is removed.
ghost use Rattle.std.specs.Prelude.{◌≡◌, ◌<◌, ◌&&◌, ◌||◌, not, true, false, [], OnOk, length};
ghost use Rattle.std.specs.Ordering.{eq_by_cmp};
ghost use Rattle.mesh_base.specs.declared.key.ObjKey.{ObjKey};
ghost use Rattle.key_lists.specs.Keys.{AllHaveLists, has_key, is_key, nested_at, nested_keys, OthersHaveLists, Rises};

use crate::by_mark;
use crate::key_list::KeyList;
use mesh_base::copied::Copied;
use mesh_base::key::ObjKey;
use mesh_base::memory::Memory;
use std::alloc::Global;
use std::collections::BTreeMap;

/// Returns the keys at the two parts of a mark.
pub fn keys_at<'a, A: Ord + Copied, B: Ord + Copied>(
    by: &'a BTreeMap<A, BTreeMap<B, KeyList>>,
    a: &A,
    b: &B,
) -> &'a [ObjKey]
    ensures value { result.now ≡ nested_keys A.cmp B.cmp by.now a.now b.now }
    ensures rise { Rises (nested_keys A.cmp B.cmp by.now a.now b.now) }
{
    match by.get(a) {
        Some(inner) => by_mark::keys_at(inner, b),
        None => &[],
    }
}

/// Inserts a key at the two parts of a mark.
pub fn put_one<A: Ord + Copied, B: Ord + Copied>(
    alloc: Global,
    by: &mut BTreeMap<A, BTreeMap<B, KeyList>>,
    a: &A,
    b: &B,
    key: &ObjKey,
) -> Result<(), Memory>
    ensures put { OnOk result ((x : A) (y : B) (k : ObjKey)
        → nested_at A.cmp B.cmp by.new x y k
        ≡ ((eq_by_cmp A.cmp a.now x && (eq_by_cmp B.cmp b.now y && is_key k key.now))
        || nested_at A.cmp B.cmp by.old x y k)) }
    ensures kept { AllHaveLists A.cmp B.cmp by.old
        → OnOk result (AllHaveLists A.cmp B.cmp by.new) }
{
    match by.get_mut(a) {
        Some(inner) => {
            by_mark::put_one(alloc, inner, b, key)?;
        }
        None => {
            let mut inner = BTreeMap::new(alloc);
            by_mark::put_one(alloc, &mut inner, b, key)?;
            by.insert(a.copy(alloc)?, inner)?;
        }
    }
    Ok(())
}

/// Inserts the keys of a list at the two parts of a mark.
pub fn put_list<A: Ord + Copied, B: Ord + Copied>(
    alloc: Global,
    by: &mut BTreeMap<A, BTreeMap<B, KeyList>>,
    a: &A,
    b: &B,
    list: KeyList,
) -> Result<(), Memory>
    requires { 0 < length list }
    ensures put { OnOk result ((x : A) (y : B) (k : ObjKey)
        → nested_at A.cmp B.cmp by.new x y k
        ≡ ((eq_by_cmp A.cmp a.now x && (eq_by_cmp B.cmp b.now y && has_key k list))
        || nested_at A.cmp B.cmp by.old x y k)) }
    ensures kept { AllHaveLists A.cmp B.cmp by.old
        → OnOk result (AllHaveLists A.cmp B.cmp by.new) }
{
    match by.get_mut(a) {
        Some(inner) => {
            by_mark::put_list(alloc, inner, b, list)?;
        }
        None => {
            let mut inner = BTreeMap::new(alloc);
            by_mark::put_list(alloc, &mut inner, b, list)?;
            by.insert(a.copy(alloc)?, inner)?;
        }
    }
    Ok(())
}

/// Removes the list at the two parts of a mark, and returns it.
pub fn take_list<A: Ord + Copied, B: Ord + Copied>(
    alloc: Global,
    by: &mut BTreeMap<A, BTreeMap<B, KeyList>>,
    a: &A,
    b: &B,
) -> KeyList
    ensures list { (x : A) (y : B) (k : ObjKey)
        → nested_at A.cmp B.cmp by.old x y k
        ≡ ((eq_by_cmp A.cmp a.now x && (eq_by_cmp B.cmp b.now y && has_key k result))
        || nested_at A.cmp B.cmp by.new x y k) }
    ensures gone { nested_keys A.cmp B.cmp by.new a.now b.now ≡ [] }
    ensures kept { AllHaveLists A.cmp B.cmp by.old → AllHaveLists A.cmp B.cmp by.new }
{
    let (list, emptied) = list_from(alloc, by, a, b);
    if emptied {
        let_go(by, a);
    }
    list
}

/// Removes a list from those of a part. Returns it, and whether the part has no list left.
fn list_from<A: Ord + Copied, B: Ord + Copied>(
    alloc: Global,
    by: &mut BTreeMap<A, BTreeMap<B, KeyList>>,
    a: &A,
    b: &B,
) -> (KeyList, bool)
    ensures list { (x : A) (y : B) (k : ObjKey)
        → nested_at A.cmp B.cmp by.old x y k
        ≡ ((eq_by_cmp A.cmp a.now x && (eq_by_cmp B.cmp b.now y && has_key k result.0))
        || nested_at A.cmp B.cmp by.new x y k) }
    ensures gone { nested_keys A.cmp B.cmp by.new a.now b.now ≡ [] }
    ensures emptied { result.1 ≡ true → (y : B) → nested_keys A.cmp B.cmp by.new a.now y ≡ [] }
    ensures kept { AllHaveLists A.cmp B.cmp by.old → OthersHaveLists A.cmp B.cmp a.now by.new }
    ensures filled { AllHaveLists A.cmp B.cmp by.old → result.1 ≡ false
        → AllHaveLists A.cmp B.cmp by.new }
{
    match by.get_mut(a) {
        Some(inner) => {
            let list = by_mark::take_list(alloc, inner, b);
            (list, inner.is_empty())
        }
        None => (KeyList::new(alloc), false),
    }
}

/// Removes a key at the two parts of a mark, if it is there.
pub fn take_one<A: Ord + Copied, B: Ord + Copied>(
    by: &mut BTreeMap<A, BTreeMap<B, KeyList>>,
    a: &A,
    b: &B,
    key: &ObjKey,
)
    ensures taken { (x : A) (y : B) (k : ObjKey)
        → nested_at A.cmp B.cmp by.new x y k
        ≡ (not (eq_by_cmp A.cmp a.now x && (eq_by_cmp B.cmp b.now y && is_key k key.now))
        && nested_at A.cmp B.cmp by.old x y k) }
    ensures kept { AllHaveLists A.cmp B.cmp by.old → AllHaveLists A.cmp B.cmp by.new }
{
    if take_from(by, a, b, key) {
        let_go(by, a);
    }
}

/// Removes a key from the lists of a part. Returns whether the part has no list left.
fn take_from<A: Ord + Copied, B: Ord + Copied>(
    by: &mut BTreeMap<A, BTreeMap<B, KeyList>>,
    a: &A,
    b: &B,
    key: &ObjKey,
) -> bool
    ensures taken { (x : A) (y : B) (k : ObjKey)
        → nested_at A.cmp B.cmp by.new x y k
        ≡ (not (eq_by_cmp A.cmp a.now x && (eq_by_cmp B.cmp b.now y && is_key k key.now))
        && nested_at A.cmp B.cmp by.old x y k) }
    ensures emptied { result ≡ true → (y : B) → nested_keys A.cmp B.cmp by.new a.now y ≡ [] }
    ensures kept { AllHaveLists A.cmp B.cmp by.old → OthersHaveLists A.cmp B.cmp a.now by.new }
    ensures filled { AllHaveLists A.cmp B.cmp by.old → result ≡ false
        → AllHaveLists A.cmp B.cmp by.new }
{
    match by.get_mut(a) {
        Some(inner) => {
            by_mark::take_one(inner, b, key);
            inner.is_empty()
        }
        None => false,
    }
}

/// Removes a part that has no keys.
fn let_go<A: Ord + Copied, B: Ord + Copied>(by: &mut BTreeMap<A, BTreeMap<B, KeyList>>, a: &A)
    requires { (y : B) → nested_keys A.cmp B.cmp by.old a.now y ≡ [] }
    ensures same { (x : A) (y : B) (k : ObjKey)
        → nested_at A.cmp B.cmp by.new x y k ≡ nested_at A.cmp B.cmp by.old x y k }
    ensures kept { OthersHaveLists A.cmp B.cmp a.now by.old → AllHaveLists A.cmp B.cmp by.new }
{
    by.remove(a);
}
