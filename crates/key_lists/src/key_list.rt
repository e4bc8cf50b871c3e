ghost use Rattle.std.specs.Prelude.{◌≡◌, ◌≤◌, ◌<◌, ◌&&◌, ◌||◌, ◌==◌, ◌++◌, not, true, [], IfOk, IfErr, OnOk, OnErr, drop, length, take};
ghost use Rattle.std.specs.List.{filter, insert as list_insert};
ghost use Rattle.std.specs.Vec.{vec_len};
ghost use Rattle.mesh_base.specs.declared.key.ObjKey.{ObjKey};
ghost use Rattle.mesh_base.specs.KeyOrder.{key_cmp};
ghost use Rattle.mesh_base.specs.Places.{IsHit, IsGap};
ghost use Rattle.key_lists.specs.Keys.{has_key, is_after, is_key, Rises};

use mesh_base::key::{Kind, ObjKey};
use mesh_base::memory::Memory;
use std::alloc::Global;
use std::cmp::Ordering;
use std::marker::Model;

/// Object keys in ascending order by kind, namespace and name, each once. Contracts see a list.
#[derive(Drop)]
pub struct KeyList {
    keys: Vec<ObjKey>,
}

impl Model for KeyList {
    ghost use Rattle.std.specs.Prelude.{List};
    ghost use Rattle.mesh_base.specs.declared.key.ObjKey.{ObjKey};
    ghost use Rattle.mesh_base.specs.KeyOrder.{coded_key};
    ghost use Rattle.std.specs.Coded.{coded_list};
    ghost use Rattle.key_lists.specs.Keys.{Rises};

    ghost Value = { List ObjKey };

    ghost coded = { coded_list coded_key };

    ghost view = { λ s. s.keys.items };

    ghost invariant = { λ s. Rises s.keys.items };
}

impl KeyList {
    pub fn new(alloc: Global) -> KeyList
        ensures { result ≡ [] }
    {
        KeyList {
            keys: Vec::new(alloc),
        }
    }

    pub fn as_slice(&self) -> &[ObjKey]
        ensures value { result.now ≡ self.now }
        ensures rise { Rises self.now }
    {
        self.keys.as_slice()
    }

    pub fn is_empty(&self) -> bool
        ensures { result ≡ (length self.now == 0) }
    {
        self.keys.is_empty()
    }

    /// Inserts the key, unless the list has it.
    pub fn put(&mut self, key: ObjKey) -> Result<(), Memory>
        ensures filled { OnOk result (0 < length self.new) }
        ensures put { OnOk result ((k : ObjKey)
            → has_key k self.new ≡ (is_key k key || has_key k self.old)) }
    {
        match place(self.keys.as_slice(), &key) {
            Ok(_) => {}
            Err(at) => insert(&mut self.keys, at, key)?,
        }
        Ok(())
    }

    /// Removes the key, if the list has it.
    pub fn take(&mut self, key: &ObjKey)
        ensures { (k : ObjKey) → has_key k self.new ≡ (not (is_key k key.now) && has_key k self.old) }
    {
        match place(self.keys.as_slice(), key) {
            Ok(at) => {
                let _key = self.keys.remove(at);
            }
            Err(_) => {}
        }
    }

    /// Inserts the keys of `other`. It is appended whole if all its keys come after those here.
    pub fn put_all(&mut self, other: KeyList) -> Result<(), Memory>
        ensures filled { 0 < length other → OnOk result (0 < length self.new) }
        ensures put { OnOk result ((k : ObjKey)
            → has_key k self.new ≡ (has_key k other || has_key k self.old)) }
    {
        if stand_before(self.as_slice(), other.as_slice()) {
            self.append(other)
        } else {
            self.put_each(other)
        }
    }

    /// Removes the keys of the kinds after this one, and returns them.
    pub fn split_after(&mut self, kind: Kind) -> Result<KeyList, Memory>
        ensures left { OnOk result ((k : ObjKey)
            → has_key k self.new ≡ (not (is_after kind k) && has_key k self.old)) }
        ensures taken { IfOk result (λ after. (k : ObjKey)
            → has_key k after ≡ (is_after kind k && has_key k self.old)) }
    {
        let start = start_after(self.keys.as_slice(), kind);
        let keys = self.keys.split_off(start)?;
        Ok(KeyList { keys })
    }

    fn append(&mut self, other: KeyList) -> Result<(), Memory>
        requires { Rises (self.old ++ other) }
        ensures { OnOk result ((k : ObjKey)
            → has_key k self.new ≡ (has_key k other || has_key k self.old)) }
    {
        let KeyList { mut keys } = other;
        self.keys.append(&mut keys)?;
        Ok(())
    }

    fn put_each(&mut self, other: KeyList) -> Result<(), Memory>
        ensures { OnOk result ((k : ObjKey)
            → has_key k self.new ≡ (has_key k other || has_key k self.old)) }
    {
        let KeyList { keys } = other;
        for key in keys {
            self.put(key)?;
        }
        Ok(())
    }
}

/// Inserts a key. An empty list reserves room for one key alone, as most lists have one.
fn insert(keys: &mut Vec<ObjKey>, at: usize, key: ObjKey) -> Result<(), Memory>
    requires { at ≤ vec_len keys.old }
    ensures items { OnOk result (keys.new.items ≡ list_insert keys.old.items at key) }
    ensures same { OnErr result (keys.new.items ≡ keys.old.items) }
{
    if keys.is_empty() {
        keys.reserve_exact(1)?;
    }
    keys.insert(at, key)?;
    Ok(())
}

/// Returns whether all keys of the first list come before those of the second.
fn stand_before(first: &[ObjKey], second: &[ObjKey]) -> bool
    requires first { Rises first.now }
    requires second { Rises second.now }
    ensures { result ≡ true → Rises (first.now ++ second.now) }
{
    match (first.last(), second.first()) {
        (Some(last), Some(next)) => matches!(compare_keys(last, next), Ordering::Less),
        _ => true,
    }
}

/// Returns the index of the first key of a kind after this one, or the length.
fn start_after(keys: &[ObjKey], kind: Kind) -> usize
    requires { Rises keys.now }
    ensures within { result ≤ length keys.now }
    ensures front { take result keys.now ≡ filter (λ k. not (is_after kind k)) keys.now }
    ensures back { drop result keys.now ≡ filter (is_after kind) keys.now }
{
    keys.partition_point(|key| !comes_after(key, kind))
}

fn comes_after(key: &ObjKey, kind: Kind) -> bool
    ensures { result ≡ is_after kind key.now }
{
    key.kind > kind
}

/// Returns the index of the key, or as an error the index at which it would be inserted.
fn place(keys: &[ObjKey], key: &ObjKey) -> Result<usize, usize>
    requires { Rises keys.now }
    ensures hit { IfOk result (IsHit (λ k. key_cmp k key.now) keys.now) }
    ensures gap { IfErr result (IsGap (λ k. key_cmp k key.now) keys.now) }
{
    keys.binary_search_by(|other| compare_keys(other, key))
}

fn compare_keys(a: &ObjKey, b: &ObjKey) -> Ordering
    ensures { result ≡ key_cmp a.now b.now }
{
    match a.kind.cmp(&b.kind) {
        Ordering::Equal => match a.ns.cmp(&b.ns) {
            Ordering::Equal => a.name.cmp(&b.name),
            unequal => unequal,
        },
        unequal => unequal,
    }
}
