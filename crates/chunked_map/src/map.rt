ghost use Rattle.std.specs.Prelude.{◌≡◌, ◌+◌, ◌↔◌, None, Some, IfNone, IfOk, IfSome, IsSome, IsTrue, OnErr, OnOk, if◌then◌else◌, is_some, option_map, slice_get};
ghost use Rattle.std.specs.BTreeMap.{IsEmpty, IsOrdered, IsUnchanged, Updates, btree_map_len, get, insert_entry, is_at, keys, values};
ghost use Rattle.std.specs.Borrow.{sem};
ghost use Rattle.std.specs.List.{IsAmong};
ghost use Rattle.std.specs.Option.{option_copied, option_copied_mut};
ghost use Rattle.std_collections.specs.Map.{remove_entry};

use crate::pairs::{place, replace_value_at, take_at, value_at};
use chunked_list::list::ChunkedList;
use mesh_base::memory::Memory;
use std::alloc::Global;
use std::marker::Model;

/// An ordered map as a list of pairs in chunks. Keys that are inserted in ascending order leave no
/// room between them, and a look-up halves the pairs. Contracts see it as a `BTreeMap`.
pub struct ChunkedMap<K: Ord, V> {
    /// The pairs in the order of their keys.
    pairs: ChunkedList<(K, V)>,
    alloc: Global,
}

/// Written by hand, as that of `List`.
impl<K: Ord + Drop, V: Drop> Drop for ChunkedMap<K, V> {
    fn drop(self) {
        let ChunkedMap {
            pairs: _pairs,
            alloc: _alloc,
        } = self;
    }
}

impl<K: Ord, V> Model for ChunkedMap<K, V> {
    ghost use Rattle.std.specs.BTreeMap.{BTreeMap};
    ghost use Rattle.std.specs.List.Sorted.{IsStrictlySortedBy};
    ghost use Rattle.std_collections.specs.Layout.BTreeMap.{btree_map_code};
    ghost use Rattle.std_collections.specs.Map.{keys_of};
    ghost use Rattle.chunked_map.specs.Pairs.{map_of};

    ghost Value = { BTreeMap K V };

    ghost coded = { btree_map_code K.code V.code };

    ghost view = { λ m. map_of m.pairs };

    ghost invariant = { λ m. IsStrictlySortedBy K.cmp (keys_of m.pairs) };
}

impl<K: Ord, V> ChunkedMap<K, V> {
    ghost use Rattle.chunked_map.specs.Lending.{follows_get};

    pub fn new(alloc: Global) -> ChunkedMap<K, V>
        ensures empty { IsEmpty result }
        ensures len { btree_map_len result ≡ 0 }
        ensures ordered { IsOrdered K.cmp result }
    {
        ChunkedMap {
            pairs: ChunkedList::new(alloc),
            alloc,
        }
    }

    pub fn len(&self) -> usize
        ensures len { result ≡ btree_map_len self.now }
        ensures ordered { IsOrdered K.cmp self.now }
    {
        self.pairs.len()
    }

    pub fn is_empty(&self) -> bool
        ensures { IsTrue result ↔ (btree_map_len self.now ≡ 0) }
    {
        self.len() == 0
    }

    pub fn get(&self, key: &K) -> Option<&V>
        ensures value { option_copied result ≡ get K.cmp self.now key.now }
        ensures member { IfSome result (λ x. IsAmong (values self.now) x.now) }
    {
        match place(&self.pairs, key) {
            Ok(at) => value_at(&self.pairs, at),
            Err(_) => None,
        }
    }

    /// Returns the least key and its value.
    pub fn first_key_value(&self) -> Option<(&K, &V)>
        ensures { option_map (λ p. (p.0.now, p.1.now)) result ≡ slice_get self.now.entries 0 }
    {
        match self.pairs.get(0) {
            Some(pair) => Some((&pair.0, &pair.1)),
            None => None,
        }
    }

    pub fn contains_key(&self, key: &K) -> bool
        ensures { result ≡ is_some (get K.cmp self.now key.now) }
    {
        self.get(key).is_some()
    }

    pub fn get_mut(&mut self, key: &K) -> Option<&mut V>
        ensures* writes_back { sem 𝓛 (follows_get K.row V.row K.Ord self.entry key.now result) }
        ensures value { option_copied_mut result ≡ get K.cmp self.old key.now }
        ensures member { IfSome result (λ x. IsAmong (values self.old) x.now) }
        ensures ordered { IsOrdered K.cmp self.old }
    {
        match place(&self.pairs, key) {
            Ok(at) => match self.pairs.get_mut(at) {
                Some(pair) => Some(&mut pair.1),
                None => None,
            },
            Err(_) => None,
        }
    }

    /// Inserts a value, and returns the old one of the key, whose stored key stays.
    pub fn insert(&mut self, key: K, value: V) -> Result<Option<V>, Memory>
    where
        K: Drop,
        V: Drop,
        // On success `key` has `value`, its old value is returned, and other keys keep theirs.
        ensures old { IfOk result (λ old. old ≡ get K.cmp self.old key) }
        ensures updates { OnOk result (Updates K.cmp self.old self.new key (Some value)) }
        ensures entries { OnOk result
            (self.new.entries ≡ insert_entry K.cmp self.old.entries key value) }
        ensures keys_stay { IfOk result (λ old. IsSome old → keys self.new ≡ keys self.old) }
        ensures len { IfOk result (λ old. btree_map_len self.new
            ≡ btree_map_len self.old + (if is_some old then 0 else 1)) }

        // On failure the pair is dropped and the entries stay. Only a new key can fail.
        ensures absent { OnErr result (get K.cmp self.old key ≡ None) }
        ensures err { OnErr result (IsUnchanged self.old self.new) }

        // The keys ascend.
        ensures ordered { IsOrdered K.cmp self.new }
        ensures was_ordered { IsOrdered K.cmp self.old }
    {
        match place(&self.pairs, &key) {
            Ok(at) => Ok(replace_value_at(&mut self.pairs, at, value)),
            Err(at) => {
                self.pairs.insert(self.alloc, at, (key, value))?;
                Ok(None)
            }
        }
    }

    pub fn remove(&mut self, key: &K) -> Option<V>
    where
        K: Drop,
        V: Drop,
        // The value at `key` is returned and its entry removed. Other keys keep theirs.
        ensures value { result ≡ get K.cmp self.old key.now }
        ensures updates { Updates K.cmp self.old self.new key.now None }
        ensures entries { self.new.entries
            ≡ remove_entry (is_at (K.cmp key.now)) self.old.entries }

        // `None` leaves the entries as they were, `Some` takes one, and the keys still ascend.
        ensures unchanged { IfNone result (IsUnchanged self.old self.new) }
        ensures len { btree_map_len self.new + (if is_some result then 1 else 0)
            ≡ btree_map_len self.old }
        ensures ordered { IsOrdered K.cmp self.new }
    {
        match place(&self.pairs, key) {
            Ok(at) => take_at(&mut self.pairs, at),
            Err(_) => None,
        }
    }
}
