ghost use Rattle.std.specs.Prelude.{◌≡◌, ◌≤◌, false, IfSome, IfOk, IfErr, OnOk, OnErr, option_map, slice_get};
ghost use Rattle.std.specs.List.{All};
ghost use Rattle.std.specs.Option.{option_copied};
ghost use Rattle.std.specs.FinMap as map;
ghost use Rattle.mesh_base.specs.KeyOrder.{key_cmp};
ghost use Rattle.mesh_base.specs.Keyed.{IsKeyed};
ghost use Rattle.mesh_base.specs.Places.{IsHit, IsGap};
ghost use Rattle.view_types.specs.Objects.{AtKeys, key_of, kind_of};
ghost use Rattle.object_store.specs.Relisted.{exceeds, of_kind, relisted};
ghost use Rattle.object_store.specs.Changes.{IsFull, lacks_room};
ghost use Rattle.object_store.specs.Held.{key_with};

use crate::change::StoreFault;
use crate::last_places::{LastPlaces, place_of};
use chunked_list::list::ChunkedList;
use mesh_base::key::{Kind, ObjKey};
use mesh_base::list::List;
use mesh_base::memory::Memory;
use mesh_base::text::Text;
use std::alloc::Global;
use std::cmp::Ordering;
use std::marker::Model;
use std::mem;
use view_types::object::Object;

/// Objects, each at its own key, in a sorted list for each kind. An insertion moves objects of one
/// chunk of the list of its kind. Contracts see them as a finite map.
#[derive(Drop)]
pub struct Objects {
    /// The number of objects of all kinds.
    held: usize,
    /// The objects of each kind, at the index `place_of` of the kind.
    of_kinds: [ChunkedList<Object>; 11],
    last: LastPlaces,
}

impl Model for Objects {
    ghost use Rattle.std.specs.Prelude.{◌≡◌, flat_map, length};
    ghost use Rattle.std.specs.FinMap as map;
    ghost use Rattle.mesh_base.specs.KeyOrder.{coded_key};
    ghost use Rattle.view_types.specs.Objects.{ObjectMap};
    ghost use Rattle.view_types.specs.contracts.object.Object as object;
    ghost use Rattle.object_store.specs.KindLists.{AreFrom, each, map_of};

    ghost Value = { ObjectMap };

    ghost coded = { map.code coded_key object.the_row.coded };

    ghost view = { λ s. map_of each s.of_kinds };

    ghost invariant = { λ s. AreFrom each 0 s.of_kinds
        × (s.held ≡ length (flat_map each s.of_kinds)) };
}

impl Objects {
    pub fn new(alloc: Global) -> Objects
        ensures { result ≡ map.empty }
    {
        Objects {
            held: 0,
            of_kinds: [
                ChunkedList::new(alloc),
                ChunkedList::new(alloc),
                ChunkedList::new(alloc),
                ChunkedList::new(alloc),
                ChunkedList::new(alloc),
                ChunkedList::new(alloc),
                ChunkedList::new(alloc),
                ChunkedList::new(alloc),
                ChunkedList::new(alloc),
                ChunkedList::new(alloc),
                ChunkedList::new(alloc),
            ],
            last: LastPlaces::new(),
        }
    }

    pub fn len(&self) -> usize
        ensures { result ≡ map.len self.now }
    {
        self.held
    }

    /// Returns the objects of the kind, in the order of their keys.
    pub fn of_kind(&self, kind: Kind) -> &ChunkedList<Object>
        ensures value { result.now ≡ of_kind kind self.now }
        ensures at_keys { AtKeys self.now }
    {
        &self.of_kinds[place_of(kind)]
    }

    /// Establishes that each object is at its own key. Reads no object.
    pub fn stand_at_keys(&self)
        ensures { AtKeys self.now }
    {
        let _pods = self.of_kind(Kind::Pod);
    }

    pub fn get(&self, key: &ObjKey) -> Option<&Object>
        ensures value { option_copied result ≡ map.get self.now key.now }
        ensures at_key { IfSome result (λ o. key_of o.now ≡ key.now) }
    {
        self.find(key.kind, &key.ns, &key.name)
    }

    /// Returns the object at the key of this kind, namespace and name, without building the key.
    /// The index kept in `last` for the kind and the next one are tried before a search.
    pub fn find(&self, kind: Kind, ns: &Text, name: &Text) -> Option<&Object>
        ensures value { option_copied result ≡ map.get self.now (key_with kind ns.now name.now) }
        ensures at_key { IfSome result (λ o. key_of o.now ≡ key_with kind ns.now name.now) }
    {
        let objects = &self.of_kinds[place_of(kind)];
        let last = self.last.of(kind);
        match place_from(objects, last.get(), kind, ns, name) {
            Ok(at) => {
                last.set(at);
                objects.get(at)
            }
            Err(_) => None,
        }
    }

    /// Removes the object at the key, and returns it.
    pub fn remove(&mut self, key: &ObjKey) -> Option<Object>
        ensures before { result ≡ map.get self.old key.now }
        ensures removed { self.new ≡ map.remove self.old key.now }
    {
        let objects = &mut self.of_kinds[place_of(key.kind)];
        let last = self.last.of(key.kind);
        match place_from(objects, last.get(), key.kind, &key.ns, &key.name) {
            Ok(at) => {
                last.set(at);
                self.held -= 1;
                objects.remove(at)
            }
            Err(_) => None,
        }
    }

    /// Sets the object at its key, and returns the object that it replaced, if any.
    pub fn set(
        &mut self,
        alloc: Global,
        limit: u32,
        key: &ObjKey,
        object: Object,
    ) -> Result<Option<Object>, StoreFault>
        requires own { key.now ≡ key_of object }
        requires within { map.len self.old ≤ limit }
        ensures before { IfOk result (λ before. before ≡ map.get self.old key.now) }
        ensures ok { OnOk result (self.new ≡ map.insert self.old key.now object) }
        ensures room { OnOk result (lacks_room self.old limit key.now ≡ false) }
        ensures full { IfErr result (IsFull self.old self.new (lacks_room self.old limit key.now)) }
        ensures err { OnErr result (self.new ≡ self.old) }
    {
        let objects = &mut self.of_kinds[place_of(key.kind)];
        let last = self.last.of(key.kind);
        match place_from(objects, last.get(), key.kind, &key.ns, &key.name) {
            Ok(at) => {
                last.set(at);
                Ok(objects.replace(at, object))
            }
            Err(at) => {
                if self.held == limit as usize {
                    return Err(StoreFault::Full { held: limit });
                }
                objects.insert(alloc, at, object)?;
                last.set(at);
                self.held += 1;
                Ok(None)
            }
        }
    }

    /// Returns whether more than `limit` objects would be held if the items, in the order of their
    /// keys, replaced all objects of their kind.
    pub fn lacks_room_for(&self, limit: u32, kind: Kind, items: &[Object]) -> bool
        requires each { All (λ o. kind_of o ≡ kind) items.now }
        requires sorted { IsKeyed key_cmp key_of (λ o. o) items.now }
        requires within { map.len self.now ≤ limit }
        ensures { result ≡ exceeds self.now limit kind items.now }
    {
        items.len() > limit as usize - (self.held - self.of_kind(kind).len())
    }

    /// Replaces all objects of the kind by the items, both in the order of their keys, and returns
    /// the old ones. If memory runs out or their number overflows, drops all objects and returns
    /// `Memory`.
    pub fn replace(
        &mut self,
        alloc: Global,
        kind: Kind,
        items: Vec<Object>,
    ) -> Result<List<Object>, Memory>
        requires each { All (λ o. kind_of o ≡ kind) items.items }
        requires sorted { IsKeyed key_cmp key_of (λ o. o) items.items }
        ensures ok { OnOk result (self.new ≡ relisted self.old kind items.items) }
        ensures before { IfOk result (λ before. before ≡ of_kind kind self.old) }
        ensures now { OnOk result (of_kind kind self.new ≡ items.items) }
        ensures err { OnErr result (self.new ≡ map.empty) }
    {
        match self.exchange(alloc, kind, items) {
            Ok(before) => Ok(before),
            Err(_) => {
                *self = Objects::new(alloc);
                Err(Memory)
            }
        }
    }

    /// Does the same as `replace`, but leaves any objects if memory runs out.
    fn exchange(
        &mut self,
        alloc: Global,
        kind: Kind,
        items: Vec<Object>,
    ) -> Result<List<Object>, Memory>
        requires each { All (λ o. kind_of o ≡ kind) items.items }
        requires sorted { IsKeyed key_cmp key_of (λ o. o) items.items }
        ensures ok { OnOk result (self.new ≡ relisted self.old kind items.items) }
        ensures before { IfOk result (λ before. before ≡ of_kind kind self.old) }
        ensures now { OnOk result (of_kind kind self.new ≡ items.items) }
    {
        match (self.held - self.of_kind(kind).len()).checked_add(items.len()) {
            Some(held) => {
                let items = ChunkedList::from_vec(alloc, items)?;
                self.held = held;
                let objects = &mut self.of_kinds[place_of(kind)];
                let before = mem::replace(objects, items);
                Ok(List::from_vec(before.into_vec(alloc)?))
            }
            None => Err(Memory),
        }
    }
}

/// Does the same as `place`, but tries the index `first` and the next one before a search. A key
/// that belongs between the two needs no search either.
fn place_from(
    objects: &ChunkedList<Object>,
    first: usize,
    kind: Kind,
    ns: &Text,
    name: &Text,
) -> Result<usize, usize>
    requires { IsKeyed key_cmp key_of (λ o. o) objects.now }
    ensures hit { IfOk result (IsHit (λ o. key_cmp (key_of o) (key_with kind ns.now name.now))
        objects.now) }
    ensures gap { IfErr result (IsGap (λ o. key_cmp (key_of o) (key_with kind ns.now name.now))
        objects.now) }
{
    match order_at(objects, first, kind, ns, name) {
        Some(Ordering::Equal) => return Ok(first),
        Some(Ordering::Less) => {
            let next = first.saturating_add(1);
            match order_at(objects, next, kind, ns, name) {
                Some(Ordering::Equal) => return Ok(next),
                Some(Ordering::Less) => {}
                Some(Ordering::Greater) => return Err(next),
                None => return Err(next),
            }
        }
        Some(Ordering::Greater) if first == 0 => return Err(0),
        _ => {}
    }
    place(objects, kind, ns, name)
}

/// Compares the key of the object at an index with that of this kind, namespace and name.
fn order_at(
    objects: &ChunkedList<Object>,
    at: usize,
    kind: Kind,
    ns: &Text,
    name: &Text,
) -> Option<Ordering>
    ensures { result ≡ option_map (λ o. key_cmp (key_of o) (key_with kind ns.now name.now))
        (slice_get objects.now at) }
{
    match objects.get(at) {
        Some(object) => Some(compare_key(object, kind, ns, name)),
        None => None,
    }
}

/// Returns the index of the key as `Ok`, or the index to insert it at as `Err`.
fn place(objects: &ChunkedList<Object>, kind: Kind, ns: &Text, name: &Text) -> Result<usize, usize>
    requires { IsKeyed key_cmp key_of (λ o. o) objects.now }
    ensures hit { IfOk result (IsHit (λ o. key_cmp (key_of o) (key_with kind ns.now name.now))
        objects.now) }
    ensures gap { IfErr result (IsGap (λ o. key_cmp (key_of o) (key_with kind ns.now name.now))
        objects.now) }
{
    objects.binary_search_by(|object| compare_key(object, kind, ns, name))
}

/// Compares the key of the object with that of this kind, namespace and name.
fn compare_key(object: &Object, kind: Kind, ns: &Text, name: &Text) -> Ordering
    ensures { result ≡ key_cmp (key_of object.now) (key_with kind ns.now name.now) }
{
    let meta = object.meta();
    match object.kind().cmp(&kind) {
        Ordering::Equal => match meta.ns.cmp(ns) {
            Ordering::Equal => meta.name.cmp(name),
            unequal => unequal,
        },
        unequal => unequal,
    }
}
