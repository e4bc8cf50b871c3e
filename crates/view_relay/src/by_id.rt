// Values under ids.
ghost use Rattle.std.specs.Prelude.{◌≡◌, ◌<◌, ◌∷◌, ◌++◌, [], ℕ, OnOk, OnErr, is_some, length};
ghost use Rattle.std.specs.List.{AllByRecursion};
ghost use Rattle.std.specs.Option.{option_copied};
ghost use Rattle.feed_history.specs.Ids.{at_id, ended, in_place};
ghost use Rattle.view_relay.specs.ById.{PutsAt, first_id, id_of, put_in_place, value_at};

use chunked_map::map::ChunkedMap;
use mesh_base::memory::Memory;
use std::alloc::Global;
use std::marker::Model;

/// Values under ids that are added in ascending order. Contracts see them as the list of their ids
/// and values in that order.
#[derive(Drop)]
pub(crate) struct ById<T> {
    pub(crate) map: ChunkedMap<u32, T>,
}

impl<T> Model for ById<T> {
    ghost use Rattle.std.specs.Coded.{codes};
    ghost use Rattle.std.specs.Prelude.{List, ℕ};

    ghost Value = { List (ℕ × T) };

    ghost coded = { Prim.hlevel (codes, T.code) };

    ghost view = { λ s. s.map.entries };
}

impl<T: Drop> ById<T> {
    pub(crate) fn new(alloc: Global) -> ById<T>
        ensures { result ≡ [] }
    {
        ById {
            map: ChunkedMap::new(alloc),
        }
    }

    pub(crate) fn len(&self) -> usize
        ensures { result ≡ length self.now }
    {
        self.map.len()
    }

    /// Returns the value under the id.
    pub(crate) fn get(&self, id: u32) -> Option<&T>
        ensures { option_copied result ≡ value_at id self.now }
    {
        self.map.get(&id)
    }

    /// Returns the least id.
    pub(crate) fn first(&self) -> Option<u32>
        ensures { result ≡ first_id self.now }
    {
        match self.map.first_key_value() {
            Some((id, _)) => Some(*id),
            None => None,
        }
    }

    /// Adds a value under an id above all others.
    pub(crate) fn add(&mut self, id: u32, value: T) -> Result<(), Memory>
        requires { AllByRecursion (λ entry. id_of entry < id) self.old }
        ensures ok { OnOk result (self.new ≡ self.old ++ (id, value) ∷ []) }
        ensures err { OnErr result (self.new ≡ self.old) }
    {
        self.map.insert(id, value)?;
        Ok(())
    }

    /// Replaces the value under the id, if it has one.
    pub(crate) fn put(&mut self, id: u32, value: T)
        ensures { self.new ≡ in_place id_of id (put_in_place value) self.old }
    {
        put_at(&mut self.map, id, value);
    }

    /// Removes the id and its value, if it has one. Returns whether it had.
    pub(crate) fn end(&mut self, id: u32) -> bool
        ensures there { result ≡ is_some (value_at id self.old) }
        ensures gone { self.new ≡ in_place id_of id ended self.old }
    {
        self.map.remove(&id).is_some()
    }
}

fn put_at<T: Drop>(map: &mut ChunkedMap<u32, T>, id: u32, value: T)
    ensures { PutsAt id value map.old map.new }
{
    match map.get_mut(&id) {
        Some(old) => *old = value,
        None => {}
    }
}
