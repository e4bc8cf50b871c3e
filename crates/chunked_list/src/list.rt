ghost use Rattle.std.specs.Prelude.{◌≡◌, ◌≤◌, [], IfOk, OnOk, OnErr, length, set as list_set, slice_get};
ghost use Rattle.std.specs.Borrow.{sem};
ghost use Rattle.std.specs.Fn.{ComputesKey};
ghost use Rattle.std.specs.List.{insert as list_insert, remove as list_remove};
ghost use Rattle.std.specs.List.Sorted.{IsBinarySearchResult, IsSearchInRange};
ghost use Rattle.std.specs.Option.{option_copied, option_copied_mut};
ghost use Rattle.std.specs.declared.cmp.Ordering.{Ordering};

use crate::chunks::{insert_in, joined, search, spot_of, take_from};
use mesh_base::memory::Memory;
use std::alloc::Global;
use std::cmp::Ordering;
use std::marker::Model;
use std::mem;

/// A list in chunks, so that an insertion moves the items of one chunk alone. Contracts see it as
/// the list of its items.
pub struct ChunkedList<T> {
    /// The number of items in all chunks.
    count: usize,
    /// The items in order. No chunk is empty.
    chunks: Vec<Vec<T>>,
}

/// Written by hand, as that of `List`.
impl<T: Drop> Drop for ChunkedList<T> {
    fn drop(self) {
        let ChunkedList {
            count: _count,
            chunks: _chunks,
        } = self;
    }
}

impl<T> Model for ChunkedList<T> {
    ghost use Rattle.std.specs.Prelude.{◌≡◌, List, flat_map, length, vec_items};
    ghost use Rattle.std.specs.Coded.{coded_list};
    ghost use Rattle.chunked_list.specs.Spots.{NoneEmpty};

    ghost Value = { List T };

    ghost coded = { coded_list T.code };

    ghost view = { λ l. flat_map vec_items l.chunks.items };

    ghost invariant = { λ l. (l.count ≡ length (flat_map vec_items l.chunks.items))
        × NoneEmpty vec_items l.chunks.items };
}

impl<T> ChunkedList<T> {
    ghost use Rattle.chunked_list.specs.Lending.{lends_item};

    pub fn new(alloc: Global) -> ChunkedList<T>
        ensures { result ≡ [] }
    {
        ChunkedList {
            count: 0,
            chunks: Vec::new(alloc),
        }
    }

    /// Makes a list of one chunk. Moves no item.
    pub fn from_vec(alloc: Global, items: Vec<T>) -> Result<ChunkedList<T>, Memory>
    where
        T: Drop,
        ensures { IfOk result (λ list. list ≡ items.items) }
    {
        if items.is_empty() {
            return Ok(ChunkedList::new(alloc));
        }
        let count = items.len();
        let mut chunks = Vec::new(alloc);
        chunks.push(items)?;
        Ok(ChunkedList { count, chunks })
    }

    /// Returns all items in order. A single chunk is returned as it is.
    pub fn into_vec(self, alloc: Global) -> Result<Vec<T>, Memory>
    where
        T: Drop,
        ensures { IfOk result (λ items. items.items ≡ self) }
    {
        let ChunkedList { count, chunks } = self;
        joined(alloc, count, chunks)
    }

    pub fn len(&self) -> usize
        ensures { result ≡ length self.now }
    {
        self.count
    }

    /// Returns the item at the index, if the list is long enough.
    pub fn get(&self, index: usize) -> Option<&T>
        ensures { option_copied result ≡ slice_get self.now index }
    {
        match spot_of(self.chunks.as_slice(), index) {
            Some(spot) => Some(&self.chunks[spot.chunk][spot.at]),
            None => None,
        }
    }

    /// Searches as the method of a slice does. Finds the chunk by the first items of chunks.
    pub fn binary_search_by<F: FnMut(&T) -> Ordering>(&self, f: F) -> Result<usize, usize>
        requires { F.IsAlwaysCallable f }
        ensures bound { IsSearchInRange result (length self.now) }
        ensures position { (ord : T → Ordering) → ComputesKey F.FnMut ord f
            → IsBinarySearchResult ord self.now result }
    {
        match self.len() {
            0 => Err(0),
            _ => search(self.chunks.as_slice(), f),
        }
    }

    /// Inserts an item before the one at the index. Out of memory, drops it, and the list stays.
    pub fn insert(&mut self, alloc: Global, index: usize, item: T) -> Result<(), Memory>
    where
        T: Drop,
        requires { index ≤ length self.old }
        ensures ok { OnOk result (self.new ≡ list_insert self.old index item) }
        ensures err { OnErr result (self.new ≡ self.old) }
    {
        match self.count.checked_add(1) {
            Some(count) => {
                insert_in(&mut self.chunks, alloc, index, item)?;
                self.count = count;
                Ok(())
            }
            None => Err(Memory),
        }
    }

    /// Removes the item at the index, and returns it.
    pub fn remove(&mut self, index: usize) -> Option<T>
    where
        T: Drop,
        ensures value { result ≡ slice_get self.old index }
        ensures items { self.new ≡ list_remove self.old index }
    {
        match spot_of(self.chunks.as_slice(), index) {
            Some(spot) => {
                self.count -= 1;
                Some(take_from(&mut self.chunks, index, spot))
            }
            None => None,
        }
    }

    /// Puts the item in the place of the one at the index, and returns that one.
    pub fn replace(&mut self, index: usize, item: T) -> Option<T>
    where
        T: Drop,
        ensures value { result ≡ slice_get self.old index }
        ensures items { self.new ≡ list_set self.old index item }
    {
        match spot_of(self.chunks.as_slice(), index) {
            Some(spot) => Some(mem::replace(&mut self.chunks[spot.chunk][spot.at], item)),
            None => None,
        }
    }

    /// Returns the item at the index for writing, if the list is long enough.
    pub fn get_mut(&mut self, index: usize) -> Option<&mut T>
        ensures* writes_back { sem 𝓛 (lends_item T.row self.entry index result) }
        ensures value { option_copied_mut result ≡ slice_get self.old index }
    {
        match spot_of(self.chunks.as_slice(), index) {
            Some(spot) => Some(&mut self.chunks[spot.chunk][spot.at]),
            None => None,
        }
    }
}
