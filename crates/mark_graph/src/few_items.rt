// Lists of few items, most of which have one.
ghost use Rattle.std.specs.Prelude.{◌≡◌, ◌<◌, ◌≤◌, [], if◌then◌else◌, is_ok, length, IfErr, IfOk};
ghost use Rattle.std.specs.List.{insert, remove};
ghost use Rattle.mark_graph.specs.Items.{items_of};

use mesh_base::memory::Memory;
use std::alloc::Global;
use std::mem;

/// A list of items. One item is stored in place, so that a list of one owns no memory. The kit's
/// `SmallVec` would need a blank item for an unused place, and a mark has none.
#[derive(Drop)]
pub(crate) enum FewItems<T> {
    InPlace(Global, [T; 1]),
    InMemory(Vec<T>),
}

impl<T> FewItems<T> {
    pub(crate) fn new(alloc: Global) -> FewItems<T>
        ensures { items_of result ≡ [] }
    {
        FewItems::InMemory(Vec::new(alloc))
    }

    pub(crate) fn as_slice(&self) -> &[T]
        ensures { result.now ≡ items_of self.now }
    {
        match self {
            FewItems::InPlace(_, one) => &one[..1],
            FewItems::InMemory(items) => items.as_slice(),
        }
    }

    fn allocator(&self) -> Global {
        match self {
            FewItems::InPlace(alloc, _) => *alloc,
            FewItems::InMemory(items) => *items.allocator(),
        }
    }

    /// Returns the items in a vector. Out of memory, returns the list as it was.
    fn into_vec(self) -> Result<Vec<T>, FewItems<T>>
        ensures moved { IfOk result (λ items. items.items ≡ items_of self) }
        ensures same { IfErr result (λ same. items_of same ≡ items_of self) }
    {
        match self {
            FewItems::InPlace(alloc, one) => match Vec::from_array(alloc, one) {
                Ok(items) => Ok(items),
                Err(refused) => Err(FewItems::InPlace(alloc, refused.value)),
            },
            FewItems::InMemory(items) => Ok(items),
        }
    }
}

impl<T: Drop> FewItems<T> {
    /// Inserts an item at an index.
    pub(crate) fn insert(&mut self, at: usize, item: T) -> Result<(), Memory>
        requires { at ≤ length (items_of self.old) }
        ensures { items_of self.new ≡ (if is_ok result then insert (items_of self.old) at item
            else items_of self.old) }
    {
        let alloc = self.allocator();
        if self.as_slice().is_empty() {
            *self = FewItems::InPlace(alloc, [item]);
            return Ok(());
        }
        match mem::replace(self, FewItems::new(alloc)).into_vec() {
            Ok(mut items) => {
                let inserted = items.insert(at, item);
                *self = FewItems::InMemory(items);
                Ok(inserted?)
            }
            Err(same) => {
                *self = same;
                Err(Memory)
            }
        }
    }

    /// Removes the item at an index.
    pub(crate) fn remove(&mut self, at: usize)
        requires { at < length (items_of self.old) }
        ensures { items_of self.new ≡ remove (items_of self.old) at }
    {
        match self {
            FewItems::InPlace(alloc, _) => {
                *self = FewItems::new(*alloc);
            }
            FewItems::InMemory(items) => {
                let _item = items.remove(at);
            }
        }
    }
}
