// Sets of few items.
ghost use Rattle.std.specs.Prelude.{◌≡◌, ◌<◌, ◌&&◌, ◌||◌, not, true, false, IfErr, IfOk, OnOk};
ghost use Rattle.std.specs.BTreeSet.{btree_set_len, contains};
ghost use Rattle.std.specs.List.Sorted.{IsStrictlySortedBy};
ghost use Rattle.std.specs.Ordering.{eq_by_cmp};
ghost use Rattle.mesh_base.specs.Places.{IsGap, IsHit};
ghost use Rattle.mark_graph.specs.RowMarks.{has_mark};

use crate::few_items::FewItems;
use mesh_base::list::List;
use mesh_base::memory::Memory;
use std::alloc::Global;
use std::marker::Model;

/// A set as a sorted list, for sets with few items: one item is stored in place. Contracts see it
/// as a `BTreeSet`.
#[derive(Drop)]
pub struct SortedSet<T: Ord> {
    items: FewItems<T>,
}

impl<T: Ord> Model for SortedSet<T> {
    ghost use Rattle.std.specs.Prelude.{List, refl};
    ghost use Rattle.std.specs.BTreeSet.{BTreeSet};
    ghost use Rattle.std.specs.Coded.{code_by, coded_list};
    ghost use Rattle.std.specs.List.Sorted.{IsStrictlySortedBy};
    ghost use Rattle.mark_graph.specs.Items.{items_of};

    ghost Value = { BTreeSet T };

    ghost coded = { code_by (List T) (coded_list T.code) (λ s. s.keys)
        (λ keys. record { keys = keys }) (λ s. refl) };

    ghost view = { λ s. record { keys = items_of s.items } };

    ghost invariant = { λ s. IsStrictlySortedBy T.cmp (items_of s.items) };
}

impl<T: Ord> SortedSet<T> {
    pub fn new(alloc: Global) -> SortedSet<T>
        ensures { (item : T) → contains T.cmp result item ≡ false }
    {
        SortedSet {
            items: FewItems::new(alloc),
        }
    }

    /// Returns the set of the items of a list.
    pub fn of_list(list: List<T>) -> SortedSet<T>
    where
        T: Drop,
        ensures { (item : T) → contains T.cmp result item ≡ has_mark T.cmp list item }
    {
        SortedSet {
            items: FewItems::InMemory(sorted(list)),
        }
    }

    /// Returns the items in order.
    pub fn as_slice(&self) -> &[T]
        ensures { result.now ≡ self.now.keys }
    {
        self.items.as_slice()
    }

    pub fn is_empty(&self) -> bool
        ensures none { result ≡ true → (item : T) → contains T.cmp self.now item ≡ false }
        ensures some { result ≡ false → 0 < btree_set_len self.now }
    {
        self.items.as_slice().is_empty()
    }

    pub fn contains(&self, item: &T) -> bool
        ensures { result ≡ contains T.cmp self.now item.now }
    {
        place(self.items.as_slice(), item).is_ok()
    }

    /// Inserts an item. If an equal one is in the set, that one stays.
    pub fn insert(&mut self, item: T) -> Result<(), Memory>
    where
        T: Drop,
        ensures put { OnOk result ((other : T) → contains T.cmp self.new other
            ≡ (eq_by_cmp T.cmp item other || contains T.cmp self.old other)) }
        ensures filled { OnOk result (0 < btree_set_len self.new) }
    {
        match place(self.items.as_slice(), &item) {
            Ok(_) => {}
            Err(at) => {
                self.items.insert(at, item)?;
            }
        }
        Ok(())
    }

    /// Removes the item that is equal to this one, if there is one.
    pub fn remove(&mut self, item: &T)
    where
        T: Drop,
        ensures { (other : T) → contains T.cmp self.new other
            ≡ (not (eq_by_cmp T.cmp item.now other) && contains T.cmp self.old other) }
    {
        match place(self.items.as_slice(), item) {
            Ok(at) => self.items.remove(at),
            Err(_) => {}
        }
    }
}

/// Sorts items, and removes duplicates.
pub(crate) fn sorted<T: Ord + Drop>(list: List<T>) -> Vec<T>
    ensures same { (item : T) → has_mark T.cmp result.items item ≡ has_mark T.cmp list item }
    ensures in_order { IsStrictlySortedBy T.cmp result.items }
{
    let mut items = list.into_vec();
    items.sort_unstable();
    items.dedup();
    items.shrink_to_fit();
    items
}

/// Returns the index of the item as `Ok`, or the index to insert it at as `Err`.
fn place<T: Ord>(items: &[T], item: &T) -> Result<usize, usize>
    requires { IsStrictlySortedBy T.cmp items.now }
    ensures hit { IfOk result (IsHit (λ other. T.cmp other item.now) items.now) }
    ensures gap { IfErr result (IsGap (λ other. T.cmp other item.now) items.now) }
{
    items.binary_search(item)
}
