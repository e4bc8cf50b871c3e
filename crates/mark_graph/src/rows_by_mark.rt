// The set of the rows at each mark, found by the hash of the mark.
ghost use Rattle.std.specs.Prelude.{◌≡◌, ℕ, Some, None, IfOk, OnOk, true, false};
ghost use Rattle.std.specs.Option.{option_copied};
ghost use Rattle.std.specs.Ordering.{eq_by_cmp};
ghost use Rattle.mark_graph.specs.Puts.{PutsAt};
ghost use Rattle.mark_graph.specs.RowMarks.{AddsRow, AllHaveRows, OthersHaveRows, RemovesRow, has_rows, row_at, set_at};

use crate::sorted_set::SortedSet;
use mesh_base::memory::Memory;
use std::alloc::Global;
use std::collections::HashMap;
use std::hash::{BuildHasherDefault, FoldHasher, Hash};

/// The set of the rows at each mark, in a hash map. Nothing depends on the order of the map.
#[derive(Drop)]
pub struct RowsByMark<M: Ord + Hash> {
    by_hash: HashMap<M, SortedSet<u64>, BuildHasherDefault<FoldHasher>, Global>,
}

impl<M: Ord + Hash + Drop> RowsByMark<M> {
    /// Returns a map in which no mark has a set.
    pub fn new(alloc: Global) -> RowsByMark<M>
        ensures { (mark : M) → set_at M.cmp result mark ≡ None }
    {
        RowsByMark {
            by_hash: HashMap::new(alloc),
        }
    }

    /// Returns the set of a mark, if it has one.
    pub(crate) fn get(&self, mark: &M) -> Option<&SortedSet<u64>>
        ensures { option_copied result ≡ set_at M.cmp self.now mark.now }
    {
        self.by_hash.get(mark)
    }

    /// Puts a set at a mark.
    pub(crate) fn put(&mut self, mark: M, rows: SortedSet<u64>) -> Result<(), Memory>
        ensures { OnOk result
            (PutsAt M.cmp mark (Some rows) (set_at M.cmp self.old) (set_at M.cmp self.new)) }
    {
        self.by_hash.insert(mark, rows)?;
        Ok(())
    }

    /// Removes the set of a mark.
    pub(crate) fn remove(&mut self, mark: &M)
        ensures { PutsAt M.cmp mark.now None (set_at M.cmp self.old) (set_at M.cmp self.new) }
    {
        self.by_hash.remove(mark);
    }

    /// Adds a row to the set of a mark, if it has one. Returns whether it has.
    pub(crate) fn add_row(&mut self, mark: &M, row: u64) -> Result<bool, Memory>
        ensures had { IfOk result (λ had. had ≡ has_rows M.cmp self.old mark.now) }
        ensures added { IfOk result (λ had. had ≡ true
            → AddsRow M.cmp (eq_by_cmp M.cmp mark.now) row self.old self.new) }
        ensures kept { AllHaveRows M.cmp self.old → OnOk result (AllHaveRows M.cmp self.new) }
        ensures same { IfOk result (λ had. had ≡ false → self.new ≡ self.old) }
    {
        match self.by_hash.get_mut(mark) {
            Some(rows) => {
                rows.insert(row)?;
                Ok(true)
            }
            None => Ok(false),
        }
    }

    /// Removes a row from the set of a mark, which stays. Returns whether it still has rows.
    pub(crate) fn take_row(&mut self, mark: &M, row: u64) -> bool
        ensures taken { RemovesRow M.cmp (eq_by_cmp M.cmp mark.now) row self.old self.new }
        ensures none { result ≡ false → (r : ℕ) → row_at M.cmp self.new mark.now r ≡ false }
        ensures some { result ≡ true → has_rows M.cmp self.new mark.now ≡ true }
        ensures kept { AllHaveRows M.cmp self.old → OthersHaveRows M.cmp mark.now self.new }
        ensures filled { AllHaveRows M.cmp self.old → result ≡ true
            → AllHaveRows M.cmp self.new }
    {
        match self.by_hash.get_mut(mark) {
            Some(rows) => {
                rows.remove(&row);
                !rows.is_empty()
            }
            None => false,
        }
    }
}
