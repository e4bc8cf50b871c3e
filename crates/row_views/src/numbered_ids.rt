// The ids of each row, by the number of the row.
ghost use Rattle.std.specs.Prelude.{◌≡◌, ◌<◌, ◌&&◌, ◌||◌, [], not, ℕ, nat_lt, length, IfOk, OnOk};
ghost use Rattle.std.specs.BTreeSet.{btree_set_len, contains};
ghost use Rattle.std.specs.List.{list_any};
ghost use Rattle.std.specs.List.Sorted.{IsStrictlySortedBy};
ghost use Rattle.std.specs.Ordering.{eq_by_cmp, nat_cmp};
ghost use Rattle.mark_graph.specs.RowMarks.{has_row};
ghost use Rattle.row_views.specs.Ids.{AddsId, RemovesId, has_ids_in, id_in};

use mark_graph::by_mark::in_order;
use mark_graph::sorted_set::SortedSet;
use mesh_base::list::List;
use mesh_base::memory::Memory;
use std::alloc::Global;

/// The ids at each number. A number is an index, so the vector is as long as the greatest number
/// that has had ids. A set without ids owns no memory.
#[derive(Drop)]
pub struct NumberedIds {
    sets: Vec<SortedSet<u64>>,
}

impl NumberedIds {
    /// Returns a map without ids.
    pub fn new(alloc: Global) -> NumberedIds
        ensures { result.sets.items ≡ [] }
    {
        NumberedIds {
            sets: Vec::new(alloc),
        }
    }

    /// Adds an id at a number.
    pub fn put(&mut self, alloc: Global, number: u64, id: u64) -> Result<(), Memory>
        ensures { OnOk result (AddsId (eq_by_cmp nat_cmp number) id self.old self.new) }
    {
        self.extend(alloc, number as usize)?;
        self.sets[number as usize].insert(id)
    }

    // Adds empty sets until the number has one.
    fn extend(&mut self, alloc: Global, number: usize) -> Result<(), Memory>
        ensures there { OnOk result (number < length self.new.sets.items) }
        ensures same { OnOk result ((n id : ℕ) → id_in self.new n id ≡ id_in self.old n id) }
    {
        if number < self.sets.len() {
            return Ok(());
        }
        for _ in self.sets.len()..number {
            self.sets.push(SortedSet::new(alloc))?;
        }
        self.sets.push(SortedSet::new(alloc))?;
        Ok(())
    }

    /// Removes an id from a number. Returns whether the number still has ids.
    pub fn take(&mut self, alloc: Global, number: u64, id: u64) -> bool
        ensures taken { RemovesId (eq_by_cmp nat_cmp number) id self.old self.new }
        ensures others { result ≡ has_ids_in self.new number }
    {
        match self.sets.get_mut(number as usize) {
            Some(ids) => take_from(alloc, ids, id),
            None => false,
        }
    }

    /// Returns the ids at these numbers, ascending and each once.
    pub fn ids_at(&self, alloc: Global, numbers: &[u64]) -> Result<List<u64>, Memory>
        ensures ids { IfOk result (λ ids. (id : ℕ)
            → has_row id ids ≡ list_any (λ n. id_in self.now n id) numbers.now) }
        ensures in_order { IfOk result (λ ids. IsStrictlySortedBy nat_cmp ids) }
    {
        let ids = self.gather_all(alloc, numbers)?;
        Ok(in_order(List::from_vec(ids)))
    }

    // Returns the ids at these numbers, number by number.
    fn gather_all(&self, alloc: Global, numbers: &[u64]) -> Result<Vec<u64>, Memory>
        ensures { IfOk result (λ ids. (id : ℕ)
            → has_row id ids.items ≡ list_any (λ n. id_in self.now n id) numbers.now) }
    {
        let mut ids = Vec::new(alloc);
        for number in numbers {
            self.gather_one(*number, &mut ids)?;
        }
        Ok(ids)
    }

    // Appends the ids at a number.
    fn gather_one(&self, number: u64, ids: &mut Vec<u64>) -> Result<(), Memory>
        ensures { OnOk result ((id : ℕ) → has_row id ids.new.items
            ≡ (has_row id ids.old.items || id_in self.now number id)) }
    {
        if let Some(at) = self.sets.get(number as usize) {
            ids.extend_from_slice(at.as_slice())?;
        }
        Ok(())
    }
}

// Removes an id from a set. Returns whether others are left.
#[tactic(auto, using(crate::proofs::IdSets::none_of))]
fn take_from(alloc: Global, ids: &mut SortedSet<u64>, id: u64) -> bool
    ensures taken { (r : ℕ) → contains nat_cmp ids.new r
        ≡ (not (eq_by_cmp nat_cmp id r) && contains nat_cmp ids.old r) }
    ensures left { result ≡ nat_lt 0 (btree_set_len ids.new) }
{
    ids.remove(&id);
    if !ids.is_empty() {
        return true;
    }
    *ids = SortedSet::new(alloc);
    false
}
