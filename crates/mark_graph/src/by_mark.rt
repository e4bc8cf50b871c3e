// The rows at each mark.
ghost use Rattle.std.specs.Prelude.{◌≡◌, ◌&&◌, ◌||◌, not, ℕ, true, false, IfOk, OnOk};
ghost use Rattle.std.specs.BTreeSet.{contains};
ghost use Rattle.std.specs.List.{list_any};
ghost use Rattle.std.specs.List.Sorted.{IsStrictlySortedBy};
ghost use Rattle.std.specs.Ordering.{eq_by_cmp, nat_cmp};
ghost use Rattle.mark_graph.specs.RowMarks.{AddsRow, AllHaveRows, OthersHaveRows, RemovesRow, has_mark, has_row, has_rows, is_only_in, row_at};

use crate::rows_by_mark::RowsByMark;
use crate::sorted_set::{SortedSet, sorted};
use mesh_base::copied::Copied;
use mesh_base::list::List;
use mesh_base::memory::Memory;
use std::alloc::Global;
use std::collections::BTreeSet;
use std::hash::Hash;

/// Adds a row at a mark. Returns whether the mark had rows before.
pub fn put_one<M: Ord + Hash + Copied>(
    alloc: Global,
    by: &mut RowsByMark<M>,
    mark: &M,
    row: u64,
) -> Result<bool, Memory>
    ensures added { OnOk result (AddsRow M.cmp (eq_by_cmp M.cmp mark.now) row by.old by.new) }
    ensures kept { AllHaveRows M.cmp by.old → OnOk result (AllHaveRows M.cmp by.new) }
    ensures had { IfOk result (λ had_rows. had_rows ≡ has_rows M.cmp by.old mark.now) }
{
    if by.add_row(mark, row)? {
        return Ok(true);
    }
    put_first(alloc, by, mark, row)?;
    Ok(false)
}

/// Adds a row at a mark that has none.
fn put_first<M: Ord + Hash + Copied>(
    alloc: Global,
    by: &mut RowsByMark<M>,
    mark: &M,
    row: u64,
) -> Result<(), Memory>
    requires { has_rows M.cmp by.old mark.now ≡ false }
    ensures added { OnOk result (AddsRow M.cmp (eq_by_cmp M.cmp mark.now) row by.old by.new) }
    ensures kept { AllHaveRows M.cmp by.old → OnOk result (AllHaveRows M.cmp by.new) }
{
    let mut rows = SortedSet::new(alloc);
    rows.insert(row)?;
    let key = mark.copy(alloc)?;
    by.put(key, rows)
}

/// Removes a row from a mark. Returns whether the mark still has rows.
pub fn take_one<M: Ord + Hash + Copied>(by: &mut RowsByMark<M>, mark: &M, row: u64) -> bool
    ensures taken { RemovesRow M.cmp (eq_by_cmp M.cmp mark.now) row by.old by.new }
    ensures kept { AllHaveRows M.cmp by.old → AllHaveRows M.cmp by.new }
    ensures others { result ≡ has_rows M.cmp by.new mark.now }
{
    if by.take_row(mark, row) {
        return true;
    }
    let_go(by, mark);
    false
}

/// Drops the set of a mark that has no rows.
fn let_go<M: Ord + Hash + Copied>(by: &mut RowsByMark<M>, mark: &M)
    requires { (r : ℕ) → row_at M.cmp by.old mark.now r ≡ false }
    ensures same { (m : M) (r : ℕ) → row_at M.cmp by.new m r ≡ row_at M.cmp by.old m r }
    ensures kept { OthersHaveRows M.cmp mark.now by.old → AllHaveRows M.cmp by.new }
    ensures gone { has_rows M.cmp by.new mark.now ≡ false }
{
    by.remove(mark);
}

/// Adds a row at each mark of the new set that the old one lacks.
pub fn put_new<M: Ord + Hash + Copied>(
    alloc: Global,
    by: &mut RowsByMark<M>,
    old: &SortedSet<M>,
    new: &SortedSet<M>,
    row: u64,
) -> Result<(), Memory>
    ensures added { OnOk result
        (AddsRow M.cmp (is_only_in M.cmp new.now old.now) row by.old by.new) }
    ensures kept { AllHaveRows M.cmp by.old → OnOk result (AllHaveRows M.cmp by.new) }
{
    for mark in new.as_slice() {
        put_unless(alloc, by, mark, old, row)?;
    }
    Ok(())
}

/// Adds a row at a mark, unless the mark is in the set.
fn put_unless<M: Ord + Hash + Copied>(
    alloc: Global,
    by: &mut RowsByMark<M>,
    mark: &M,
    set: &SortedSet<M>,
    row: u64,
) -> Result<(), Memory>
    ensures added { OnOk result (AddsRow M.cmp
        (λ m. eq_by_cmp M.cmp m mark.now && not (contains M.cmp set.now m)) row by.old by.new) }
    ensures kept { AllHaveRows M.cmp by.old → OnOk result (AllHaveRows M.cmp by.new) }
{
    if set.contains(mark) {
        return Ok(());
    }
    put_one(alloc, by, mark, row)?;
    Ok(())
}

/// Removes a row from each mark of the old set that the new one lacks.
pub fn take_old<M: Ord + Hash + Copied>(
    by: &mut RowsByMark<M>,
    old: &SortedSet<M>,
    new: &SortedSet<M>,
    row: u64,
)
    ensures taken { RemovesRow M.cmp (is_only_in M.cmp old.now new.now) row by.old by.new }
    ensures kept { AllHaveRows M.cmp by.old → AllHaveRows M.cmp by.new }
{
    for mark in old.as_slice() {
        take_unless(by, mark, new, row);
    }
}

/// Removes a row from a mark, unless the mark is in the set.
fn take_unless<M: Ord + Hash + Copied>(
    by: &mut RowsByMark<M>,
    mark: &M,
    set: &SortedSet<M>,
    row: u64,
)
    ensures taken { RemovesRow M.cmp
        (λ m. eq_by_cmp M.cmp m mark.now && not (contains M.cmp set.now m)) row by.old by.new }
    ensures kept { AllHaveRows M.cmp by.old → AllHaveRows M.cmp by.new }
{
    if !set.contains(mark) {
        take_one(by, mark, row);
    }
}

/// Returns the marks of a list, each once.
pub fn set_of<M: Ord + Copied>(alloc: Global, marks: List<M>) -> Result<BTreeSet<M>, Memory>
    ensures { IfOk result (λ set. (m : _) → contains M.cmp set m ≡ has_mark M.cmp marks m) }
{
    let mut set = BTreeSet::new(alloc);
    for mark in marks.into_vec() {
        set.insert(mark)?;
    }
    Ok(set)
}

/// Returns the rows at these marks, ascending and each once.
pub fn rows_at<M: Ord + Hash + Copied>(
    alloc: Global,
    by: &RowsByMark<M>,
    marks: &[M],
) -> Result<List<u64>, Memory>
    ensures rows { IfOk result (λ rows. (r : ℕ)
        → has_row r rows ≡ list_any (λ m. row_at M.cmp by.now m r) marks.now) }
    ensures in_order { IfOk result (λ rows. IsStrictlySortedBy nat_cmp rows) }
{
    let rows = gather_all(alloc, by, marks)?;
    Ok(in_order(List::from_vec(rows)))
}

/// Sorts rows, and removes duplicates.
pub fn in_order(rows: List<u64>) -> List<u64>
    ensures rows { (r : ℕ) → has_row r result ≡ has_row r rows }
    ensures in_order { IsStrictlySortedBy nat_cmp result }
{
    List::from_vec(sorted(rows))
}

/// Returns the rows at these marks, mark by mark. The rows of each mark are ascending.
fn gather_all<M: Ord + Hash + Copied>(
    alloc: Global,
    by: &RowsByMark<M>,
    marks: &[M],
) -> Result<Vec<u64>, Memory>
    ensures { IfOk result (λ rows. (r : ℕ)
        → has_row r rows.items ≡ list_any (λ m. row_at M.cmp by.now m r) marks.now) }
{
    let mut rows = Vec::new(alloc);
    for mark in marks {
        gather_one(by, mark, &mut rows)?;
    }
    Ok(rows)
}

/// Appends the rows at a mark.
fn gather_one<M: Ord + Hash + Copied>(
    by: &RowsByMark<M>,
    mark: &M,
    rows: &mut Vec<u64>,
) -> Result<(), Memory>
    ensures { OnOk result ((r : ℕ) → has_row r rows.new.items
        ≡ (has_row r rows.old.items || row_at M.cmp by.now mark.now r)) }
{
    if let Some(at_mark) = by.get(mark) {
        rows.extend_from_slice(at_mark.as_slice())?;
    }
    Ok(())
}
