// Rows that move from marks to marks.
ghost use Rattle.std.specs.Prelude.{◌≡◌, OnOk};
ghost use Rattle.std.specs.BTreeSet.{contains};
ghost use Rattle.mark_graph.specs.RowMarks.{AddsRow, AllHaveRows, MovesRow, RemovesRow, has_mark, row_at};
ghost use Rattle.mark_graph.specs.Moves.{has_after};

use crate::by_mark::{put_new, put_one, take_old, take_one};
use crate::rows_by_mark::RowsByMark;
use crate::sorted_set::SortedSet;
use mesh_base::copied::Copied;
use mesh_base::list::List;
use mesh_base::memory::Memory;
use std::alloc::Global;
use std::hash::Hash;

/// The marks that a row loses, and those that it gains. A mark in both lists is gained.
#[derive(Debug, Drop)]
pub struct MarkMoves<M> {
    pub gone: List<M>,
    pub come: List<M>,
}

/// Removes the row from the marks that are gone, and adds it at those that come.
pub fn move_at_marks<M: Ord + Hash + Copied>(
    alloc: Global,
    by: &mut RowsByMark<M>,
    moves: &MarkMoves<M>,
    row: u64,
) -> Result<(), Memory>
    ensures moved { OnOk result (MovesRow M.cmp
        (has_after M.cmp moves.now (λ m. row_at M.cmp by.old m row)) row by.old by.new) }
    ensures kept { AllHaveRows M.cmp by.old → OnOk result (AllHaveRows M.cmp by.new) }
{
    take_all(by, moves.gone.as_slice(), row);
    put_all(alloc, by, moves.come.as_slice(), row)
}

/// Moves a row from the old marks to the new ones. Marks in both sets are left as they are.
pub fn move_between<M: Ord + Hash + Copied>(
    alloc: Global,
    by: &mut RowsByMark<M>,
    old: &SortedSet<M>,
    new: &SortedSet<M>,
    row: u64,
) -> Result<(), Memory>
    ensures moved { ((m : M) → row_at M.cmp by.old m row ≡ contains M.cmp old.now m)
        → OnOk result (MovesRow M.cmp (contains M.cmp new.now) row by.old by.new) }
    ensures kept { AllHaveRows M.cmp by.old → OnOk result (AllHaveRows M.cmp by.new) }
{
    take_old(by, old, new, row);
    put_new(alloc, by, old, new, row)
}

/// Removes a row from each of these marks.
pub fn take_all<M: Ord + Hash + Copied>(by: &mut RowsByMark<M>, marks: &[M], row: u64)
    ensures taken { RemovesRow M.cmp (has_mark M.cmp marks.now) row by.old by.new }
    ensures kept { AllHaveRows M.cmp by.old → AllHaveRows M.cmp by.new }
{
    for mark in marks {
        take_one(by, mark, row);
    }
}

/// Adds a row at each of these marks.
pub fn put_all<M: Ord + Hash + Copied>(
    alloc: Global,
    by: &mut RowsByMark<M>,
    marks: &[M],
    row: u64,
) -> Result<(), Memory>
    ensures added { OnOk result (AddsRow M.cmp (has_mark M.cmp marks.now) row by.old by.new) }
    ensures kept { AllHaveRows M.cmp by.old → OnOk result (AllHaveRows M.cmp by.new) }
{
    for mark in marks {
        put_one(alloc, by, mark, row)?;
    }
    Ok(())
}
