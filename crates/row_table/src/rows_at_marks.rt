// The rows at each mark.
ghost use Rattle.std.specs.Prelude.{◌≡◌, ℕ, false, IfOk, OnOk};
ghost use Rattle.std.specs.List.{list_any};
ghost use Rattle.std.specs.List.Sorted.{IsStrictlySortedBy};
ghost use Rattle.std.specs.Ordering.{nat_cmp};
ghost use Rattle.view_types.specs.declared.mark.Mark.{Mark as TheMark};
ghost use Rattle.mark_graph.specs.Moves.{has_after};
ghost use Rattle.mark_graph.specs.RowMarks.{has_row};
ghost use Rattle.mark_rules.specs.Marks.{has_mark, mark_cmp};
ghost use Rattle.row_table.specs.AtMarks.{AddsAt, MovesAt, RemovesAt, at_mark};

use mark_graph::by_mark;
use mark_graph::moves::{MarkMoves, move_at_marks, move_between, put_all, take_all};
use mark_graph::rows_by_mark::RowsByMark;
use mark_graph::sorted_set::SortedSet;
use mesh_base::list::List;
use mesh_base::memory::Memory;
use std::alloc::Global;
use view_types::mark::Mark;

/// The numbers of the rows at each mark.
#[derive(Drop)]
pub struct RowsAtMarks {
    pub by_mark: RowsByMark<Mark>,
    pub alloc: Global,
}

impl RowsAtMarks {
    /// Returns a map in which no row is at a mark.
    pub(crate) fn new(alloc: Global) -> RowsAtMarks
        ensures { (mark : TheMark) (n : ℕ) → at_mark result mark n ≡ false }
    {
        RowsAtMarks {
            by_mark: RowsByMark::new(alloc),
            alloc,
        }
    }

    /// Adds a row at each of these marks.
    pub fn put(&mut self, marks: &[Mark], number: u64) -> Result<(), Memory>
        ensures { OnOk result (AddsAt (has_mark marks.now) number self.old self.new) }
    {
        put_all(self.alloc, &mut self.by_mark, marks, number)
    }

    /// Removes a row from each of these marks.
    pub fn take(&mut self, marks: &[Mark], number: u64)
        ensures { RemovesAt (has_mark marks.now) number self.old self.new }
    {
        take_all(&mut self.by_mark, marks, number);
    }

    /// Removes a row from the marks that are gone, and adds it at those that come.
    pub(crate) fn move_row(&mut self, moves: &MarkMoves<Mark>, number: u64) -> Result<(), Memory>
        ensures { OnOk result (MovesAt
            (has_after mark_cmp moves.now (λ mark. at_mark self.old mark number)) number self.old
            self.new) }
    {
        move_at_marks(self.alloc, &mut self.by_mark, moves, number)
    }

    /// Moves a row from the old marks to the new ones.
    pub(crate) fn move_between(
        &mut self,
        old: List<Mark>,
        new: List<Mark>,
        number: u64,
    ) -> Result<(), Memory>
        ensures { ((mark : TheMark) → at_mark self.old mark number ≡ has_mark old mark)
            → OnOk result (MovesAt (has_mark new) number self.old self.new) }
    {
        let old = SortedSet::of_list(old);
        let new = SortedSet::of_list(new);
        move_between(self.alloc, &mut self.by_mark, &old, &new, number)
    }

    /// Returns the rows at these marks, ascending and each once.
    pub(crate) fn rows_at(&self, marks: &[Mark]) -> Result<List<u64>, Memory>
        ensures rows { IfOk result (λ numbers. (n : ℕ)
            → has_row n numbers ≡ list_any (λ mark. at_mark self.now mark n) marks.now) }
        ensures in_order { IfOk result (λ numbers. IsStrictlySortedBy nat_cmp numbers) }
    {
        by_mark::rows_at(self.alloc, &self.by_mark, marks)
    }
}
