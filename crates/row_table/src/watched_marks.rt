// The rows of a table at the marks that they read, and the rows that are new.
ghost use Rattle.std.specs.Prelude.{◌≡◌, ◌&&◌, ◌||◌, ℕ, List, [], false, IfOk, OnOk};
ghost use Rattle.std.specs.BTreeSet.{contains};
ghost use Rattle.std.specs.List.{list_any};
ghost use Rattle.std.specs.List.Sorted.{IsStrictlySortedBy};
ghost use Rattle.std.specs.Option.{option_copied};
ghost use Rattle.std.specs.Ordering.{nat_cmp};
ghost use Rattle.view_types.specs.declared.mark.Mark.{Mark as TheMark};
ghost use Rattle.mark_graph.specs.RowMarks.{has_row};
ghost use Rattle.mark_rules.specs.Marks.{has_mark};
ghost use Rattle.row_table.specs.AtMarks.{AddsAt, MovesFor, Rewatches, at_mark, is_new};
ghost use Rattle.row_table.specs.MarksAfter.{MarksFollow};
ghost use Rattle.row_table.specs.TableRows.{WatchTheirs, kept_at, marks_of};

use crate::row_rule::{MarksAfter, RowRule};
use crate::rows_at_marks::RowsAtMarks;
use crate::table_rows::KeptRow;
use mark_graph::sorted_set::SortedSet;
use mesh_base::list::List;
use mesh_base::memory::Memory;
use slab::Slab;
use std::alloc::Global;
use view_types::mark::Mark;

/// The rows at the marks that they read, by their numbers. A new row is added at its marks only
/// when `due` is called, so that a row that comes and goes between two changes costs nothing here.
#[derive(Drop)]
pub struct WatchedMarks {
    pub(crate) at_marks: RowsAtMarks,
    /// The new rows, which are not at their marks yet.
    pub(crate) new_rows: SortedSet<u64>,
}

impl WatchedMarks {
    pub(crate) fn new(alloc: Global) -> WatchedMarks
        ensures { (n : ℕ) (mark : TheMark) → at_mark result.at_marks mark n ≡ false }
    {
        WatchedMarks {
            at_marks: RowsAtMarks::new(alloc),
            new_rows: SortedSet::new(alloc),
        }
    }

    /// Adds a new row, which was at no mark.
    pub(crate) fn add(&mut self, number: u64) -> Result<(), Memory>
        ensures { OnOk result
            ((marks : List TheMark) → Rewatches [] marks number self.old self.new) }
    {
        self.new_rows.insert(number)
    }

    /// Removes a row, which has this kept value.
    pub(crate) fn unwatch<F: RowRule>(&mut self, kept: &F::Kept, number: u64)
        ensures { Rewatches (F.marks_in kept.now) [] number self.old self.new }
    {
        if self.new_rows.contains(&number) {
            self.new_rows.remove(&number);
            return;
        }
        F::unwatch(kept, &mut self.at_marks, number);
    }

    /// Moves a row to the marks in its kept value, which are reported. A new row is at no mark.
    pub(crate) fn rewatch<F: RowRule>(
        &mut self,
        number: u64,
        marks: MarksAfter,
        kept: &F::Kept,
    ) -> Result<(), Memory>
        ensures { OnOk result ((before : List TheMark)
            → MarksFollow marks before (F.marks_in kept.now)
            → Rewatches before (F.marks_in kept.now) number self.old self.new) }
    {
        if self.new_rows.contains(&number) {
            return Ok(());
        }
        move_row::<F>(&mut self.at_marks, number, marks, kept)
    }

    /// Returns the numbers of the rows that read one of these marks, ascending. New rows are first
    /// added at their marks.
    pub(crate) fn due<F: RowRule>(
        &mut self,
        rows: &Slab<KeptRow<F::Key, F::Kept>>,
        marks: &[Mark],
    ) -> Result<List<u64>, Memory>
        ensures due { WatchTheirs F.marks_in rows.now self.old → IfOk result (λ numbers. (n : ℕ)
            → has_row n numbers
            ≡ list_any (has_mark (marks_of F.marks_in (kept_at rows.now n))) marks.now) }
        ensures in_order { IfOk result (λ numbers. IsStrictlySortedBy nat_cmp numbers) }
        ensures watch { WatchTheirs F.marks_in rows.now self.old
            → OnOk result (WatchTheirs F.marks_in rows.now self.new) }
    {
        self.settle::<F>(rows)?;
        self.at_marks.rows_at(marks)
    }

    // Adds the new rows at their marks, after which no row is new.
    fn settle<F: RowRule>(&mut self, rows: &Slab<KeptRow<F::Key, F::Kept>>) -> Result<(), Memory>
        ensures stand { WatchTheirs F.marks_in rows.now self.old → OnOk result
            ((n : ℕ) (mark : TheMark) → at_mark self.new.at_marks mark n
            ≡ has_mark (marks_of F.marks_in (kept_at rows.now n)) mark) }
        ensures none { OnOk result ((n : ℕ) → is_new self.new n ≡ false) }
    {
        watch_each::<F>(&mut self.at_marks, rows, &self.new_rows)?;
        self.new_rows = SortedSet::new(self.at_marks.alloc);
        Ok(())
    }
}

// Adds these rows at their marks.
fn watch_each<F: RowRule>(
    at_marks: &mut RowsAtMarks,
    rows: &Slab<KeptRow<F::Key, F::Kept>>,
    numbers: &SortedSet<u64>,
) -> Result<(), Memory>
    ensures { OnOk result ((mark : TheMark) (n : ℕ) → at_mark at_marks.new mark n
        ≡ ((contains nat_cmp numbers.now n
        && has_mark (marks_of F.marks_in (kept_at rows.now n)) mark)
        || at_mark at_marks.old mark n)) }
{
    for number in numbers.as_slice() {
        watch_row::<F>(at_marks, rows.get(*number as usize), *number)?;
    }
    Ok(())
}

// Adds a row, if there is one, at its marks.
fn watch_row<F: RowRule>(
    at_marks: &mut RowsAtMarks,
    row: Option<&KeptRow<F::Key, F::Kept>>,
    number: u64,
) -> Result<(), Memory>
    ensures { OnOk result (AddsAt (has_mark (marks_of F.marks_in (option_copied row.entry)))
        number at_marks.old at_marks.new) }
{
    match row {
        Some(row) => F::watch(&row.kept, at_marks, number),
        None => Ok(()),
    }
}

// Moves a row to the marks in its kept value, unless they are the same.
fn move_row<F: RowRule>(
    at_marks: &mut RowsAtMarks,
    number: u64,
    marks: MarksAfter,
    kept: &F::Kept,
) -> Result<(), Memory>
    ensures { OnOk result (MovesFor marks (F.marks_in kept.now) number at_marks.old at_marks.new) }
{
    match marks {
        MarksAfter::Same => Ok(()),
        MarksAfter::Moved(moves) => at_marks.move_row(&moves, number),
        MarksAfter::Other(before) => {
            let now = F::marks(at_marks.alloc, kept)?;
            at_marks.move_between(before, now, number)
        }
    }
}
