// Rows that are found again for each change.
ghost use Rattle.std.specs.Prelude.{◌≡◌, ◌≤◌, ◌+◌, false, IfOk};
ghost use Rattle.std.specs.FinMap.{IsAntisymmetric};
ghost use Rattle.mark_rules.specs.Laws.{Stays};
ghost use Rattle.mark_rules.specs.Reads.{cost};
ghost use Rattle.row_table.specs.IndexRows.{Filter, IsRow};
ghost use Rattle.row_table.specs.RowLaws.{found_stays};

use crate::row_rule::{Followed, MarksAfter, RowRule, StoreChange};
use crate::rows_at_marks::RowsAtMarks;
use mesh_base::copied::Copied;
use mesh_base::list::List;
use mesh_base::memory::Memory;
use mesh_base::steps::Steps;
use object_store::store::Store;
use std::alloc::Global;
use std::hash::Hash;
use std::mem;
use view_types::mark::Mark;

/// A row and the marks that it reads.
#[derive(Drop)]
pub struct PlainRow<R> {
    pub row: R,
    pub marks: List<Mark>,
}

/// A rule by which rows are found.
pub trait RowFinder: Drop {
    type Key: Ord + Hash + Copied;

    type Row: Drop;

    /// The filter: the row of each key over the objects held, and the marks that the row reads.
    ghost filter: { Self → Filter Self.Key Self.Row };

    /// Finds the row of a key and its marks.
    fn find<L>(
        &self,
        alloc: Global,
        store: &Store,
        key: &Self::Key,
        steps: &mut Steps<L>,
    ) -> Result<PlainRow<Self::Row>, Memory>
        requires { store.now.spent ≡ false }
        ensures row { IfOk result (λ found.
            IsRow (filter self.now) store.now.objects key.now found.row found.marks) }
        ensures steps { steps.new ≤ steps.old
            + cost store.now.objects ((filter self.now).reads store.now.objects key.now) };

    /// A row that reads no mark of a change is the same after it, and so is what it reads.
    ghost stays: { (finder : Self) → Stays ((filter finder).row_of) ((filter finder).reads) };

    /// Equal keys are the same key.
    ghost exact: { IsAntisymmetric Self.Key.Ord.cmp };
}

/// A rule that finds a row again for each change with a mark that the row reads.
#[derive(Drop)]
pub struct FindAnew<F: RowFinder> {
    pub finder: F,
}

impl<F: RowFinder> RowRule for FindAnew<F> {
    type Key = F::Key;

    type Row = F::Row;

    type Kept = PlainRow<F::Row>;

    type Notes = ();

    ghost filter = { λ rule. F.filter rule.finder };

    ghost keeps = { λ rule held key kept.
        IsRow (F.filter rule.finder) held key kept.row kept.marks };

    ghost row_in = { λ kept. kept.row };

    ghost marks_in = { λ kept. kept.marks };

    ghost notes_hold = { λ rule held change notes. Unit {0} };

    ghost tells = { λ before after. Unit {0} };

    fn find<L>(
        &self,
        alloc: Global,
        store: &Store,
        key: &F::Key,
        steps: &mut Steps<L>,
    ) -> Result<PlainRow<F::Row>, Memory> {
        self.finder.find(alloc, store, key, steps)
    }

    fn no_notes(&self, _alloc: Global) {}

    fn follow<L>(
        &self,
        after: &StoreChange,
        key: &F::Key,
        kept: &mut PlainRow<F::Row>,
        _notes: &mut (),
        steps: &mut Steps<L>,
    ) -> Result<Followed, Memory> {
        let found = self.finder.find(after.alloc, after.store, key, steps)?;
        let before = mem::replace(kept, found);
        Ok(Followed {
            differs: true,
            marks: MarksAfter::Other(before.marks),
        })
    }

    fn row(kept: &PlainRow<F::Row>) -> &F::Row {
        &kept.row
    }

    fn into_row(kept: PlainRow<F::Row>) -> F::Row {
        kept.row
    }

    fn marks(alloc: Global, kept: &PlainRow<F::Row>) -> Result<List<Mark>, Memory> {
        kept.marks.copy(alloc)
    }

    fn watch(
        kept: &PlainRow<F::Row>,
        at_marks: &mut RowsAtMarks,
        number: u64,
    ) -> Result<(), Memory> {
        at_marks.put(kept.marks.as_slice(), number)
    }

    fn unwatch(kept: &PlainRow<F::Row>, at_marks: &mut RowsAtMarks, number: u64) {
        at_marks.take(kept.marks.as_slice(), number);
    }

    ghost shows = { λ rule held key kept stands. stands };

    ghost stays = { λ rule. found_stays (F.filter rule.finder) (λ kept. kept.row)
        (λ kept. kept.marks) (F.stays rule.finder) };

    ghost exact = { F.exact };
}
