// A sort of rows: its filter, the kept value of a row, and its update for a change.
ghost use Rattle.std.specs.Prelude.{◌≡◌, ◌≤◌, ◌+◌, false, List, IfOk, OnOk};
ghost use Rattle.std.specs.FinMap.{IsAntisymmetric};
ghost use Rattle.view_types.specs.Objects.{ObjectMap};
ghost use Rattle.view_types.specs.declared.mark.Mark.{Mark};
ghost use Rattle.mark_rules.specs.Changes.{Leads};
ghost use Rattle.mark_rules.specs.Marks.{has_mark};
ghost use Rattle.mark_rules.specs.Reads.{cost};
ghost use Rattle.object_store.specs.declared.change.Change.{Change};
ghost use Rattle.row_table.specs.AtMarks.{AddsAt, RemovesAt};
ghost use Rattle.row_table.specs.IndexRows.{Filter, KeptShows, KeptStays};
ghost use Rattle.row_table.specs.MarksAfter.{MarksFollow};

use crate::rows_at_marks::RowsAtMarks;
use mark_graph::moves::MarkMoves;
use mesh_base::copied::Copied;
use mesh_base::list::List;
use mesh_base::memory::Memory;
use mesh_base::steps::Steps;
use object_store::change::Change;
use object_store::store::Store;
use std::alloc::Global;
use std::hash::Hash;
use view_types::mark::Mark;

/// A store, and the change that the last call made to it.
#[derive(Clone, Copy)]
pub struct StoreChange<'a> {
    pub alloc: Global,
    pub store: &'a Store,
    pub change: &'a Change,
}

/// The marks that a row reads after a change.
#[derive(Drop)]
pub enum MarksAfter {
    /// The same marks as before.
    Same,
    /// The marks of before, with these removed and added.
    Moved(MarkMoves<Mark>),
    /// Possibly other marks than those of before, which are these.
    Other(List<Mark>),
}

/// The result of the update of a row for a change.
#[derive(Drop)]
pub struct Followed {
    /// Whether the row may differ from the row before.
    pub differs: bool,
    pub marks: MarksAfter,
}

/// A rule by which the rows of one sort are found and kept.
pub trait RowRule: Drop {
    type Key: Ord + Hash + Copied;

    type Row;

    /// The kept value of a row: the row, its marks, and whatever helps to update it for a change.
    type Kept: Drop;

    /// The notes on one change, which its rows share: an object is fetched once for all of them.
    type Notes: Drop;

    /// The filter: the row of each key over the objects held, and the marks that the row reads.
    ghost filter: { Self → Filter Self.Key Self.Row };

    /// The kept value is valid for the row of the key over these objects.
    ghost keeps: { Self → ObjectMap → Self.Key → Self.Kept → Type 0 };

    /// The row in a kept value.
    ghost row_in: { Self.Kept → Self.Row };

    /// The marks in a kept value.
    ghost marks_in: { Self.Kept → List Mark };

    /// The notes are correct for this change, which led to these objects.
    ghost notes_hold: { Self → ObjectMap → Change → Self.Notes → Type 0 };

    /// The relation of the kept value before a change to the kept value after it.
    ghost tells: { Self.Kept → Self.Kept → Type 0 };

    /// Finds the row of a key and its marks.
    fn find<L>(
        &self,
        alloc: Global,
        store: &Store,
        key: &Self::Key,
        steps: &mut Steps<L>,
    ) -> Result<Self::Kept, Memory>
        requires { store.now.spent ≡ false }
        ensures kept { IfOk result (keeps self.now store.now.objects key.now) }
        ensures steps { steps.new ≤ steps.old
            + cost store.now.objects ((filter self.now).reads store.now.objects key.now) };

    /// Returns the notes on a change that no row has followed yet.
    fn no_notes(&self, alloc: Global) -> Self::Notes
        ensures { (held : ObjectMap) (change : Change) → notes_hold self.now held change result };

    /// Updates the kept value of a row for a change with a mark that the row reads.
    fn follow<L>(
        &self,
        after: &StoreChange,
        key: &Self::Key,
        kept: &mut Self::Kept,
        notes: &mut Self::Notes,
        steps: &mut Steps<L>,
    ) -> Result<Followed, Memory>
        requires going { after.now.store.now.spent ≡ false }
        requires notes { notes_hold self.now after.now.store.now.objects after.now.change.now
            notes.old }
        ensures kept { OnOk result ((held : ObjectMap) → keeps self.now held key.now kept.old
            → Leads after.now.change.now.marks held after.now.store.now.objects
            → keeps self.now after.now.store.now.objects key.now kept.new) }
        ensures tells { OnOk result ((held : ObjectMap) → keeps self.now held key.now kept.old
            → Leads after.now.change.now.marks held after.now.store.now.objects
            → tells kept.old kept.new) }
        ensures row { IfOk result (λ followed. followed.differs ≡ false
            → row_in kept.new ≡ row_in kept.old) }
        ensures marks { IfOk result (λ followed.
            MarksFollow followed.marks (marks_in kept.old) (marks_in kept.new)) }
        ensures notes { OnOk result
            (notes_hold self.now after.now.store.now.objects after.now.change.now notes.new) }
        ensures steps { steps.new ≤ steps.old + cost after.now.store.now.objects
            ((filter self.now).reads after.now.store.now.objects key.now) };

    fn row(kept: &Self::Kept) -> &Self::Row
        ensures { result.now ≡ row_in kept.now };

    fn into_row(kept: Self::Kept) -> Self::Row
        ensures { result ≡ row_in kept };

    /// Returns the marks in a kept value as a list.
    fn marks(alloc: Global, kept: &Self::Kept) -> Result<List<Mark>, Memory>
        ensures { IfOk result (λ marks. marks ≡ marks_in kept.now) };

    /// Adds the row with this number at the marks in its kept value.
    fn watch(kept: &Self::Kept, at_marks: &mut RowsAtMarks, number: u64) -> Result<(), Memory>
        ensures { OnOk result
            (AddsAt (has_mark (marks_in kept.now)) number at_marks.old at_marks.new) };

    /// Removes the row with this number from the marks in its kept value.
    fn unwatch(kept: &Self::Kept, at_marks: &mut RowsAtMarks, number: u64)
        ensures { RemovesAt (has_mark (marks_in kept.now)) number at_marks.old at_marks.new };

    /// A valid kept value has the row of its key and the marks that the row reads.
    ghost shows: { (rule : Self) → KeptShows (filter rule) (keeps rule) row_in marks_in };

    /// The kept value of a row that reads no mark of a change stays valid after it.
    ghost stays: { (rule : Self) → KeptStays (filter rule) (keeps rule) };

    /// Equal keys are the same key.
    ghost exact: { IsAntisymmetric Self.Key.Ord.cmp };
}
