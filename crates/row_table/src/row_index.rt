// The contract of an index of rows by keys.
ghost use Rattle.std.specs.Prelude.{◌≡◌, ◌≤◌, ◌+◌, if◌then◌else◌, nat_lt, ℕ, Bool, true, false, List, Option, Some, IsErr, IfOk, OnOk};
ghost use Rattle.std.specs.FinMap.{IsAntisymmetric};
ghost use Rattle.std.specs.List.{sum_by};
ghost use Rattle.std.specs.Option.{option_copied};
ghost use Rattle.std.specs.Ordering.{eq_by_cmp};
ghost use Rattle.view_types.specs.Objects.{ObjectMap};
ghost use Rattle.view_types.specs.declared.mark.Mark.{Mark};
ghost use Rattle.mark_graph.specs.RowMarks.{has_row};
ghost use Rattle.mark_rules.specs.Changes.{Leads};
ghost use Rattle.mark_rules.specs.Reads.{cost};
ghost use Rattle.row_table.specs.IndexRows.{AreMet, AreNumbered, DifferAmong, Filter, IsCurrent, KeepNumbers, OneLess, OneMore, has_key};
ghost use Rattle.row_table.specs.PeekedRow.{peeked_row};

use crate::peeked::Peeked;
use mesh_base::copied::Copied;
use mesh_base::list::List;
use mesh_base::memory::Memory;
use mesh_base::steps::Steps;
use object_store::change::Change;
use object_store::store::Store;
use std::hash::Hash;
use view_types::mark::Mark;

/// An index of rows by keys. While a key has users, its row equals its filter over the objects
/// held. After `Memory` the index is spent: `enter`, `on_change` and `peek` return `Memory`.
pub trait RowIndex {
    type Key: Ord + Hash + Copied;

    type Row;

    /// The filter: the row of each key over the objects held, and the marks that the row reads.
    ghost filter: { Self → Filter Self.Key Self.Row };

    /// The number of users of a key.
    ghost users: { Self → Self.Key → ℕ };

    /// The row that is kept for a key.
    ghost row_at: { Self → Self.Key → Option Self.Row };

    /// The marks that are kept for a key.
    ghost marks_at: { Self → Self.Key → List Mark };

    /// The number of the row of a key, if the key has users.
    ghost number_at: { Self → Self.Key → Option ℕ };

    /// The keys whose rows may differ from those before the last change.
    ghost differing: { Self → List Self.Key };

    /// The numbers of the rows that read a mark of the last change, ascending.
    ghost met: { Self → List ℕ };

    /// The keys of the rows that read a mark of the last change.
    ghost met_keys: { Self → List Self.Key };

    ghost is_spent: { Self → Bool };

    /// The rows are current for these objects.
    ghost stands: { Self → ObjectMap → Type 0 };

    /// Adds a user to the key. For the first user, finds the row over the objects held.
    fn enter<L>(
        &mut self,
        store: &Store,
        key: Self::Key,
        steps: &mut Steps<L>,
    ) -> Result<(), Memory>
        ensures users { OnOk result
            (OneMore Self.Key.Ord.cmp key (users self.old) (users self.new)) }
        ensures stands { OnOk result
            (stands self.old store.now.objects → stands self.new store.now.objects) }
        ensures numbers { OnOk result (stands self.old store.now.objects
            → KeepNumbers (number_at self.old) (number_at self.new)) }
        ensures steps { steps.new ≤ steps.old + (if nat_lt 0 (users self.old key) then 0
            else cost store.now.objects ((filter self.old).reads store.now.objects key)) }
        ensures filter { filter self.new ≡ filter self.old }
        ensures going { OnOk result (is_spent self.new ≡ false) }
        ensures spent { IsErr result → is_spent self.new ≡ true }
        ensures was_spent { is_spent self.old ≡ true → IsErr result };

    /// Removes a user of the key. The row is removed with the last user.
    fn leave(&mut self, key: &Self::Key)
        ensures users { OneLess Self.Key.Ord.cmp key.now (users self.old) (users self.new) }
        ensures stands { (held : ObjectMap) → stands self.old held → stands self.new held }
        ensures numbers { (held : ObjectMap) → stands self.old held → (k : Self.Key)
            → eq_by_cmp Self.Key.Ord.cmp k key.now ≡ false
            → number_at self.new k ≡ number_at self.old k }
        ensures filter { filter self.new ≡ filter self.old }
        ensures spent { is_spent self.new ≡ is_spent self.old };

    /// Updates the rows that read a mark of a change of the store. `met_keys` returns their keys.
    fn on_change<L>(
        &mut self,
        store: &Store,
        change: &Change,
        steps: &mut Steps<L>,
    ) -> Result<(), Memory>
        ensures keys { OnOk result (AreMet Self.Key.Ord.cmp change.now.marks (marks_at self.old)
            (met_keys self.new)) }
        ensures differ { OnOk result (DifferAmong Self.Key.Ord.cmp (met_keys self.new)
            (differing self.new) (row_at self.old) (row_at self.new)) }
        ensures users { OnOk result ((key : Self.Key) → users self.new key ≡ users self.old key) }
        ensures stands { OnOk result ((held : ObjectMap) → stands self.old held
            → Leads change.now.marks held store.now.objects → stands self.new store.now.objects) }
        ensures numbers { OnOk result ((held : ObjectMap) → stands self.old held → (k : Self.Key)
            → number_at self.new k ≡ number_at self.old k) }
        ensures met { OnOk result ((held : ObjectMap) → stands self.old held
            → (k : Self.Key) (n : ℕ) → number_at self.old k ≡ Some n
            → has_row n (met self.new) ≡ has_key Self.Key.Ord.cmp (met_keys self.new) k) }
        ensures steps { OnOk result (steps.new ≤ steps.old + sum_by (λ key. cost store.now.objects
            ((filter self.old).reads store.now.objects key)) (met_keys self.new)) }
        ensures filter { filter self.new ≡ filter self.old }
        ensures going { OnOk result (is_spent self.new ≡ false) }
        ensures spent { IsErr result → is_spent self.new ≡ true }
        ensures was_spent { is_spent self.old ≡ true → IsErr result };

    /// Returns the keys whose rows may differ since the last change. All other rows are the same.
    fn differing(&self) -> &[Self::Key]
        ensures { result.now ≡ differing self.now };

    /// Returns the number of the row of a key that has users.
    fn number(&self, key: &Self::Key) -> Option<u64>
        ensures { result ≡ number_at self.now key.now };

    /// The numbers of the rows that read a mark of the last change, ascending.
    fn met(&self) -> &[u64]
        ensures { result.now ≡ met self.now };

    /// Returns a copy of the keys of the rows that read a mark of the last change.
    fn met_keys(&self) -> Result<List<Self::Key>, Memory>
        ensures keys { IfOk result (λ keys. keys ≡ met_keys self.now) }
        ensures was_spent { is_spent self.now ≡ true → IsErr result };

    /// Returns the row of a key that has users.
    fn row(&self, key: &Self::Key) -> Option<&Self::Row>
        ensures { option_copied result ≡ row_at self.now key.now };

    /// Returns the row of a key: the kept one, or one that is found for this call and not kept.
    fn peek<L>(
        &self,
        store: &Store,
        key: &Self::Key,
        steps: &mut Steps<L>,
    ) -> Result<Peeked<'_, Self::Row>, Memory>
        ensures row { IfOk result (λ peeked. stands self.now store.now.objects
            → peeked_row peeked ≡ (filter self.now).row_of store.now.objects key.now) }
        ensures steps { steps.new ≤ steps.old + (if nat_lt 0 (users self.now key.now) then 0
            else cost store.now.objects ((filter self.now).reads store.now.objects key.now)) }
        ensures was_spent { is_spent self.now ≡ true → IsErr result };

    /// Returns the marks that the row of a key with users reads. A mark may occur more than once.
    fn marks(&self, key: &Self::Key) -> Result<List<Mark>, Memory>
        ensures marks { IfOk result (λ marks. marks ≡ marks_at self.now key.now) }
        ensures was_spent { is_spent self.now ≡ true → IsErr result };

    /// A current index has the row and the marks of each key with users, and of no other key.
    ghost current: { (index : Self) (held : ObjectMap) → stands index held → (key : Self.Key)
        → IsCurrent (filter index) held key (users index key) (row_at index key)
        (marks_at index key) };

    /// A key has a number exactly while it has users, and no two keys have the same number.
    ghost numbered: { (index : Self) (held : ObjectMap) → stands index held
        → AreNumbered (users index) (number_at index) };

    /// Equal keys are the same key.
    ghost exact: { IsAntisymmetric Self.Key.Ord.cmp };
}
