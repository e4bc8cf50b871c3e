// The table behind all indexes.
ghost use Rattle.std.specs.Prelude.{◌≡◌, ◌≤◌, ◌+◌, ℕ, false, true, None, Some, IsErr, IfOk, OnOk};
ghost use Rattle.std.specs.List.{sum_by};
ghost use Rattle.std.specs.Option.{option_copied};
ghost use Rattle.mark_graph.specs.RowMarks.{has_row};
ghost use Rattle.mark_rules.specs.Reads.{cost};
ghost use Rattle.view_types.specs.Objects.{ObjectMap};
ghost use Rattle.row_table.specs.IndexRows.{AreMet, DifferAmong, has_key};
ghost use Rattle.row_table.specs.KeyNumbers.{number_at, used_at, users_in};
ghost use Rattle.row_table.specs.TableRows.{AllStand, AreTied, Follow, kept_in, keys_of, marks_of, row_at, shown_in};
ghost use Rattle.row_table.specs.RowLaws.{current_row, numbered_rows};

use crate::peeked::Peeked;
use crate::row_index::RowIndex;
use crate::row_rule::{RowRule, StoreChange};
use crate::table_rows::{RuleChange, TableRows};
use mesh_base::list::List;
use mesh_base::memory::Memory;
use mesh_base::steps::Steps;
use object_store::change::Change;
use object_store::store::Store;
use std::alloc::Global;
use view_types::mark::Mark;

/// The rows of one rule by their keys. A change updates the rows that read one of its marks.
#[derive(Drop)]
pub struct RowTable<F: RowRule> {
    rule: F,
    table: TableRows<F>,
    spent: bool,
    alloc: Global,
    ghost tied: { spent ≡ false → AreTied F.Key.Ord.cmp F.marks_in table.used table.rows
        table.watched },
}

impl<F: RowRule> RowTable<F> {
    /// Returns a table without users, which is current for any objects held.
    pub fn new(alloc: Global, rule: F) -> RowTable<F>
        ensures rule { result.rule ≡ rule }
        ensures none { (key : F.Key) → used_at F.Key.Ord.cmp result.table.used key ≡ None }
        ensures stands { (held : ObjectMap) → AllStand (F.keeps rule) F.Key.Ord.cmp held
            result.table.used result.table.rows }
        ensures going { result.spent ≡ false }
    {
        RowTable {
            rule,
            table: TableRows::new(alloc),
            spent: false,
            alloc,
        }
    }

    /// Returns the kept value of the row of a key that has users.
    pub fn kept(&self, key: &F::Key) -> Option<&F::Kept>
        ensures { option_copied result
            ≡ kept_in (row_at F.Key.Ord.cmp self.now.table.used self.now.table.rows key.now) }
    {
        let used = self.table.used.get(key)?;
        match self.table.rows.get(used.number as usize) {
            Some(row) => Some(&row.kept),
            None => None,
        }
    }

    /// Updates the rows that read a mark of a change of the store, and returns their keys. The
    /// relation `tells` holds between the old and the new kept value of each row.
    pub fn follow_change<L>(
        &mut self,
        store: &Store,
        change: &Change,
        steps: &mut Steps<L>,
    ) -> Result<List<F::Key>, Memory>
        ensures keys { IfOk result (AreMet F.Key.Ord.cmp change.now.marks
            (λ key. marks_of F.marks_in
            (row_at F.Key.Ord.cmp self.old.table.used self.old.table.rows key))) }
        ensures rows { IfOk result (λ keys. Follow (F.keeps self.old.rule) F.tells
            change.now.marks store.now.objects (has_key F.Key.Ord.cmp keys)
            (row_at F.Key.Ord.cmp self.old.table.used self.old.table.rows)
            (row_at F.Key.Ord.cmp self.new.table.used self.new.table.rows)) }
        ensures used { self.new.table.used ≡ self.old.table.used }
        ensures differ { IfOk result (λ keys. DifferAmong F.Key.Ord.cmp keys
            self.new.table.differing (λ key. shown_in F.row_in
            (row_at F.Key.Ord.cmp self.old.table.used self.old.table.rows key))
            (λ key. shown_in F.row_in
            (row_at F.Key.Ord.cmp self.new.table.used self.new.table.rows key))) }
        ensures met { IfOk result (λ keys. (k : F.Key) (n : ℕ)
            → number_at F.Key.Ord.cmp self.old.table.used k ≡ Some n
            → has_row n self.new.table.met ≡ has_key F.Key.Ord.cmp keys k) }
        ensures steps { IfOk result (λ keys. steps.new ≤ steps.old + sum_by (λ key.
            cost store.now.objects ((F.filter self.old.rule).reads store.now.objects key)) keys) }
        ensures rule { self.new.rule ≡ self.old.rule }
        ensures going { OnOk result (self.new.spent ≡ false) }
        ensures spent { IsErr result → self.new.spent ≡ true }
        ensures was_spent { self.old.spent ≡ true → IsErr result }
    {
        if self.spent {
            return Err(Memory);
        }
        self.spent = true;
        if store.is_spent() {
            return Err(Memory);
        }
        let by = RuleChange {
            rule: &self.rule,
            after: StoreChange {
                alloc: self.alloc,
                store,
                change,
            },
        };
        self.table.follow(&by, steps)?;
        let keys = self.table.met_keys()?;
        self.spent = false;
        Ok(keys)
    }
}

impl<F: RowRule> RowIndex for RowTable<F> {
    type Key = F::Key;

    type Row = F::Row;

    ghost filter = { λ s. F.filter s.rule };

    ghost users = { λ s key. users_in (used_at F.Key.Ord.cmp s.table.used key) };

    ghost row_at = { λ s key. shown_in F.row_in
        (row_at F.Key.Ord.cmp s.table.used s.table.rows key) };

    ghost marks_at = { λ s key. marks_of F.marks_in
        (row_at F.Key.Ord.cmp s.table.used s.table.rows key) };

    ghost number_at = { λ s. number_at F.Key.Ord.cmp s.table.used };

    ghost differing = { λ s. s.table.differing };

    ghost met = { λ s. s.table.met };

    ghost met_keys = { λ s. keys_of s.table.rows s.table.met };

    ghost is_spent = { λ s. s.spent };

    ghost stands = { λ s held. AllStand (F.keeps s.rule) F.Key.Ord.cmp held s.table.used
        s.table.rows };

    fn enter<L>(&mut self, store: &Store, key: F::Key, steps: &mut Steps<L>) -> Result<(), Memory> {
        if self.spent {
            return Err(Memory);
        }
        self.spent = true;
        if store.is_spent() {
            return Err(Memory);
        }
        self.table.enter(&self.rule, store, key, steps)?;
        self.spent = false;
        Ok(())
    }

    fn leave(&mut self, key: &F::Key) {
        self.table.drop_user(key);
    }

    fn on_change<L>(
        &mut self,
        store: &Store,
        change: &Change,
        steps: &mut Steps<L>,
    ) -> Result<(), Memory> {
        if self.spent {
            return Err(Memory);
        }
        self.spent = true;
        if store.is_spent() {
            return Err(Memory);
        }
        let by = RuleChange {
            rule: &self.rule,
            after: StoreChange {
                alloc: self.alloc,
                store,
                change,
            },
        };
        self.table.follow(&by, steps)?;
        self.spent = false;
        Ok(())
    }

    fn differing(&self) -> &[F::Key] {
        self.table.differing.as_slice()
    }

    fn number(&self, key: &F::Key) -> Option<u64> {
        match self.table.used.get(key) {
            Some(used) => Some(used.number),
            None => None,
        }
    }

    fn met(&self) -> &[u64] {
        self.table.met.as_slice()
    }

    fn met_keys(&self) -> Result<List<F::Key>, Memory> {
        if self.spent {
            return Err(Memory);
        }
        self.table.met_keys()
    }

    fn row(&self, key: &F::Key) -> Option<&F::Row> {
        Some(F::row(self.kept(key)?))
    }

    fn peek<L>(
        &self,
        store: &Store,
        key: &F::Key,
        steps: &mut Steps<L>,
    ) -> Result<Peeked<'_, F::Row>, Memory> {
        if self.spent || store.is_spent() {
            return Err(Memory);
        }
        match self.kept(key) {
            Some(kept) => Ok(Peeked::Kept(F::row(kept))),
            None => {
                let kept = self.rule.find(self.alloc, store, key, steps)?;
                Ok(Peeked::Made(F::into_row(kept)))
            }
        }
    }

    fn marks(&self, key: &F::Key) -> Result<List<Mark>, Memory> {
        if self.spent {
            return Err(Memory);
        }
        match self.kept(key) {
            Some(kept) => F::marks(self.alloc, kept),
            None => Ok(List::new(self.alloc)),
        }
    }

    ghost current = { λ s held stands key. current_row (F.filter s.rule) F.row_in F.marks_in
        (F.keeps s.rule) (F.shows s.rule) held key (used_at F.Key.Ord.cmp s.table.used key)
        (row_at F.Key.Ord.cmp s.table.used s.table.rows key) (stands key) };

    ghost numbered = { λ s held stands. numbered_rows F.Key.Ord.cmp (F.keeps s.rule) held
        s.table.used s.table.rows stands };

    ghost exact = { F.exact };
}
