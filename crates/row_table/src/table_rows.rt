// The rows of a table, each with its number.
ghost use Rattle.std.specs.Prelude.{◌≡◌, ◌≤◌, ◌+◌, ◌++◌, ◌∷◌, ℕ, List, Option, [], false, Some, None, IfOk, OnOk, if◌then◌else◌, is_some, nat_lt, option_map};
ghost use Rattle.std.specs.List.{sum_by};
ghost use Rattle.std.specs.Option.{option_copied, option_to_list};
ghost use Rattle.std.specs.Ordering.{nat_cmp};
ghost use Rattle.view_types.specs.Objects.{ObjectMap};
ghost use Rattle.mark_graph.specs.RowMarks.{has_row};
ghost use Rattle.mark_rules.specs.Reads.{cost};
ghost use Rattle.row_table.specs.IndexRows.{AreMet, DifferAmong, KeepNumbers, OneMore, has_key};
ghost use Rattle.row_table.specs.KeyNumbers.{PutsAt, number_at, one_less, one_more, used_at, users_in};
ghost use Rattle.row_table.specs.TableRows.{AllStand, AreTied, Follow, kept_at, key_in, keys_of, marks_of, row_at, shown_in};

use crate::key_numbers::KeyNumbers;
use crate::row_rule::{RowRule, StoreChange};
use crate::watched_marks::WatchedMarks;
use mesh_base::copied::Copied;
use mesh_base::list::List;
use mesh_base::memory::Memory;
use mesh_base::steps::Steps;
use object_store::store::Store;
use slab::Slab;
use std::alloc::Global;

/// A row and its key, kept while the key has users.
#[derive(Drop)]
pub struct KeptRow<K, T> {
    pub key: K,
    pub kept: T,
}

/// The keys that have users, the row of each key by its number, and the numbers of the rows at each
/// mark. A change finds its rows by number, without a search by key.
#[derive(Drop)]
pub struct TableRows<F: RowRule> {
    pub used: KeyNumbers<F::Key>,
    pub rows: Slab<KeptRow<F::Key, F::Kept>>,
    pub watched: WatchedMarks,
    /// The keys whose rows may differ from those before the last change.
    pub differing: List<F::Key>,
    /// The numbers of the rows that read a mark of the last change, ascending.
    pub met: List<u64>,
    pub alloc: Global,
}

/// A rule, and a change for which its rows are updated.
#[derive(Drop)]
pub struct RuleChange<'a, F: RowRule> {
    pub rule: &'a F,
    pub after: StoreChange<'a>,
}

impl<F: RowRule> TableRows<F> {
    pub fn new(alloc: Global) -> TableRows<F>
        ensures none { (key : F.Key) → used_at F.Key.Ord.cmp result.used key ≡ None }
        ensures tied { AreTied F.Key.Ord.cmp F.marks_in result.used result.rows result.watched }
    {
        TableRows {
            used: KeyNumbers::new(alloc),
            rows: Slab::new(alloc),
            watched: WatchedMarks::new(alloc),
            differing: List::new(alloc),
            met: List::new(alloc),
            alloc,
        }
    }

    /// Adds a user to the key. For the first user, finds the row over the objects held.
    pub fn enter<L>(
        &mut self,
        rule: &F,
        store: &Store,
        key: F::Key,
        steps: &mut Steps<L>,
    ) -> Result<(), Memory>
        requires going { store.now.spent ≡ false }
        requires tied { AreTied F.Key.Ord.cmp F.marks_in self.old.used self.old.rows
            self.old.watched }
        ensures users { OnOk result (OneMore F.Key.Ord.cmp key
            (λ k. users_in (used_at F.Key.Ord.cmp self.old.used k))
            (λ k. users_in (used_at F.Key.Ord.cmp self.new.used k))) }
        ensures stands { OnOk result (AllStand (F.keeps rule.now) F.Key.Ord.cmp store.now.objects
            self.old.used self.old.rows → AllStand (F.keeps rule.now) F.Key.Ord.cmp
            store.now.objects self.new.used self.new.rows) }
        ensures numbers { OnOk result (KeepNumbers (number_at F.Key.Ord.cmp self.old.used)
            (number_at F.Key.Ord.cmp self.new.used)) }
        ensures tied { OnOk result (AreTied F.Key.Ord.cmp F.marks_in self.new.used self.new.rows
            self.new.watched) }
        ensures steps { steps.new ≤ steps.old
            + (if nat_lt 0 (users_in (used_at F.Key.Ord.cmp self.old.used key)) then 0
            else cost store.now.objects ((F.filter rule.now).reads store.now.objects key)) }
    {
        if self.add_user(&key)? {
            return Ok(());
        }
        let kept = rule.find(self.alloc, store, &key, steps)?;
        self.add_row(key, kept)
    }

    // Adds a user to the key, if it has users. Returns whether it has.
    fn add_user(&mut self, key: &F::Key) -> Result<bool, Memory>
        ensures there { IfOk result (λ there.
            there ≡ is_some (used_at F.Key.Ord.cmp self.old.used key.now)) }
        ensures put { OnOk result (PutsAt F.Key.Ord.cmp key.now
            (option_map one_more (used_at F.Key.Ord.cmp self.old.used key.now))
            (used_at F.Key.Ord.cmp self.old.used) (used_at F.Key.Ord.cmp self.new.used)) }
        ensures same { self.new.rows ≡ self.old.rows }
        ensures tied { AreTied F.Key.Ord.cmp F.marks_in self.old.used self.old.rows
            self.old.watched → OnOk result (AreTied F.Key.Ord.cmp F.marks_in
            self.new.used self.new.rows self.new.watched) }
    {
        self.used.add_user(key)
    }

    // Adds the row of a key that has no users, which gets one user and a free number.
    fn add_row(&mut self, key: F::Key, kept: F::Kept) -> Result<(), Memory>
        requires none { used_at F.Key.Ord.cmp self.old.used key ≡ None }
        requires tied { AreTied F.Key.Ord.cmp F.marks_in self.old.used self.old.rows
            self.old.watched }
        ensures put { OnOk result (PutsAt F.Key.Ord.cmp key
            (Some (record { number = self.old.rows.vacant_key; users = 1 }))
            (used_at F.Key.Ord.cmp self.old.used) (used_at F.Key.Ord.cmp self.new.used)) }
        ensures row { OnOk result (PutsAt F.Key.Ord.cmp key
            (Some (record { key = key; kept = kept }))
            (row_at F.Key.Ord.cmp self.old.used self.old.rows)
            (row_at F.Key.Ord.cmp self.new.used self.new.rows)) }
        ensures tied { OnOk result (AreTied F.Key.Ord.cmp F.marks_in self.new.used self.new.rows
            self.new.watched) }
    {
        let own = key.copy(self.alloc)?;
        let number = self.rows.insert(KeptRow { key: own, kept })? as u64;
        self.watched.add(number)?;
        self.used.insert(key, number)
    }

    /// Removes a user of the key, if it has any. The row is removed with the last user.
    pub fn drop_user(&mut self, key: &F::Key)
        ensures put { PutsAt F.Key.Ord.cmp key.now
            (one_less (used_at F.Key.Ord.cmp self.old.used key.now))
            (used_at F.Key.Ord.cmp self.old.used) (used_at F.Key.Ord.cmp self.new.used) }
        ensures stands { (rule : F) (held : ObjectMap) → AllStand (F.keeps rule) F.Key.Ord.cmp held
            self.old.used self.old.rows → AllStand (F.keeps rule) F.Key.Ord.cmp held self.new.used
            self.new.rows }
        ensures tied { AreTied F.Key.Ord.cmp F.marks_in self.old.used self.old.rows
            self.old.watched → AreTied F.Key.Ord.cmp F.marks_in self.new.used
            self.new.rows self.new.watched }
    {
        if let Some(number) = self.used.take_user(key) {
            self.remove_row(key, number);
        }
    }

    // Removes a key and its row, which has this number.
    fn remove_row(&mut self, key: &F::Key, number: u64)
        requires { number_at F.Key.Ord.cmp self.old.used key.now ≡ Some number }
        ensures put { PutsAt F.Key.Ord.cmp key.now None (used_at F.Key.Ord.cmp self.old.used)
            (used_at F.Key.Ord.cmp self.new.used) }
        ensures rows { PutsAt nat_cmp number None (kept_at self.old.rows) (kept_at self.new.rows) }
        ensures tied { AreTied F.Key.Ord.cmp F.marks_in self.old.used self.old.rows
            self.old.watched → AreTied F.Key.Ord.cmp F.marks_in self.new.used
            self.new.rows self.new.watched }
    {
        self.used.remove(key);
        if let Some(row) = self.rows.try_remove(number as usize) {
            self.watched.unwatch::<F>(&row.kept, number);
        }
    }

    /// Updates the rows that read a mark of a change. `met_keys` returns their keys.
    pub fn follow<L>(&mut self, by: &RuleChange<F>, steps: &mut Steps<L>) -> Result<(), Memory>
        requires going { by.now.after.store.now.spent ≡ false }
        requires tied { AreTied F.Key.Ord.cmp F.marks_in self.old.used self.old.rows
            self.old.watched }
        ensures keys { OnOk result (AreMet F.Key.Ord.cmp by.now.after.change.now.marks
            (λ key. marks_of F.marks_in (row_at F.Key.Ord.cmp self.old.used self.old.rows key))
            (keys_of self.new.rows self.new.met)) }
        ensures rows { OnOk result (Follow (F.keeps by.now.rule.now) F.tells
            by.now.after.change.now.marks by.now.after.store.now.objects
            (has_key F.Key.Ord.cmp (keys_of self.new.rows self.new.met))
            (row_at F.Key.Ord.cmp self.old.used self.old.rows)
            (row_at F.Key.Ord.cmp self.new.used self.new.rows)) }
        ensures used { self.new.used ≡ self.old.used }
        ensures differ { OnOk result (DifferAmong F.Key.Ord.cmp
            (keys_of self.new.rows self.new.met) self.new.differing
            (λ key. shown_in F.row_in (row_at F.Key.Ord.cmp self.old.used self.old.rows key))
            (λ key. shown_in F.row_in (row_at F.Key.Ord.cmp self.new.used self.new.rows key))) }
        ensures met { OnOk result ((k : F.Key) (n : ℕ)
            → number_at F.Key.Ord.cmp self.old.used k ≡ Some n → has_row n self.new.met
            ≡ has_key F.Key.Ord.cmp (keys_of self.new.rows self.new.met) k) }
        ensures tied { OnOk result (AreTied F.Key.Ord.cmp F.marks_in self.new.used self.new.rows
            self.new.watched) }
        ensures steps { OnOk result (steps.new ≤ steps.old + sum_by
            (λ key. cost by.now.after.store.now.objects
            ((F.filter by.now.rule.now).reads by.now.after.store.now.objects key))
            (keys_of self.new.rows self.new.met)) }
    {
        let numbers = self
            .watched
            .due::<F>(&self.rows, by.after.change.marks.as_slice())?;
        let mut notes = by.rule.no_notes(self.alloc);
        self.differing = List::new(self.alloc);
        for number in numbers.as_slice() {
            self.follow_number(by, *number, &mut notes, steps)?;
        }
        self.met = numbers;
        Ok(())
    }

    // Updates the row of a number. Adds its key to `differing` if it may differ.
    fn follow_number<L>(
        &mut self,
        by: &RuleChange<F>,
        number: u64,
        notes: &mut F::Notes,
        steps: &mut Steps<L>,
    ) -> Result<(), Memory>
        requires going { by.now.after.store.now.spent ≡ false }
        requires notes { F.notes_hold by.now.rule.now by.now.after.store.now.objects
            by.now.after.change.now notes.old }
        requires tied { AreTied F.Key.Ord.cmp F.marks_in self.old.used self.old.rows
            self.old.watched }
        ensures rows { OnOk result (Follow (F.keeps by.now.rule.now) F.tells
            by.now.after.change.now.marks by.now.after.store.now.objects (has_key F.Key.Ord.cmp
            (option_to_list (key_in (kept_at self.old.rows number))))
            (row_at F.Key.Ord.cmp self.old.used self.old.rows)
            (row_at F.Key.Ord.cmp self.new.used self.new.rows)) }
        ensures differ { OnOk result ((first : F.Key → Option F.Row) (found : List F.Key)
            → DifferAmong F.Key.Ord.cmp found self.old.differing first
            (λ key. shown_in F.row_in (row_at F.Key.Ord.cmp self.old.used self.old.rows key))
            → DifferAmong F.Key.Ord.cmp
            (found ++ option_to_list (key_in (kept_at self.old.rows number)))
            self.new.differing first
            (λ key. shown_in F.row_in (row_at F.Key.Ord.cmp self.new.used self.new.rows key))) }
        ensures notes { OnOk result (F.notes_hold by.now.rule.now by.now.after.store.now.objects
            by.now.after.change.now notes.new) }
        ensures tied { OnOk result (AreTied F.Key.Ord.cmp F.marks_in self.new.used self.new.rows
            self.new.watched) }
        ensures used { self.new.used ≡ self.old.used }
        ensures same { OnOk result ((n : ℕ) → key_in (kept_at self.new.rows n)
            ≡ key_in (kept_at self.old.rows n)) }
        ensures steps { OnOk result (steps.new ≤ steps.old + sum_by
            (λ key. cost by.now.after.store.now.objects
            ((F.filter by.now.rule.now).reads by.now.after.store.now.objects key))
            (option_to_list (key_in (kept_at self.old.rows number)))) }
    {
        match self.rows.get_mut(number as usize) {
            Some(row) => {
                let followed = by
                    .rule
                    .follow(&by.after, &row.key, &mut row.kept, notes, steps)?;
                self.watched
                    .rewatch::<F>(number, followed.marks, &row.kept)?;
                note_differing(self.alloc, &mut self.differing, &row.key, followed.differs)
            }
            None => Ok(()),
        }
    }

    /// Returns the keys of the rows that read a mark of the last change.
    pub fn met_keys(&self) -> Result<List<F::Key>, Memory>
        ensures { IfOk result (λ keys. keys ≡ keys_of self.now.rows self.now.met) }
    {
        let mut keys = List::new(self.alloc);
        for number in self.met.as_slice() {
            add_key(self.alloc, &mut keys, self.rows.get(*number as usize))?;
        }
        Ok(keys)
    }
}

// Appends the key of a row, if there is one.
fn add_key<K: Copied, T>(
    alloc: Global,
    keys: &mut List<K>,
    row: Option<&KeptRow<K, T>>,
) -> Result<(), Memory>
    ensures { OnOk result
        (keys.new ≡ keys.old ++ option_to_list (key_in (option_copied row.entry))) }
{
    match row {
        Some(row) => keys.add(row.key.copy(alloc)?),
        None => Ok(()),
    }
}

// Appends the key if its row may differ.
fn note_differing<K: Copied>(
    alloc: Global,
    differing: &mut List<K>,
    key: &K,
    differs: bool,
) -> Result<(), Memory>
    ensures { OnOk result
        (differing.new ≡ differing.old ++ (if differs then key.now ∷ [] else [])) }
{
    if !differs {
        return Ok(());
    }
    differing.add(key.copy(alloc)?)
}
