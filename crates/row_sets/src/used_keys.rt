// The keys that are in use, and their rows.
ghost use Rattle.std.specs.Prelude.{◌≡◌, ◌≤◌, ◌+◌, ◌&&◌, not, None, OnOk, if◌then◌else◌};
ghost use Rattle.std.specs.BTreeSet.{contains};
ghost use Rattle.std.specs.Ordering.{eq_by_cmp};
ghost use Rattle.view_types.specs.Objects.{ObjectMap};
ghost use Rattle.mark_graph.specs.RowMarks.{AddsRow, AllHaveRows, RemovesRow, set_at};
ghost use Rattle.mark_rules.specs.Reads.{cost};
ghost use Rattle.row_table.specs.IndexRows.{has_key};
ghost use Rattle.row_views.specs.Ids.{OneMoreUnless, has_ids};
ghost use Rattle.row_sets.specs.Standing.{EntersWithin, InUse, is_left_out, open_cost};

use mark_graph::by_mark::{put_one, set_of, take_one};
use mark_graph::rows_by_mark::RowsByMark;
use mesh_base::copied::Copied;
use mesh_base::list::List;
use mesh_base::memory::Memory;
use mesh_base::steps::Steps;
use object_store::store::Store;
use row_table::row_index::RowIndex;
use std::alloc::Global;
use std::collections::BTreeSet;

/// The keys of an index that have ids, each with its ids. Each is one user of the index.
#[derive(Drop)]
pub struct UsedKeys<I: RowIndex + Drop> {
    pub(crate) index: I,
    /// The ids of each key.
    pub(crate) by_key: RowsByMark<I::Key>,
    alloc: Global,
}

impl<I: RowIndex + Drop> UsedKeys<I> {
    /// Creates a set without keys that have ids.
    pub(crate) fn new(alloc: Global, index: I) -> UsedKeys<I>
        ensures index { result.index ≡ index }
        ensures none { (key : I.Key) → set_at I.Key.Ord.cmp result.by_key key ≡ None }
    {
        UsedKeys {
            index,
            by_key: RowsByMark::new(alloc),
            alloc,
        }
    }

    /// Puts an id at each of these keys. A key that had none is entered in the index.
    pub(crate) fn put_all<L>(
        &mut self,
        store: &Store,
        keys: &[I::Key],
        id: u64,
        steps: &mut Steps<L>,
    ) -> Result<(), Memory>
        ensures ids { OnOk result (AddsRow I.Key.Ord.cmp (has_key I.Key.Ord.cmp keys.now) id
            self.old.by_key self.new.by_key) }
        ensures in_use { OnOk result (InUse I.Key.Ord.cmp I.users I.stands store.now.objects
            self.old.index self.old.by_key → InUse I.Key.Ord.cmp I.users I.stands
            store.now.objects self.new.index self.new.by_key) }
        ensures steps { AllHaveRows I.Key.Ord.cmp self.old.by_key → steps.new ≤ steps.old
            + open_cost (I.filter self.old.index) store.now.objects
            (has_ids I.Key.Ord.cmp self.old.by_key) keys.now }
        ensures entered { OnOk result (AllHaveRows I.Key.Ord.cmp self.old.by_key → EntersWithin
            (I.filter self.old.index) store.now.objects I.Key.Ord.cmp
            (has_ids I.Key.Ord.cmp self.old.by_key) keys.now steps.old steps.new) }
        ensures filter { I.filter self.new.index ≡ I.filter self.old.index }
    {
        for key in keys {
            self.put(store, key, id, steps)?;
        }
        Ok(())
    }

    // Puts an id at a key.
    fn put<L>(
        &mut self,
        store: &Store,
        key: &I::Key,
        id: u64,
        steps: &mut Steps<L>,
    ) -> Result<(), Memory>
        ensures ids { OnOk result (AddsRow I.Key.Ord.cmp (eq_by_cmp I.Key.Ord.cmp key.now) id
            self.old.by_key self.new.by_key) }
        ensures in_use { OnOk result (InUse I.Key.Ord.cmp I.users I.stands store.now.objects
            self.old.index self.old.by_key → InUse I.Key.Ord.cmp I.users I.stands
            store.now.objects self.new.index self.new.by_key) }
        ensures steps { steps.new ≤ steps.old
            + (if has_ids I.Key.Ord.cmp self.old.by_key key.now then 0 else cost store.now.objects
            ((I.filter self.old.index).reads store.now.objects key.now)) }
        ensures filter { I.filter self.new.index ≡ I.filter self.old.index }
    {
        let had_ids = put_one(self.alloc, &mut self.by_key, key, id)?;
        self.enter(store, key, had_ids, steps)
    }

    // Makes the key a user of its row, unless it had ids.
    fn enter<L>(
        &mut self,
        store: &Store,
        key: &I::Key,
        had_ids: bool,
        steps: &mut Steps<L>,
    ) -> Result<(), Memory>
        ensures users { OnOk result (OneMoreUnless I.Key.Ord.cmp had_ids key.now
            (I.users self.old.index) (I.users self.new.index)) }
        ensures stands { OnOk result (I.stands self.old.index store.now.objects
            → I.stands self.new.index store.now.objects) }
        ensures steps { steps.new ≤ steps.old + (if had_ids then 0 else cost store.now.objects
            ((I.filter self.old.index).reads store.now.objects key.now)) }
        ensures filter { I.filter self.new.index ≡ I.filter self.old.index }
        ensures by_key { self.new.by_key ≡ self.old.by_key }
    {
        if had_ids {
            return Ok(());
        }
        self.index.enter(store, key.copy(self.alloc)?, steps)
    }

    /// Removes an id from each old key that is not among the new ones. A key without ids leaves the
    /// index.
    pub(crate) fn take_left_out(
        &mut self,
        old: &[I::Key],
        new: &List<I::Key>,
        id: u64,
    ) -> Result<(), Memory>
        ensures ids { OnOk result (RemovesRow I.Key.Ord.cmp (λ key.
            has_key I.Key.Ord.cmp old.now key && not (has_key I.Key.Ord.cmp new.now key)) id
            self.old.by_key self.new.by_key) }
        ensures in_use { OnOk result ((held : ObjectMap) → InUse I.Key.Ord.cmp I.users I.stands held
            self.old.index self.old.by_key → InUse I.Key.Ord.cmp I.users I.stands held
            self.new.index self.new.by_key) }
        ensures filter { I.filter self.new.index ≡ I.filter self.old.index }
    {
        if old.is_empty() {
            return Ok(());
        }
        let kept = set_of(self.alloc, new.copy(self.alloc)?)?;
        self.take_others(old, &kept, id);
        Ok(())
    }

    /// Removes an id from each old key that is not among the new ones. A key without ids leaves the
    /// index. Allocates nothing.
    pub(crate) fn take_others(&mut self, old: &[I::Key], new: &BTreeSet<I::Key>, id: u64)
        ensures ids { RemovesRow I.Key.Ord.cmp (is_left_out I.Key.Ord.cmp old.now new.now) id
            self.old.by_key self.new.by_key }
        ensures in_use { (held : ObjectMap) → InUse I.Key.Ord.cmp I.users I.stands held
            self.old.index self.old.by_key → InUse I.Key.Ord.cmp I.users I.stands held
            self.new.index self.new.by_key }
        ensures filter { I.filter self.new.index ≡ I.filter self.old.index }
    {
        for key in old {
            self.take_unless(key, new, id);
        }
    }

    // Removes an id from a key, unless the key is one of these.
    fn take_unless(&mut self, key: &I::Key, kept: &BTreeSet<I::Key>, id: u64)
        ensures ids { RemovesRow I.Key.Ord.cmp (λ k. eq_by_cmp I.Key.Ord.cmp key.now k
            && not (contains I.Key.Ord.cmp kept.now k)) id self.old.by_key self.new.by_key }
        ensures in_use { (held : ObjectMap) → InUse I.Key.Ord.cmp I.users I.stands held
            self.old.index self.old.by_key → InUse I.Key.Ord.cmp I.users I.stands held
            self.new.index self.new.by_key }
        ensures filter { I.filter self.new.index ≡ I.filter self.old.index }
    {
        if !kept.contains(key) {
            self.take(key, id);
        }
    }

    // Removes an id from a key.
    fn take(&mut self, key: &I::Key, id: u64)
        ensures ids { RemovesRow I.Key.Ord.cmp (eq_by_cmp I.Key.Ord.cmp key.now) id self.old.by_key
            self.new.by_key }
        ensures in_use { (held : ObjectMap) → InUse I.Key.Ord.cmp I.users I.stands held
            self.old.index self.old.by_key → InUse I.Key.Ord.cmp I.users I.stands held
            self.new.index self.new.by_key }
        ensures filter { I.filter self.new.index ≡ I.filter self.old.index }
    {
        if !take_one(&mut self.by_key, key, id) {
            self.index.leave(key);
        }
    }
}
