// The rows of the keys that ids are open with.
ghost use Rattle.std.specs.Prelude.{◌≡◌, ◌≤◌, ◌+◌, ◌++◌, ℕ, false, None, Some, IfOk, OnErr, OnOk, filter_map, if◌then◌else◌, is_some, nat_lt, option_map, option_to_list};
ghost use Rattle.std.specs.List.Sorted.{IsStrictlySortedBy};
ghost use Rattle.std.specs.Option.{option_copied};
ghost use Rattle.std.specs.Ordering.{nat_cmp};
ghost use Rattle.view_types.specs.Objects.{ObjectMap};
ghost use Rattle.mark_graph.specs.RowMarks.{has_row};
ghost use Rattle.mark_rules.specs.Changes.{Leads};
ghost use Rattle.mark_rules.specs.Reads.{cost};
ghost use Rattle.row_table.specs.IndexRows.{KeepNumbers};
ghost use Rattle.row_table.specs.PeekedRow.{peeked_row};
ghost use Rattle.row_views.specs.Ids.{AddsId, Keeps, OneMoreUnless, RemovesId, SetsAt, has_ids_at, is_number, is_one_of, is_open, key_at};
ghost use Rattle.row_views.specs.Standing.{FollowCost, HasSameRow, Standing, is_met};

use crate::numbered_ids::NumberedIds;
use chunked_map::map::ChunkedMap;
use mesh_base::copied::Copied;
use mesh_base::list::List;
use mesh_base::memory::Memory;
use mesh_base::steps::Steps;
use object_store::change::Change;
use object_store::store::Store;
use row_table::peeked::Peeked;
use row_table::row_index::RowIndex;
use std::alloc::Global;

/// The rows of an index that ids are open with, each stored once for all ids of its key. After
/// Memory the rows are not known, but the keys of the ids are unchanged.
#[derive(Drop)]
pub struct RowViews<I: RowIndex + Drop> {
    /// Each key that has ids is one user of its row.
    index: I,
    /// The ids of each row, by its number.
    by_number: NumberedIds,
    /// The key of each id.
    by_id: ChunkedMap<u64, I::Key>,
    alloc: Global,
}

impl<I: RowIndex + Drop> RowViews<I> {
    /// Creates views without open ids. The index must have no users.
    pub fn new(alloc: Global, index: I) -> RowViews<I>
        requires { (key : I.Key) → I.users index key ≡ 0 }
        ensures index { result.index ≡ index }
        ensures keys { (id : ℕ) → key_at result.by_id id ≡ None }
        ensures stands { (held : ObjectMap) → I.stands index held → Standing I.Key.Ord.cmp I.users
            I.number_at I.stands held index result.by_number result.by_id }
    {
        RowViews {
            index,
            by_number: NumberedIds::new(alloc),
            by_id: ChunkedMap::new(alloc),
            alloc,
        }
    }

    /// Opens an id with a key. The id must not be open.
    pub fn open<L>(
        &mut self,
        store: &Store,
        id: u64,
        key: I::Key,
        steps: &mut Steps<L>,
    ) -> Result<(), Memory>
        requires free { key_at self.old.by_id id ≡ None }
        ensures keys { OnOk result
            (SetsAt id (Some key) (key_at self.old.by_id) (key_at self.new.by_id)) }
        ensures stands { OnOk result (Standing I.Key.Ord.cmp I.users I.number_at I.stands
            store.now.objects self.old.index self.old.by_number self.old.by_id → Standing
            I.Key.Ord.cmp I.users I.number_at I.stands store.now.objects self.new.index
            self.new.by_number self.new.by_id) }
        ensures steps { Standing I.Key.Ord.cmp I.users I.number_at I.stands store.now.objects
            self.old.index self.old.by_number self.old.by_id → steps.new ≤ steps.old + (if nat_lt 0
            (I.users self.old.index key) then 0 else cost store.now.objects ((I.filter
            self.old.index).reads store.now.objects key)) }
        ensures filter { I.filter self.new.index ≡ I.filter self.old.index }
        ensures kept { OnErr result (Keeps (key_at self.old.by_id) (key_at self.new.by_id)) }
    {
        let number = self.enter(store, &key, steps)?;
        put_at(self.alloc, &mut self.by_number, number, id)?;
        self.by_id.insert(id, key)?;
        Ok(())
    }

    // Makes the key a user of its row, if it has no ids yet. Returns the number of the row.
    fn enter<L>(
        &mut self,
        store: &Store,
        key: &I::Key,
        steps: &mut Steps<L>,
    ) -> Result<Option<u64>, Memory>
        ensures number { IfOk result (λ number. number ≡ I.number_at self.new.index key.now) }
        ensures users { OnOk result (OneMoreUnless I.Key.Ord.cmp
            (is_some (I.number_at self.old.index key.now)) key.now (I.users self.old.index)
            (I.users self.new.index)) }
        ensures stands { OnOk result (I.stands self.old.index store.now.objects
            → I.stands self.new.index store.now.objects) }
        ensures numbers { OnOk result (I.stands self.old.index store.now.objects
            → KeepNumbers (I.number_at self.old.index) (I.number_at self.new.index)) }
        ensures steps { steps.new ≤ steps.old + (if nat_lt 0 (I.users self.old.index key.now)
            then 0 else cost store.now.objects
            ((I.filter self.old.index).reads store.now.objects key.now)) }
        ensures filter { I.filter self.new.index ≡ I.filter self.old.index }
        ensures by_number { self.new.by_number ≡ self.old.by_number }
        ensures by_id { self.new.by_id ≡ self.old.by_id }
    {
        if let Some(number) = self.index.number(key) {
            return Ok(Some(number));
        }
        self.index.enter(store, key.copy(self.alloc)?, steps)?;
        Ok(self.index.number(key))
    }

    /// Closes an id, if it is open. Allocates nothing.
    pub fn close(&mut self, id: u64)
        ensures keys { SetsAt id None (key_at self.old.by_id) (key_at self.new.by_id) }
        ensures stands { (held : ObjectMap) → Standing I.Key.Ord.cmp I.users I.number_at I.stands
            held self.old.index self.old.by_number self.old.by_id → Standing I.Key.Ord.cmp I.users
            I.number_at I.stands held self.new.index self.new.by_number self.new.by_id }
        ensures filter { I.filter self.new.index ≡ I.filter self.old.index }
    {
        let Some(key) = self.by_id.remove(&id) else {
            return;
        };
        let number = self.index.number(&key);
        if !take_at(self.alloc, &mut self.by_number, number, id) {
            self.index.leave(&key);
        }
    }

    /// Updates the rows for a change of the store. Returns the ids, ascending, of the keys whose
    /// rows read a mark of it.
    pub fn follow<L>(
        &mut self,
        store: &Store,
        change: &Change,
        steps: &mut Steps<L>,
    ) -> Result<List<u64>, Memory>
        ensures touched { IfOk result (λ ids. (held : ObjectMap) → Standing I.Key.Ord.cmp I.users
            I.number_at I.stands held self.old.index self.old.by_number self.old.by_id → (id : ℕ) →
            has_row id ids ≡ is_met (I.filter self.old.index) held change.now.marks (key_at
            self.old.by_id id)) }
        ensures in_order { IfOk result (λ ids. IsStrictlySortedBy nat_cmp ids) }
        ensures differ { OnOk result ((held : ObjectMap) → Standing I.Key.Ord.cmp I.users
            I.number_at I.stands held self.old.index self.old.by_number self.old.by_id → Leads
            change.now.marks held store.now.objects → (id : ℕ) → is_one_of I.Key.Ord.cmp
            (I.differing self.new.index) (key_at self.old.by_id id) ≡ false → HasSameRow (I.filter
            self.old.index) held store.now.objects (key_at self.old.by_id id)) }
        ensures stands { OnOk result ((held : ObjectMap) → Standing I.Key.Ord.cmp I.users
            I.number_at I.stands held self.old.index self.old.by_number self.old.by_id → Leads
            change.now.marks held store.now.objects → Standing I.Key.Ord.cmp I.users I.number_at
            I.stands store.now.objects self.new.index self.new.by_number self.new.by_id) }
        ensures steps { OnOk result ((held : ObjectMap) → Standing I.Key.Ord.cmp I.users I.number_at
            I.stands held self.old.index self.old.by_number self.old.by_id → FollowCost (I.filter
            self.old.index) I.Key.Ord.cmp (is_open (I.number_at self.old.index) self.old.by_number)
            change.now.marks held store.now.objects steps.old steps.new) }
        ensures filter { I.filter self.new.index ≡ I.filter self.old.index }
        ensures keys { self.new.by_id ≡ self.old.by_id }
    {
        self.index.on_change(store, change, steps)?;
        self.by_number.ids_at(self.alloc, self.index.met())
    }

    /// Returns the ids of the keys whose rows may differ from those before the last change. All
    /// others have the same rows.
    pub fn differing(&self) -> Result<List<u64>, Memory>
        ensures { IfOk result (λ ids. (held : ObjectMap) → Standing I.Key.Ord.cmp I.users
            I.number_at I.stands held self.now.index self.now.by_number self.now.by_id → (id : ℕ) →
            has_row id ids ≡ is_one_of I.Key.Ord.cmp (I.differing self.now.index) (key_at
            self.now.by_id id)) }
    {
        let numbers = self.numbers_of(self.index.differing())?;
        self.by_number.ids_at(self.alloc, numbers.as_slice())
    }

    // Returns the numbers of the rows of these keys, without those that have no users.
    fn numbers_of(&self, keys: &[I::Key]) -> Result<List<u64>, Memory>
        ensures { IfOk result (λ numbers.
            numbers ≡ filter_map (I.number_at self.now.index) keys.now) }
    {
        let mut numbers = List::new(self.alloc);
        for key in keys {
            add_number(&mut numbers, self.index.number(key))?;
        }
        Ok(numbers)
    }

    /// Returns the key that an id is open with.
    pub fn key(&self, id: u64) -> Option<&I::Key>
        ensures { option_copied result ≡ key_at self.now.by_id id }
    {
        self.by_id.get(&id)
    }

    /// Returns the row of the key that an id is open with.
    pub fn row(&self, id: u64) -> Option<&I::Row>
        ensures { (held : ObjectMap) → Standing I.Key.Ord.cmp I.users I.number_at I.stands held
            self.now.index self.now.by_number self.now.by_id → option_copied result ≡ option_map
            ((I.filter self.now.index).row_of held) (key_at self.now.by_id id) }
    {
        match self.by_id.get(&id) {
            Some(key) => self.index.row(key),
            None => None,
        }
    }

    /// Returns the row of any key. Nothing is stored.
    pub fn peek<L>(
        &self,
        store: &Store,
        key: &I::Key,
        steps: &mut Steps<L>,
    ) -> Result<Peeked<'_, I::Row>, Memory>
        ensures row { IfOk result (λ peeked. Standing I.Key.Ord.cmp I.users I.number_at I.stands
            store.now.objects self.now.index self.now.by_number self.now.by_id → peeked_row peeked
            ≡ (I.filter self.now.index).row_of store.now.objects key.now) }
        ensures steps { steps.new ≤ steps.old + (if nat_lt 0 (I.users self.now.index key.now)
            then 0 else cost store.now.objects
            ((I.filter self.now.index).reads store.now.objects key.now)) }
    {
        self.index.peek(store, key, steps)
    }
}

// Puts the id at the number, if there is one.
fn put_at(alloc: Global, by: &mut NumberedIds, number: Option<u64>, id: u64) -> Result<(), Memory>
    ensures { OnOk result (AddsId (is_number number) id by.old by.new) }
{
    match number {
        Some(number) => by.put(alloc, number, id),
        None => Ok(()),
    }
}

// Removes the id from the number, if there is one. Returns whether others are left there.
fn take_at(alloc: Global, by: &mut NumberedIds, number: Option<u64>, id: u64) -> bool
    ensures taken { RemovesId (is_number number) id by.old by.new }
    ensures others { result ≡ has_ids_at by.new number }
{
    match number {
        Some(number) => by.take(alloc, number, id),
        None => false,
    }
}

fn add_number(numbers: &mut List<u64>, number: Option<u64>) -> Result<(), Memory>
    ensures { OnOk result (numbers.new ≡ numbers.old ++ option_to_list number) }
{
    match number {
        Some(number) => numbers.add(number),
        None => Ok(()),
    }
}
