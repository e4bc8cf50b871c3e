// The rows of the keys that ids are open with.
ghost use Rattle.std.specs.Prelude.{◌≡◌, ◌≤◌, ◌+◌, ℕ, [], true, IfOk, OnErr, OnOk, Some, if◌then◌else◌, nat_lt};
ghost use Rattle.std.specs.List.Sorted.{IsStrictlySortedBy};
ghost use Rattle.std.specs.Option.{option_copied};
ghost use Rattle.std.specs.Ordering.{nat_cmp};
ghost use Rattle.view_types.specs.Objects.{ObjectMap};
ghost use Rattle.mark_graph.specs.RowMarks.{has_row};
ghost use Rattle.mark_rules.specs.Changes.{Leads};
ghost use Rattle.mark_rules.specs.Reads.{cost};
ghost use Rattle.row_table.specs.IndexRows.{has_key};
ghost use Rattle.row_table.specs.PeekedRow.{peeked_row};
ghost use Rattle.row_views.specs.Ids.{Keeps, SetsAt, has_ids};
ghost use Rattle.row_views.specs.Standing.{FollowCost};
ghost use Rattle.row_sets.specs.Standing.{EntersWithin, Standing, any_met, keys_at, open_cost, row_if};

use crate::used_keys::UsedKeys;
use chunked_map::map::ChunkedMap;
use mark_graph::by_mark::rows_at;
use mesh_base::list::List;
use mesh_base::memory::Memory;
use mesh_base::steps::Steps;
use object_store::change::Change;
use object_store::store::Store;
use row_table::peeked::Peeked;
use row_table::row_index::RowIndex;
use std::alloc::Global;
use std::collections::BTreeSet;

/// The rows of an index that ids are open with, each stored once for all ids that have its key.
/// After Memory the rows are not known, but the keys of the ids are unchanged.
#[derive(Drop)]
pub struct RowSets<I: RowIndex + Drop> {
    used: UsedKeys<I>,
    /// The keys of each id.
    by_id: ChunkedMap<u64, List<I::Key>>,
    alloc: Global,
}

impl<I: RowIndex + Drop> RowSets<I> {
    /// Creates sets without open ids. The index must have no users.
    pub fn new(alloc: Global, index: I) -> RowSets<I>
        requires { (key : I.Key) → I.users index key ≡ 0 }
        ensures index { result.used.index ≡ index }
        ensures keys { (id : ℕ) → keys_at result.by_id id ≡ [] }
        ensures stands { (held : ObjectMap) → I.stands index held → Standing I.Key.Ord.cmp I.users
            I.stands held result.used.index result.used.by_key result.by_id }
    {
        RowSets {
            used: UsedKeys::new(alloc, index),
            by_id: ChunkedMap::new(alloc),
            alloc,
        }
    }

    /// Opens an id with these keys, in place of its old ones. The row of a key that is among both
    /// is not computed again.
    pub fn set<L>(
        &mut self,
        store: &Store,
        id: u64,
        keys: List<I::Key>,
        steps: &mut Steps<L>,
    ) -> Result<(), Memory>
        ensures keys { OnOk result
            (SetsAt id keys (keys_at self.old.by_id) (keys_at self.new.by_id)) }
        ensures stands { OnOk result (Standing I.Key.Ord.cmp I.users I.stands store.now.objects
            self.old.used.index self.old.used.by_key self.old.by_id → Standing I.Key.Ord.cmp
            I.users I.stands store.now.objects self.new.used.index self.new.used.by_key
            self.new.by_id) }
        ensures steps { Standing I.Key.Ord.cmp I.users I.stands store.now.objects
            self.old.used.index self.old.used.by_key self.old.by_id → steps.new ≤ steps.old
            + open_cost (I.filter self.old.used.index) store.now.objects
            (has_ids I.Key.Ord.cmp self.old.used.by_key) keys }
        ensures entered { OnOk result (Standing I.Key.Ord.cmp I.users I.stands store.now.objects
            self.old.used.index self.old.used.by_key self.old.by_id → EntersWithin
            (I.filter self.old.used.index) store.now.objects I.Key.Ord.cmp
            (has_ids I.Key.Ord.cmp self.old.used.by_key) keys steps.old steps.new) }
        ensures filter { I.filter self.new.used.index ≡ I.filter self.old.used.index }
        ensures kept { OnErr result (Keeps (keys_at self.old.by_id) (keys_at self.new.by_id)) }
    {
        self.used.put_all(store, keys.as_slice(), id, steps)?;
        self.used
            .take_left_out(keys_of(&self.by_id, id), &keys, id)?;
        self.by_id.insert(id, keys)?;
        Ok(())
    }

    /// Removes all keys of an id. Allocates nothing.
    pub fn clear(&mut self, id: u64)
        ensures keys { SetsAt id [] (keys_at self.old.by_id) (keys_at self.new.by_id) }
        ensures stands { (held : ObjectMap) → Standing I.Key.Ord.cmp I.users I.stands held
            self.old.used.index self.old.used.by_key self.old.by_id → Standing I.Key.Ord.cmp
            I.users I.stands held self.new.used.index self.new.used.by_key self.new.by_id }
        ensures filter { I.filter self.new.used.index ≡ I.filter self.old.used.index }
    {
        let Some(keys) = self.by_id.remove(&id) else {
            return;
        };
        let none = BTreeSet::new(self.alloc);
        self.used.take_others(keys.as_slice(), &none, id);
    }

    /// Updates the rows for a change of the store. Returns the ids, ascending, that have a key
    /// whose row reads a mark of it.
    pub fn follow<L>(
        &mut self,
        store: &Store,
        change: &Change,
        steps: &mut Steps<L>,
    ) -> Result<List<u64>, Memory>
        ensures touched { IfOk result (λ ids. (held : ObjectMap) → Standing I.Key.Ord.cmp I.users
            I.stands held self.old.used.index self.old.used.by_key self.old.by_id → (id : ℕ)
            → has_row id ids ≡ any_met (I.filter self.old.used.index) held change.now.marks
            (keys_at self.old.by_id id)) }
        ensures in_order { IfOk result (λ ids. IsStrictlySortedBy nat_cmp ids) }
        ensures stands { OnOk result ((held : ObjectMap) → Standing I.Key.Ord.cmp I.users I.stands
            held self.old.used.index self.old.used.by_key self.old.by_id
            → Leads change.now.marks held store.now.objects → Standing I.Key.Ord.cmp I.users
            I.stands store.now.objects self.new.used.index self.new.used.by_key self.new.by_id) }
        ensures steps { OnOk result ((held : ObjectMap) → Standing I.Key.Ord.cmp I.users I.stands
            held self.old.used.index self.old.used.by_key self.old.by_id
            → FollowCost (I.filter self.old.used.index) I.Key.Ord.cmp
            (has_ids I.Key.Ord.cmp self.old.used.by_key) change.now.marks held
            store.now.objects steps.old steps.new) }
        ensures filter { I.filter self.new.used.index ≡ I.filter self.old.used.index }
        ensures keys { self.new.by_id ≡ self.old.by_id }
    {
        self.used.index.on_change(store, change, steps)?;
        let keys = self.used.index.met_keys()?;
        rows_at(self.alloc, &self.used.by_key, keys.as_slice())
    }

    /// Returns the row of a key that an id has.
    pub fn row(&self, key: &I::Key) -> Option<&I::Row>
        ensures used { (held : ObjectMap) → Standing I.Key.Ord.cmp I.users I.stands held
            self.now.used.index self.now.used.by_key self.now.by_id → option_copied result
            ≡ row_if (I.filter self.now.used.index) held
            (has_ids I.Key.Ord.cmp self.now.used.by_key key.now) key.now }
        ensures of_id { (held : ObjectMap) → Standing I.Key.Ord.cmp I.users I.stands held
            self.now.used.index self.now.used.by_key self.now.by_id → (id : ℕ)
            → has_key I.Key.Ord.cmp (keys_at self.now.by_id id) key.now ≡ true
            → option_copied result ≡ Some ((I.filter self.now.used.index).row_of held key.now) }
    {
        self.used.index.row(key)
    }

    /// Returns the row of any key. Nothing is stored.
    pub fn peek<L>(
        &self,
        store: &Store,
        key: &I::Key,
        steps: &mut Steps<L>,
    ) -> Result<Peeked<'_, I::Row>, Memory>
        ensures row { IfOk result (λ peeked. Standing I.Key.Ord.cmp I.users I.stands
            store.now.objects self.now.used.index self.now.used.by_key self.now.by_id
            → peeked_row peeked
            ≡ (I.filter self.now.used.index).row_of store.now.objects key.now) }
        ensures steps { steps.new ≤ steps.old + (if nat_lt 0 (I.users self.now.used.index key.now)
            then 0 else cost store.now.objects
            ((I.filter self.now.used.index).reads store.now.objects key.now)) }
    {
        self.used.index.peek(store, key, steps)
    }

    /// Returns the keys that an id is open with.
    pub fn keys(&self, id: u64) -> &[I::Key]
        ensures { result.now ≡ keys_at self.now.by_id id }
    {
        keys_of(&self.by_id, id)
    }
}

// Returns the keys of an id.
fn keys_of<K>(by_id: &ChunkedMap<u64, List<K>>, id: u64) -> &[K]
    ensures { result.now ≡ keys_at by_id.now id }
{
    match by_id.get(&id) {
        Some(keys) => keys.as_slice(),
        None => &[],
    }
}
