// The index of endpoints.
ghost use Rattle.std.specs.Prelude.{◌≡◌, ◌≤◌, ◌+◌, ℕ, true, false, Some, IsErr, IfOk, OnOk};
ghost use Rattle.std.specs.List.{sum_by};
ghost use Rattle.std.specs.Option.{option_copied};
ghost use Rattle.view_diff.specs.Earlier.{IsByAddress};
ghost use Rattle.view_types.specs.Objects.{ObjectMap};
ghost use Rattle.mark_graph.specs.RowMarks.{has_row};
ghost use Rattle.mark_rules.specs.Changes.{Leads};
ghost use Rattle.mark_rules.specs.Reads.{cost, endpoint_reads};
ghost use Rattle.mark_rules.specs.Rows.{endpoint_row};
ghost use Rattle.mark_rules.specs.declared.keys.EndpointKey.{EndpointKey as TheKey};
ghost use Rattle.endpoint_rows.specs.Before.{TellsBefore};
ghost use Rattle.row_table.specs.IndexRows.{AreMet, DifferAmong, has_key};
ghost use Rattle.row_table.specs.KeyNumbers.{used_at};
ghost use Rattle.row_table.specs.RowLaws.{current_row, numbered_rows};
ghost use Rattle.row_table.specs.TableRows.{row_at};
ghost use Rattle.endpoint_index.specs.EndpointKeys.{endpoint_keys_exact};
ghost use Rattle.endpoint_index.specs.Standing.{Stands, marks_in};
ghost use Rattle.endpoint_index.specs.Still.{stands_show, view_in};
ghost use Rattle.endpoint_index.specs.Told.{notes_at, notes_in, rows_shown};

use crate::kept::KeptEndpoints;
use crate::rule::EndpointRule;
use mark_graph::by_mark::set_of;
use mark_rules::keys::EndpointKey;
use mesh_base::copied::Copied;
use mesh_base::list::List;
use mesh_base::memory::Memory;
use mesh_base::steps::Steps;
use net_cidr::ip::Ip;
use object_store::change::Change;
use object_store::store::Store;
use row_table::peeked::Peeked;
use row_table::row_index::RowIndex;
use row_table::table::RowTable;
use std::alloc::Global;
use std::collections::BTreeSet;
use view_types::config::Config;
use view_types::endpoint::{EndpointRow, EndpointView};
use view_types::mark::Mark;

/// The endpoints of ports by their keys, with the old rows at the addresses that the last change
/// affected.
#[derive(Drop)]
pub struct EndpointIndex {
    rows: RowTable<EndpointRule>,
    /// The keys that the last change affected.
    touched: BTreeSet<EndpointKey>,
    spent: bool,
    alloc: Global,
}

impl EndpointIndex {
    /// Creates an index without users. It stands for all objects.
    pub fn new(alloc: Global, config: &Config) -> Result<EndpointIndex, Memory>
        ensures filter { IfOk result (λ index. ⟦<EndpointIndex as RowIndex>⟧.filter index
            ≡ record { row_of = endpoint_row config.now; reads = endpoint_reads }) }
        ensures users { IfOk result (λ index. (key : TheKey)
            → ⟦<EndpointIndex as RowIndex>⟧.users index key ≡ 0) }
        ensures stands { IfOk result (λ index. (held : ObjectMap)
            → ⟦<EndpointIndex as RowIndex>⟧.stands index held) }
        ensures going { IfOk result (λ index.
            ⟦<EndpointIndex as RowIndex>⟧.is_spent index ≡ false) }
    {
        let config = config.copy(alloc)?;
        Ok(EndpointIndex {
            rows: RowTable::new(alloc, EndpointRule { config }),
            touched: BTreeSet::new(alloc),
            spent: false,
            alloc,
        })
    }

    /// Does as `on_change`, and returns the keys of the rows that read a mark of the change.
    /// `before` then has the old rows where the endpoints of a key differ.
    pub fn follow_change<L>(
        &mut self,
        store: &Store,
        change: &Change,
        steps: &mut Steps<L>,
    ) -> Result<List<EndpointKey>, Memory>
        ensures keys { IfOk result (AreMet ⟦<EndpointKey as Ord>⟧.cmp change.now.marks
            (⟦<EndpointIndex as RowIndex>⟧.marks_at self.old)) }
        ensures differ { IfOk result (λ keys. DifferAmong ⟦<EndpointKey as Ord>⟧.cmp keys
            (⟦<EndpointIndex as RowIndex>⟧.differing self.new)
            (⟦<EndpointIndex as RowIndex>⟧.row_at self.old)
            (⟦<EndpointIndex as RowIndex>⟧.row_at self.new)) }
        ensures users { OnOk result ((key : TheKey)
            → ⟦<EndpointIndex as RowIndex>⟧.users self.new key
            ≡ ⟦<EndpointIndex as RowIndex>⟧.users self.old key) }
        ensures stands { OnOk result ((held : ObjectMap)
            → ⟦<EndpointIndex as RowIndex>⟧.stands self.old held
            → Leads change.now.marks held store.now.objects
            → ⟦<EndpointIndex as RowIndex>⟧.stands self.new store.now.objects) }
        ensures before { OnOk result ((held : ObjectMap)
            → ⟦<EndpointIndex as RowIndex>⟧.stands self.old held
            → Leads change.now.marks held store.now.objects → (key : TheKey)
            → TellsBefore (rows_shown (⟦<EndpointIndex as RowIndex>⟧.row_at self.old key))
            (rows_shown (⟦<EndpointIndex as RowIndex>⟧.row_at self.new key))
            (notes_at self.new key)) }
        ensures numbers { OnOk result ((key : TheKey)
            → ⟦<EndpointIndex as RowIndex>⟧.number_at self.new key
            ≡ ⟦<EndpointIndex as RowIndex>⟧.number_at self.old key) }
        ensures met { IfOk result (λ keys. (key : TheKey) (n : ℕ)
            → ⟦<EndpointIndex as RowIndex>⟧.number_at self.old key ≡ Some n
            → has_row n (⟦<EndpointIndex as RowIndex>⟧.met self.new)
            ≡ has_key ⟦<EndpointKey as Ord>⟧.cmp keys key) }
        ensures steps { IfOk result (λ keys. steps.new ≤ steps.old + sum_by (λ key.
            cost store.now.objects (endpoint_reads store.now.objects key)) keys) }
        ensures filter { ⟦<EndpointIndex as RowIndex>⟧.filter self.new
            ≡ ⟦<EndpointIndex as RowIndex>⟧.filter self.old }
        ensures going { OnOk result (self.new.spent ≡ false) }
        ensures spent { IsErr result → self.new.spent ≡ true }
        ensures was_spent { self.old.spent ≡ true → IsErr result }
    {
        if self.spent {
            return Err(Memory);
        }
        self.spent = true;
        let keys = self.rows.follow_change(store, change, steps)?;
        self.touched = set_of(self.alloc, keys.copy(self.alloc)?)?;
        self.spent = false;
        Ok(keys)
    }

    /// Returns the addresses and ports at which the endpoints of a key differ from those before the
    /// last change, each with the old row.
    pub fn before(&self, key: &EndpointKey) -> &[(Ip, u16, Option<EndpointRow>)]
        ensures notes { result.now ≡ notes_at self.now key.now }
        ensures by_address { IsByAddress result.now }
    {
        if !self.touched.contains(key) {
            return &[];
        }
        notes_of(self.rows.kept(key))
    }
}

fn notes_of(kept: Option<&KeptEndpoints>) -> &[(Ip, u16, Option<EndpointRow>)]
    ensures notes { result.now ≡ notes_in (option_copied kept.entry) }
    ensures by_address { IsByAddress result.now }
{
    match kept {
        Some(kept) => kept.slices.rows.before(),
        None => &[],
    }
}

impl RowIndex for EndpointIndex {
    type Key = EndpointKey;

    type Row = EndpointView;

    ghost filter = { λ s. ⟦<RowTable<EndpointRule> as RowIndex>⟧.filter s.rows };

    ghost users = { λ s. ⟦<RowTable<EndpointRule> as RowIndex>⟧.users s.rows };

    ghost row_at = { λ s. ⟦<RowTable<EndpointRule> as RowIndex>⟧.row_at s.rows };

    ghost marks_at = { λ s. ⟦<RowTable<EndpointRule> as RowIndex>⟧.marks_at s.rows };

    ghost number_at = { λ s. ⟦<RowTable<EndpointRule> as RowIndex>⟧.number_at s.rows };

    ghost differing = { λ s. ⟦<RowTable<EndpointRule> as RowIndex>⟧.differing s.rows };

    ghost met = { λ s. ⟦<RowTable<EndpointRule> as RowIndex>⟧.met s.rows };

    ghost met_keys = { λ s. ⟦<RowTable<EndpointRule> as RowIndex>⟧.met_keys s.rows };

    ghost is_spent = { λ s. s.spent };

    ghost stands = { λ s. ⟦<RowTable<EndpointRule> as RowIndex>⟧.stands s.rows };

    fn enter<L>(
        &mut self,
        store: &Store,
        key: EndpointKey,
        steps: &mut Steps<L>,
    ) -> Result<(), Memory> {
        if self.spent {
            return Err(Memory);
        }
        self.spent = true;
        self.rows.enter(store, key, steps)?;
        self.spent = false;
        Ok(())
    }

    fn leave(&mut self, key: &EndpointKey) {
        self.rows.leave(key);
    }

    fn on_change<L>(
        &mut self,
        store: &Store,
        change: &Change,
        steps: &mut Steps<L>,
    ) -> Result<(), Memory> {
        if self.spent {
            return Err(Memory);
        }
        self.spent = true;
        self.rows.on_change(store, change, steps)?;
        self.touched = set_of(self.alloc, self.rows.met_keys()?)?;
        self.spent = false;
        Ok(())
    }

    fn differing(&self) -> &[EndpointKey] {
        self.rows.differing()
    }

    fn number(&self, key: &EndpointKey) -> Option<u64> {
        self.rows.number(key)
    }

    fn met(&self) -> &[u64] {
        self.rows.met()
    }

    fn met_keys(&self) -> Result<List<EndpointKey>, Memory> {
        if self.spent {
            return Err(Memory);
        }
        self.rows.met_keys()
    }

    fn row(&self, key: &EndpointKey) -> Option<&EndpointView> {
        self.rows.row(key)
    }

    fn peek<L>(
        &self,
        store: &Store,
        key: &EndpointKey,
        steps: &mut Steps<L>,
    ) -> Result<Peeked<'_, EndpointView>, Memory> {
        if self.spent {
            return Err(Memory);
        }
        self.rows.peek(store, key, steps)
    }

    fn marks(&self, key: &EndpointKey) -> Result<List<Mark>, Memory> {
        if self.spent {
            return Err(Memory);
        }
        self.rows.marks(key)
    }

    ghost current = { λ s held stands key. current_row (record {
      row_of = endpoint_row s.rows.rule.config;
      reads = endpoint_reads;
    }) view_in marks_in (Stands s.rows.rule.config) (stands_show s.rows.rule.config) held key
        (used_at ⟦<EndpointKey as Ord>⟧.cmp s.rows.table.used key)
        (row_at ⟦<EndpointKey as Ord>⟧.cmp s.rows.table.used s.rows.table.rows key) (stands key) };

    ghost numbered = { λ s held stands. numbered_rows ⟦<EndpointKey as Ord>⟧.cmp
        (Stands s.rows.rule.config) held s.rows.table.used s.rows.table.rows stands };

    ghost exact = { endpoint_keys_exact };
}
