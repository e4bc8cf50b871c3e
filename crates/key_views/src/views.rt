// The views of queries that request the row of one key.
use crate::query_index::QueryIndex;
use mesh_base::list::List;
use mesh_base::memory::Memory;
use mesh_base::steps::Steps;
use object_store::change::Change;
use object_store::store::Store;
use outbound_index::index::OutboundIndex;
use profile_index::index::ProfileIndex;
use row_views::query_views::QueryViews;
use row_views::views::RowViews;
use std::alloc::Global;
use view_types::query::Query;
use view_types::view::View;

/// The profiles of queries.
pub type ProfileViews = KeyViews<ProfileIndex>;

/// The outbound views of queries.
pub type OutboundViews = KeyViews<OutboundIndex>;

/// The views of queries, each row stored once for all subscriptions of its key.
#[derive(Drop)]
pub struct KeyViews<I: QueryIndex> {
    rows: RowViews<I>,
    alloc: Global,
}

impl<I: QueryIndex> KeyViews<I> {
    ghost use Rattle.std.specs.Prelude.{◌≡◌, ℕ, None};
    ghost use Rattle.view_types.specs.Objects.{ObjectMap};
    ghost use Rattle.view_types.specs.declared.config.Config.{Config};

    /// Creates views without open ids. The index must have no users.
    pub fn new(alloc: Global, index: I) -> KeyViews<I>
        requires { (key : I.Key) → I.users index key ≡ 0 }
        ensures queries { (id : ℕ) → ⟦<KeyViews<I> as QueryViews>⟧.query_of result id ≡ None }
        ensures stands { (config : Config) (held : ObjectMap)
            → I.filter index ≡ I.rows_under config → I.stands index held
            → ⟦<KeyViews<I> as QueryViews>⟧.stands result config held }
    {
        KeyViews {
            rows: RowViews::new(alloc, index),
            alloc,
        }
    }
}

impl<I: QueryIndex> QueryViews for KeyViews<I> {
    ghost use Rattle.std.proofs.Math.Logic.{∥∥₁_prop};
    ghost use Rattle.std.specs.Prelude.{option_map};
    ghost use Rattle.row_views.specs.Ids.{key_at};
    ghost use Rattle.row_views.specs.InUse.{users_if};
    ghost use Rattle.row_views.specs.Standing.{AreKept};
    ghost use Rattle.key_views.specs.InUse.{keys_in_use};

    ghost kept_query = { I.kept_query };

    ghost query_of = { λ s id. option_map I.query_for (key_at s.rows.by_id id) };

    ghost users = { λ s key. users_if (I.users s.rows.index) (I.key_in key) };

    ghost stands = { λ s config held. ∥ AreKept I.Key.Ord.cmp I.users I.number_at I.stands I.filter
        (I.rows_under config) held s.rows.index s.rows.by_number s.rows.by_id ∥₁ };

    fn keeps(query: &Query) -> bool {
        I::keeps(query)
    }

    fn open<L>(
        &mut self,
        store: &Store,
        id: u64,
        query: &Query,
        steps: &mut Steps<L>,
    ) -> Result<(), Memory> {
        match I::key_of(self.alloc, query)? {
            Some(key) => self.rows.open(store, id, key, steps),
            None => Ok(()),
        }
    }

    fn close(&mut self, id: u64) {
        self.rows.close(id);
    }

    fn follow<L>(
        &mut self,
        store: &Store,
        change: &Change,
        steps: &mut Steps<L>,
    ) -> Result<List<u64>, Memory> {
        self.rows.follow(store, change, steps)
    }

    fn view(&self, id: u64) -> Result<Option<View>, Memory> {
        match self.rows.row(id) {
            Some(row) => Ok(Some(I::view_of(self.alloc, row)?)),
            None => Ok(None),
        }
    }

    ghost same = { I.same };

    ghost unique = { λ s config held. ∥∥₁_prop };

    ghost in_use = { λ s config held stands.
        keys_in_use I.asked I.Key.Ord.total I.exact stands };
}
