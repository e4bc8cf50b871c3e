// The views of queries, kept for the ids of subscriptions.
ghost use Rattle.std.specs.Prelude.{◌≡◌, ◌≤◌, ◌+◌, ℕ, Option, None, IfOk, OnErr, OnOk, is_some};
ghost use Rattle.view_types.specs.Objects.{AtKeys, ObjectMap};
ghost use Rattle.view_types.specs.declared.config.Config.{Config};
ghost use Rattle.view_types.specs.declared.query.Query.{Query as TheQuery};
ghost use Rattle.view_rules.specs.PolicyLaws.{AreLawful};
ghost use Rattle.mark_graph.specs.RowMarks.{has_row};
ghost use Rattle.mark_rules.specs.Changes.{Leads};
ghost use Rattle.mark_rules.specs.declared.keys.RowKey.{RowKey};
ghost use Rattle.row_views.specs.Costs.{FollowsWithin, open_cost};
ghost use Rattle.row_views.specs.Ids.{Keeps, SetsAt};
ghost use Rattle.row_views.specs.InUse.{AreInUse};
ghost use Rattle.row_views.specs.Queries.{ShowsSame, reads_one, view_at};

use mesh_base::list::List;
use mesh_base::memory::Memory;
use mesh_base::steps::Steps;
use object_store::change::Change;
use object_store::store::Store;
use view_types::query::Query;
use view_types::view::View;

/// The views of queries, each for the id of a subscription. After Memory the views are not known,
/// but the queries of the ids are unchanged.
pub trait QueryViews: Drop {
    /// The part of a query that its view depends on, if the view is kept. None for all other
    /// queries.
    ghost kept_query: { TheQuery → Option TheQuery };

    /// The query that an id is open with, as far as its view depends on it.
    ghost query_of: { Self → ℕ → Option TheQuery };

    /// How many users the row of a key has in the index that stores it. None if no index here does.
    ghost users: { Self → RowKey → ℕ };

    /// The views are those over these objects.
    ghost stands: { Self → Config → ObjectMap → Type 0 };

    /// Whether the view of a query is kept.
    fn keeps(query: &Query) -> bool
        ensures { result ≡ is_some (kept_query query.now) };

    /// Opens an id, which was not open, if the view of the query is kept.
    fn open<L>(
        &mut self,
        store: &Store,
        id: u64,
        query: &Query,
        steps: &mut Steps<L>,
    ) -> Result<(), Memory>
        requires free { query_of self.old id ≡ None }
        ensures queries { OnOk result
            (SetsAt id (kept_query query.now) (query_of self.old) (query_of self.new)) }
        ensures stands { OnOk result ((config : Config) → stands self.old config store.now.objects
            → stands self.new config store.now.objects) }
        ensures steps { (config : Config) → stands self.old config store.now.objects → steps.new
            ≤ steps.old + open_cost config store.now.objects (kept_query query.now) }
        ensures kept { OnErr result (Keeps (query_of self.old) (query_of self.new)) };

    /// Closes an id, if it is open. Allocates nothing.
    fn close(&mut self, id: u64)
        ensures queries { SetsAt id None (query_of self.old) (query_of self.new) }
        ensures stands { (config : Config) (held : ObjectMap)
            → stands self.old config held → stands self.new config held };

    /// Updates the views for a change of the store. Returns the ids of the queries that read a mark
    /// of it.
    fn follow<L>(
        &mut self,
        store: &Store,
        change: &Change,
        steps: &mut Steps<L>,
    ) -> Result<List<u64>, Memory>
        ensures touched { IfOk result (λ ids. (config : Config) (held : ObjectMap)
            → stands self.old config held → (id : ℕ)
            → has_row id ids ≡ reads_one config held change.now.marks (query_of self.old id)) }
        ensures stands { OnOk result ((config : Config) (held : ObjectMap)
            → stands self.old config held → Leads change.now.marks held store.now.objects
            → stands self.new config store.now.objects) }
        ensures steps { OnOk result ((config : Config) (held : ObjectMap)
            → stands self.old config held → Leads change.now.marks held store.now.objects
            → FollowsWithin config change.now.marks held store.now.objects (query_of self.old)
            steps.old steps.new) }
        ensures queries { Keeps (query_of self.old) (query_of self.new) };

    /// Returns the view of the query that an id is open with. Inbound views are in the whole form.
    fn view(&self, id: u64) -> Result<Option<View>, Memory>
        ensures { IfOk result (λ view. (config : Config) (held : ObjectMap)
            → AtKeys held → AreLawful held → stands self.now config held
            → view ≡ view_at config held (query_of self.now id)) };

    /// The kept part of a query determines its view, and what it reads.
    ghost same: { ShowsSame kept_query };

    /// The proof that the views stand is unique, so that it can be a field of a struct.
    ghost unique: { (views : Self) (config : Config) (held : ObjectMap)
        → IsProp (stands views config held) };

    /// The rows that have users are exactly those of the queries that ids are open with.
    ghost in_use: { (views : Self) (config : Config) (held : ObjectMap) → stands views config held
        → AreInUse config held (query_of views) (users views) };
}
