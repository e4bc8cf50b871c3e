// The queries that request the row of one key.
ghost use Rattle.std.specs.Prelude.{◌≡◌, Option, IfOk, is_some, option_map};
ghost use Rattle.view_types.specs.declared.config.Config.{Config};
ghost use Rattle.view_types.specs.declared.query.Query.{Query as TheQuery};
ghost use Rattle.view_types.specs.declared.view.View.{View as TheView};
ghost use Rattle.mark_rules.specs.declared.keys.RowKey.{RowKey};
ghost use Rattle.row_table.specs.IndexRows.{Filter};
ghost use Rattle.row_views.specs.Queries.{ShowsSame};
ghost use Rattle.key_views.specs.Asked.{AreAsked};

use mesh_base::memory::Memory;
use row_table::row_index::RowIndex;
use std::alloc::Global;
use view_types::query::Query;
use view_types::view::View;

/// An index of rows, each of which is the view of a query.
pub trait QueryIndex: RowIndex + Drop {
    /// The part of a query that its view depends on, if the view is such a row. None for all other
    /// queries.
    ghost kept_query: { TheQuery → Option TheQuery };

    /// The query of a key.
    ghost query_for: { Self.Key → TheQuery };

    /// The row of a key among the rows of all sorts.
    ghost row_key: { Self.Key → RowKey };

    /// The key of a row, if it is of this sort.
    ghost key_in: { RowKey → Option Self.Key };

    /// The rows under a configuration, and what each reads.
    ghost rows_under: { Config → Filter Self.Key Self.Row };

    /// The view that is a row.
    ghost view_in: { Self.Row → TheView };

    /// Whether the view of a query is such a row.
    fn keeps(query: &Query) -> bool
        ensures { result ≡ is_some (kept_query query.now) };

    /// Returns the key of the row that a query requests, or None if it requests no such row.
    fn key_of(alloc: Global, query: &Query) -> Result<Option<Self::Key>, Memory>
        ensures { IfOk result (λ key. option_map query_for key ≡ kept_query query.now) };

    /// Returns a copy of a row as a view.
    fn view_of(alloc: Global, row: &Self::Row) -> Result<View, Memory>
        ensures { IfOk result (λ view. view ≡ view_in row.now) };

    /// The kept part of a query determines its view, and what it reads.
    ghost same: { ShowsSame kept_query };

    /// The row of a key is the view of its query, and the only row that the query reads.
    ghost asked: { AreAsked rows_under query_for row_key key_in view_in };
}
