// The index of routes.
ghost use Rattle.std.specs.Prelude.{◌≡◌, false};
ghost use Rattle.view_types.specs.Objects.{ObjectMap};
ghost use Rattle.mark_rules.specs.Reads.{route_reads};
ghost use Rattle.mark_rules.specs.Rows.{server_routes};
ghost use Rattle.mark_rules.specs.declared.keys.RouteKey.{RouteKey as TheKey};

use crate::rule::RouteRule;
use row_table::row_index::RowIndex;
use row_table::table::RowTable;
use std::alloc::Global;

/// An index of the routes of Servers by their keys.
pub type RouteIndex = RowTable<RouteRule>;

/// Returns an index without users, which is current for any objects held.
pub fn new_index(alloc: Global) -> RouteIndex
    ensures filter { ⟦<RowTable<RouteRule> as RowIndex>⟧.filter result
        ≡ record { row_of = server_routes; reads = λ held. route_reads } }
    ensures users { (key : TheKey)
        → ⟦<RowTable<RouteRule> as RowIndex>⟧.users result key ≡ 0 }
    ensures stands { (held : ObjectMap)
        → ⟦<RowTable<RouteRule> as RowIndex>⟧.stands result held }
    ensures going { ⟦<RowTable<RouteRule> as RowIndex>⟧.is_spent result ≡ false }
{
    RowTable::new(alloc, RouteRule)
}
