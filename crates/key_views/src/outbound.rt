// The queries for outbound views.
ghost use Rattle.view_types.specs.declared.view.View.TheVariants.{Outbound as OutboundOf};
ghost use Rattle.mark_rules.specs.declared.keys.RowKey.TheVariants.{Outbound as OutboundRow};
ghost use Rattle.key_views.specs.OutboundQueries.{outbound_asked, outbound_query, outbound_rows, outbound_same, query_for, target_in};

use crate::query_index::QueryIndex;
use mesh_base::copied::Copied;
use mesh_base::memory::Memory;
use outbound_index::index::OutboundIndex;
use std::alloc::Global;
use view_types::outbound::OutboundView;
use view_types::query::{Query, Target};
use view_types::view::View;

impl QueryIndex for OutboundIndex {
    ghost kept_query = { outbound_query };

    ghost query_for = { query_for };

    ghost row_key = { OutboundRow };

    ghost key_in = { target_in };

    ghost rows_under = { outbound_rows };

    ghost view_in = { OutboundOf };

    fn keeps(query: &Query) -> bool {
        match query {
            Query::Traffic { .. } => true,
            _ => false,
        }
    }

    fn key_of(alloc: Global, query: &Query) -> Result<Option<Target>, Memory> {
        match query {
            Query::Traffic { target } => Ok(Some(target.copy(alloc)?)),
            _ => Ok(None),
        }
    }

    fn view_of(alloc: Global, row: &OutboundView) -> Result<View, Memory> {
        Ok(View::Outbound(row.copy(alloc)?))
    }

    ghost same = { outbound_same };

    ghost asked = { outbound_asked };
}
