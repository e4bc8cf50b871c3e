// The rule by which the routes of Servers are found and kept.
ghost use Rattle.std.specs.Prelude.{◌≡◌};
ghost use Rattle.mark_rules.proofs.Servers.{routes_stay};
ghost use Rattle.mark_rules.specs.Reads.{route_reads};
ghost use Rattle.mark_rules.specs.Rows.{server_routes};
ghost use Rattle.row_table.specs.IndexRows.{IsRow};
ghost use Rattle.row_table.specs.RowLaws.{found_stays};
ghost use Rattle.route_index.specs.RouteKeys.{route_keys_exact};

use crate::found::server_routes;
use crate::kept::follow;
use crate::server::Server;
use mark_rules::keys::RouteKey;
use mesh_base::copied::Copied;
use mesh_base::list::List;
use mesh_base::memory::Memory;
use mesh_base::steps::Steps;
use object_store::store::Store;
use row_reads::rows::route_reads;
use row_table::plain_row::PlainRow;
use row_table::row_rule::{Followed, MarksAfter, RowRule, StoreChange};
use row_table::rows_at_marks::RowsAtMarks;
use std::alloc::Global;
use view_types::mark::Mark;
use view_types::server_view::RouteRow;

/// A rule for the routes of a Server, by creation time, name and group, without authorizations.
#[derive(Drop)]
pub struct RouteRule;

impl RowRule for RouteRule {
    type Key = RouteKey;

    type Row = List<RouteRow>;

    type Kept = PlainRow<List<RouteRow>>;

    type Notes = ();

    ghost filter = { λ rule. record { row_of = server_routes; reads = λ held. route_reads } };

    ghost keeps = { λ rule held key kept. IsRow
        (record { row_of = server_routes; reads = λ held. route_reads }) held key kept.row
        kept.marks };

    ghost row_in = { λ kept. kept.row };

    ghost marks_in = { λ kept. kept.marks };

    ghost notes_hold = { λ rule held change notes. Unit {0} };

    ghost tells = { λ before after. Unit {0} };

    fn find<L>(
        &self,
        alloc: Global,
        store: &Store,
        key: &RouteKey,
        steps: &mut Steps<L>,
    ) -> Result<PlainRow<List<RouteRow>>, Memory> {
        let row = server_routes(&Server { alloc, store, key }, steps)?;
        let marks = route_reads(alloc, key)?;
        Ok(PlainRow { row, marks })
    }

    fn no_notes(&self, _alloc: Global) {}

    fn follow<L>(
        &self,
        after: &StoreChange,
        key: &RouteKey,
        kept: &mut PlainRow<List<RouteRow>>,
        _notes: &mut (),
        steps: &mut Steps<L>,
    ) -> Result<Followed, Memory> {
        let server = Server {
            alloc: after.alloc,
            store: after.store,
            key,
        };
        let differs = follow(&server, after.change.marks.as_slice(), &mut kept.row, steps)?;
        Ok(Followed {
            differs,
            marks: MarksAfter::Same,
        })
    }

    fn row(kept: &PlainRow<List<RouteRow>>) -> &List<RouteRow> {
        &kept.row
    }

    fn into_row(kept: PlainRow<List<RouteRow>>) -> List<RouteRow> {
        kept.row
    }

    fn marks(alloc: Global, kept: &PlainRow<List<RouteRow>>) -> Result<List<Mark>, Memory> {
        kept.marks.copy(alloc)
    }

    fn watch(
        kept: &PlainRow<List<RouteRow>>,
        at_marks: &mut RowsAtMarks,
        number: u64,
    ) -> Result<(), Memory> {
        at_marks.put(kept.marks.as_slice(), number)
    }

    fn unwatch(kept: &PlainRow<List<RouteRow>>, at_marks: &mut RowsAtMarks, number: u64) {
        at_marks.take(kept.marks.as_slice(), number);
    }

    ghost shows = { λ rule held key kept stands. stands };

    ghost stays = { λ rule. found_stays
        (record { row_of = server_routes; reads = λ held. route_reads }) (λ kept. kept.row)
        (λ kept. kept.marks) routes_stay };

    ghost exact = { route_keys_exact };
}
