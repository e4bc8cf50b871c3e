// The computation and update of the endpoints of ports.
ghost use Rattle.mark_rules.specs.Reads.{endpoint_reads};
ghost use Rattle.mark_rules.specs.Rows.{endpoint_row};
ghost use Rattle.endpoint_index.specs.EndpointKeys.{endpoint_keys_exact};
ghost use Rattle.endpoint_index.specs.Still.{stands_show, stands_still};
ghost use Rattle.endpoint_index.specs.Standing.{Stands, Tells, marks_in};

use crate::kept::{KeptEndpoints, find, follow};
use mark_rules::keys::EndpointKey;
use mesh_base::list::List;
use mesh_base::memory::Memory;
use mesh_base::steps::Steps;
use object_store::store::Store;
use policy_rows::snapshot::Snapshot;
use row_table::row_rule::{Followed, RowRule, StoreChange};
use row_table::rows_at_marks::RowsAtMarks;
use std::alloc::Global;
use view_types::config::Config;
use view_types::endpoint::EndpointView;
use view_types::mark::Mark;

/// Computes the endpoints of ports under a configuration.
#[derive(Drop)]
pub struct EndpointRule {
    pub config: Config,
}

impl RowRule for EndpointRule {
    type Key = EndpointKey;

    type Row = EndpointView;

    type Kept = KeptEndpoints;

    type Notes = ();

    ghost filter = { λ rule. record {
      row_of = endpoint_row rule.config;
      reads = endpoint_reads;
    } };

    ghost keeps = { λ rule. Stands rule.config };

    ghost row_in = { λ kept. kept.slices.rows.view };

    ghost marks_in = { marks_in };

    ghost notes_hold = { λ rule held change notes. Unit {0} };

    ghost tells = { Tells };

    fn find<L>(
        &self,
        alloc: Global,
        store: &Store,
        key: &EndpointKey,
        steps: &mut Steps<L>,
    ) -> Result<KeptEndpoints, Memory> {
        let from = Snapshot {
            alloc,
            config: &self.config,
            store,
        };
        find(&from, key, steps)
    }

    fn no_notes(&self, _alloc: Global) {}

    fn follow<L>(
        &self,
        after: &StoreChange,
        key: &EndpointKey,
        kept: &mut KeptEndpoints,
        _notes: &mut (),
        steps: &mut Steps<L>,
    ) -> Result<Followed, Memory> {
        let from = Snapshot {
            alloc: after.alloc,
            config: &self.config,
            store: after.store,
        };
        let marks = follow(&from, key, after.change.marks.as_slice(), kept, steps)?;
        Ok(Followed {
            differs: true,
            marks,
        })
    }

    fn row(kept: &KeptEndpoints) -> &EndpointView {
        kept.slices.rows.view()
    }

    fn into_row(kept: KeptEndpoints) -> EndpointView {
        kept.slices.rows.into_view()
    }

    fn marks(alloc: Global, kept: &KeptEndpoints) -> Result<List<Mark>, Memory> {
        kept.marks(alloc)
    }

    fn watch(kept: &KeptEndpoints, at_marks: &mut RowsAtMarks, number: u64) -> Result<(), Memory> {
        kept.watch(at_marks, number)
    }

    fn unwatch(kept: &KeptEndpoints, at_marks: &mut RowsAtMarks, number: u64) {
        kept.unwatch(at_marks, number);
    }

    ghost shows = { λ rule. stands_show rule.config };

    ghost stays = { λ rule. stands_still rule.config };

    ghost exact = { endpoint_keys_exact };
}
