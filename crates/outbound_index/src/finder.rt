// The lookup of the outbound view of a target.
ghost use Rattle.mark_rules.specs.Reads.{outbound_reads};
ghost use Rattle.mark_rules.specs.Rows.{outbound_row};
ghost use Rattle.mark_rules.proofs.Outbound.{outbound_stays};
ghost use Rattle.profile_index.specs.ProfileKeys.{targets_exact};

use crate::lookup::outbound_of;
use mesh_base::memory::Memory;
use mesh_base::steps::Steps;
use object_store::store::Store;
use policy_rows::snapshot::Snapshot;
use row_table::plain_row::{PlainRow, RowFinder};
use std::alloc::Global;
use view_types::config::Config;
use view_types::outbound::OutboundView;
use view_types::query::Target;

/// Looks up the outbound view of a target under a configuration.
#[derive(Drop)]
pub struct OutboundFinder {
    pub config: Config,
}

impl RowFinder for OutboundFinder {
    type Key = Target;

    type Row = OutboundView;

    ghost filter = { λ finder. record {
      row_of = outbound_row finder.config;
      reads = outbound_reads;
    } };

    fn find<L>(
        &self,
        alloc: Global,
        store: &Store,
        key: &Target,
        steps: &mut Steps<L>,
    ) -> Result<PlainRow<OutboundView>, Memory> {
        let from = Snapshot {
            alloc,
            config: &self.config,
            store,
        };
        outbound_of(&from, key, steps)
    }

    ghost stays = { λ finder. outbound_stays finder.config };

    ghost exact = { targets_exact };
}
