// The lookup of the profile of a target.
ghost use Rattle.mark_rules.specs.Reads.{profile_reads};
ghost use Rattle.mark_rules.specs.Rows.{profile_row};
ghost use Rattle.mark_rules.proofs.Profiles.{profiles_stay};
ghost use Rattle.profile_index.specs.ProfileKeys.{profile_keys_exact};

use crate::lookup::Lookup;
use mark_rules::keys::ProfileKey;
use mesh_base::memory::Memory;
use mesh_base::steps::Steps;
use object_store::store::Store;
use policy_rows::snapshot::Snapshot;
use row_table::plain_row::{PlainRow, RowFinder};
use std::alloc::Global;
use view_types::config::Config;
use view_types::outbound::ProfileView;

/// Looks up the profile of a target under a configuration.
#[derive(Drop)]
pub struct ProfileFinder {
    pub config: Config,
}

impl RowFinder for ProfileFinder {
    type Key = ProfileKey;

    type Row = ProfileView;

    ghost filter = { λ finder. record {
      row_of = profile_row finder.config;
      reads = profile_reads finder.config;
    } };

    fn find<L>(
        &self,
        alloc: Global,
        store: &Store,
        key: &ProfileKey,
        steps: &mut Steps<L>,
    ) -> Result<PlainRow<ProfileView>, Memory> {
        let from = Snapshot {
            alloc,
            config: &self.config,
            store,
        };
        let client = &key.client;
        Lookup { from, client }.target(&key.target, steps)
    }

    ghost stays = { λ finder. profiles_stay finder.config };

    ghost exact = { profile_keys_exact };
}
