// The lookup of the authorizations of a Server or of a route.
ghost use Rattle.mark_rules.specs.Reads.{authz_reads};
ghost use Rattle.mark_rules.specs.Rows.{authz_row};
ghost use Rattle.mark_rules.proofs.Authz.{authz_stays};
ghost use Rattle.authz_index.specs.AuthzKeys.{authz_keys_exact};

use crate::lookup::authz_of;
use mesh_base::key::ObjKey;
use mesh_base::list::List;
use mesh_base::memory::Memory;
use mesh_base::steps::Steps;
use object_store::store::Store;
use policy_rows::snapshot::Snapshot;
use row_table::plain_row::{PlainRow, RowFinder};
use std::alloc::Global;
use view_types::config::Config;
use view_types::server_view::AuthzRow;

/// Looks up the authorizations of a Server or of a route under a configuration, by kind and name.
#[derive(Drop)]
pub struct AuthzFinder {
    pub config: Config,
}

impl RowFinder for AuthzFinder {
    type Key = ObjKey;

    type Row = List<AuthzRow>;

    ghost filter = { λ finder. record { row_of = authz_row finder.config; reads = authz_reads } };

    fn find<L>(
        &self,
        alloc: Global,
        store: &Store,
        key: &ObjKey,
        steps: &mut Steps<L>,
    ) -> Result<PlainRow<List<AuthzRow>>, Memory> {
        let from = Snapshot {
            alloc,
            config: &self.config,
            store,
        };
        authz_of(&from, key, steps)
    }

    ghost stays = { λ finder. authz_stays finder.config };

    ghost exact = { authz_keys_exact };
}
