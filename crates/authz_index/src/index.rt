// The index of authorizations.
ghost use Rattle.std.specs.Prelude.{◌≡◌, false, IfOk};
ghost use Rattle.mesh_base.specs.declared.key.ObjKey.{ObjKey as TheKey};
ghost use Rattle.view_types.specs.Objects.{ObjectMap};
ghost use Rattle.mark_rules.specs.Reads.{authz_reads};
ghost use Rattle.mark_rules.specs.Rows.{authz_row};

use crate::finder::AuthzFinder;
use mesh_base::copied::Copied;
use mesh_base::memory::Memory;
use row_table::plain_row::FindAnew;
use row_table::row_index::RowIndex;
use row_table::table::RowTable;
use std::alloc::Global;
use view_types::config::Config;

/// The authorizations of Servers and of routes, by the key of the Server or route.
pub type AuthzIndex = RowTable<FindAnew<AuthzFinder>>;

/// Creates an index without users. It stands for all objects.
pub fn new_index(alloc: Global, config: &Config) -> Result<AuthzIndex, Memory>
    ensures filter { IfOk result (λ index. ⟦<RowTable<FindAnew<AuthzFinder>> as RowIndex>⟧.filter
        index ≡ record { row_of = authz_row config.now; reads = authz_reads }) }
    ensures users { IfOk result (λ index. (key : TheKey)
        → ⟦<RowTable<FindAnew<AuthzFinder>> as RowIndex>⟧.users index key ≡ 0) }
    ensures stands { IfOk result (λ index. (held : ObjectMap)
        → ⟦<RowTable<FindAnew<AuthzFinder>> as RowIndex>⟧.stands index held) }
    ensures going { IfOk result (λ index.
        ⟦<RowTable<FindAnew<AuthzFinder>> as RowIndex>⟧.is_spent index ≡ false) }
{
    let config = config.copy(alloc)?;
    let finder = AuthzFinder { config };
    Ok(RowTable::new(alloc, FindAnew { finder }))
}
