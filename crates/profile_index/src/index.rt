// The index of profiles.
ghost use Rattle.std.specs.Prelude.{◌≡◌, false, IfOk};
ghost use Rattle.view_types.specs.Objects.{ObjectMap};
ghost use Rattle.mark_rules.specs.Reads.{profile_reads};
ghost use Rattle.mark_rules.specs.Rows.{profile_row};
ghost use Rattle.mark_rules.specs.declared.keys.ProfileKey.{ProfileKey as TheKey};

use crate::finder::ProfileFinder;
use mesh_base::copied::Copied;
use mesh_base::memory::Memory;
use row_table::plain_row::FindAnew;
use row_table::row_index::RowIndex;
use row_table::table::RowTable;
use std::alloc::Global;
use view_types::config::Config;

/// The profiles of targets by their keys.
pub type ProfileIndex = RowTable<FindAnew<ProfileFinder>>;

/// Creates an index without users. It stands for all objects.
pub fn new_index(alloc: Global, config: &Config) -> Result<ProfileIndex, Memory>
    ensures filter { IfOk result (λ index. ⟦<RowTable<FindAnew<ProfileFinder>> as RowIndex>⟧.filter
        index ≡ record { row_of = profile_row config.now; reads = profile_reads config.now }) }
    ensures users { IfOk result (λ index. (key : TheKey)
        → ⟦<RowTable<FindAnew<ProfileFinder>> as RowIndex>⟧.users index key ≡ 0) }
    ensures stands { IfOk result (λ index. (held : ObjectMap)
        → ⟦<RowTable<FindAnew<ProfileFinder>> as RowIndex>⟧.stands index held) }
    ensures going { IfOk result (λ index.
        ⟦<RowTable<FindAnew<ProfileFinder>> as RowIndex>⟧.is_spent index ≡ false) }
{
    let config = config.copy(alloc)?;
    let finder = ProfileFinder { config };
    Ok(RowTable::new(alloc, FindAnew { finder }))
}
