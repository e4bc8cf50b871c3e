// The index of outbound views.
ghost use Rattle.std.specs.Prelude.{◌≡◌, false, IfOk};
ghost use Rattle.view_types.specs.Objects.{ObjectMap};
ghost use Rattle.mark_rules.specs.Reads.{outbound_reads};
ghost use Rattle.mark_rules.specs.Rows.{outbound_row};
ghost use Rattle.view_types.specs.declared.query.Target.{Target as TheKey};

use crate::finder::OutboundFinder;
use mesh_base::copied::Copied;
use mesh_base::memory::Memory;
use row_table::plain_row::FindAnew;
use row_table::row_index::RowIndex;
use row_table::table::RowTable;
use std::alloc::Global;
use view_types::config::Config;

/// The outbound views of targets.
pub type OutboundIndex = RowTable<FindAnew<OutboundFinder>>;

/// Creates an index without users. It stands for all objects.
pub fn new_index(alloc: Global, config: &Config) -> Result<OutboundIndex, Memory>
    ensures filter { IfOk result (λ index. ⟦<RowTable<FindAnew<OutboundFinder>> as RowIndex>⟧.filter
        index ≡ record { row_of = outbound_row config.now; reads = outbound_reads }) }
    ensures users { IfOk result (λ index. (key : TheKey)
        → ⟦<RowTable<FindAnew<OutboundFinder>> as RowIndex>⟧.users index key ≡ 0) }
    ensures stands { IfOk result (λ index. (held : ObjectMap)
        → ⟦<RowTable<FindAnew<OutboundFinder>> as RowIndex>⟧.stands index held) }
    ensures going { IfOk result (λ index.
        ⟦<RowTable<FindAnew<OutboundFinder>> as RowIndex>⟧.is_spent index ≡ false) }
{
    let config = config.copy(alloc)?;
    let finder = OutboundFinder { config };
    Ok(RowTable::new(alloc, FindAnew { finder }))
}
