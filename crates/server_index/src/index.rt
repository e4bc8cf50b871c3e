// The index of the server parts of ports of Pods.
ghost use Rattle.std.specs.Prelude.{◌≡◌, false, IfOk};
ghost use Rattle.view_types.specs.Objects.{ObjectMap};
ghost use Rattle.mark_rules.specs.Reads.{server_reads};
ghost use Rattle.mark_rules.specs.Rows.{server_part};
ghost use Rattle.mark_rules.specs.declared.keys.ServerKey.{ServerKey as TheKey};

use crate::rule::ServerRule;
use mesh_base::copied::Copied;
use mesh_base::memory::Memory;
use row_table::row_index::RowIndex;
use row_table::table::RowTable;
use std::alloc::Global;
use view_types::config::Config;

/// The server parts of ports of Pods, by their keys.
pub type ServerIndex = RowTable<ServerRule>;

/// Creates an index without users. It stands for all objects.
pub fn new_index(alloc: Global, config: &Config) -> Result<ServerIndex, Memory>
    ensures filter { IfOk result (λ index. ⟦<RowTable<ServerRule> as RowIndex>⟧.filter index
        ≡ record { row_of = server_part config.now; reads = λ held. server_reads }) }
    ensures users { IfOk result (λ index. (key : TheKey)
        → ⟦<RowTable<ServerRule> as RowIndex>⟧.users index key ≡ 0) }
    ensures stands { IfOk result (λ index. (held : ObjectMap)
        → ⟦<RowTable<ServerRule> as RowIndex>⟧.stands index held) }
    ensures going { IfOk result (λ index.
        ⟦<RowTable<ServerRule> as RowIndex>⟧.is_spent index ≡ false) }
{
    let config = config.copy(alloc)?;
    Ok(RowTable::new(alloc, ServerRule { config }))
}
