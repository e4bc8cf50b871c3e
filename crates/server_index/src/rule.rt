// The computation and update of the server parts of ports of Pods.
ghost use Rattle.mark_rules.specs.Reads.{server_reads};
ghost use Rattle.mark_rules.specs.Rows.{server_part};
ghost use Rattle.server_index.specs.Noting.{NotesHold};
ghost use Rattle.server_index.specs.ServerKeys.{server_keys_exact};
ghost use Rattle.server_index.specs.Standing.{Stands};
ghost use Rattle.server_index.specs.Still.{stands_show, stands_still};

use crate::change_notes::ChangeNotes;
use crate::kept::{KeptServer, ServerPart, find, follow};
use crate::port::Port;
use mark_rules::keys::ServerKey;
use mesh_base::copied::Copied;
use mesh_base::list::List;
use mesh_base::memory::Memory;
use mesh_base::steps::Steps;
use object_store::store::Store;
use policy_rows::snapshot::Snapshot;
use row_table::row_rule::{Followed, MarksAfter, RowRule, StoreChange};
use row_table::rows_at_marks::RowsAtMarks;
use std::alloc::Global;
use view_types::config::Config;
use view_types::mark::Mark;

/// Computes the server parts of ports of Pods under a configuration.
#[derive(Drop)]
pub struct ServerRule {
    pub config: Config,
}

impl RowRule for ServerRule {
    type Key = ServerKey;

    type Row = Option<ServerPart>;

    type Kept = KeptServer;

    type Notes = ChangeNotes;

    ghost filter = { λ rule. record {
      row_of = server_part rule.config;
      reads = λ held. server_reads;
    } };

    ghost keeps = { λ rule. Stands rule.config };

    ghost row_in = { λ kept. kept.row };

    ghost marks_in = { λ kept. kept.marks };

    ghost notes_hold = { λ rule held change notes.
        NotesHold held change.marks notes };

    ghost tells = { λ before after. Unit {0} };

    fn find<L>(
        &self,
        alloc: Global,
        store: &Store,
        key: &ServerKey,
        steps: &mut Steps<L>,
    ) -> Result<KeptServer, Memory> {
        let from = Snapshot {
            alloc,
            config: &self.config,
            store,
        };
        find(&Port { from: &from, key }, steps)
    }

    fn no_notes(&self, alloc: Global) -> ChangeNotes {
        ChangeNotes::new(alloc)
    }

    fn follow<L>(
        &self,
        after: &StoreChange,
        key: &ServerKey,
        kept: &mut KeptServer,
        notes: &mut ChangeNotes,
        steps: &mut Steps<L>,
    ) -> Result<Followed, Memory> {
        let from = Snapshot {
            alloc: after.alloc,
            config: &self.config,
            store: after.store,
        };
        let port = Port { from: &from, key };
        let differs = follow(&port, after.change.marks.as_slice(), kept, notes, steps)?;
        Ok(Followed {
            differs,
            marks: MarksAfter::Same,
        })
    }

    fn row(kept: &KeptServer) -> &Option<ServerPart> {
        &kept.row
    }

    fn into_row(kept: KeptServer) -> Option<ServerPart> {
        kept.row
    }

    fn marks(alloc: Global, kept: &KeptServer) -> Result<List<Mark>, Memory> {
        kept.marks.copy(alloc)
    }

    fn watch(kept: &KeptServer, at_marks: &mut RowsAtMarks, number: u64) -> Result<(), Memory> {
        at_marks.put(kept.marks.as_slice(), number)
    }

    fn unwatch(kept: &KeptServer, at_marks: &mut RowsAtMarks, number: u64) {
        at_marks.take(kept.marks.as_slice(), number);
    }

    ghost shows = { λ rule. stands_show rule.config };

    ghost stays = { λ rule. stands_still rule.config };

    ghost exact = { server_keys_exact };
}
