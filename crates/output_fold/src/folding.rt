ghost use Rattle.std.specs.Prelude.{◌≡◌, ◌≢◌, ◌≤◌, ◌++◌, OnOk};
ghost use Rattle.view_rules.specs.Fold.{IsOrderlyIfShown};
ghost use Rattle.feed_history.specs.Orderly.{IsOrderlyIfShown-prop};
ghost use Rattle.feed_history.specs.Text.{fault_line};
ghost use Rattle.output_fold.specs.FaultText.{fold_fault_text};

use crate::fault::FoldFault;
use crate::line::row_says;
use crate::view_text::push_view;
use feed_history::text::push_refused;
use line_run::LineMachine;
use mesh_base::limits::Limits;
use mesh_base::sub_id::SubId;
use std::alloc::{AllocError, Global};
use view_fold::folding::Fold;
use view_types::query::Method;

// Writes the refusal of a line, unless memory ran out.
fn refuse(alloc: Global, number: u64, fault: FoldFault, out: &mut Vec<u8>) -> Result<(), AllocError>
    ensures fault { OnOk result (fault ≢ FoldFault.Memory) }
    ensures writes { OnOk result (out.new.items
        ≡ out.old.items ++ fault_line number (fold_fault_text fault)) }
{
    match fault {
        FoldFault::Memory => Err(AllocError),
        fault => push_refused(alloc, out, number, &fault),
    }
}

/// A running fold.
#[derive(Drop)]
pub(crate) struct Folding {
    pub(crate) alloc: Global,
    pub(crate) method: Method,
    pub(crate) id: SubId,
    pub(crate) limits: Limits,
    pub(crate) fold: Fold,
    /// Whether a line could not be read. The lines after it are ignored.
    pub(crate) failed: bool,
    ghost some_addresses: { 1 ≤ limits.frame_addrs },
    ghost orderly: { IsOrderlyIfShown fold.view } by { IsOrderlyIfShown-prop fold.view },
}

impl LineMachine for Folding {
    ghost use Rattle.output_fold.specs.Stand.{Ended, IsOfFold, Stands};

    ghost stands = { λ start now past text refused. IsOfFold start.method start.id start.limits
        now.method now.id now.limits
        × Stands start.method start.id.0 now.failed now.fold.view past text refused };

    ghost ending = { λ start now past text refused. IsOfFold start.method start.id start.limits
        now.method now.id now.limits
        × Stands start.method start.id.0 now.failed now.fold.view past text refused };

    ghost ended = { λ start now past text refused. Ended start.method start.id.0 start.limits past
        text refused };

    ghost begins = { λ start now past text refused stood. stood };

    ghost keeps = { λ earlier now. Unit {0} };

    ghost keeps_itself = { λ machine. tt };

    ghost keeps_on = { λ first second third on further. tt };

    ghost pieces_left = { λ now. 0 };

    fn line(
        &mut self,
        number: u64,
        line: Option<&[u8]>,
        out: &mut Vec<u8>,
    ) -> Result<bool, AllocError> {
        if self.failed {
            return Ok(false);
        }
        match row_says(self.alloc, self.method, self.id.0, line) {
            Ok(None) => Ok(false),
            Ok(Some(message)) => {
                let Ok(()) = self.fold.take(self.alloc, message) else {
                    return Err(AllocError);
                };
                Ok(false)
            }
            Err(fault) => {
                refuse(self.alloc, number, fault, out)?;
                self.failed = true;
                Ok(true)
            }
        }
    }

    fn end(&mut self, out: &mut Vec<u8>) -> Result<bool, AllocError> {
        if self.failed {
            return Ok(false);
        }
        let Some(view) = self.fold.view() else {
            return Ok(false);
        };
        let Ok(()) = push_view(self.alloc, self.id, &self.limits, view, out) else {
            return Err(AllocError);
        };
        Ok(false)
    }
}
