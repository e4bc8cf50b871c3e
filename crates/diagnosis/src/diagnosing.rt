ghost use Rattle.std.specs.Prelude.{◌≤◌};

use crate::take::take_row;
use feed_history::text::push_refused;
use line_run::LineMachine;
use mesh_base::limits::Limits;
use mesh_base::steps::Steps;
use mesh_base::sub_id::SubId;
use object_store::store::Store;
use output_fold::view_text::push_view;
use std::alloc::{AllocError, Global};
use view_scratch::scratch::scratch;
use view_types::config::Config;
use view_types::query::Query;

/// A running diagnosis.
#[derive(Drop)]
pub(crate) struct Diagnosing<'a> {
    pub(crate) alloc: Global,
    pub(crate) config: &'a Config,
    pub(crate) limits: Limits,
    /// The id in the lines of the view.
    pub(crate) id: SubId,
    pub(crate) query: &'a Query,
    pub(crate) store: Store,
    ghost some_addresses: { 1 ≤ limits.frame_addrs },
}

impl LineMachine for Diagnosing<'_> {
    ghost use Rattle.diagnosis.specs.Stand.{Ended, IsOfRun, Stands};

    ghost stands = { λ start now past text refused. IsOfRun start.config.now start.limits start.id
        start.query.now now.config.now now.limits now.id now.query.now
        × Stands start.config.now start.limits past text refused now.store };

    ghost ending = { λ start now past text refused. IsOfRun start.config.now start.limits start.id
        start.query.now now.config.now now.limits now.id now.query.now
        × Stands start.config.now start.limits past text refused now.store };

    ghost ended = { λ start now past text refused. Ended start.config.now start.limits start.id.0
        start.query.now past text refused };

    ghost begins = { λ start now past text refused stood. stood };

    ghost keeps = { λ earlier now. Unit {0} };

    ghost keeps_itself = { λ machine. tt };

    ghost keeps_on = { λ first second third on further. tt };

    ghost pieces_left = { λ now. 0 };

    fn line(
        &mut self,
        number: u64,
        line: Option<&[u8]>,
        out: &mut Vec<u8>,
    ) -> Result<bool, AllocError> {
        let Ok(refusal) = take_row(self.alloc, self.config, &mut self.store, line) else {
            return Err(AllocError);
        };
        match refusal {
            None => Ok(false),
            Some(refusal) => {
                push_refused(self.alloc, out, number, &refusal)?;
                Ok(true)
            }
        }
    }

    fn end(&mut self, out: &mut Vec<u8>) -> Result<bool, AllocError> {
        let mut steps = Steps::<Store>::new();
        let Ok(view) = scratch(self.alloc, &self.store, self.config, self.query, &mut steps) else {
            return Err(AllocError);
        };
        let Ok(()) = push_view(self.alloc, self.id, &self.limits, &view, out) else {
            return Err(AllocError);
        };
        Ok(false)
    }
}
