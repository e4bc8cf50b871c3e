// A run of a relay over the rows of an input.
ghost use Rattle.std.specs.Prelude.{◌≡◌, length};

use crate::relay::Relay;
use crate::row::{push_sent, take_row};
use line_run::LineMachine;
use mesh_base::sub_id::SubId;
use std::alloc::{AllocError, Global};

/// A running relay.
#[derive(Drop)]
pub(crate) struct Relaying {
    pub(crate) alloc: Global,
    pub(crate) relay: Relay,
}

impl LineMachine for Relaying {
    ghost use Rattle.view_relay.specs.Answers.{state_of};
    ghost use Rattle.view_relay.specs.Stand.{Ended, Ending, Stands, ends_as};

    ghost stands = { λ start now past text refused. Stands start.relay.config start.relay.limits
        past text refused (state_of now.relay) };

    ghost ending = { λ start now past text refused. Ending start.relay.config start.relay.limits
        past text refused (state_of now.relay) };

    ghost ended = { λ start now past text refused. Ended start.relay.config start.relay.limits past
        text refused };

    ghost begins = { λ start now past text refused stood. record {
      writes = ends_as start.relay.config start.relay.limits past text refused
          (state_of now.relay) stood;
      refuses = stood.refuses;
    } };

    ghost keeps = { λ earlier now. Unit {0} };

    ghost keeps_itself = { λ machine. tt };

    ghost keeps_on = { λ first second third on further. tt };

    ghost pieces_left = { λ now. length now.relay.clients };

    fn line(
        &mut self,
        number: u64,
        line: Option<&[u8]>,
        out: &mut Vec<u8>,
    ) -> Result<bool, AllocError> {
        take_row(self.alloc, &mut self.relay, number, line, out)
    }

    // Writes what the client with the least id is sent, and ends it.
    fn end(&mut self, out: &mut Vec<u8>) -> Result<bool, AllocError> {
        let Some(id) = self.relay.first_client() else {
            return Ok(false);
        };
        let frames = self.relay.frames_at(id);
        let Ok(()) = push_sent(self.alloc, id, frames, out) else {
            return Err(AllocError);
        };
        let Ok(()) = self.relay.leave(SubId(id)) else {
            return Err(AllocError);
        };
        Ok(true)
    }
}
