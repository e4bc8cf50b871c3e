ghost use Rattle.std.specs.Prelude.{◌≡◌, ◌-◌, length};
ghost use Rattle.std.proofs.Common.{refl, ◌∙◌};

use feed_history::text::push_refused;
use feed_step::reader::Plain;
use feed_step::run::Run;
use line_run::LineMachine;
use mesh_base::limits::Limits;
use mesh_base::sub_id::SubId;
use mesh_hub::machine::Machine;
use mesh_outside::Patterns;
use std::alloc::AllocError;

/// A running replay. It borrows what owns memory.
#[derive(Drop)]
pub(crate) struct Replaying<'c, 'r, 'w, 'h, 'p, 'l, 's, H: Machine, P: Patterns, L> {
    /// At the end of the input the list of live ids stays as it is, and `sent` counts those that
    /// were drained.
    pub(crate) run: Run<'r, 'w, 'h, 'p, 'l, 's, Plain<'c>, H, P, L>,
    pub(crate) limits: Limits,
    /// How many ids were drained at the end.
    pub(crate) sent: usize,
}

impl<H: Machine, P: Patterns, L> LineMachine for Replaying<'_, '_, '_, '_, '_, '_, '_, H, P, L> {
    ghost use Rattle.feed_history.specs.Optional.{Becomes, Extends};
    ghost use Rattle.feed_history.proofs.Optional.{extends_same, extends_then};
    ghost use Rattle.replay_core.specs.Stand.{Ended, Ending, IsOfRun, Stands, ending_none};
    ghost use Rattle.feed_history.specs.KnownPatterns.{GoOver, goes_on_further, goes_on_here, known_over};

    ghost stands = { λ start now past text refused.
        (now.run.hub.ghost_name ≡ start.run.hub.ghost_name)
        × (now.run.patterns.ghost_name ≡ start.run.patterns.ghost_name)
        × IsOfRun start.run.reader.now.config.now start.limits
        now.run.reader.now.config.now now.limits
        × GoOver P.Patterns start.run.patterns.now now.run.patterns.now
        × Stands start.run.reader.now.config.now start.limits
        (known_over P.Patterns start.run.patterns.now now.run.patterns.now)
        (H.state start.run.hub.now) (H.state now.run.hub.now) (H.replies start.run.hub.now)
        (H.replies now.run.hub.now) now.run.live.now now.sent past text refused };

    ghost ending = { λ start now past text refused.
        (now.run.hub.ghost_name ≡ start.run.hub.ghost_name)
        × (now.run.patterns.ghost_name ≡ start.run.patterns.ghost_name)
        × IsOfRun start.run.reader.now.config.now start.limits
        now.run.reader.now.config.now now.limits
        × GoOver P.Patterns start.run.patterns.now now.run.patterns.now
        × Ending start.run.reader.now.config.now start.limits
        (known_over P.Patterns start.run.patterns.now now.run.patterns.now)
        (H.state start.run.hub.now) (H.state now.run.hub.now) (H.replies start.run.hub.now)
        (H.replies now.run.hub.now) now.run.live.now now.sent past text refused };

    ghost ended = { λ start now past text refused.
        (now.run.hub.ghost_name ≡ start.run.hub.ghost_name)
        × (now.run.patterns.ghost_name ≡ start.run.patterns.ghost_name)
        × GoOver P.Patterns start.run.patterns.now now.run.patterns.now
        × Ended start.run.reader.now.config.now start.limits
        (known_over P.Patterns start.run.patterns.now now.run.patterns.now)
        (H.state start.run.hub.now) (H.state now.run.hub.now) (H.replies start.run.hub.now)
        (H.replies now.run.hub.now) past text refused };

    ghost begins = { λ start now past text refused stood. (
      stood.0,
      stood.1,
      stood.2,
      stood.3,
      ending_none start.run.reader.now.config.now start.limits
          (known_over P.Patterns start.run.patterns.now now.run.patterns.now)
          (H.state start.run.hub.now) (H.state now.run.hub.now) (H.replies start.run.hub.now)
          (H.replies now.run.hub.now) now.run.live.now now.sent past text refused stood.4,
    ) };

    ghost keeps = { λ earlier now. (now.run.hub.ghost_name ≡ earlier.run.hub.ghost_name)
        × (now.run.patterns.ghost_name ≡ earlier.run.patterns.ghost_name)
        × GoOver P.Patterns earlier.run.patterns.now now.run.patterns.now
        × Becomes (H.replies earlier.run.hub.now) (H.replies now.run.hub.now) Extends };

    ghost keeps_itself = { λ machine. (
      refl,
      refl,
      goes_on_here (P.tells machine.run.patterns.now)
          (P.refuses machine.run.patterns.now) (P.refusals machine.run.patterns.now),
      extends_same
          (H.replies machine.run.hub.now),
    ) };

    ghost keeps_on = { λ first second third on further. (
      further.0 ∙ on.0,
      further.1 ∙ on.1,
      goes_on_further on.2 further.2,
      extends_then (H.replies first.run.hub.now) (H.replies second.run.hub.now)
          (H.replies third.run.hub.now) on.3 further.3,
    ) };

    ghost pieces_left = { λ now. length now.run.live.now - now.sent };

    fn line(
        &mut self,
        number: u64,
        line: Option<&[u8]>,
        out: &mut Vec<u8>,
    ) -> Result<bool, AllocError> {
        let Ok(refusal) = self.run.step(number, line, out) else {
            return Err(AllocError);
        };
        match refusal {
            None => Ok(false),
            Some(refusal) => {
                push_refused(self.run.writer.alloc, out, number, &refusal)?;
                Ok(true)
            }
        }
    }

    // Drains the next live id. The list stays as it is, so that an id that ends does not move the
    // others.
    fn end(&mut self, out: &mut Vec<u8>) -> Result<bool, AllocError> {
        let Some(id) = self.run.live_id(self.sent) else {
            return Ok(false);
        };
        let Ok(_) = self.run.drain(SubId(id), out) else {
            return Err(AllocError);
        };
        self.sent += 1;
        Ok(true)
    }
}
