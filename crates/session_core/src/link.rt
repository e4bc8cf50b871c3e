// The session of one link.
ghost use Rattle.std.specs.Prelude.{◌≡◌, ◌≤◌, [], length, IfOk, OnOk, OnErr, Err};
ghost use Rattle.mesh_base.specs.declared.limits.Limits.{Limits};
ghost use Rattle.view_types.specs.declared.config.Config.{Config};
ghost use Rattle.session_core.specs.Outboxes.{head, wrote, NoneEmpty};
ghost use Rattle.session_core.specs.Pieces.{Given, answer_to, given_first, given_next};
ghost use Rattle.session_core.specs.Sessions.{IsSpent, Stands};
ghost use Rattle.session_core.specs.States.{Answers};
ghost use Rattle.session_core.specs.declared.session.SessionFault.TheVariants as faults;

use crate::outbox::Outbox;
use crate::session::{Ask, SessionFault};
use crate::state::{State, Step};
use crate::steps::step;
use bytes::Bytes;
use mesh_base::copied::Copied;
use mesh_base::limits::Limits;
use mesh_base::list::List;
use mesh_base::memory::Memory;
use std::alloc::Global;
use std::marker::Model;
use std::mem;
use view_types::config::Config;

/// The session of one link: what its bytes so far request, and what is still to be written on it.
#[derive(Drop)]
pub struct Session {
    alloc: Global,
    config: Config,
    limits: Limits,
    state: State,
    outbox: Outbox,
}

impl Model for Session {
    ghost use Rattle.session_core.specs.Sessions.{SessionState};

    ghost Value = { SessionState };

    ghost view = { λ s. record {
      config = s.config;
      limits = s.limits;
      state = s.state;
      outbox = s.outbox;
    } };
}

impl Session {
    /// Creates a session without input, with an empty outbox.
    pub fn new(alloc: Global, config: &Config, limits: &Limits) -> Result<Session, Memory>
        ensures stands { IfOk result (λ session. Stands config.now limits.now given_first session) }
        ensures outbox { IfOk result (λ session. session.outbox ≡ []) }
    {
        Ok(Session {
            alloc,
            config: config.copy(alloc)?,
            limits: *limits,
            state: State::Opening(List::new(alloc)),
            outbox: Outbox::new(alloc),
        })
    }

    /// Processes the next piece of the link's bytes, and returns the requests that it completes.
    /// The empty piece is the end of the input. After a fault each further piece has that fault as
    /// its result.
    pub fn feed(&mut self, piece: &[u8]) -> Result<List<Ask>, SessionFault>
        ensures answers { (config : Config) (limits : Limits) (given : Given)
            → Stands config limits given self.old
            → Answers result (answer_to config limits given piece.now) }
        ensures stands { (config : Config) (limits : Limits) (given : Given)
            → Stands config limits given self.old
            → Stands config limits (given_next given piece.now) self.new }
        ensures memory { result ≡ Err faults.Memory → IsSpent self.new }
        ensures spent { IsSpent self.old → result ≡ Err faults.Memory }

        ensures outbox { self.new.outbox ≡ self.old.outbox }
    {
        let state = mem::replace(&mut self.state, State::Fault(SessionFault::Memory));
        match step(self.alloc, &self.config, &self.limits, state, piece) {
            Ok(Step { asks, state }) => {
                self.state = state;
                Ok(asks)
            }
            Err(fault) => {
                self.state = State::Fault(fault);
                Err(fault)
            }
        }
    }

    /// Puts frames into the outbox, which must be empty.
    pub fn put(&mut self, frames: List<Bytes>) -> Result<(), Memory>
        requires none { self.old.outbox ≡ [] }
        requires some { NoneEmpty frames }
        ensures ok { OnOk result (self.new ≡ record self.old { outbox = frames }) }
        ensures err { OnErr result (self.new ≡ self.old) }
    {
        self.outbox.put(frames);
        Ok(())
    }

    /// Returns the rest of the outbox's first item, which is empty exactly if the outbox is.
    pub fn head(&self) -> &[u8]
        ensures head { result.now ≡ head self.now.outbox }
        ensures none { result.now ≡ [] → self.now.outbox ≡ [] }
    {
        self.outbox.head()
    }

    /// Records that this number of bytes of the head were written.
    pub fn wrote(&mut self, n: usize)
        requires { n ≤ length (head self.old.outbox) }
        ensures { self.new ≡ record self.old { outbox = wrote n self.old.outbox } }
    {
        self.outbox.wrote(n);
    }
}
