// An open link.
ghost use Rattle.std.specs.Prelude.{◌≡◌, true, false, [], IfOk};
ghost use Rattle.session_core.specs.Pieces.{given_first};
ghost use Rattle.session_core.specs.Sessions.{Stands};
ghost use Rattle.link_sessions.specs.Roles.{is_feed, is_to_drain, is_to_read, is_to_write, is_written, stays_open};

use mesh_base::limits::Limits;
use mesh_base::memory::Memory;
use mesh_base::sub_id::SubId;
use session_core::link::Session;
use std::alloc::Global;
use view_types::config::Config;

/// The role of a link, by the bytes that were read from it.
#[derive(Clone, Copy, Debug, PartialEq, Eq)]
pub enum Role {
    /// Its path or its request is not complete.
    Opening,
    /// It is a feed.
    Feed,
    /// It is sent the frames of a subscription.
    Subscriber(SubId),
}

/// An open link.
#[derive(Drop)]
pub struct Link {
    pub session: Session,
    pub role: Role,
    /// Whether a read may return something other than Pending.
    pub readable: bool,
    /// Whether a write may return something other than Pending.
    pub writable: bool,
    /// Whether the peer sends nothing more.
    pub ended: bool,
}

impl Link {
    /// Creates a link from which no byte was read yet.
    pub fn new(alloc: Global, config: &Config, limits: &Limits) -> Result<Link, Memory>
        ensures stands { IfOk result (λ link.
            Stands config.now limits.now given_first link.session) }
        ensures outbox { IfOk result (λ link. link.session.outbox ≡ []) }
        ensures role { IfOk result (λ link. link.role ≡ Role.Opening) }
        ensures readable { IfOk result (λ link. link.readable ≡ true) }
        ensures writable { IfOk result (λ link. link.writable ≡ true) }
        ensures ended { IfOk result (λ link. link.ended ≡ false) }
    {
        Ok(Link {
            session: Session::new(alloc, config, limits)?,
            role: Role::Opening,
            readable: true,
            writable: true,
            ended: false,
        })
    }

    /// Whether nothing is left to write.
    pub fn is_written(&self) -> bool
        ensures { result ≡ is_written self.now.session.outbox }
    {
        self.session.head().is_empty()
    }

    /// Whether the link is a feed.
    pub fn is_feed(&self) -> bool
        ensures { result ≡ is_feed self.now.role }
    {
        match self.role {
            Role::Feed => true,
            Role::Opening | Role::Subscriber(_) => false,
        }
    }

    /// Whether the link may be read. A feed is not read while answers are left to write.
    pub fn is_to_read(&self) -> bool
        ensures { result ≡ is_to_read self.now }
    {
        self.readable && !self.ended && (!self.is_feed() || self.is_written())
    }

    /// Whether the link may be written.
    pub fn is_to_write(&self) -> bool
        ensures { result ≡ is_to_write self.now }
    {
        self.writable && !self.is_written()
    }

    /// Whether the link may be drained, if its subscription is due.
    pub fn is_to_drain(&self) -> bool
        ensures { result ≡ is_to_drain self.now }
    {
        self.writable && self.is_written()
    }

    /// Whether the link stays open: its input has not ended, or answers of a feed are left to
    /// write.
    pub fn stays_open(&self) -> bool
        ensures { result ≡ stays_open self.now }
    {
        !self.ended || (self.is_feed() && !self.is_written())
    }
}
