// A server over links.
ghost use Rattle.std.specs.Prelude.{◌≡◌, ◌≤◌, ◌<◌, ◌^◌, ℕ, [], false, true, None, Ok, Err, IfOk};
ghost use Rattle.mesh_outside.specs.Causes.{Rose};
ghost use Rattle.link_sessions.specs.Entries.{entries_of, link_at};
ghost use Rattle.route_match.specs.Matching.{Pat};
ghost use Rattle.feed_history.specs.KnownPatterns.{GoOver, known_over};
ghost use Rattle.serve_core.specs.Served.{IsAt};
ghost use Rattle.serve_core.specs.Shown.{PollsBy};
ghost use Rattle.serve_core.specs.Turned.{GoesOnFrom, ServesLinks, Turns};
ghost use Rattle.serve_core.specs.TurnCalls.{AfterPoll, Calls, PassesOver, PollShape, TurnShape, is_spent_by, turn_by};

use crate::turning::{Pass, Turning};
use fed_hub::hub::FedHub;
use link_sessions::open_links::OpenLinks;
use mesh_base::copied::Copied;
use mesh_base::limits::Limits;
use mesh_base::list::List;
use mesh_base::memory::Memory;
use mesh_links::call::LinkEvent;
use mesh_links::links::{Links, PollFault};
use mesh_outside::Patterns;
use std::alloc::Global;
use std::collections::BTreeSet;
use view_types::config::Config;

/// How a turn ended.
#[derive(Clone, Copy, Debug, PartialEq, Eq)]
pub enum Turn {
    /// Another turn may follow.
    Going,
    /// A `stop` line was accepted, and each link is closed.
    Stopped,
}

/// Why a turn ended early.
#[derive(Clone, Copy, Debug, PartialEq, Eq)]
pub enum ServeFault {
    /// Memory ran out. Each further turn returns this, without a call.
    Memory,
    /// The poll failed.
    Links,
}

/// A server that serves links in turns.
#[derive(Drop)]
pub struct Server {
    turning: Turning,
    /// Whether memory ran out once.
    spent: bool,
}

impl Server {
    /// Creates a server without links, objects and subscriptions.
    pub fn new(alloc: Global, config: Config, limits: Limits) -> Result<Server, Memory>
        requires { 1 ≤ limits.frame_addrs }
        ensures going { IfOk result (λ server. server.spent ≡ false) }
        ensures begins { IfOk result (λ server.
            (pat : Pat) → IsAt config limits pat [] [] [] server.turning) }
    {
        let hub = FedHub::new(alloc, config.copy(alloc)?, limits)?;
        Ok(Server {
            turning: Turning {
                alloc,
                config,
                limits,
                hub,
                kept: OpenLinks::new(alloc),
                to_drain: BTreeSet::new(alloc),
            },
            spent: false,
        })
    }

    /// Takes one turn: a poll, which waits if no link has work, then a read, a drain and a write of
    /// each link that has a turn.
    #[tactic(auto, using(crate::proofs::CallSteps::no_turn, feed_history::specs::KnownPatterns::goes_on_here))]
    pub fn turn<N: Links, P: Patterns>(
        &mut self,
        links: &mut N,
        patterns: &mut P,
    ) -> Result<Turn, ServeFault>
        ensures calls { Calls N.Links (TurnShape result) links.old links.new }
        ensures turns { self.old.spent ≡ false
            → Turns (known_over P.Patterns patterns.old patterns.new) (N.trace links.old)
            self.old.turning result (N.trace links.new) self.new.turning }
        ensures spent { self.new.spent ≡ is_spent_by result }
        ensures stopped { IfOk result (λ turn. turn ≡ turn_by self.new.turning.hub.stopped) }
        ensures none { result ≡ Ok Turn.Stopped → (n : ℕ) → n < 2 ^ 32
            → link_at n (entries_of self.new.turning.kept) ≡ None }
        ensures no_turn { self.old.spent ≡ true → result ≡ Err ServeFault.Memory }
        ensures no_call { self.old.spent ≡ true → links.new ≡ links.old }
        ensures cause { result ≡ Err ServeFault.Links
            → Rose (N.counts links.old).polls (N.counts links.new).polls }
        ensures goes_on { GoOver P.Patterns patterns.old patterns.new }
    {
        if self.spent {
            return Err(ServeFault::Memory);
        }
        let turned = self.turning.turn(links, patterns);
        self.spent = turned == Err(ServeFault::Memory);
        turned
    }
}

fn poll_now<N: Links>(links: &mut N, wait: bool) -> Result<List<LinkEvent>, ServeFault>
    ensures calls { Calls N.Links (PollShape result) links.old links.new }
    ensures polls { PollsBy wait result (N.trace links.old) (N.trace links.new) }
    ensures cause { result ≡ Err ServeFault.Links
        → Rose (N.counts links.old).polls (N.counts links.new).polls }
{
    match links.poll(wait) {
        Ok(events) => Ok(events),
        Err(PollFault::Failed) => Err(ServeFault::Links),
        Err(PollFault::Memory) => Err(ServeFault::Memory),
    }
}

impl Turning {
    // One turn.
    fn turn<N: Links, P: Patterns>(
        &mut self,
        links: &mut N,
        patterns: &mut P,
    ) -> Result<Turn, ServeFault>
        ensures calls { Calls N.Links (TurnShape result) links.old links.new }
        ensures turns { Turns (known_over P.Patterns patterns.old patterns.new)
            (N.trace links.old) self.old result (N.trace links.new) self.new }
        ensures stopped { IfOk result (λ turn. turn ≡ turn_by self.new.hub.stopped) }
        ensures none { result ≡ Ok Turn.Stopped → (n : ℕ) → n < 2 ^ 32
            → link_at n (entries_of self.new.kept) ≡ None }
        ensures cause { result ≡ Err ServeFault.Links
            → Rose (N.counts links.old).polls (N.counts links.new).polls }
        ensures goes_on { GoOver P.Patterns patterns.old patterns.new }
    {
        let events = poll_now(links, !self.has_work())?;
        match self.go_on(links, patterns, events.as_slice()) {
            Ok(turn) => Ok(turn),
            Err(Memory) => Err(ServeFault::Memory),
        }
    }

    // The rest of a turn after a poll that reported these events.
    fn go_on<N: Links, P: Patterns>(
        &mut self,
        links: &mut N,
        patterns: &mut P,
        events: &[LinkEvent],
    ) -> Result<Turn, Memory>
        ensures calls { Calls N.Links (AfterPoll result) links.old links.new }
        ensures follows { GoesOnFrom (known_over P.Patterns patterns.old patterns.new)
            events.now (N.trace links.old) self.old result (N.trace links.new) self.new }
        ensures stopped { IfOk result (λ turn. turn ≡ turn_by self.new.hub.stopped) }
        ensures none { result ≡ Ok Turn.Stopped → (n : ℕ) → n < 2 ^ 32
            → link_at n (entries_of self.new.kept) ≡ None }
        ensures goes_on { GoOver P.Patterns patterns.old patterns.new }
    {
        self.hub.begin_turn();
        self.show_all(links, events)?;
        self.pass_over(links, patterns)?;
        if !self.hub.has_stopped() {
            return Ok(Turn::Going);
        }
        self.close_all(links);
        Ok(Turn::Stopped)
    }

    // Reads, drains and writes each link that has a turn.
    fn pass_over<N: Links, P: Patterns>(
        &mut self,
        links: &mut N,
        patterns: &mut P,
    ) -> Result<(), Memory>
        ensures calls { Calls N.Links PassesOver links.old links.new }
        ensures serves { ServesLinks (known_over P.Patterns patterns.old patterns.new)
            (N.trace links.old) self.old result (N.trace links.new) self.new }
        ensures goes_on { GoOver P.Patterns patterns.old patterns.new }
    {
        self.each(Pass::Reads, links, patterns)?;
        self.find_due()?;
        self.each(Pass::Drains, links, patterns)?;
        self.each(Pass::Writes, links, patterns)
    }
}
