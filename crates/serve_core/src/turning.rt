// The actions of a turn on one link, and on all links in the order of their numbers.
ghost use Rattle.std.specs.Prelude.{◌≡◌, ◌≤◌, ◌<◌, ◌^◌, ℕ, Bool, List as TheList, Ok, Option as TheOption, None, option_map, IfOk, IfSome, OnOk};
ghost use Rattle.route_match.specs.Matching.{Pat};
ghost use Rattle.mesh_links.specs.Calls.{Continues, close_made};
ghost use Rattle.session_core.specs.Outboxes.{NoneEmpty};
ghost use Rattle.link_sessions.specs.Entries.{Leaves, entries_of, link_at, passes_at, without};
ghost use Rattle.link_sessions.specs.Sets.{IsAnyOf, IsFirstFrom};
ghost use Rattle.link_sessions.specs.Settled.{IsSettled, IsSettledBut};
ghost use Rattle.feed_history.specs.KnownPatterns.{GoOver, known_of, known_over};
ghost use Rattle.serve_core.specs.Hearing.{Hears, SubscribesBy, TakesAll, TakesAsk};
ghost use Rattle.serve_core.specs.LinkTurns.{IsFoundAmong, IsPutIn, IsReady, drains_among, drains_due, turn_at};
ghost use Rattle.serve_core.specs.Shown.{Shows, ShowsAll};
ghost use Rattle.serve_core.specs.Steps.{ClosesAt, Ends, HasWork, SettlesAt, StaysFed, TakesPass, TakesStep, step_of, stop_step, sub_in};
ghost use Rattle.serve_core.specs.TurnCalls.{Calls, AllCloses, Each, MayClose, Visit};

use bytes::Bytes;
use fed_hub::hub::FedHub;
use link_sessions::link::{Link, Role};
use link_sessions::number_sets::{first_from, set_member};
use link_sessions::open_links::OpenLinks;
use mesh_base::limits::Limits;
use mesh_base::list::List;
use mesh_base::memory::Memory;
use mesh_base::sub_id::SubId;
use mesh_links::call::LinkEvent;
use mesh_links::links::{LinkFault, Links};
use mesh_outside::Patterns;
use session_core::session::{Ask, SessionFault};
use std::alloc::Global;
use std::collections::BTreeSet;
use view_types::config::Config;
use view_types::query::Query;

/// The most bytes of one read.
const ROOM: usize = 16384;

/// What is done with each link that has a turn.
#[derive(Clone, Copy, Debug, PartialEq, Eq)]
pub(crate) enum Pass {
    Reads,
    Drains,
    Writes,
}

/// The state of a server while memory has not run out.
#[derive(Drop)]
pub(crate) struct Turning {
    pub(crate) alloc: Global,
    pub(crate) config: Config,
    pub(crate) limits: Limits,
    pub(crate) hub: FedHub,
    pub(crate) kept: OpenLinks,
    /// The links whose subscriptions are drained in this turn.
    pub(crate) to_drain: BTreeSet<u32>,
}

// Ends the subscription of a link that had this role.
fn end_subscription(hub: &mut FedHub, role: Role)
    ensures ends { Ends role hub.old hub.new }
    ensures stopped { hub.new.stopped ≡ hub.old.stopped }
{
    if let Role::Subscriber(id) = role {
        hub.cancel(id);
    }
}

// Whether one of these subscriptions is to be drained.
fn drains_any(kept: &OpenLinks, ids: &[SubId]) -> bool
    ensures { IsSettled kept.now
        → IsAnyOf (passes_at (drains_among ids.now) (entries_of kept.now)) result }
{
    for id in ids {
        if kept.to_drain(*id).is_some() {
            return true;
        }
    }
    false
}

// Adds the links of those of these subscriptions that are to be drained.
fn find_drains(kept: &OpenLinks, ids: &[SubId], numbers: &mut BTreeSet<u32>) -> Result<(), Memory>
    ensures { OnOk result (IsSettled kept.now
        → IsFoundAmong kept.now ids.now numbers.old numbers.new) }
{
    for id in ids {
        put_in(numbers, kept.to_drain(*id))?;
    }
    Ok(())
}

// Inserts a number, if there is one, into a set.
fn put_in(numbers: &mut BTreeSet<u32>, found: Option<u32>) -> Result<(), Memory>
    ensures { OnOk result (IsPutIn found numbers.old numbers.new) }
{
    match found {
        Some(number) => set_member(numbers, number, true),
        None => Ok(()),
    }
}

impl Turning {
    /// Whether a link may be read, written or drained, so that a poll must not wait.
    pub(crate) fn has_work(&self) -> bool
        ensures { HasWork self.now result }
    {
        if self.kept.has_work() {
            return true;
        }
        self.has_drain()
    }

    // Whether a link may be drained.
    fn has_drain(&self) -> bool
        ensures { IsSettled self.now.kept → IsAnyOf (passes_at (drains_due self.now.hub)
            (entries_of self.now.kept)) result }
    {
        drains_any(&self.kept, self.hub.due())
    }

    // ---- the events of a poll

    /// Records the events of a poll.
    #[tactic(auto, using(crate::proofs::CallSteps::new_closes, crate::proofs::CallSteps::no_new))]
    pub(crate) fn show_all<N: Links>(
        &mut self,
        links: &mut N,
        events: &[LinkEvent],
    ) -> Result<(), Memory>
        ensures calls { Calls N.Links AllCloses links.old links.new }
        ensures shows { ShowsAll events.now (N.trace links.old) self.old result
            (N.trace links.new) self.new }
        ensures same { OnOk result (self.new ≡ record self.old { kept = self.new.kept }) }
    {
        for event in events {
            self.show(links, *event)?;
        }
        Ok(())
    }

    fn show<N: Links>(&mut self, links: &mut N, event: LinkEvent) -> Result<(), Memory>
        ensures calls { Calls N.Links AllCloses links.old links.new }
        ensures shows { Shows event (N.trace links.old) self.old result
            (N.trace links.new) self.new }
        ensures same { OnOk result (self.new ≡ record self.old { kept = self.new.kept }) }
    {
        match event {
            LinkEvent::New(number) => self.admit(links, number),
            LinkEvent::Readable(number) => self.kept.set_readable(number, true),
            LinkEvent::Writable(number) => self.kept.set_writable(number, true),
        }
    }

    // Opens a new link, or closes it if the limit on links is reached.
    fn admit<N: Links>(&mut self, links: &mut N, number: u32) -> Result<(), Memory>
        ensures calls { Calls N.Links AllCloses links.old links.new }
        ensures shows { Shows (LinkEvent.New number) (N.trace links.old) self.old result
            (N.trace links.new) self.new }
        ensures same { OnOk result (self.new ≡ record self.old { kept = self.new.kept }) }
    {
        if self.kept.len() >= self.limits.links as usize {
            links.close(number);
            return Ok(());
        }
        let link = Link::new(self.alloc, &self.config, &self.limits)?;
        self.kept.open(number, link)
    }

    // ---- the passes

    /// Takes a step of each link that has a turn, in the order of their numbers.
    pub(crate) fn each<N: Links, P: Patterns>(
        &mut self,
        pass: Pass,
        links: &mut N,
        patterns: &mut P,
    ) -> Result<(), Memory>
        ensures calls { Calls N.Links (Each (Visit pass)) links.old links.new }
        ensures passes { IsReady pass self.old → TakesPass (step_of pass)
            (known_over P.Patterns patterns.old patterns.new)
            (N.trace links.old) self.old result (N.trace links.new) self.new }
        ensures goes_on { GoOver P.Patterns patterns.old patterns.new }
    {
        let mut from = 0;
        while let Some(number) = self.next(pass, from) {
            self.step(pass, links, patterns, number)?;
            match number.checked_add(1) {
                Some(after) => from = after,
                None => return Ok(()),
            }
        }
        Ok(())
    }

    // Returns the first link from a number on that has a turn.
    fn next(&self, pass: Pass, from: u32) -> Option<u32>
        ensures later { IfSome result (λ number. from ≤ number) }
        ensures first { IsSettled self.now.kept
            → IsFirstFrom (turn_at pass self.now) from result }
    {
        match pass {
            Pass::Reads => self.kept.first_to_read(from),
            Pass::Drains => first_from(&self.to_drain, from),
            Pass::Writes => self.kept.first_to_write(from),
        }
    }

    fn step<N: Links, P: Patterns>(
        &mut self,
        pass: Pass,
        links: &mut N,
        patterns: &mut P,
        number: u32,
    ) -> Result<(), Memory>
        ensures calls { Calls N.Links (Visit pass number) links.old links.new }
        ensures steps { TakesStep pass number (known_over P.Patterns patterns.old patterns.new)
            (N.trace links.old) self.old result (N.trace links.new) self.new }
        ensures drains { OnOk result (self.new.to_drain ≡ self.old.to_drain) }
        ensures goes_on { GoOver P.Patterns patterns.old patterns.new }
    {
        match pass {
            Pass::Reads => self.read(links, patterns, number),
            Pass::Drains => self.drain(links, number),
            Pass::Writes => self.write(links, number),
        }
    }

    /// Closes each link, in the order of their numbers.
    pub(crate) fn close_all<N: Links>(&mut self, links: &mut N)
        ensures calls { Calls N.Links (Each MayClose) links.old links.new }
        ensures closes { (tells : TheOption Pat) (refuses : TheOption (TheList ℕ → Bool))
            (count : ℕ)
            → TakesPass stop_step (known_of tells refuses count count)
            (N.trace links.old) self.old (Ok tt) (N.trace links.new) self.new }
        ensures none { (n : ℕ) → n < 2 ^ 32 → link_at n (entries_of self.new.kept) ≡ None }
        ensures stopped { self.new.hub.stopped ≡ self.old.hub.stopped }
    {
        let mut from = 0;
        while let Some(number) = self.kept.first_from(from) {
            self.close(links, number);
            match number.checked_add(1) {
                Some(after) => from = after,
                None => return,
            }
        }
    }

    // Closes a link, and ends its subscription.
    fn close<N: Links>(&mut self, links: &mut N, number: u32)
        ensures calls { Calls N.Links (MayClose number) links.old links.new }
        ensures closes { ClosesAt number (N.trace links.old) self.old
            (N.trace links.new) self.new }
        ensures fed { StaysFed self.old self.new }
        ensures drains { self.new.to_drain ≡ self.old.to_drain }
        ensures leaves { Leaves number (entries_of self.old.kept) (entries_of self.new.kept) }
        ensures stopped { self.new.hub.stopped ≡ self.old.hub.stopped }
    {
        let Some(role) = self.kept.close(number) else {
            return;
        };
        end_subscription(&mut self.hub, role);
        links.close(number);
    }

    // Closes a link whose subscription has ended.
    fn let_go<N: Links>(&mut self, links: &mut N, number: u32)
        ensures calls { Calls N.Links (MayClose number) links.old links.new }
        ensures traced { Continues (N.trace links.old) (N.trace links.new) (λ t.
            close_made t number) }
        ensures entries { entries_of self.new.kept ≡ without number (entries_of self.old.kept) }
        ensures settled { IsSettledBut number self.old.kept → IsSettled self.new.kept }
        ensures hub { self.new.hub ≡ self.old.hub }
        ensures config { self.new.config ≡ self.old.config }
        ensures limits { self.new.limits ≡ self.old.limits }
        ensures drains { self.new.to_drain ≡ self.old.to_drain }
    {
        let _ = self.kept.close(number);
        links.close(number);
    }

    // Closes a link unless it stays open.
    fn close_ended<N: Links>(&mut self, links: &mut N, number: u32)
        ensures calls { Calls N.Links (MayClose number) links.old links.new }
        ensures settles { SettlesAt number (N.trace links.old) self.old
            (N.trace links.new) self.new }
        ensures fed { StaysFed self.old self.new }
        ensures drains { self.new.to_drain ≡ self.old.to_drain }
    {
        if !self.kept.stays_open(number) {
            self.close(links, number);
        }
    }

    // ---- reads

    fn read<N: Links, P: Patterns>(
        &mut self,
        links: &mut N,
        patterns: &mut P,
        number: u32,
    ) -> Result<(), Memory>
        ensures calls { Calls N.Links (Visit Pass.Reads number) links.old links.new }
        ensures steps { TakesStep Pass.Reads number
            (known_over P.Patterns patterns.old patterns.new)
            (N.trace links.old) self.old result (N.trace links.new) self.new }
        ensures drains { OnOk result (self.new.to_drain ≡ self.old.to_drain) }
        ensures goes_on { GoOver P.Patterns patterns.old patterns.new }
    {
        let mut buf = [0; ROOM];
        match links.read(number, &mut buf) {
            Ok(n) => {
                if self.hear(patterns, number, &buf[..n])? {
                    self.close_ended(links, number);
                } else {
                    self.close(links, number);
                }
                Ok(())
            }
            Err(LinkFault::Pending) => self.kept.set_readable(number, false),
            Err(LinkFault::Failed) => {
                self.close(links, number);
                Ok(())
            }
            Err(LinkFault::Memory) => Err(Memory),
        }
    }

    // Processes a piece of a link's bytes; the empty piece is their end. Returns whether they have
    // no fault and reach no limit.
    fn hear<P: Patterns>(
        &mut self,
        patterns: &mut P,
        number: u32,
        piece: &[u8],
    ) -> Result<bool, Memory>
        ensures hears { Hears number piece.now (known_over P.Patterns patterns.old patterns.new)
            self.old result self.new }
        ensures drains { OnOk result (self.new.to_drain ≡ self.old.to_drain) }
        ensures goes_on { GoOver P.Patterns patterns.old patterns.new }
    {
        match self.kept.feed(number, piece) {
            Ok(asks) => self.take_asks(patterns, number, asks),
            Err(SessionFault::Memory) => Err(Memory),
            Err(_) => Ok(false),
        }
    }

    // Carries out the requests of a link, and puts the answers into its outbox. Returns whether no
    // limit is reached.
    #[tactic(auto, using(feed_history::specs::KnownPatterns::goes_on_further, feed_history::specs::KnownPatterns::goes_on_here))]
    fn take_asks<P: Patterns>(
        &mut self,
        patterns: &mut P,
        number: u32,
        asks: List<Ask>,
    ) -> Result<bool, Memory>
        ensures takes { TakesAll number asks (known_over P.Patterns patterns.old patterns.new)
            self.old result self.new }
        ensures drains { OnOk result (self.new.to_drain ≡ self.old.to_drain) }
        ensures goes_on { GoOver P.Patterns patterns.old patterns.new }
    {
        let mut answers = List::new(self.alloc);
        for ask in asks.into_vec() {
            if !self.take_ask(patterns, number, ask, &mut answers)? {
                return Ok(false);
            }
        }
        self.kept.put(number, answers)?;
        Ok(true)
    }

    fn take_ask<P: Patterns>(
        &mut self,
        patterns: &mut P,
        number: u32,
        ask: Ask,
        answers: &mut List<Bytes>,
    ) -> Result<bool, Memory>
        ensures takes { TakesAsk number ask (known_over P.Patterns patterns.old patterns.new)
            self.old answers.old result self.new answers.new }
        ensures some { OnOk result (NoneEmpty answers.old → NoneEmpty answers.new) }
        ensures drains { OnOk result (self.new.to_drain ≡ self.old.to_drain) }
        ensures goes_on { GoOver P.Patterns patterns.old patterns.new }
    {
        match ask {
            Ask::Subscribe(query) => self.subscribe(number, query),
            Ask::FeedBegins => Ok(self.kept.begin_feed(number, self.limits.feeds)),
            Ask::Line { number: line, text } => {
                self.hub
                    .answer(patterns, line, Some(text.as_slice()), answers)?;
                Ok(true)
            }
            Ask::LongLine { number: line } => {
                self.hub.answer(patterns, line, None, answers)?;
                Ok(true)
            }
            Ask::Ended => {
                self.kept.end(number);
                Ok(true)
            }
        }
    }

    // Subscribes a link, unless the limit on subscriptions is reached. Returns whether it did.
    fn subscribe(&mut self, number: u32, query: Query) -> Result<bool, Memory>
        ensures drains { OnOk result (self.new.to_drain ≡ self.old.to_drain) }
        ensures subscribes { IfOk result (λ goes.
            SubscribesBy number query self.old goes self.new) }
    {
        match self.hub.subscribe(query)? {
            Some(id) => {
                self.kept.begin_sub(number, id)?;
                Ok(true)
            }
            None => Ok(false),
        }
    }

    // ---- drains

    /// Finds the links whose subscriptions are to be drained.
    pub(crate) fn find_due(&mut self) -> Result<(), Memory>
        ensures ready { OnOk result (IsReady Pass.Drains self.new) }
        ensures same { OnOk result (self.new
            ≡ record self.old { to_drain = self.new.to_drain }) }
    {
        self.to_drain.clear();
        find_drains(&self.kept, self.hub.due(), &mut self.to_drain)
    }

    // Returns the subscription of a link.
    fn subscription(&self, number: u32) -> Option<SubId>
        ensures { result ≡ sub_in (option_map (λ link. link.role)
            (link_at number (entries_of self.now.kept))) }
    {
        match self.kept.role(number) {
            Some(Role::Subscriber(id)) => Some(id),
            Some(Role::Opening | Role::Feed) | None => None,
        }
    }

    fn drain<N: Links>(&mut self, links: &mut N, number: u32) -> Result<(), Memory>
        ensures calls { Calls N.Links (Visit Pass.Drains number) links.old links.new }
        ensures steps { (tells : TheOption Pat) (refuses : TheOption (TheList ℕ → Bool)) (count : ℕ)
            → TakesStep Pass.Drains number (known_of tells refuses count count)
            (N.trace links.old) self.old result (N.trace links.new) self.new }
        ensures drains { OnOk result (self.new.to_drain ≡ self.old.to_drain) }
    {
        let Some(id) = self.subscription(number) else {
            return Ok(());
        };
        match self.hub.drain(id)? {
            Some(frames) => self.kept.put(number, frames),
            None => {
                self.let_go(links, number);
                Ok(())
            }
        }
    }

    // ---- writes

    fn write<N: Links>(&mut self, links: &mut N, number: u32) -> Result<(), Memory>
        ensures calls { Calls N.Links (Visit Pass.Writes number) links.old links.new }
        ensures steps { (tells : TheOption Pat) (refuses : TheOption (TheList ℕ → Bool)) (count : ℕ)
            → TakesStep Pass.Writes number (known_of tells refuses count count)
            (N.trace links.old) self.old result (N.trace links.new) self.new }
        ensures drains { OnOk result (self.new.to_drain ≡ self.old.to_drain) }
    {
        match links.write(number, self.kept.head(number)) {
            Ok(n) => {
                self.kept.wrote(number, n)?;
                self.close_ended(links, number);
                Ok(())
            }
            Err(LinkFault::Pending) => self.kept.set_writable(number, false),
            Err(LinkFault::Failed) => {
                self.close(links, number);
                Ok(())
            }
            Err(LinkFault::Memory) => Err(Memory),
        }
    }
}
