ghost use Rattle.std.specs.Prelude.{◌≡◌, ◌≤◌, nat_eq, ℕ, false, true, None, Ok, IfOk, OnErr, OnOk, Some};
ghost use Rattle.std.specs.Option.{option_copied};
ghost use Rattle.view_types.specs.declared.query.Query.TheVariants.{Port};
ghost use Rattle.view_rules.specs.Batch.{batch};
ghost use Rattle.view_rules.specs.Fold.{IsOrderlyIfShown};
ghost use Rattle.route_match.specs.Asking.{AsksPatterns, facts_of};
ghost use Rattle.request_sim.specs.Faults.{MetPattern, Simulated};
ghost use Rattle.feed_history.specs.Drains.{IsOrMemory, frames_within};
ghost use Rattle.feed_history.specs.Due.{is_touched};
ghost use Rattle.subscriptions.specs.DueIds.{Rises, is_among};
ghost use Rattle.subscriptions.specs.Live.{endpoint_key, query_at};
ghost use Rattle.subscriptions.specs.Standing.{IsShownNow};
ghost use Rattle.mesh_hub.specs.Greatest.{AreUpTo};
ghost use Rattle.mesh_hub.specs.LiveSubs.{Stand, Stand-prop};

use crate::frames::frames_to;
use crate::held::{LawfulStore, fault_of};
use crate::machine::Machine;
use crate::port::{PeekedAuthz, peek_port};
use batch_laws::laws::same_view_sends_nothing;
use bytes::Bytes;
use event_laws::laws::events_keep_lawful;
use feed_history::refusal::{HubFault, NoSuchId};
use kept_views::views::KeptViews;
use mesh_base::limits::Limits;
use mesh_base::list::List;
use mesh_base::memory::Memory;
use mesh_base::steps::Steps;
use mesh_base::sub_id::SubId;
use mesh_outside::Patterns;
use object_store::store::Store;
use request_sim::decide::{Simulation, decide};
use request_sim::fault::SimFault;
use shared_endpoints::shared::SharedEndpoints;
use std::alloc::Global;
use subscriptions::boxed_view::BoxedView;
use subscriptions::live::Subscription;
use subscriptions::queries::is_for_endpoints;
use subscriptions::subscribers::Subscribers;
use view_rules::laws::views_are_orderly;
use view_types::config::Config;
use view_types::endpoint::EndpointView;
use view_types::query::Query;
use view_types::request::Request;
use view_types::verdict::Verdict;
use view_types::view::View;
use watch_events::event::Event;

/// The objects held and the live subscriptions.
pub struct Hub {
    alloc: Global,
    config: Config,
    limits: Limits,
    store: LawfulStore,
    subscribers: Subscribers<SharedEndpoints, KeptViews>,
    /// The greatest accepted id.
    last: Option<u32>,
    /// Whether memory ran out once.
    spent: bool,
    ghost some_addresses: { 1 ≤ limits.frame_addrs },
    ghost room: { store.limit ≡ limits.objects },
    ghost up_to: { AreUpTo last subscribers.live.subs },
    ghost going: { spent ≡ false → store.spent ≡ false },
    ghost stands: { spent ≡ false → Stand config limits store.objects subscribers } by { Prim.hlevel (Stand-prop) },
}

/// Written by hand, so that a crate that drops a hub needs no proof about its contents.
impl Drop for Hub {
    fn drop(self) {
        let Hub {
            alloc: _,
            config: _config,
            limits: _,
            store: _store,
            subscribers: _subscribers,
            last: _,
            spent: _,
        } = self;
    }
}

impl Hub {
    ghost use Rattle.mesh_hub.specs.Costs.{AppliesWithin, FindsWithin};
    ghost use Rattle.mesh_hub.specs.Due.{IdlesUnlessDue, IsUndueUnlessMemory, StaysDue, StaysDueOr, Undue, is_due};
    ghost use Rattle.mesh_hub.specs.Hub.{Answers, Cancels, LiveSubscription, Simulates, answer_of, applied, apply_refusal, drained, endpoints_at, frames_at, fresh, is_live, new_refusal, state_of, sub_at, subscribed};
    ghost use Rattle.mesh_hub.specs.InUse.{users_in};
    ghost use Rattle.mesh_hub.specs.Replies.{MayApply, MayDrain, MaySubscribe};
    ghost use Rattle.mesh_hub.specs.Sending.{IsDueOrTooLong, IsSent};
    ghost use Rattle.row_views.specs.InUse.{AreInUse};
    ghost use Rattle.watch_events.specs.Lawful.{IsLawfulEvent};

    /// Creates a hub without objects and subscriptions.
    pub fn new(alloc: Global, config: Config, limits: Limits) -> Result<Hub, Memory>
        requires { 1 ≤ limits.frame_addrs }
        ensures state { IfOk result (λ hub. state_of hub ≡ fresh config limits) }
        ensures due { IfOk result (λ hub. (id : ℕ) → is_due hub id ≡ false) }
    {
        let endpoints = SharedEndpoints::new(alloc, &config, &limits)?;
        let views = KeptViews::new(alloc, &config)?;
        Ok(Hub {
            alloc,
            config,
            limits,
            store: LawfulStore::new(alloc, limits.objects),
            subscribers: Subscribers::new(alloc, endpoints, views),
            last: None,
            spent: false,
        })
    }

    /// Applies a watch event. The subscriptions whose queries read a mark of the event before it
    /// become due. Returns `Full` if there would be more objects than the limit.
    pub fn apply<L>(&mut self, event: Event, steps: &mut Steps<L>) -> Result<(), HubFault>
        requires { IsLawfulEvent event }
        ensures answers { Answers (state_of self.old)
            (answer_of (apply_refusal (state_of self.old) event))
            (applied (state_of self.old) event) result (state_of self.new) }
        ensures may { MayApply result }
        ensures due { StaysDueOr (λ id. is_touched self.old.config self.old.store.objects event
            (query_at id (state_of self.old).subs)) result self.old self.new }
        ensures steps { AppliesWithin (state_of self.old) event result steps.old steps.new }
    {
        if self.spent {
            return Err(HubFault::Memory);
        }
        events_keep_lawful();
        let _held = self.store.get();
        let change = match self.store.change(self.alloc, event) {
            Ok(change) => change,
            Err(fault) => return Err(fault_of(&mut self.spent, fault)),
        };
        match self.subscribers.follow(self.store.get(), &change, steps) {
            Ok(()) => Ok(()),
            Err(_) => {
                self.spent = true;
                Err(HubFault::Memory)
            }
        }
    }

    /// Adds a subscription. Returns `IdOrder` if the id is not above the greatest accepted one, and
    /// otherwise `TooManySubs` if as many subscriptions are live as the limit allows.
    pub fn subscribe<L>(
        &mut self,
        id: SubId,
        query: Query,
        steps: &mut Steps<L>,
    ) -> Result<(), HubFault>
        ensures answers { Answers (state_of self.old)
            (answer_of (new_refusal (state_of self.old) id.0))
            (subscribed (state_of self.old) id query) result (state_of self.new) }
        ensures may { MaySubscribe result }
        ensures due { StaysDueOr (λ n. nat_eq n id.0) result self.old self.new }
        ensures steps { FindsWithin (state_of self.old) query steps.old steps.new }
    {
        if self.spent {
            return Err(HubFault::Memory);
        }
        if let Some(last) = self.last {
            if id.0 <= last {
                return Err(HubFault::IdOrder { last });
            }
        }
        if self.subscribers.len() == self.limits.subs as usize {
            return Err(HubFault::TooManySubs {
                live: self.limits.subs,
            });
        }
        self.make_live(id, query, steps)
    }

    /// Ends a live subscription. It does not allocate, and works on a spent hub, too.
    pub fn cancel(&mut self, id: SubId) -> Result<(), NoSuchId>
        ensures state { Cancels id.0 (state_of self.old) result (state_of self.new) }
        ensures due { Undue id.0 self.old self.new }
    {
        if self.subscribers.end(id) {
            Ok(())
        } else {
            Err(NoSuchId)
        }
    }

    /// Returns the frames that bring a subscriber from the view that it was last shown to the view
    /// over the objects held. For an id that is not due there are none, and nothing is allocated.
    /// Returns `NoSuchId` if the id is not live, and `Oversize`, with the length of the first such
    /// message, if a message is longer than the limit; the subscription has then ended.
    pub fn drain(&mut self, id: SubId) -> Result<List<Bytes>, HubFault>
        ensures answers { Answers (state_of self.old) (frames_at (state_of self.old) id.0)
            (drained (state_of self.old) id.0) result (state_of self.new) }
        ensures may { MayDrain id result }
        ensures due { IsUndueUnlessMemory id.0 result self.old self.new }
        ensures idle { IdlesUnlessDue id.0 self.old result self.new }
    {
        if self.spent {
            return Err(HubFault::Memory);
        }
        same_view_sends_nothing();
        if !self.is_live(id) {
            return Err(HubFault::NoSuchId { id: id.0 });
        }
        if !self.subscribers.is_due(id) {
            return Ok(List::new(self.alloc));
        }
        match self.send(id) {
            Ok(frames) => Ok(frames),
            Err(HubFault::Oversize { bytes }) => {
                self.subscribers.end(id);
                Err(HubFault::Oversize { bytes })
            }
            Err(_) => {
                self.spent = true;
                Err(HubFault::Memory)
            }
        }
    }

    /// Returns the live subscriptions that were never drained, or whose queries read a mark of an
    /// event since their last drain, in ascending order of their ids. Once memory ran out, there
    /// are none.
    pub fn due(&self) -> &[SubId]
        ensures each { (id : ℕ) → is_among id result.now ≡ is_due self.now id }
        ensures rise { Rises result.now }
    {
        if self.spent {
            return &[];
        }
        self.subscribers.due()
    }

    /// Returns the verdict of the held policy on a request to a port of a Pod. It changes no view
    /// and no subscription. Returns `Pattern` only if a regular expression was refused in this
    /// call.
    pub fn simulate<P: Patterns, L>(
        &mut self,
        request: &Request,
        patterns: &mut P,
        steps: &mut Steps<L>,
    ) -> Result<Verdict, SimFault>
        ensures answers { Simulates (facts_of P.Patterns patterns.old) request.now result
            (state_of self.old) (state_of self.new) }
        ensures asks { AsksPatterns P.Patterns patterns.old patterns.new (MetPattern result) }
        ensures due { StaysDue self.old self.new }
        ensures subscribers { self.new.subscribers ≡ self.old.subscribers }
        ensures steps { FindsWithin (state_of self.old)
            (Port request.now.ns request.now.pod request.now.port) steps.old steps.new }
    {
        if self.spent {
            return Err(SimFault::Memory);
        }
        match self.verdict(request, patterns, steps) {
            Ok(verdict) => Ok(verdict),
            Err(SimFault::Pattern { route, rule, item }) => {
                Err(SimFault::Pattern { route, rule, item })
            }
            Err(SimFault::Memory) => {
                self.spent = true;
                Err(SimFault::Memory)
            }
        }
    }

    // Returns the verdict on a request, from the view of its port and the authorizations of the
    // matched route.
    fn verdict<P: Patterns, L>(
        &self,
        request: &Request,
        patterns: &mut P,
        steps: &mut Steps<L>,
    ) -> Result<Verdict, SimFault>
        requires going { self.now.spent ≡ false }
        ensures simulated { Simulated self.now.config self.now.store.objects
            (facts_of P.Patterns patterns.old) request.now result }
        ensures asks { AsksPatterns P.Patterns patterns.old patterns.new (MetPattern result) }
        ensures steps { FindsWithin (state_of self.now)
            (Port request.now.ns request.now.pod request.now.port) steps.old steps.new }
    {
        let store = self.store.get();
        let views = self.subscribers.views();
        let Ok(view) = peek_port(views, store, request, steps) else {
            return Err(SimFault::Memory);
        };
        let authz = PeekedAuthz {
            views,
            store,
            ns: &request.ns,
        };
        let simulation = Simulation {
            config: &self.config,
            request,
            authz: &authz,
        };
        decide(self.alloc, &simulation, &view, patterns, steps)
    }

    /// States that after every call, unless memory ran out, the rows that have users in the indexes
    /// are exactly those of the queries of the live subscriptions. So a row is kept only while a
    /// subscription needs it, and a simulation leaves none.
    pub fn rows_in_use_are_those_of_subscriptions(&self)
        ensures { self.now.spent ≡ false → AreInUse self.now.config self.now.store.objects
            (λ id. query_at id (state_of self.now).subs) (users_in self.now) }
    {
        self.subscribers.rows_in_use_are_those_of_queries();
    }

    /// Returns the endpoints of a live subscription to endpoints, over the objects held, and None
    /// for any other id. It does not allocate. Once memory ran out, there are none.
    pub fn endpoints(&self, id: SubId) -> Option<&EndpointView>
        ensures { option_copied result ≡ endpoints_at (state_of self.now) id.0 }
    {
        if self.spent {
            return None;
        }
        self.subscribers.endpoints(id)
    }

    /// Returns the store of the objects held.
    pub fn store(&self) -> &Store
        ensures { result.now.objects ≡ (state_of self.now).objects }
    {
        self.store.get()
    }

    /// Whether a subscription with this id is live.
    pub fn is_live(&self, id: SubId) -> bool
        ensures { result ≡ is_live id.0 (state_of self.now).subs }
    {
        self.subscribers.get(id).is_some()
    }

    // Adds a subscription that nothing refuses.
    fn make_live<L>(
        &mut self,
        id: SubId,
        query: Query,
        steps: &mut Steps<L>,
    ) -> Result<(), HubFault>
        requires going { self.old.spent ≡ false }
        requires accepted { new_refusal (state_of self.old) id.0 ≡ None }
        ensures answers { Answers (state_of self.old)
            (answer_of (new_refusal (state_of self.old) id.0))
            (subscribed (state_of self.old) id query) result (state_of self.new) }
        ensures may { MaySubscribe result }
        ensures due { StaysDueOr (λ n. nat_eq n id.0) result self.old self.new }
        ensures steps { FindsWithin (state_of self.old) query steps.old steps.new }
    {
        match self.subscribers.add(self.store.get(), id, query, steps) {
            Ok(()) => {
                self.last = Some(id.0);
                Ok(())
            }
            Err(_) => {
                self.spent = true;
                Err(HubFault::Memory)
            }
        }
    }

    // Returns the frames that bring a subscriber to its current view. The id is no longer due,
    // unless this fails.
    fn send(&mut self, id: SubId) -> Result<List<Bytes>, HubFault>
        requires going { self.old.spent ≡ false }
        ensures sends { (sub : LiveSubscription)
            → sub_at id.0 (state_of self.old).subs ≡ Some sub
            → IsSent (state_of self.old) id.0 sub result (state_of self.new) }
        ensures due { OnOk result (Undue id.0 self.old self.new) }
        ensures undue { OnErr result (StaysDue self.old self.new) }
        ensures going { self.new.spent ≡ false }
        ensures live { OnErr result (self.new.subscribers.live.subs
            ≡ self.old.subscribers.live.subs) }
        ensures last { self.new.last ≡ self.old.last }
    {
        let Some(sub) = self.subscribers.get(id) else {
            return Err(HubFault::NoSuchId { id: id.0 });
        };
        if is_for_endpoints(&sub.query) {
            return self.subscribers.drain(id);
        }
        match self.next_batch(id, sub) {
            Ok((view, frames)) => {
                self.subscribers.show(id, view);
                Ok(frames)
            }
            Err(fault) => Err(fault),
        }
    }

    // Returns the current view of a subscription, and the frames that bring its subscriber to it.
    fn next_batch(
        &self,
        id: SubId,
        sub: &Subscription,
    ) -> Result<(BoxedView, List<Bytes>), HubFault>
        requires going { self.now.spent ≡ false }
        requires live { sub_at id.0 self.now.subscribers.live.subs ≡ Some sub.now }
        requires other { endpoint_key sub.now.query ≡ None }
        ensures { IsDueOrTooLong (state_of self.now) sub.now result }
    {
        let mut view = self.view_of(id)?;
        let frames = self.frames_to(sub, &mut view)?;
        Ok((BoxedView::new(self.alloc, view)?, frames))
    }

    // Returns the frames that bring a subscriber to a view, which is unchanged unless that fails.
    fn frames_to(&self, sub: &Subscription, view: &mut View) -> Result<List<Bytes>, HubFault>
        requires { IsOrderlyIfShown (Some view.old) }
        ensures same { OnOk result (view.new ≡ view.old) }
        ensures frames { IsOrMemory (frames_within self.now.limits.message
            (batch sub.now.shown view.old self.now.limits)) result }
    {
        frames_to(self.alloc, sub.shown(), view, &self.limits)
    }

    // Returns the current view of a subscription that is not to endpoints.
    fn view_of(&self, id: SubId) -> Result<View, Memory>
        requires going { self.now.spent ≡ false }
        requires live { (sub : LiveSubscription)
            × (sub_at id.0 self.now.subscribers.live.subs ≡ Some sub)
            × (endpoint_key sub.query ≡ None) }
        ensures value { IfOk result (λ view. IsShownNow self.now.config self.now.store.objects view
            (sub_at id.0 self.now.subscribers.live.subs)) }
        ensures orderly { IfOk result (λ view. IsOrderlyIfShown (Some view)) }
    {
        views_are_orderly();
        let _held = self.store.get();
        match self.subscribers.view(id)? {
            Some(view) => Ok(view),
            None => unreachable!(),
        }
    }
}

impl Machine for Hub {
    ghost use Rattle.std.specs.Prelude.{Some, None};
    ghost use Rattle.mesh_hub.specs.Due.{is_due};
    ghost use Rattle.mesh_hub.specs.Hub.{state_of};

    ghost state = { λ hub. Some (state_of hub) };

    ghost due = { λ hub. Some (is_due hub) };

    ghost replies = { λ hub. None };

    fn begin(&mut self, config: Config, limits: Limits) -> Result<(), Memory> {
        if self.spent {
            return Err(Memory);
        }
        match Hub::new(self.alloc, config, limits) {
            Ok(hub) => {
                *self = hub;
                Ok(())
            }
            Err(_) => {
                self.spent = true;
                Err(Memory)
            }
        }
    }

    fn apply<L>(&mut self, event: Event, steps: &mut Steps<L>) -> Result<(), HubFault> {
        Hub::apply(self, event, steps)
    }

    fn subscribe<L>(
        &mut self,
        id: SubId,
        query: Query,
        steps: &mut Steps<L>,
    ) -> Result<(), HubFault> {
        Hub::subscribe(self, id, query, steps)
    }

    fn cancel(&mut self, id: SubId) -> Result<(), NoSuchId> {
        Hub::cancel(self, id)
    }

    fn drain(&mut self, id: SubId) -> Result<List<Bytes>, HubFault> {
        Hub::drain(self, id)
    }

    fn simulate<P: Patterns, L>(
        &mut self,
        request: &Request,
        patterns: &mut P,
        steps: &mut Steps<L>,
    ) -> Result<Verdict, SimFault> {
        Hub::simulate(self, request, patterns, steps)
    }
}
