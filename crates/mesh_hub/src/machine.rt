ghost use Rattle.std.specs.Prelude.{◌≡◌, ◌≤◌, nat_eq, ℕ, Bool, false, List, [], Option, Ok, IfSome, OnOk};
ghost use Rattle.view_types.specs.declared.query.Query.TheVariants.{Port};
ghost use Rattle.watch_events.specs.Lawful.{IsLawfulEvent};
ghost use Rattle.route_match.specs.Asking.{AsksPatterns, facts_of};
ghost use Rattle.request_sim.specs.Faults.{MetPattern};

use bytes::Bytes;
use feed_history::refusal::{HubFault, NoSuchId};
use mesh_base::limits::Limits;
use mesh_base::list::List;
use mesh_base::memory::Memory;
use mesh_base::steps::Steps;
use mesh_base::sub_id::SubId;
use mesh_outside::Patterns;
use request_sim::fault::SimFault;
use view_types::config::Config;
use view_types::query::Query;
use view_types::request::Request;
use view_types::verdict::Verdict;
use watch_events::event::Event;

/// A reply of a machine to a call.
#[derive(Drop)]
pub enum Reply {
    /// An event was applied, or a subscription was added.
    Done,
    Refused(HubFault),
    /// The frames of a drain.
    Frames(SubId, List<Bytes>),
    /// A drain met a message that is too long. The number is the length of the message in bytes.
    TooBig(SubId, u64),
    /// The verdict on a simulated request.
    Verdict(Verdict),
    /// A simulation met a regular expression that is refused.
    Pattern(SimFault),
}

/// A hub, or a substitute for one. Contracts may know its state with the ids that are due, its
/// replies, or both. Where the state is known, so is how many objects a call looks up at most.
pub trait Machine {
    ghost use Rattle.mesh_hub.specs.Hub.{Answers, Cancels, HubState, answer_of, applied, apply_refusal, drained, frames_at, fresh, new_refusal, subscribed, Simulates};
    ghost use Rattle.feed_history.specs.Due.{is_touched};
    ghost use Rattle.feed_history.specs.Optional.{Becomes, Grows};
    ghost use Rattle.subscriptions.specs.Live.{query_at};
    ghost use Rattle.mesh_hub.specs.Costs.{AppliesWithin, FindsWithin};
    ghost use Rattle.mesh_hub.specs.Due.{BecomeDueIfOk, Idles, Leaves, LeavesUnlessMemory, StayUnlessSpent};
    ghost use Rattle.mesh_hub.specs.Replies.{MayApply, MayDrain, MaySubscribe, done_reply, drain_reply, sim_reply};
    ghost use Rattle.mesh_hub.specs.Begins.{Begins};
    ghost use Rattle.mesh_hub.specs.declared.machine.Reply.{Reply as TheReply};

    /// The state, if it is known.
    ghost state: { Self → Option HubState };

    /// Whether an id is due, if that is known.
    ghost due: { Self → Option (ℕ → Bool) };

    /// The replies so far, the oldest first, if they are known.
    ghost replies: { Self → Option (List TheReply) };

    /// Clears the state, and sets the configuration and the limits. A spent machine returns Memory.
    fn begin(&mut self, config: Config, limits: Limits) -> Result<(), Memory>
        requires { 1 ≤ limits.frame_addrs }
        ensures state { Becomes (state self.old) (state self.new)
            (Begins (fresh config limits) result) }
        ensures due { Becomes (due self.old) (due self.new) (λ was now.
            OnOk result ((id : ℕ) → now id ≡ false)) }
        ensures replies { Grows (replies self.old) (replies self.new) [] };

    /// Applies a watch event. The subscriptions whose queries read a mark of the event before it
    /// become due. Returns `Full` if there would be more objects than the limit.
    fn apply<L>(&mut self, event: Event, steps: &mut Steps<L>) -> Result<(), HubFault>
        requires { IsLawfulEvent event }
        ensures state { Becomes (state self.old) (state self.new) (λ old new.
            Answers old (answer_of (apply_refusal old event)) (applied old event) result new) }
        ensures due { Becomes (due self.old) (due self.new) (λ was now.
            IfSome (state self.old) (λ old. BecomeDueIfOk (λ id.
            is_touched old.config old.objects event (query_at id old.subs)) result was now)) }
        ensures steps { IfSome (state self.old) (λ old.
            AppliesWithin old event result steps.old steps.new) }
        ensures replies { Grows (replies self.old) (replies self.new) (done_reply result) }
        ensures may { MayApply result };

    /// Adds a subscription. Returns `IdOrder` if the id is not above the greatest accepted one, and
    /// otherwise `TooManySubs` if as many subscriptions are live as the limit allows.
    fn subscribe<L>(
        &mut self,
        id: SubId,
        query: Query,
        steps: &mut Steps<L>,
    ) -> Result<(), HubFault>
        ensures state { Becomes (state self.old) (state self.new) (λ old new.
            Answers old (answer_of (new_refusal old id.0)) (subscribed old id query) result new) }
        ensures due { Becomes (due self.old) (due self.new)
            (BecomeDueIfOk (λ n. nat_eq n id.0) result) }
        ensures steps { IfSome (state self.old) (λ old.
            FindsWithin old query steps.old steps.new) }
        ensures replies { Grows (replies self.old) (replies self.new) (done_reply result) }
        ensures may { MaySubscribe result };

    /// Ends a live subscription. It does not allocate. A machine whose replies are known always
    /// returns Ok, and adds no reply.
    fn cancel(&mut self, id: SubId) -> Result<(), NoSuchId>
        ensures state { Becomes (state self.old) (state self.new) (λ old new.
            Cancels id.0 old result new) }
        ensures due { Becomes (due self.old) (due self.new) (Leaves id.0) }
        ensures replies { Becomes (replies self.old) (replies self.new) (λ old new.
            (new ≡ old) × (result ≡ Ok tt)) };

    /// Returns the frames that bring a subscriber from the view that it was last shown to its
    /// current one. For an id that is not due there are none, and nothing is allocated. Returns
    /// `NoSuchId` if the id is not live, and `Oversize`, with the length of the first such message,
    /// if a message is longer than the limit; the subscription has then ended.
    fn drain(&mut self, id: SubId) -> Result<List<Bytes>, HubFault>
        ensures state { Becomes (state self.old) (state self.new) (λ old new.
            Answers old (frames_at old id.0) (drained old id.0) result new) }
        ensures due { Becomes (due self.old) (due self.new) (LeavesUnlessMemory id.0 result) }
        ensures idle { IfSome (state self.old) (λ old. IfSome (due self.old) (λ was.
            Idles id.0 old was result self.old self.new)) }
        ensures replies { Grows (replies self.old) (replies self.new) (drain_reply id result) }
        ensures may { MayDrain id result };

    /// Returns the verdict on a request to a port of a Pod. It changes no view and no subscription.
    /// Returns `Pattern` only if a regular expression was refused in this call.
    fn simulate<P: Patterns, L>(
        &mut self,
        request: &Request,
        patterns: &mut P,
        steps: &mut Steps<L>,
    ) -> Result<Verdict, SimFault>
        ensures state { Becomes (state self.old) (state self.new) (λ old new.
            Simulates (facts_of P.Patterns patterns.old) request.now result old new) }
        ensures due { Becomes (due self.old) (due self.new) (StayUnlessSpent (state self.new)) }
        ensures steps { IfSome (state self.old) (λ old. FindsWithin old
            (Port request.now.ns request.now.pod request.now.port) steps.old steps.new) }
        ensures replies { Grows (replies self.old) (replies self.new) (sim_reply result) }
        ensures asks { AsksPatterns P.Patterns patterns.old patterns.new (MetPattern result) };
}
