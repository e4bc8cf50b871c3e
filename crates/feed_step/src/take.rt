// The calls of a machine that lines make, and why a line is refused by its call.
ghost use Rattle.std.specs.Prelude.{◌≡◌, ◌∷◌, [], ◌++◌, IfOk, IfSome, nat_eq};
ghost use Rattle.watch_events.specs.Lawful.{IsLawfulEvent};
ghost use Rattle.mesh_hub.specs.Hub.{applied, apply_refusal, cancelled, new_refusal, sub_at, subscribed};
ghost use Rattle.mesh_hub.specs.Due.{Leaves};
ghost use Rattle.subscriptions.specs.Live.{query_at};
ghost use Rattle.feed_history.specs.Due.{is_touched};
ghost use Rattle.feed_history.specs.Ids.{ended, in_place, unknown_refusal};
ghost use Rattle.feed_history.specs.Optional.{Becomes, Extends};
ghost use Rattle.feed_step.specs.Transcript.{reply_text};
ghost use Rattle.feed_step.specs.LineStep.{DueIf, IsRefusalBy, IsRefusalFor, Makes, Replied, Unreplied, drain_refusal, live_drained, live_unless};

use crate::drain::Drained;
use crate::lives::take_out;
use feed_history::refusal::{HubFault, Refusal};
use mesh_base::list::List;
use mesh_base::memory::Memory;
use mesh_base::steps::Steps;
use mesh_base::sub_id::SubId;
use mesh_hub::machine::Machine;
use request_sim::fault::SimFault;
use std::alloc::Global;
use view_types::query::Query;
use watch_events::event::Event;

// Returns the refusal for a fault.
fn refusal_by(fault: HubFault) -> Result<Option<Refusal>, Memory>
    ensures { IfOk result (IsRefusalBy fault) }
{
    match fault {
        HubFault::Memory => Err(Memory),
        fault => Ok(Some(Refusal::Hub(fault))),
    }
}

// Each function returns why the line is refused, or None.

#[tactic(auto, using(feed_history::proofs::Optional::grows_extends))]
pub(crate) fn apply<H: Machine, L>(
    hub: &mut H,
    event: Event,
    steps: &mut Steps<L>,
) -> Result<Option<Refusal>, Memory>
    requires { IsLawfulEvent event }
    ensures state { IfOk result (λ refusal. Becomes (H.state hub.old) (H.state hub.new) (λ old new.
        Makes (apply_refusal old event) (applied old event) refusal new)) }
    ensures due { IfOk result (λ refusal. Becomes (H.due hub.old) (H.due hub.new) (λ was now.
        IfSome (H.state hub.old) (λ old. DueIf refusal (λ id.
        is_touched old.config old.objects event (query_at id old.subs)) was now))) }
    ensures replies { IfOk result (λ refusal.
        Becomes (H.replies hub.old) (H.replies hub.new) (Replied reply_text refusal [] [])) }
    ensures grows { Becomes (H.replies hub.old) (H.replies hub.new) Extends }
{
    match hub.apply(event, steps) {
        Ok(()) => Ok(None),
        Err(fault) => refusal_by(fault),
    }
}

#[tactic(auto, using(feed_history::proofs::Optional::grows_extends))]
pub(crate) fn subscribe<H: Machine, L>(
    hub: &mut H,
    live: &mut List<u32>,
    id: SubId,
    query: Query,
    steps: &mut Steps<L>,
) -> Result<Option<Refusal>, Memory>
    ensures state { IfOk result (λ refusal. Becomes (H.state hub.old) (H.state hub.new) (λ old new.
        Makes (new_refusal old id.0) (subscribed old id query) refusal new)) }
    ensures due { IfOk result (λ refusal. Becomes (H.due hub.old) (H.due hub.new)
        (DueIf refusal (λ n. nat_eq n id.0))) }
    ensures replies { IfOk result (λ refusal.
        Becomes (H.replies hub.old) (H.replies hub.new) (Replied reply_text refusal [] [])) }
    ensures grows { Becomes (H.replies hub.old) (H.replies hub.new) Extends }
    ensures live { IfOk result (λ refusal.
        live.new ≡ live_unless refusal live.old (live.old ++ id.0 ∷ [])) }
{
    match hub.subscribe(id, query, steps) {
        Ok(()) => {
            live.add(id.0)?;
            Ok(None)
        }
        Err(fault) => refusal_by(fault),
    }
}

pub(crate) fn cancel<H: Machine>(
    alloc: Global,
    hub: &mut H,
    live: &mut List<u32>,
    id: SubId,
) -> Option<Refusal>
    ensures state { Becomes (H.state hub.old) (H.state hub.new) (λ old new.
        Makes (unknown_refusal id.0 (sub_at id.0 old.subs)) (cancelled old id.0) result new) }
    ensures due { Becomes (H.due hub.old) (H.due hub.new) (Leaves id.0) }
    ensures replies { Becomes (H.replies hub.old) (H.replies hub.new) (Unreplied result) }
    ensures grows { Becomes (H.replies hub.old) (H.replies hub.new) Extends }
    ensures live { live.new ≡ live_unless result live.old
        (in_place (λ other. other) id.0 ended live.old) }
{
    match hub.cancel(id) {
        Ok(()) => {
            take_out(alloc, live, id.0);
            None
        }
        Err(_) => Some(Refusal::Hub(HubFault::NoSuchId { id: id.0 })),
    }
}

/// Removes an id from the live ids if its drain has ended it.
pub(crate) fn settle(
    alloc: Global,
    live: &mut List<u32>,
    id: SubId,
    outcome: Drained,
) -> Option<Refusal>
    ensures refusal { result ≡ drain_refusal outcome }
    ensures live { live.new ≡ live_drained id.0 outcome live.old }
{
    match outcome {
        Drained::Sent => None,
        Drained::Ended => {
            take_out(alloc, live, id.0);
            None
        }
        Drained::Undrained(fault) => Some(Refusal::Hub(fault)),
    }
}

/// Returns the refusal of a simulation that met a fault.
pub(crate) fn refusal_for(fault: SimFault) -> Result<Option<Refusal>, Memory>
    ensures { IfOk result (IsRefusalFor fault) }
{
    match fault {
        SimFault::Memory => Err(Memory),
        fault => Ok(Some(Refusal::Sim(fault))),
    }
}
