ghost use Rattle.std.specs.Prelude.{◌≡◌, ◌+◌, ◌-◌, ◌^◌, ◌<◌, ◌++◌, ◌∷◌, [], Some, None, Ok, IfOk, IfSome, take};
ghost use Rattle.std.specs.Option.{option_copied};
ghost use Rattle.route_match.specs.Asking.{AsksPatterns};
ghost use Rattle.request_sim.specs.Faults.{MetPattern};
ghost use Rattle.feed_history.specs.Drains.{IsOrMemory};
ghost use Rattle.feed_history.specs.Optional.{Grows};
ghost use Rattle.mesh_hub.specs.Replies.{MayApply, MayDrain, MaySubscribe, done_reply, drain_reply, sim_reply};
ghost use Rattle.mesh_hub.specs.Scripts.{IsVerdictOrMemory, apply_answer, drain_answer, given_after, given_after_verdict, next_reply, simulate_answer, subscribe_answer};

use crate::machine::{Machine, Reply};
use bytes::Bytes;
use feed_history::refusal::{HubFault, NoSuchId};
use mesh_base::copied::Copied;
use mesh_base::limits::Limits;
use mesh_base::list::List;
use mesh_base::memory::Memory;
use mesh_base::steps::Steps;
use mesh_base::sub_id::SubId;
use mesh_outside::Patterns;
use request_sim::fault::SimFault;
use std::alloc::Global;
use view_types::config::Config;
use view_types::query::Query;
use view_types::request::Request;
use view_types::verdict::Verdict;
use watch_events::event::Event;

/// A machine that returns the replies of its script, one after another, and keeps no objects. If
/// the next reply is no possible result of a call, or there is none, the call returns Memory and
/// the script does not advance. `simulate` matches no regular expression.
#[derive(Drop)]
pub struct ScriptMachine {
    /// The script. No call changes it.
    pub replies: List<Reply>,
    /// How many of the replies were used.
    pub given: u32,
    pub alloc: Global,
}

impl ScriptMachine {
    // Returns the next reply, if there is one and the count does not overflow.
    fn next(&self) -> Option<&Reply>
        ensures is { option_copied result ≡ next_reply self.now.replies self.now.given }
        ensures counted { IfSome result (λ reply. self.now.given + 1 < 2 ^ 32) }
        ensures next { IfSome result (λ reply.
            take (self.now.given + 1) self.now.replies
            ≡ take self.now.given self.now.replies ++ reply.now ∷ []) }
    {
        if self.given == u32::MAX {
            return None;
        }
        self.replies.as_slice().get(self.given as usize)
    }
}

// Copies a list of frames. The copies share their bytes.
fn copied(alloc: Global, frames: &List<Bytes>) -> Result<List<Bytes>, Memory>
    ensures { IfOk result (λ copy. copy ≡ frames.now) }
{
    let mut copy = List::new(alloc);
    for frame in frames.as_slice() {
        copy.add(frame.clone()?)?;
    }
    Ok(copy)
}

impl Machine for ScriptMachine {
    ghost use Rattle.std.specs.Prelude.{Some, None, take};

    ghost state = { λ machine. None };

    ghost due = { λ machine. None };

    ghost replies = { λ machine. Some (take machine.given machine.replies) };

    fn begin(&mut self, _config: Config, _limits: Limits) -> Result<(), Memory>
        ensures done { result ≡ Ok tt }
        ensures replies { Grows (Some (take self.old.given self.old.replies))
            (Some (take self.new.given self.new.replies)) [] }
        ensures script { self.new.replies ≡ self.old.replies }
        ensures given { self.new.given ≡ self.old.given }
    {
        Ok(())
    }

    fn apply<L>(&mut self, _event: Event, _steps: &mut Steps<L>) -> Result<(), HubFault>
        ensures answer { result ≡ apply_answer (next_reply self.old.replies self.old.given) }
        ensures replies { Grows (Some (take self.old.given self.old.replies))
            (Some (take self.new.given self.new.replies)) (done_reply result) }
        ensures may { MayApply result }
        ensures script { self.new.replies ≡ self.old.replies }
        ensures given { self.new.given ≡ given_after result self.old.given }
    {
        match self.next() {
            Some(Reply::Done) => {
                self.given += 1;
                Ok(())
            }
            Some(Reply::Refused(HubFault::Full { held })) => {
                let held = *held;
                self.given += 1;
                Err(HubFault::Full { held })
            }
            _ => Err(HubFault::Memory),
        }
    }

    fn subscribe<L>(
        &mut self,
        _id: SubId,
        _query: Query,
        _steps: &mut Steps<L>,
    ) -> Result<(), HubFault>
        ensures answer { result ≡ subscribe_answer (next_reply self.old.replies self.old.given) }
        ensures replies { Grows (Some (take self.old.given self.old.replies))
            (Some (take self.new.given self.new.replies)) (done_reply result) }
        ensures may { MaySubscribe result }
        ensures script { self.new.replies ≡ self.old.replies }
        ensures given { self.new.given ≡ given_after result self.old.given }
    {
        match self.next() {
            Some(Reply::Done) => {
                self.given += 1;
                Ok(())
            }
            Some(Reply::Refused(HubFault::TooManySubs { live })) => {
                let live = *live;
                self.given += 1;
                Err(HubFault::TooManySubs { live })
            }
            Some(Reply::Refused(HubFault::IdOrder { last })) => {
                let last = *last;
                self.given += 1;
                Err(HubFault::IdOrder { last })
            }
            _ => Err(HubFault::Memory),
        }
    }

    fn cancel(&mut self, _id: SubId) -> Result<(), NoSuchId>
        ensures done { result ≡ Ok tt }
        ensures script { self.new.replies ≡ self.old.replies }
        ensures given { self.new.given ≡ self.old.given }
    {
        Ok(())
    }

    fn drain(&mut self, id: SubId) -> Result<List<Bytes>, HubFault>
        ensures answer { IsOrMemory (drain_answer id (next_reply self.old.replies self.old.given))
            result }
        ensures replies { Grows (Some (take self.old.given self.old.replies))
            (Some (take self.new.given self.new.replies)) (drain_reply id result) }
        ensures may { MayDrain id result }
        ensures script { self.new.replies ≡ self.old.replies }
        ensures given { self.new.given ≡ given_after result self.old.given }
    {
        match self.next() {
            Some(Reply::Frames(of, frames)) if *of == id => {
                let frames = copied(self.alloc, frames)?;
                self.given += 1;
                Ok(frames)
            }
            Some(Reply::TooBig(of, bytes)) if *of == id => {
                let bytes = *bytes;
                self.given += 1;
                Err(HubFault::Oversize { bytes })
            }
            Some(Reply::Refused(HubFault::NoSuchId { id: of })) if *of == id.0 => {
                self.given += 1;
                Err(HubFault::NoSuchId { id: id.0 })
            }
            _ => Err(HubFault::Memory),
        }
    }

    fn simulate<P: Patterns, L>(
        &mut self,
        _request: &Request,
        _patterns: &mut P,
        _steps: &mut Steps<L>,
    ) -> Result<Verdict, SimFault>
        ensures answer { IsVerdictOrMemory (simulate_answer
            (next_reply self.old.replies self.old.given)) result }
        ensures replies { Grows (Some (take self.old.given self.old.replies))
            (Some (take self.new.given self.new.replies)) (sim_reply result) }
        ensures asks { AsksPatterns P.Patterns _patterns.old _patterns.new (MetPattern result) }
        ensures script { self.new.replies ≡ self.old.replies }
        ensures given { self.new.given ≡ given_after_verdict result self.old.given }
    {
        match self.next() {
            Some(Reply::Verdict(verdict)) => {
                let verdict = verdict.copy(self.alloc)?;
                self.given += 1;
                Ok(verdict)
            }
            _ => Err(SimFault::Memory),
        }
    }
}
