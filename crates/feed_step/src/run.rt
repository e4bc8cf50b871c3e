ghost use Rattle.std.specs.Prelude.{◌≡◌, [], true, IfOk, IfSome, Ok, slice_get, ◌<◌, ◌+◌, ◌^◌, length};
ghost use Rattle.std.specs.Option.{option_copied};
ghost use Rattle.mesh_base.specs.declared.limits.Limits.{Limits};
ghost use Rattle.view_types.specs.Objects.{ObjectMap};
ghost use Rattle.watch_events.specs.Lawful.{IsLawfulEvent, IsLawfulLine};
ghost use Rattle.watch_events.specs.declared.line.Line.TheVariants as lines;
ghost use Rattle.route_match.specs.Matching.{Pat};
ghost use Rattle.mesh_hub.specs.Due.{Leaves, StayUnlessSpent};
ghost use Rattle.subscriptions.specs.Live.{query_at};
ghost use Rattle.feed_history.specs.Due.{is_touched};
ghost use Rattle.mesh_hub.specs.Hub.{applied, apply_refusal};
ghost use Rattle.feed_history.specs.Optional.{Becomes, Extends};
ghost use Rattle.feed_history.specs.Program.{has_place_in_replay};
ghost use Rattle.feed_history.specs.KnownPatterns.{GoOver, known_over};
ghost use Rattle.feed_step.specs.Transcript.{reply_text, sim_text};
ghost use Rattle.feed_step.specs.LineStep.{Calls, CallsDue, Drains, DueIf, IsSimulated, Makes, Replied, TakesByReplies, TakesFrom, drain_refusal, held_next};

use crate::drain::{Drained, drain};
use crate::frames::FrameWriter;
use crate::lives::id_at;
use crate::reader::RowReader;
use crate::take::{apply, cancel, refusal_for, settle, subscribe};
use feed_history::refusal::Refusal;
use feed_history::text::push_verdict;
use mesh_base::list::List;
use mesh_base::memory::Memory;
use mesh_base::steps::Steps;
use mesh_base::sub_id::SubId;
use mesh_hub::machine::Machine;
use mesh_outside::Patterns;
use view_types::request::Request;
use watch_events::event::Event;
use watch_events::line::Line;

/// A feed that is being processed: the reader of its rows, the machine, and what the lines need
/// besides. It borrows what owns memory.
#[derive(Drop)]
pub struct Run<'r, 'w, 'h, 'p, 'l, 's, R: RowReader, H: Machine, P: Patterns, L> {
    pub reader: &'r mut R,
    /// Writes the frames.
    pub writer: &'w mut FrameWriter,
    pub hub: &'h mut H,
    /// Decides which patterns match, for simulated requests.
    pub patterns: &'p mut P,
    /// The live ids, in ascending order.
    pub live: &'l mut List<u32>,
    /// Counts the objects that the run looks up.
    pub steps: &'s mut Steps<L>,
}

impl<R: RowReader, H: Machine, P: Patterns, L> Run<'_, '_, '_, '_, '_, '_, R, H, P, L> {
    /// Processes the row with this number. Returns why it is refused, or None.
    #[tactic(auto, using(feed_history::proofs::Optional::extends_same))]
    pub fn step(
        &mut self,
        number: u64,
        row: Option<&[u8]>,
        out: &mut Vec<u8>,
    ) -> Result<Option<Refusal>, Memory>
        ensures state { IfOk result (λ refusal. (limits : Limits) (pat : Pat)
            → Becomes (H.state self.old.hub.now) (H.state self.new.hub.now) (λ old new.
            R.follows self.old.reader.now old.objects
            → TakesFrom (R.program self.old.reader.now limits pat)
            (known_over P.Patterns self.old.patterns.now self.new.patterns.now) number
            ((R.program self.old.reader.now limits pat).reads old.objects
            (option_copied row.entry))
            refusal self.old.live.now self.new.live.now out.old.items out.new.items old new)) }
        ensures follows { IfOk result (λ refusal. (limits : Limits) (pat : Pat) (held : ObjectMap)
            → R.follows self.old.reader.now held → R.follows self.new.reader.now
            (held_next held refusal ((R.program self.old.reader.now limits pat).reads held
            (option_copied row.entry)))) }
        ensures replies { IfOk result (λ refusal. IfSome (R.alone self.old.reader.now) (λ reads.
            Becomes (H.replies self.old.hub.now) (H.replies self.new.hub.now)
            (TakesByReplies number (reads (option_copied row.entry)) refusal
            out.old.items out.new.items))) }
        ensures grows { Becomes (H.replies self.old.hub.now) (H.replies self.new.hub.now) Extends }
        ensures goes_on { GoOver P.Patterns self.old.patterns.now self.new.patterns.now }
        ensures program { (limits : Limits) (pat : Pat)
            → R.program self.new.reader.now limits pat ≡ R.program self.old.reader.now limits pat }
        ensures alone { R.alone self.new.reader.now ≡ R.alone self.old.reader.now }
        ensures same_reader { self.new.reader.ghost_name ≡ self.old.reader.ghost_name }
        ensures same_writer { self.new.writer.ghost_name ≡ self.old.writer.ghost_name }
        ensures same_hub { self.new.hub.ghost_name ≡ self.old.hub.ghost_name }
        ensures same_patterns { self.new.patterns.ghost_name ≡ self.old.patterns.ghost_name }
        ensures same_live { self.new.live.ghost_name ≡ self.old.live.ghost_name }
        ensures same_steps { self.new.steps.ghost_name ≡ self.old.steps.ghost_name }
    {
        match self.reader.read(self.writer.alloc, row)? {
            Ok(line) => {
                if self.reader.has_place(&line) {
                    self.call(number, line, out)
                } else {
                    Ok(Some(Refusal::NotHere))
                }
            }
            Err(refusal) => Ok(Some(refusal)),
        }
    }

    /// Drains an id and writes its frames, or the length of a message that is too long. The live
    /// ids stay as they are.
    pub fn drain(&mut self, id: SubId, out: &mut Vec<u8>) -> Result<Drained, Memory>
        ensures state { IfOk result (λ outcome.
            Becomes (H.state self.old.hub.now) (H.state self.new.hub.now)
            (Drains id outcome out.old.items out.new.items)) }
        ensures replies { IfOk result (λ outcome.
            Becomes (H.replies self.old.hub.now) (H.replies self.new.hub.now)
            (Replied reply_text (drain_refusal outcome) out.old.items out.new.items)) }
        ensures grows { Becomes (H.replies self.old.hub.now) (H.replies self.new.hub.now) Extends }
        ensures patterns { self.new.patterns.now ≡ self.old.patterns.now }
        ensures live { self.new.live.now ≡ self.old.live.now }
        ensures due { IfOk result (λ outcome.
            Becomes (H.due self.old.hub.now) (H.due self.new.hub.now) (Leaves id.0)) }
        ensures reader { self.new.reader.now ≡ self.old.reader.now }
        ensures same_reader { self.new.reader.ghost_name ≡ self.old.reader.ghost_name }
        ensures same_writer { self.new.writer.ghost_name ≡ self.old.writer.ghost_name }
        ensures same_hub { self.new.hub.ghost_name ≡ self.old.hub.ghost_name }
        ensures same_patterns { self.new.patterns.ghost_name ≡ self.old.patterns.ghost_name }
        ensures same_live { self.new.live.ghost_name ≡ self.old.live.ghost_name }
        ensures same_steps { self.new.steps.ghost_name ≡ self.old.steps.ghost_name }
    {
        drain(self.writer, self.hub, id, out)
    }

    /// Returns the live id at a place in their order.
    pub fn live_id(&self, place: usize) -> Option<u32>
        ensures value { result ≡ slice_get self.now.live.now place }
        ensures within { IfSome result (λ id. place < length self.now.live.now) }
        ensures fits { IfSome result (λ id. place + 1 < 2 ^ 64) }
    {
        id_at(self.live.as_slice(), place)
    }

    /// Makes the call of a line that has a place. Returns why the line is refused, or None.
    ///
    /// `step` is this for a row. A program with other places, or with an answer of its own for each
    /// line, decides on those by `sort_of`.
    #[tactic(auto, using(feed_history::proofs::Optional::extends_same, crate::proofs::Calls::unreplied_extends))]
    pub fn call(
        &mut self,
        number: u64,
        line: Line,
        out: &mut Vec<u8>,
    ) -> Result<Option<Refusal>, Memory>
        requires { IsLawfulLine line }
        ensures state { IfOk result (λ refusal.
            Becomes (H.state self.old.hub.now) (H.state self.new.hub.now)
            (Calls (known_over P.Patterns self.old.patterns.now self.new.patterns.now) number line
            refusal self.old.live.now self.new.live.now out.old.items out.new.items)) }
        ensures due { IfOk result (λ refusal.
            Becomes (H.due self.old.hub.now) (H.due self.new.hub.now) (λ was now.
            IfSome (H.state self.old.hub.now) (λ old.
            CallsDue line refusal old (H.state self.new.hub.now) was now))) }
        ensures follows { IfOk result (λ refusal. (held : ObjectMap)
            → R.follows self.old.reader.now held
            → R.follows self.new.reader.now (held_next held refusal (Ok line))) }
        ensures replies { IfOk result (λ refusal. has_place_in_replay line ≡ true
            → Becomes (H.replies self.old.hub.now) (H.replies self.new.hub.now)
            (TakesByReplies number (Ok line) refusal out.old.items out.new.items)) }
        ensures grows { Becomes (H.replies self.old.hub.now) (H.replies self.new.hub.now) Extends }
        ensures goes_on { GoOver P.Patterns self.old.patterns.now self.new.patterns.now }
        ensures program { (limits : Limits) (pat : Pat)
            → R.program self.new.reader.now limits pat ≡ R.program self.old.reader.now limits pat }
        ensures alone { R.alone self.new.reader.now ≡ R.alone self.old.reader.now }
        ensures same_reader { self.new.reader.ghost_name ≡ self.old.reader.ghost_name }
        ensures same_writer { self.new.writer.ghost_name ≡ self.old.writer.ghost_name }
        ensures same_hub { self.new.hub.ghost_name ≡ self.old.hub.ghost_name }
        ensures same_patterns { self.new.patterns.ghost_name ≡ self.old.patterns.ghost_name }
        ensures same_live { self.new.live.ghost_name ≡ self.old.live.ghost_name }
        ensures same_steps { self.new.steps.ghost_name ≡ self.old.steps.ghost_name }
    {
        match line {
            Line::Blank => Ok(None),
            Line::Event(event) => self.apply(event),
            Line::Subscribe { id, query } => {
                subscribe(self.hub, self.live, id, query, self.steps)
            }
            Line::Cancel { id } => Ok(cancel(self.writer.alloc, self.hub, self.live, id)),
            Line::Drain { id } => {
                let outcome = drain(self.writer, self.hub, id, out)?;
                Ok(settle(self.writer.alloc, self.live, id, outcome))
            }
            Line::Simulate(request) => self.simulate(number, &request, out),
            Line::Stop => Ok(None),
        }
    }

    // Applies an event, which the reader follows if it is accepted.
    fn apply(&mut self, event: Event) -> Result<Option<Refusal>, Memory>
        requires { IsLawfulEvent event }
        ensures state { IfOk result (λ refusal.
            Becomes (H.state self.old.hub.now) (H.state self.new.hub.now) (λ old new.
            Makes (apply_refusal old event) (applied old event) refusal new)) }
        ensures due { IfOk result (λ refusal.
            Becomes (H.due self.old.hub.now) (H.due self.new.hub.now) (λ was now.
            IfSome (H.state self.old.hub.now) (λ old. DueIf refusal (λ id.
            is_touched old.config old.objects event (query_at id old.subs)) was now))) }
        ensures follows { IfOk result (λ refusal. (held : ObjectMap)
            → R.follows self.old.reader.now held → R.follows self.new.reader.now
            (held_next held refusal (Ok (lines.Event event)))) }
        ensures replies { IfOk result (λ refusal.
            Becomes (H.replies self.old.hub.now) (H.replies self.new.hub.now)
            (Replied reply_text refusal [] [])) }
        ensures grows { Becomes (H.replies self.old.hub.now) (H.replies self.new.hub.now) Extends }
        ensures goes_on { GoOver P.Patterns self.old.patterns.now self.new.patterns.now }
        ensures live { self.new.live.now ≡ self.old.live.now }
        ensures program { (limits : Limits) (pat : Pat)
            → R.program self.new.reader.now limits pat ≡ R.program self.old.reader.now limits pat }
        ensures alone { R.alone self.new.reader.now ≡ R.alone self.old.reader.now }
        ensures same_reader { self.new.reader.ghost_name ≡ self.old.reader.ghost_name }
        ensures same_writer { self.new.writer.ghost_name ≡ self.old.writer.ghost_name }
        ensures same_hub { self.new.hub.ghost_name ≡ self.old.hub.ghost_name }
        ensures same_patterns { self.new.patterns.ghost_name ≡ self.old.patterns.ghost_name }
        ensures same_live { self.new.live.ghost_name ≡ self.old.live.ghost_name }
        ensures same_steps { self.new.steps.ghost_name ≡ self.old.steps.ghost_name }
    {
        let note = self.reader.note(&event)?;
        match apply(self.hub, event, self.steps)? {
            None => {
                self.reader.take(note);
                Ok(None)
            }
            Some(refusal) => Ok(Some(refusal)),
        }
    }

    // Writes the verdict on a request, or returns why its line, which has this number, is refused.
    #[tactic(auto, using(feed_history::proofs::Optional::grows_extends))]
    fn simulate(
        &mut self,
        number: u64,
        request: &Request,
        out: &mut Vec<u8>,
    ) -> Result<Option<Refusal>, Memory>
        ensures state { IfOk result (λ refusal.
            Becomes (H.state self.old.hub.now) (H.state self.new.hub.now)
            (IsSimulated (known_over P.Patterns self.old.patterns.now self.new.patterns.now) number
            request.now refusal out.old.items out.new.items)) }
        ensures due { Becomes (H.due self.old.hub.now) (H.due self.new.hub.now)
            (StayUnlessSpent (H.state self.new.hub.now)) }
        ensures replies { IfOk result (λ refusal.
            Becomes (H.replies self.old.hub.now) (H.replies self.new.hub.now)
            (Replied (sim_text number request.now.ns) refusal out.old.items out.new.items)) }
        ensures grows { Becomes (H.replies self.old.hub.now) (H.replies self.new.hub.now) Extends }
        ensures goes_on { GoOver P.Patterns self.old.patterns.now self.new.patterns.now }
        ensures reader { self.new.reader.now ≡ self.old.reader.now }
        ensures live { self.new.live.now ≡ self.old.live.now }
        ensures same_reader { self.new.reader.ghost_name ≡ self.old.reader.ghost_name }
        ensures same_writer { self.new.writer.ghost_name ≡ self.old.writer.ghost_name }
        ensures same_hub { self.new.hub.ghost_name ≡ self.old.hub.ghost_name }
        ensures same_patterns { self.new.patterns.ghost_name ≡ self.old.patterns.ghost_name }
        ensures same_live { self.new.live.ghost_name ≡ self.old.live.ghost_name }
        ensures same_steps { self.new.steps.ghost_name ≡ self.old.steps.ghost_name }
    {
        match self.hub.simulate(request, self.patterns, self.steps) {
            Ok(verdict) => {
                push_verdict(self.writer.alloc, out, number, &request.ns, &verdict)?;
                Ok(None)
            }
            Err(fault) => refusal_for(fault),
        }
    }
}
