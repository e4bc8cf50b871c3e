// A hub to which the lines of feeds are applied.
ghost use Rattle.std.specs.Prelude.{◌≡◌, ◌≤◌, ℕ, List as TheList, false, Ok, Some, IfOk, IfSome, OnOk};
ghost use Rattle.std.specs.Option.{option_copied};
ghost use Rattle.session_core.specs.Outboxes.{NoneEmpty};
ghost use Rattle.watch_events.specs.Lawful.{IsLawfulLine};
ghost use Rattle.feed_history.specs.KnownPatterns.{GoOver, known_over};
ghost use Rattle.subscriptions.specs.DueIds.{Rises, is_among};
ghost use Rattle.mesh_hub.specs.Due.{is_due};
ghost use Rattle.mesh_hub.specs.Hub.{fresh, state_of};
ghost use Rattle.fed_hub.specs.HubSteps.{CancelsAt, DrainsAt, SubscribesNext};
ghost use Rattle.fed_hub.specs.LineSteps.{AppliesTo, HasByte, TakesLine, TakesRow};
ghost use Rattle.feed_step.specs.LineStep.{Calls, CallsDue};
ghost use Rattle.feed_step.specs.Sorts.{sort_in};

use crate::answers::{accepted, refused, unread};
use bytes::Bytes;
use feed_history::refusal::{HubFault, Refusal};
use feed_step::frames::FrameWriter;
use feed_step::reader::Plain;
use feed_step::run::Run;
use feed_step::sort::{Sort, sort_of};
use mesh_base::copied::Copied;
use mesh_base::limits::Limits;
use mesh_base::list::List;
use mesh_base::memory::Memory;
use mesh_base::steps::Steps;
use mesh_base::sub_id::SubId;
use mesh_hub::hub::Hub;
use mesh_outside::Patterns;
use std::alloc::Global;
use view_types::config::Config;
use view_types::query::Query;
use watch_events::line::Line;
use watch_events::read::read_row;

/// A hub to which the lines of feeds are applied, with the subscriptions of links.
#[derive(Drop)]
pub struct FedHub {
    alloc: Global,
    config: Config,
    hub: Hub,
    /// The number of accepted requests. Each request subscribes under its number.
    requests: u32,
    /// Whether a `stop` line was accepted in this turn.
    stopped: bool,
    steps: Steps<Hub>,
}

impl FedHub {
    /// Creates a hub without objects and subscriptions.
    pub fn new(alloc: Global, config: Config, limits: Limits) -> Result<FedHub, Memory>
        requires { 1 ≤ limits.frame_addrs }
        ensures config { IfOk result (λ fed. fed.config ≡ config) }
        ensures hub { IfOk result (λ fed. state_of fed.hub ≡ fresh config limits) }
        ensures due { IfOk result (λ fed. (id : ℕ) → is_due fed.hub id ≡ false) }
        ensures requests { IfOk result (λ fed. fed.requests ≡ 0) }
        ensures stopped { IfOk result (λ fed. fed.stopped ≡ false) }
    {
        let hub = Hub::new(alloc, config.copy(alloc)?, limits)?;
        Ok(FedHub {
            alloc,
            config,
            hub,
            requests: 0,
            stopped: false,
            steps: Steps::new(),
        })
    }

    /// Clears the flag of a `stop` line at the beginning of a turn.
    pub fn begin_turn(&mut self)
        ensures { self.new ≡ record self.old { stopped = false } }
    {
        self.stopped = false;
    }

    /// Whether a `stop` line was accepted in this turn.
    pub fn has_stopped(&self) -> bool
        ensures { result ≡ self.now.stopped }
    {
        self.stopped
    }

    /// Returns the subscriptions that are due, in ascending order of their ids.
    pub fn due(&self) -> &[SubId]
        ensures each { (id : ℕ) → is_among id result.now ≡ is_due self.now.hub id }
        ensures rise { Rises result.now }
    {
        self.hub.due()
    }

    /// Subscribes to a query, under the number of its request. Returns None if the limit is
    /// reached.
    pub fn subscribe(&mut self, query: Query) -> Result<Option<SubId>, Memory>
        ensures { IfOk result (SubscribesNext self.old query self.new) }
    {
        let Some(number) = self.requests.checked_add(1) else {
            return Ok(None);
        };
        match self.hub.subscribe(SubId(number), query, &mut self.steps) {
            Ok(()) => {
                self.requests = number;
                Ok(Some(SubId(number)))
            }
            Err(HubFault::Memory) => Err(Memory),
            Err(_) => Ok(None),
        }
    }

    /// Ends a subscription, if it is live.
    pub fn cancel(&mut self, id: SubId)
        ensures { CancelsAt id.0 self.old self.new }
    {
        let _ = self.hub.cancel(id);
    }

    /// Returns the frames that are due to a subscription, or None if a message would be too long,
    /// which ends the subscription.
    pub fn drain(&mut self, id: SubId) -> Result<Option<List<Bytes>>, Memory>
        ensures drains { IfOk result (DrainsAt id.0 self.old self.new) }
        ensures some { IfOk result (λ answer. IfSome answer NoneEmpty) }
    {
        match self.hub.drain(id) {
            Ok(frames) => Ok(Some(frames)),
            Err(HubFault::Memory) => Err(Memory),
            Err(_) => Ok(None),
        }
    }

    /// Applies the line with this number, and appends its answer. The row None is a line that is
    /// longer than the limit.
    pub fn answer<P: Patterns>(
        &mut self,
        patterns: &mut P,
        number: u64,
        row: Option<&[u8]>,
        answers: &mut List<Bytes>,
    ) -> Result<(), Memory>
        ensures applies { OnOk result (AppliesTo self.old self.new number (option_copied row.entry)
            (known_over P.Patterns patterns.old patterns.new) answers.old answers.new) }
        ensures some { OnOk result (NoneEmpty answers.old → NoneEmpty answers.new) }
        ensures goes_on { GoOver P.Patterns patterns.old patterns.new }
    {
        match self.take_row(patterns, number, row)? {
            Some(item) => answers.add(Bytes::from_vec(item.into_vec())?),
            None => Ok(()),
        }
    }

    // Applies a row, and returns its answer, if it has one.
    fn take_row<P: Patterns>(
        &mut self,
        patterns: &mut P,
        number: u64,
        row: Option<&[u8]>,
    ) -> Result<Option<List<u8>>, Memory>
        ensures takes { IfOk result (TakesRow self.old self.new number (option_copied row.entry)
            (known_over P.Patterns patterns.old patterns.new)) }
        ensures some { IfOk result (λ item. IfSome item HasByte) }
        ensures goes_on { GoOver P.Patterns patterns.old patterns.new }
    {
        match read_row(self.alloc, row, &self.config) {
            Ok(line) => self.take_line(patterns, number, line),
            Err(fault) => unread(self.alloc, number, fault),
        }
    }

    // Lines about subscriptions have no place, since a server subscribes for its links.
    fn take_line<P: Patterns>(
        &mut self,
        patterns: &mut P,
        number: u64,
        line: Line,
    ) -> Result<Option<List<u8>>, Memory>
        requires { IsLawfulLine line }
        ensures takes { IfOk result (TakesLine self.old self.new number (Ok line)
            (known_over P.Patterns patterns.old patterns.new)) }
        ensures some { IfOk result (λ item. IfSome item HasByte) }
        ensures goes_on { GoOver P.Patterns patterns.old patterns.new }
    {
        match sort_of(&line) {
            Sort::Nothing => Ok(None),
            Sort::Event => self.apply(patterns, number, line),
            Sort::Verdict => self.simulate(patterns, number, line),
            Sort::Stop => {
                self.stopped = true;
                accepted(self.alloc, number)
            }
            Sort::Subscription => refused(self.alloc, number, Refusal::NotHere),
        }
    }

    fn apply<P: Patterns>(
        &mut self,
        patterns: &mut P,
        number: u64,
        line: Line,
    ) -> Result<Option<List<u8>>, Memory>
        requires lawful { IsLawfulLine line }
        requires event { sort_in line ≡ Sort.Event }
        ensures takes { IfOk result (TakesLine self.old self.new number (Ok line)
            (known_over P.Patterns patterns.old patterns.new)) }
        ensures some { IfOk result (λ item. IfSome item HasByte) }
        ensures goes_on { GoOver P.Patterns patterns.old patterns.new }
    {
        let mut text = Vec::new(self.alloc);
        match self.call(patterns, number, line, &mut text)? {
            None => accepted(self.alloc, number),
            Some(refusal) => refused(self.alloc, number, refusal),
        }
    }

    fn simulate<P: Patterns>(
        &mut self,
        patterns: &mut P,
        number: u64,
        line: Line,
    ) -> Result<Option<List<u8>>, Memory>
        requires lawful { IsLawfulLine line }
        requires verdict { sort_in line ≡ Sort.Verdict }
        ensures takes { IfOk result (TakesLine self.old self.new number (Ok line)
            (known_over P.Patterns patterns.old patterns.new)) }
        ensures some { IfOk result (λ item. IfSome item HasByte) }
        ensures goes_on { GoOver P.Patterns patterns.old patterns.new }
    {
        let mut text = Vec::new(self.alloc);
        match self.call(patterns, number, line, &mut text)? {
            None => Ok(Some(List::from_vec(text))),
            Some(refusal) => refused(self.alloc, number, refusal),
        }
    }

    // Makes the call of a line, without subscriptions of its own. Returns why it is refused, or
    // None.
    fn call<P: Patterns>(
        &mut self,
        patterns: &mut P,
        number: u64,
        line: Line,
        text: &mut Vec<u8>,
    ) -> Result<Option<Refusal>, Memory>
        requires { IsLawfulLine line }
        ensures calls { IfOk result (λ refusal. (live : TheList ℕ) × (live_now : TheList ℕ)
            × Calls (known_over P.Patterns patterns.old patterns.new) number line refusal live
            live_now text.old.items text.new.items (state_of self.old.hub)
            (state_of self.new.hub)) }
        ensures due { IfOk result (λ refusal. CallsDue line refusal (state_of self.old.hub)
            (Some (state_of self.new.hub)) (is_due self.old.hub) (is_due self.new.hub)) }
        ensures goes_on { GoOver P.Patterns patterns.old patterns.new }
        ensures config { self.new.config ≡ self.old.config }
        ensures requests { self.new.requests ≡ self.old.requests }
        ensures stopped { self.new.stopped ≡ self.old.stopped }
    {
        let mut reader = Plain {
            config: &self.config,
        };
        let mut writer = FrameWriter::new(self.alloc);
        let mut live = List::new(self.alloc);
        let mut run = Run {
            reader: &mut reader,
            writer: &mut writer,
            hub: &mut self.hub,
            patterns,
            live: &mut live,
            steps: &mut self.steps,
        };
        run.call(number, line, text)
    }
}
