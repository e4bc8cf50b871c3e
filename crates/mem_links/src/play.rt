// The position in a script, and the open links.
ghost use Rattle.std.specs.Prelude.{◌≡◌, ◌≢◌, ◌≤◌, ◌<◌, ◌+◌, ◌==◌, ◌++◌, ◌∷◌, [], not, ℕ, List, Ok, Err, None, true, false, IfOk, IfSome, OnOk, is_some, filter, length, vec_len, vec_capacity};
ghost use Rattle.std.specs.List.{position_from};
ghost use Rattle.mesh_links.specs.declared.links.LinkFault.TheVariants as faults;
ghost use Rattle.mem_links.specs.OpenNumbers.{Shows, Steps, is_among, numbers_of};

use crate::step::MemStep;
use mesh_links::call::LinkEvent;
use mesh_links::links::LinkFault;
use std::alloc::{AllocError, Global};

/// The greatest number of events of one poll.
const MOST_SHOWN: usize = 1024;

/// The start of the unread bytes of a link: a step, and an offset in its bytes.
#[derive(Clone, Copy, Debug, PartialEq, Eq)]
pub(crate) struct Spot {
    step: usize,
    taken: usize,
}

/// A link that has arrived and is not closed.
#[derive(Debug, Drop)]
pub(crate) struct OpenLink {
    number: u32,
    unread: Spot,
    has_ended: bool,
    /// The greatest number of bytes of one write, after the first step that limits it.
    room: Option<u64>,
    read_fails: bool,
    write_fails: bool,
}

impl OpenLink {
    fn new(number: u32, place: usize) -> OpenLink
        ensures { result.number ≡ number }
    {
        OpenLink {
            number,
            unread: Spot {
                step: place,
                taken: 0,
            },
            has_ended: false,
            room: None,
            read_fails: false,
            write_fails: false,
        }
    }

    // Plays a step of this link. Returns its event, if there is one.
    fn take_step(&mut self, step: &MemStep) -> Option<LinkEvent>
        ensures number { self.new.number ≡ self.old.number }
        ensures shows { (last : ℕ) (numbers : List ℕ) → Steps result last numbers last numbers }
    {
        let number = self.number;
        match step {
            MemStep::Bytes(_, _) => Some(LinkEvent::Readable(number)),
            MemStep::End(_) => {
                self.has_ended = true;
                Some(LinkEvent::Readable(number))
            }
            MemStep::Room(_, room) => {
                self.room = Some(*room);
                if *room > 0 {
                    Some(LinkEvent::Writable(number))
                } else {
                    None
                }
            }
            MemStep::FailRead(_) => {
                self.read_fails = true;
                Some(LinkEvent::Readable(number))
            }
            MemStep::FailWrite(_) => {
                self.write_fails = true;
                Some(LinkEvent::Writable(number))
            }
            MemStep::Arrive(_) | MemStep::FailPoll | MemStep::Tick => None,
        }
    }

    // Records a read that `look` has returned.
    fn has_read(&mut self, looked: Result<(usize, Spot), LinkFault>)
        ensures { self.new.number ≡ self.old.number }
    {
        match looked {
            Ok((_, after)) => self.unread = after,
            Err(LinkFault::Failed) => self.read_fails = false,
            Err(_) => {}
        }
    }

    // Records a write that `accepts` has returned.
    fn has_written(&mut self, accepted: Result<usize, LinkFault>)
        ensures { self.new.number ≡ self.old.number }
    {
        if accepted == Err(LinkFault::Failed) {
            self.write_fails = false;
        }
    }
}

/// The events of a poll: those that it returns, and a copy for the trace.
#[derive(Drop)]
pub(crate) struct Shown {
    pub(crate) events: Vec<LinkEvent>,
    pub(crate) told: Vec<LinkEvent>,
}

impl Shown {
    fn with_capacity(alloc: Global, most: usize) -> Result<Shown, AllocError>
        ensures events { IfOk result (λ shown. shown.events.items ≡ []) }
        ensures told { IfOk result (λ shown. shown.told.items ≡ []) }
        ensures room { IfOk result (λ shown. most ≤ vec_capacity shown.events) }
        ensures told_room { IfOk result (λ shown. most ≤ vec_capacity shown.told) }
    {
        Ok(Shown {
            events: Vec::with_capacity(alloc, most)?,
            told: Vec::with_capacity(alloc, most)?,
        })
    }

    fn push(&mut self, event: LinkEvent)
        requires room { vec_len self.old.events < vec_capacity self.old.events }
        requires told_room { vec_len self.old.told < vec_capacity self.old.told }
        ensures events { self.new.events.items ≡ self.old.events.items ++ event ∷ [] }
        ensures told { self.new.told.items ≡ self.old.told.items ++ event ∷ [] }
        ensures len { vec_len self.new.events ≡ vec_len self.old.events + 1 }
        ensures told_len { vec_len self.new.told ≡ vec_len self.old.told + 1 }
        ensures room { vec_capacity self.new.events ≡ vec_capacity self.old.events }
        ensures told_room { vec_capacity self.new.told ≡ vec_capacity self.old.told }
    {
        self.events.push_reserved(event);
        self.told.push_reserved(event);
    }
}

// Removes the links with the number.
fn take_out(links: &mut Vec<OpenLink>, number: u32)
    ensures items { links.new.items
        ≡ filter (λ link. not (link.number == number)) links.old.items }
    ensures no_more { vec_len links.new ≤ vec_len links.old }
    ensures fewer { is_among number (numbers_of links.old.items) ≡ true
        → vec_len links.new < vec_len links.old }
{
    links.retain(|link| link.number != number);
}

// Returns the index of a link.
fn first_of(links: &[OpenLink], number: u32) -> Option<usize>
    ensures place { IfSome result (λ at. at < length links.now) }
    ensures first { result ≡ position_from (λ link. link.number == number) 0 links.now }
{
    links.iter().position(|link| link.number == number)
}

/// The position in a script, and the open links.
#[derive(Drop)]
pub(crate) struct Play {
    /// Whether steps make calls fail.
    pub(crate) may_fail: bool,
    /// The number of steps that were played.
    place: usize,
    /// The greatest number that has arrived, or 0.
    pub(crate) last: u32,
    /// The open links, in the order of their numbers.
    pub(crate) links: Vec<OpenLink>,
}

impl Play {
    pub(crate) fn new(alloc: Global, may_fail: bool) -> Play
        ensures may_fail { result.may_fail ≡ may_fail }
        ensures last { result.last ≡ 0 }
        ensures open_links { result.links.items ≡ [] }
    {
        Play {
            may_fail,
            place: 0,
            last: 0,
            links: Vec::new(alloc),
        }
    }

    /// Returns the number of open links.
    pub(crate) fn open_count(&self) -> usize
        ensures { result ≡ vec_len self.now.links }
    {
        self.links.len()
    }

    /// Returns the greatest number of events of the next poll.
    pub(crate) fn most_events(&self, script: &[MemStep]) -> usize
        ensures { result ≤ 1024 }
    {
        script.len().saturating_sub(self.place).min(MOST_SHOWN)
    }

    /// Makes room for the links and the events of the next poll.
    pub(crate) fn make_room(&mut self, alloc: Global, most: usize) -> Result<Shown, AllocError>
        ensures open_links { self.new.links.items ≡ self.old.links.items }
        ensures last { self.new.last ≡ self.old.last }
        ensures may_fail { self.new.may_fail ≡ self.old.may_fail }
        ensures links { OnOk result (vec_len self.new.links + most ≤ vec_capacity self.new.links) }
        ensures events { IfOk result (λ shown. shown.events.items ≡ []) }
        ensures told { IfOk result (λ shown. shown.told.items ≡ []) }
        ensures room { IfOk result (λ shown. most ≤ vec_capacity shown.events) }
        ensures told_room { IfOk result (λ shown. most ≤ vec_capacity shown.told) }
    {
        self.links.reserve(most)?;
        Shown::with_capacity(alloc, most)
    }

    /// Whether the next poll fails. If it does, its step is played.
    pub(crate) fn fails(&mut self, script: &[MemStep]) -> bool
        ensures open_links { self.new.links ≡ self.old.links }
        ensures sure { self.old.may_fail ≡ false → result ≡ false }
        ensures last { self.new.last ≡ self.old.last }
        ensures may_fail { self.new.may_fail ≡ self.old.may_fail }
    {
        match script.get(self.place) {
            Some(MemStep::FailPoll) if self.may_fail => {
                self.place += 1;
                true
            }
            _ => false,
        }
    }

    /// Plays the steps of one poll, with at most `most` events.
    pub(crate) fn show(&mut self, script: &[MemStep], most: usize, shown: &mut Shown)
        requires events { shown.old.events.items ≡ [] }
        requires told { shown.old.told.items ≡ [] }
        requires room { most ≤ vec_capacity shown.old.events }
        requires told_room { most ≤ vec_capacity shown.old.told }
        requires links { vec_len self.old.links + most ≤ vec_capacity self.old.links }
        ensures few { vec_len shown.new.events ≤ most }
        ensures grows { vec_len self.new.links ≤ vec_len self.old.links + vec_len shown.new.events }
        ensures told { shown.new.told.items ≡ shown.new.events.items }
        ensures may_fail { self.new.may_fail ≡ self.old.may_fail }
        ensures shows { Shows self.old.last (numbers_of self.old.links.items) shown.new.events.items
            self.new.last (numbers_of self.new.links.items) }
    {
        while shown.events.len() < most {
            let Some(step) = script.get(self.place) else {
                return;
            };
            match step {
                MemStep::FailPoll => return,
                MemStep::Tick => {
                    self.place += 1;
                    return;
                }
                step => {
                    self.place += 1;
                    if let Some(event) = self.take_step(step) {
                        shown.push(event);
                    }
                }
            }
        }
    }

    // Plays a step. Returns its event, if there is one.
    fn take_step(&mut self, step: &MemStep) -> Option<LinkEvent>
        requires { vec_len self.old.links < vec_capacity self.old.links }
        ensures shows { Steps result self.old.last (numbers_of self.old.links.items)
            self.new.last (numbers_of self.new.links.items) }
        ensures place { self.new.place ≡ self.old.place }
        ensures may_fail { self.new.may_fail ≡ self.old.may_fail }
        ensures room { vec_capacity self.new.links ≡ vec_capacity self.old.links }
        ensures grows { vec_len self.new.links ≤ vec_len self.old.links + 1 }
        ensures same { result ≡ None → vec_len self.new.links ≡ vec_len self.old.links }
    {
        match step {
            MemStep::Arrive(number) => self.arrive(*number),
            MemStep::Bytes(number, _)
            | MemStep::End(number)
            | MemStep::Room(number, _)
            | MemStep::FailRead(number)
            | MemStep::FailWrite(number) => {
                let at = self.at(*number)?;
                self.links[at].take_step(step)
            }
            MemStep::FailPoll | MemStep::Tick => None,
        }
    }

    fn arrive(&mut self, number: u32) -> Option<LinkEvent>
        requires { vec_len self.old.links < vec_capacity self.old.links }
        ensures shows { Steps result self.old.last (numbers_of self.old.links.items)
            self.new.last (numbers_of self.new.links.items) }
        ensures place { self.new.place ≡ self.old.place }
        ensures may_fail { self.new.may_fail ≡ self.old.may_fail }
        ensures room { vec_capacity self.new.links ≡ vec_capacity self.old.links }
        ensures grows { vec_len self.new.links ≤ vec_len self.old.links + 1 }
        ensures same { result ≡ None → vec_len self.new.links ≡ vec_len self.old.links }
    {
        if number <= self.last {
            return None;
        }
        self.last = number;
        self.links.push_reserved(OpenLink::new(number, self.place));
        Some(LinkEvent::New(number))
    }

    fn at(&self, number: u32) -> Option<usize>
        ensures place { IfSome result (λ at. at < vec_len self.now.links) }
        ensures there { is_some result ≡ is_among number (numbers_of self.now.links.items) }
    {
        first_of(self.links.as_slice(), number)
    }

    /// Copies unread bytes of a link. Returns their number and the new start of the unread bytes.
    pub(crate) fn look(
        &self,
        script: &[MemStep],
        number: u32,
        buf: &mut [u8],
    ) -> Result<(usize, Spot), LinkFault>
        ensures count { IfOk result (λ read. read.0 ≤ length buf.new) }
        ensures len { length buf.new ≡ length buf.old }
        ensures memory { result ≢ Err faults.Memory }
        ensures sure { self.now.may_fail ≡ false → result ≢ Err faults.Failed }
    {
        let Some(at) = self.at(number) else {
            return Err(LinkFault::Pending);
        };
        let link = &self.links[at];
        if link.read_fails && self.may_fail {
            return Err(LinkFault::Failed);
        }
        let played = &script[..self.place.min(script.len())];
        let from = first_unread(played, number, link.unread);
        if from.step < played.len() {
            return Ok(copy_unread(played, number, from, buf));
        }
        if link.has_ended {
            Ok((0, from))
        } else {
            Err(LinkFault::Pending)
        }
    }

    /// Records a read that `look` has returned.
    pub(crate) fn has_read(&mut self, number: u32, looked: Result<(usize, Spot), LinkFault>)
        ensures open_links { numbers_of self.new.links.items ≡ numbers_of self.old.links.items }
        ensures len { vec_len self.new.links ≡ vec_len self.old.links }
        ensures last { self.new.last ≡ self.old.last }
        ensures may_fail { self.new.may_fail ≡ self.old.may_fail }
    {
        if let Some(at) = self.at(number) {
            self.links[at].has_read(looked);
        }
    }

    /// Returns how many of `len` bytes a write on a link accepts.
    pub(crate) fn accepts(&self, number: u32, len: usize) -> Result<usize, LinkFault>
        ensures bound { IfOk result (λ n. n ≤ len) }
        ensures some { 0 < len → result ≢ Ok 0 }
        ensures memory { result ≢ Err faults.Memory }
        ensures sure { self.now.may_fail ≡ false → result ≢ Err faults.Failed }
    {
        let Some(at) = self.at(number) else {
            return Err(LinkFault::Pending);
        };
        let link = &self.links[at];
        if link.write_fails && self.may_fail {
            return Err(LinkFault::Failed);
        }
        match link.room {
            None => Ok(len),
            Some(0) => Err(LinkFault::Pending),
            Some(room) => Ok((len as u64).min(room) as usize),
        }
    }

    /// Records a write that `accepts` has returned.
    pub(crate) fn has_written(&mut self, number: u32, accepted: Result<usize, LinkFault>)
        ensures open_links { numbers_of self.new.links.items ≡ numbers_of self.old.links.items }
        ensures len { vec_len self.new.links ≡ vec_len self.old.links }
        ensures last { self.new.last ≡ self.old.last }
        ensures may_fail { self.new.may_fail ≡ self.old.may_fail }
    {
        if let Some(at) = self.at(number) {
            self.links[at].has_written(accepted);
        }
    }

    /// Closes a link. Returns whether it was open.
    pub(crate) fn close(&mut self, number: u32) -> bool
        ensures there { result ≡ is_among number (numbers_of self.old.links.items) }
        ensures open_links { numbers_of self.new.links.items
            ≡ filter (λ n. not (n == number)) (numbers_of self.old.links.items) }
        ensures no_more { vec_len self.new.links ≤ vec_len self.old.links }
        ensures fewer { result ≡ true → vec_len self.new.links < vec_len self.old.links }
        ensures last { self.new.last ≡ self.old.last }
        ensures may_fail { self.new.may_fail ≡ self.old.may_fail }
    {
        let is_open = self.at(number).is_some();
        take_out(&mut self.links, number);
        is_open
    }
}

// Returns the bytes that a step sends on a link.
fn bytes_of(step: &MemStep, number: u32) -> &[u8] {
    match step {
        MemStep::Bytes(link, bytes) if *link == number => bytes.as_slice(),
        _ => &[],
    }
}

// Returns the start of the unread bytes: a step with such bytes, or the end of the steps played.
fn first_unread(played: &[MemStep], number: u32, from: Spot) -> Spot {
    let mut spot = from;
    while spot.step < played.len() {
        if spot.taken < bytes_of(&played[spot.step], number).len() {
            return spot;
        }
        spot = Spot {
            step: spot.step + 1,
            taken: 0,
        };
    }
    spot
}

// Copies bytes to the front of the buffer. Returns their number.
fn copy_front(bytes: &[u8], buf: &mut [u8]) -> usize
    ensures count { result ≤ length buf.old }
    ensures len { length buf.new ≡ length buf.old }
    ensures bytes { result ≤ length bytes.now }
{
    let n = bytes.len().min(buf.len());
    buf[..n].copy_from_slice(&bytes[..n]);
    n
}

// Fills the buffer with unread bytes, as far as there are any.
fn copy_unread(played: &[MemStep], number: u32, from: Spot, buf: &mut [u8]) -> (usize, Spot)
    ensures count { result.0 ≤ length buf.new }
    ensures len { length buf.new ≡ length buf.old }
{
    let mut spot = from;
    let mut count = 0;
    while spot.step < played.len() {
        let bytes = bytes_of(&played[spot.step], number);
        let taken = spot.taken.min(bytes.len());
        let n = copy_front(&bytes[taken..], &mut buf[count..]);
        count += n;
        if taken + n < bytes.len() {
            spot.taken = taken + n;
            return (count, spot);
        }
        spot = Spot {
            step: spot.step + 1,
            taken: 0,
        };
    }
    (count, spot)
}
