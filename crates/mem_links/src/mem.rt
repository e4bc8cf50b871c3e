// Links that play a script.
ghost use Rattle.std.specs.Prelude.{◌≡◌, ◌≢◌, ◌≤◌, ◌<◌, ◌+◌, [], false, Some, Ok, IfOk, IsErrOf, OnOk, length, vec_len, vec_capacity};
ghost use Rattle.std.specs.Prelude.{List as TheList};
ghost use Rattle.std.specs.Io.{ReadsAtMost, WritesAtMost};
ghost use Rattle.mesh_links.specs.Calls.{AreNew, Continues, close_made, poll_made, read_made, write_made};
ghost use Rattle.mesh_links.specs.Counts.{KeptInCall, KeptInPoll, NoneFalls};
ghost use Rattle.mesh_links.specs.declared.call.LinkCall.{LinkCall};
ghost use Rattle.mesh_outside.specs.Causes.{counted};
ghost use Rattle.mem_links.specs.Counted.{counts_of, is_failed, is_pending};
ghost use Rattle.mem_links.specs.OpenNumbers.{Tells, numbers_of};
ghost use Rattle.mem_links.specs.Told.{IsToldRead, IsToldWrite};

use crate::play::{Play, Spot};
use crate::step::MemStep;
use mesh_base::list::List;
use mesh_base::memory::Memory;
use mesh_links::call::{LinkCall, LinkEvent, ReadGot, WriteGot};
use mesh_links::links::{LinkFault, Links, PollFault};
use std::alloc::Global;

/// Links in memory that play a script, and record the calls.
#[derive(Drop)]
pub struct MemLinks {
    pub script: List<MemStep>,
    /// The calls so far with their results, in order. It has room for the close of each open link.
    pub trace: Vec<LinkCall>,
    /// The number of failed polls.
    pub faults: u64,
    /// The number of failed reads and writes.
    link_faults: u64,
    /// The number of reads and writes that returned Pending.
    pendings: u64,
    play: Play,
    alloc: Global,
    ghost room: { vec_len trace + vec_len play.links ≤ vec_capacity trace },
    ghost told: { Tells trace.items play.last (numbers_of play.links.items) },
}

fn copy(alloc: Global, bytes: &[u8]) -> Result<List<u8>, Memory>
    ensures { IfOk result (λ copied. copied ≡ bytes.now) }
{
    let mut copy = List::new(alloc);
    copy.extend_from_slice(bytes)?;
    Ok(copy)
}

// Converts the result of a read to its form in the trace.
fn told_read(
    alloc: Global,
    looked: Result<(usize, Spot), LinkFault>,
    buf: &[u8],
) -> Result<ReadGot, Memory>
    requires { IfOk looked (λ read. read.0 ≤ length buf.now) }
    ensures { IfOk result (IsToldRead looked buf.now) }
{
    match looked {
        Ok((n, _)) => Ok(ReadGot::Bytes(copy(alloc, &buf[..n])?)),
        Err(LinkFault::Pending) => Ok(ReadGot::Pending),
        Err(LinkFault::Failed) => Ok(ReadGot::Failed),
        Err(LinkFault::Memory) => Err(Memory),
    }
}

fn told_write(accepted: Result<usize, LinkFault>) -> Result<WriteGot, Memory>
    ensures { IfOk result (IsToldWrite accepted) }
{
    match accepted {
        Ok(n) => Ok(WriteGot::Took(n as u64)),
        Err(LinkFault::Pending) => Ok(WriteGot::Pending),
        Err(LinkFault::Failed) => Ok(WriteGot::Failed),
        Err(LinkFault::Memory) => Err(Memory),
    }
}

impl MemLinks {
    /// Creates links at the beginning of a script, before any call.
    pub fn new(alloc: Global, script: List<MemStep>) -> MemLinks
        ensures script { result.script ≡ script }
        ensures trace { result.trace.items ≡ [] }
        ensures counts { ⟦<MemLinks as Links>⟧.counts result ≡ counts_of 0 0 0 }
    {
        MemLinks::playing(alloc, script, true)
    }

    /// Creates links at the beginning of a script; `may_fail` is whether its steps make calls fail.
    pub(crate) fn playing(alloc: Global, script: List<MemStep>, may_fail: bool) -> MemLinks
        ensures script { result.script ≡ script }
        ensures trace { result.trace.items ≡ [] }
        ensures counts { ⟦<MemLinks as Links>⟧.counts result ≡ counts_of 0 0 0 }
        ensures may_fail { result.play.may_fail ≡ may_fail }
    {
        MemLinks {
            script,
            trace: Vec::new(alloc),
            faults: 0,
            link_faults: 0,
            pendings: 0,
            play: Play::new(alloc, may_fail),
            alloc,
        }
    }

    /// Returns the calls so far with their results, the oldest first.
    pub fn trace(&self) -> &[LinkCall]
        ensures { result.now ≡ self.now.trace.items }
    {
        self.trace.as_slice()
    }

    // Makes room for one more call, and for the closes of this number of new links.
    fn make_room(&mut self, new_links: usize) -> Result<(), Memory>
        ensures room { OnOk result
            (vec_len self.new.trace + vec_len self.new.play.links + new_links + 1
            ≤ vec_capacity self.new.trace) }
        ensures trace { self.new.trace.items ≡ self.old.trace.items }
        ensures play { self.new.play ≡ self.old.play }
        ensures script { self.new.script ≡ self.old.script }
        ensures faults { self.new.faults ≡ self.old.faults }
        ensures link_faults { self.new.link_faults ≡ self.old.link_faults }
        ensures pendings { self.new.pendings ≡ self.old.pendings }
    {
        let closes = self.play.open_count().saturating_add(new_links);
        self.trace.reserve(closes.saturating_add(1))?;
        Ok(())
    }

    fn count(&mut self, fault: LinkFault)
        ensures trace { self.new.trace ≡ self.old.trace }
        ensures play { self.new.play ≡ self.old.play }
        ensures script { self.new.script ≡ self.old.script }
        ensures faults { self.new.faults ≡ self.old.faults }
        ensures link_faults { self.new.link_faults
            ≡ counted (is_failed fault) self.old.link_faults }
        ensures pendings { self.new.pendings ≡ counted (is_pending fault) self.old.pendings }
        ensures later { (self.old.link_faults ≤ self.new.link_faults)
            × (self.old.pendings ≤ self.new.pendings) }
    {
        match fault {
            LinkFault::Failed => self.link_faults = self.link_faults.saturating_add(1),
            LinkFault::Pending => self.pendings = self.pendings.saturating_add(1),
            LinkFault::Memory => {}
        }
    }
}

impl Links for MemLinks {
    ghost trace = { λ m. Some m.trace.items };

    ghost counts = { λ m. counts_of m.faults m.link_faults m.pendings };

    fn poll(&mut self, wait: bool) -> Result<List<LinkEvent>, PollFault>
        ensures few { IfOk result (λ events. length events ≤ 1024) }
        ensures fresh { (t : TheList LinkCall) → Some self.old.trace.items ≡ Some t
            → IfOk result (λ events. AreNew t events) }
        ensures traced { Continues (Some self.old.trace.items) (Some self.new.trace.items) (λ t.
            poll_made wait result) }
        ensures cause { KeptInPoll
            (counts_of self.old.faults self.old.link_faults self.old.pendings)
            (counts_of self.new.faults self.new.link_faults self.new.pendings) result }
        ensures may_fail { self.new.play.may_fail ≡ self.old.play.may_fail }
        ensures pendings { self.new.pendings ≡ self.old.pendings }
        ensures sure { self.old.play.may_fail ≡ false → ¬ (IsErrOf result PollFault.Failed) }
    {
        let most = self.play.most_events(self.script.as_slice());
        let Ok(mut shown) = self.play.make_room(self.alloc, most) else {
            return Err(PollFault::Memory);
        };
        let Ok(()) = self.make_room(most) else {
            return Err(PollFault::Memory);
        };
        if self.play.fails(self.script.as_slice()) {
            self.faults = self.faults.saturating_add(1);
            self.trace.push_reserved(LinkCall::Poll { wait, got: None });
            return Err(PollFault::Failed);
        }
        self.play.show(self.script.as_slice(), most, &mut shown);
        let got = Some(List::from_vec(shown.told));
        self.trace.push_reserved(LinkCall::Poll { wait, got });
        Ok(List::from_vec(shown.events))
    }

    fn read(&mut self, link: u32, buf: &mut [u8]) -> Result<usize, LinkFault>
        ensures bound { ReadsAtMost result buf.new }
        ensures traced { Continues (Some self.old.trace.items) (Some self.new.trace.items) (λ t.
            read_made link (length buf.old) result buf.new) }
        ensures cause { KeptInCall link
            (counts_of self.old.faults self.old.link_faults self.old.pendings)
            (counts_of self.new.faults self.new.link_faults self.new.pendings) result }
        ensures may_fail { self.new.play.may_fail ≡ self.old.play.may_fail }
        ensures sure { self.old.play.may_fail ≡ false → ¬ (IsErrOf result LinkFault.Failed) }
    {
        let Ok(()) = self.make_room(0) else {
            return Err(LinkFault::Memory);
        };
        let looked = self.play.look(self.script.as_slice(), link, buf);
        let Ok(got) = told_read(self.alloc, looked, buf) else {
            return Err(LinkFault::Memory);
        };
        let room = buf.len() as u64;
        self.trace.push_reserved(LinkCall::Read { link, room, got });
        self.play.has_read(link, looked);
        match looked {
            Ok((n, _)) => Ok(n),
            Err(fault) => {
                self.count(fault);
                Err(fault)
            }
        }
    }

    fn write(&mut self, link: u32, piece: &[u8]) -> Result<usize, LinkFault>
        ensures bound { WritesAtMost result piece.now }
        ensures some { 0 < length piece.now → result ≢ Ok 0 }
        ensures traced { Continues (Some self.old.trace.items) (Some self.new.trace.items) (λ t.
            write_made link piece.now result) }
        ensures cause { KeptInCall link
            (counts_of self.old.faults self.old.link_faults self.old.pendings)
            (counts_of self.new.faults self.new.link_faults self.new.pendings) result }
        ensures may_fail { self.new.play.may_fail ≡ self.old.play.may_fail }
        ensures sure { self.old.play.may_fail ≡ false → ¬ (IsErrOf result LinkFault.Failed) }
    {
        let Ok(()) = self.make_room(0) else {
            return Err(LinkFault::Memory);
        };
        let accepted = self.play.accepts(link, piece.len());
        let Ok(got) = told_write(accepted) else {
            return Err(LinkFault::Memory);
        };
        let Ok(piece) = copy(self.alloc, piece) else {
            return Err(LinkFault::Memory);
        };
        self.trace
            .push_reserved(LinkCall::Write { link, piece, got });
        self.play.has_written(link, accepted);
        match accepted {
            Ok(n) => Ok(n),
            Err(fault) => {
                self.count(fault);
                Err(fault)
            }
        }
    }

    fn close(&mut self, link: u32)
        ensures traced { Continues (Some self.old.trace.items) (Some self.new.trace.items) (λ t.
            close_made t link) }
        ensures cause { NoneFalls (counts_of self.old.faults self.old.link_faults self.old.pendings)
            (counts_of self.new.faults self.new.link_faults self.new.pendings) }
        ensures may_fail { self.new.play.may_fail ≡ self.old.play.may_fail }
        ensures pendings { self.new.pendings ≡ self.old.pendings }
    {
        if self.play.close(link) {
            self.trace.push_reserved(LinkCall::Close { link });
        }
    }
}
