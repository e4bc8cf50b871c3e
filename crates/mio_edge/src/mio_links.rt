// Links over sockets.
ghost use Rattle.std.specs.Prelude.{◌≡◌, ◌≢◌, ◌+◌, ◌-◌, ◌^◌, ◌<◌, ◌≤◌, ◌++◌, ℕ, Ok, Err, Some, None, List, IfOk, OnErr, IsErrOf, length, vec_len, vec_capacity};
ghost use Rattle.std.specs.Io.{ReadsAtMost, WritesAtMost};
ghost use Rattle.std.specs.Net.Grammar.{IsSocketText};
ghost use Rattle.mesh_outside.specs.Causes.{counted};
ghost use Rattle.mio.specs.Events.{items, capacity as events_capacity};
ghost use Rattle.mesh_links.specs.Calls.{AreNew, Continues, close_made, poll_made, read_made, write_made};
ghost use Rattle.mesh_links.specs.Counts.{KeptInCall, KeptInPoll, NoneFalls};
ghost use Rattle.mesh_links.specs.declared.call.LinkCall.{LinkCall};
ghost use Rattle.mio_edge.specs.Answers.{counts_of, is_failed, is_pending, is_poll_failed};
ghost use Rattle.mio_edge.specs.Numbers.{Numbered};
ghost use Rattle.mio_edge.specs.Shown.{shown_of};
ghost use Rattle.mio_edge.specs.Streams.{Closes, Reads, Writes};

use crate::bound::Bound;
use crate::open_links::{OpenLink, place};
use crate::ready::{Accepting, has_listener, limit, show_all, wait_for};
use mesh_base::list::List;
use mesh_links::call::LinkEvent;
use mesh_links::links::{LinkFault, Links, PollFault};
use mio::event::Source;
use mio::net::TcpStream;
use mio::{Events, Poll};
use std::alloc::{AllocError, Global};
use std::io::{self, ErrorKind, Read, Write};
use std::net::{AddrParseError, Net, SocketAddr};
use std::sync::Wait;

/// The greatest number of events of one poll.
const MOST_SHOWN: usize = 1024;

/// The greatest number of connections that one poll accepts. The limit lets it poll open links too.
const MOST_NEW: usize = 64;

/// The most sockets that one poll returns. With two events each, they leave room for new links.
const MOST_READY: usize = 480;

/// Why there is no listener.
#[derive(Clone, Copy, Debug)]
pub enum ListenFault {
    Memory,
    /// The system refused the address, with its reason, or the string is not an address.
    Failed(Option<io::Error>),
}

impl From<AllocError> for ListenFault {
    fn from(_e: AllocError) -> ListenFault {
        ListenFault::Memory
    }
}

impl From<AddrParseError> for ListenFault {
    fn from(_e: AddrParseError) -> ListenFault {
        ListenFault::Failed(None)
    }
}

impl From<io::Error> for ListenFault {
    fn from(error: io::Error) -> ListenFault {
        ListenFault::Failed(Some(error))
    }
}

/// Links over the connections of a listener.
#[derive(Drop)]
pub struct MioLinks<'r, R, S = TcpStream> {
    rt: &'r R,
    alloc: Global,
    poll: Poll,
    ready: Events,
    listener: Bound,
    accepting: Accepting,
    /// The open links, by number.
    links: Vec<OpenLink<S>>,
    /// The number of the newest link, or 0.
    last: u32,
    /// The number of failures of polls, and of reads and writes of all links.
    faults: u64,
    /// The number of reads and writes of all links that returned Pending.
    pendings: u64,
    ghost few: { events_capacity ready ≡ 480 },
}

impl<'r, R: Net + Wait> MioLinks<'r, R> {
    /// Listens at an address with a port, such as `127.0.0.1:8086`.
    pub fn listen(rt: &'r R, alloc: Global, address: &str) -> Result<MioLinks<'r, R>, ListenFault>
        ensures address { IfOk result (λ links.
            IsSocketText address.now links.listener.address) }
        ensures counts { IfOk result (λ links. ⟦<MioLinks<'r, R> as Links>⟧.counts links
            ≡ counts_of 0 0) }
        ensures first { IfOk result (λ links. links.last ≡ 0) }
    {
        let at: SocketAddr = address.parse()?;
        let ready = Events::with_capacity(alloc, MOST_READY)?;
        let poll = Poll::new(rt)?;
        let mut listener = Bound::listen(rt, at)?;
        listener.watch(poll.registry())?;
        Ok(MioLinks {
            rt,
            alloc,
            poll,
            ready,
            listener,
            accepting: Accepting::Now,
            links: Vec::new(alloc),
            last: 0,
            faults: 0,
            pendings: 0,
        })
    }
}

impl<'r, R, S> MioLinks<'r, R, S> {
    // Counts a failure.
    fn failed(&mut self) -> LinkFault
        ensures faults { self.new.faults ≡ counted (is_failed (Err result)) self.old.faults }
        ensures pendings { self.new.pendings ≡ counted (is_pending (Err result)) self.old.pendings }
        ensures later { (self.old.faults ≤ self.new.faults) ×
            (self.old.pendings ≤ self.new.pendings) }
        ensures none { result ≢ LinkFault.Memory }
    {
        self.faults = self.faults.saturating_add(1);
        LinkFault::Failed
    }

    // Counts a result Pending.
    fn pending(&mut self) -> LinkFault
        ensures faults { self.new.faults ≡ counted (is_failed (Err result)) self.old.faults }
        ensures pendings { self.new.pendings ≡ counted (is_pending (Err result)) self.old.pendings }
        ensures later { (self.old.faults ≤ self.new.faults) ×
            (self.old.pendings ≤ self.new.pendings) }
        ensures none { result ≢ LinkFault.Memory }
    {
        self.pendings = self.pendings.saturating_add(1);
        LinkFault::Pending
    }

    // Closes a link, if it is open.
    fn close_link(&mut self, link: u32)
    where
        S: Source + Drop,
        ensures closes { Closes link self.old.links.items self.new.links.items }
        ensures faults { self.new.faults ≡ self.old.faults }
        ensures pendings { self.new.pendings ≡ self.old.pendings }
    {
        let Some(at) = place(self.links.as_slice(), link) else {
            return;
        };
        let mut closed = self.links.remove(at);
        let _ = self.poll.registry().deregister(&mut closed.stream);
        if self.accepting == Accepting::Soon {
            self.accepting = Accepting::Now;
        }
    }
}

impl<'r, R, S: Source> MioLinks<'r, R, S> {
    // Returns the error of a link: Pending after a signal, and the next poll shows the link again.
    fn fault(&mut self, at: usize, kind: ErrorKind) -> LinkFault
        requires { at < vec_len self.old.links }
        ensures faults { self.new.faults ≡ counted (is_failed (Err result)) self.old.faults }
        ensures pendings { self.new.pendings ≡ counted (is_pending (Err result)) self.old.pendings }
        ensures later { (self.old.faults ≤ self.new.faults) ×
            (self.old.pendings ≤ self.new.pendings) }
        ensures none { result ≢ LinkFault.Memory }
    {
        if kind == ErrorKind::WouldBlock {
            return self.pending();
        }
        if kind == ErrorKind::Interrupted && self.links[at].watch_again(self.poll.registry()) {
            return self.pending();
        }
        self.failed()
    }

    // Reads from the stream of a link. Only failures and results Pending are counted.
    fn read_link(&mut self, link: u32, buf: &mut [u8]) -> Result<usize, LinkFault>
    where
        S: Read,
        ensures bound { ReadsAtMost result buf.new }
        ensures stream { IfOk result (λ n. Reads link S.remaining n buf.new
            self.old.links.items self.new.links.items) }
        ensures cause { KeptInCall link (counts_of self.old.faults self.old.pendings)
            (counts_of self.new.faults self.new.pendings) result }
        ensures faults { self.new.faults ≡ counted (is_failed result) self.old.faults }
        ensures pendings { self.new.pendings ≡ counted (is_pending result) self.old.pendings }
        ensures none { ¬ (IsErrOf result LinkFault.Memory) }
    {
        let Some(at) = place(self.links.as_slice(), link) else {
            return Err(self.failed());
        };
        match self.links[at].read(buf) {
            Ok(n) => Ok(n),
            Err(error) => Err(self.fault(at, error.kind())),
        }
    }

    // Writes to the stream of a link. Only failures and results Pending are counted.
    fn write_link(&mut self, link: u32, piece: &[u8]) -> Result<usize, LinkFault>
    where
        S: Write,
        ensures bound { WritesAtMost result piece.now }
        ensures some { 0 < length piece.now → result ≢ Ok 0 }
        ensures stream { IfOk result (λ n. Writes link S.contents n piece.now
            self.old.links.items self.new.links.items) }
        ensures cause { KeptInCall link (counts_of self.old.faults self.old.pendings)
            (counts_of self.new.faults self.new.pendings) result }
        ensures faults { self.new.faults ≡ counted (is_failed result) self.old.faults }
        ensures pendings { self.new.pendings ≡ counted (is_pending result) self.old.pendings }
        ensures none { ¬ (IsErrOf result LinkFault.Memory) }
    {
        let Some(at) = place(self.links.as_slice(), link) else {
            return Err(self.failed());
        };
        match self.links[at].write(piece) {
            Ok(n) if n > 0 || piece.is_empty() => Ok(n),
            Ok(_) => Err(self.failed()),
            Err(error) => Err(self.fault(at, error.kind())),
        }
    }
}

impl<'r, R> MioLinks<'r, R> {
    // Accepts the waiting connections, each as a new link.
    fn accept_all(&mut self, shown: &mut Vec<LinkEvent>)
        requires links { vec_len self.old.links + 64 ≤ vec_capacity self.old.links }
        requires room { vec_len shown.old + 64 ≤ vec_capacity shown.old }
        ensures len { vec_len shown.new ≤ vec_len shown.old + 64 }
        ensures capacity { vec_capacity shown.new ≡ vec_capacity shown.old }
        ensures numbered { (first : ℕ) → Numbered first self.old.last shown.old.items
            → Numbered first self.new.last shown.new.items }
        ensures ready { self.new.ready ≡ self.old.ready }
        ensures faults { self.new.faults ≡ self.old.faults }
        ensures pendings { self.new.pendings ≡ self.old.pendings }
    {
        if has_listener(&self.ready) {
            self.accepting = Accepting::Now;
        }
        for _ in 0..MOST_NEW {
            if !self.accept(shown) {
                return;
            }
        }
    }

    // Accepts a connection, unless the numbers are used up. Returns whether another may be waiting.
    fn accept(&mut self, shown: &mut Vec<LinkEvent>) -> bool
        requires links { vec_len self.old.links < vec_capacity self.old.links }
        requires room { vec_len shown.old < vec_capacity shown.old }
        ensures links { vec_len self.new.links ≤ vec_len self.old.links + 1 }
        ensures links_room { vec_capacity self.new.links ≡ vec_capacity self.old.links }
        ensures len { vec_len shown.new ≤ vec_len shown.old + 1 }
        ensures capacity { vec_capacity shown.new ≡ vec_capacity shown.old }
        ensures numbered { (first : ℕ) → Numbered first self.old.last shown.old.items
            → Numbered first self.new.last shown.new.items }
        ensures ready { self.new.ready ≡ self.old.ready }
        ensures faults { self.new.faults ≡ self.old.faults }
        ensures pendings { self.new.pendings ≡ self.old.pendings }
    {
        if self.accepting == Accepting::AtEvent {
            return false;
        }
        if self.last == u32::MAX {
            self.accepting = Accepting::AtEvent;
            return false;
        }
        match self.listener.accept() {
            Ok(stream) => {
                self.accepting = Accepting::Now;
                self.add(stream, shown);
                true
            }
            Err(error) => self.accept_later(error.kind()),
        }
    }

    // Sets when to accept again after an error. Returns whether that is at once. The connection is
    // gone if it was aborted; it is still waiting if there are too many open files, for example.
    fn accept_later(&mut self, kind: ErrorKind) -> bool
        ensures links { self.new.links ≡ self.old.links }
        ensures last { self.new.last ≡ self.old.last }
        ensures ready { self.new.ready ≡ self.old.ready }
        ensures faults { self.new.faults ≡ self.old.faults }
        ensures pendings { self.new.pendings ≡ self.old.pendings }
    {
        if kind == ErrorKind::ConnectionAborted {
            return true;
        }
        self.accepting = if kind == ErrorKind::WouldBlock {
            Accepting::AtEvent
        } else {
            Accepting::Soon
        };
        false
    }

    // Opens a link for a connection, whose small writes are not delayed. One that the system does
    // not watch is closed.
    fn add(&mut self, stream: TcpStream, shown: &mut Vec<LinkEvent>)
        requires number { self.old.last < 2 ^ 32 - 1 }
        requires links { vec_len self.old.links < vec_capacity self.old.links }
        requires room { vec_len shown.old < vec_capacity shown.old }
        ensures links { vec_len self.new.links ≤ vec_len self.old.links + 1 }
        ensures links_room { vec_capacity self.new.links ≡ vec_capacity self.old.links }
        ensures len { vec_len shown.new ≤ vec_len shown.old + 1 }
        ensures capacity { vec_capacity shown.new ≡ vec_capacity shown.old }
        ensures numbered { (first : ℕ) → Numbered first self.old.last shown.old.items
            → Numbered first self.new.last shown.new.items }
        ensures ready { self.new.ready ≡ self.old.ready }
        ensures faults { self.new.faults ≡ self.old.faults }
        ensures pendings { self.new.pendings ≡ self.old.pendings }
    {
        let number = self.last + 1;
        let mut link = OpenLink { number, stream };
        if link.stream.set_nodelay(true).is_ok() && link.watch(self.poll.registry()) {
            self.open(link, shown);
        }
    }

    // Opens a link, and shows it as new.
    fn open(&mut self, link: OpenLink<TcpStream>, shown: &mut Vec<LinkEvent>)
        requires number { self.old.last < link.number }
        requires links { vec_len self.old.links < vec_capacity self.old.links }
        requires room { vec_len shown.old < vec_capacity shown.old }
        ensures links { vec_len self.new.links ≡ vec_len self.old.links + 1 }
        ensures links_room { vec_capacity self.new.links ≡ vec_capacity self.old.links }
        ensures len { vec_len shown.new ≡ vec_len shown.old + 1 }
        ensures capacity { vec_capacity shown.new ≡ vec_capacity shown.old }
        ensures numbered { (first : ℕ) → Numbered first self.old.last shown.old.items
            → Numbered first self.new.last shown.new.items }
        ensures ready { self.new.ready ≡ self.old.ready }
        ensures faults { self.new.faults ≡ self.old.faults }
        ensures pendings { self.new.pendings ≡ self.old.pendings }
    {
        self.last = link.number;
        shown.push_reserved(LinkEvent::New(link.number));
        self.links.push_reserved(link);
    }
}

impl<'r, R: Wait> Links for MioLinks<'r, R> {
    ghost trace = { λ m. None };

    ghost counts = { λ m. counts_of m.faults m.pendings };

    fn poll(&mut self, wait: bool) -> Result<List<LinkEvent>, PollFault>
        ensures few { IfOk result (λ events. length events ≤ 1024) }
        ensures fresh { (t : List LinkCall) → None ≡ Some t
            → IfOk result (λ events. AreNew t events) }
        ensures traced { Continues None None (λ t. poll_made wait result) }
        ensures cause { KeptInPoll (counts_of self.old.faults self.old.pendings)
            (counts_of self.new.faults self.new.pendings) result }
        ensures numbered { IfOk result (λ events. Numbered self.old.last self.new.last events) }
        ensures last { OnErr result (self.new.last ≡ self.old.last) }

        // After the new links come the events of all sockets that are ready.
        ensures shows { IfOk result (λ events. (opened : List LinkEvent)
            × (events ≡ opened ++ shown_of (items self.new.ready))) }

        // Only failures are counted.
        ensures faults { self.new.faults ≡ counted (is_poll_failed result) self.old.faults }
        ensures pendings { self.new.pendings ≡ self.old.pendings }
    {
        let Ok(mut shown) = Vec::with_capacity(self.alloc, MOST_SHOWN) else {
            return Err(PollFault::Memory);
        };
        if self.links.reserve(MOST_NEW).is_err() {
            return Err(PollFault::Memory);
        }
        let limit = limit(wait, self.accepting);
        if wait_for(self.rt, &mut self.poll, &mut self.ready, limit).is_err() {
            self.faults = self.faults.saturating_add(1);
            return Err(PollFault::Failed);
        }
        self.accept_all(&mut shown);
        show_all(&self.ready, &mut shown);
        Ok(List::from_vec(shown))
    }

    fn read(&mut self, link: u32, buf: &mut [u8]) -> Result<usize, LinkFault>
        ensures bound { ReadsAtMost result buf.new }
        ensures traced { Continues None None (λ t. read_made link (length buf.old) result buf.new) }
        ensures cause { KeptInCall link (counts_of self.old.faults self.old.pendings)
            (counts_of self.new.faults self.new.pendings) result }

        // The bytes are those of the stream of the link.
        ensures stream { IfOk result (λ n. Reads link ⟦<TcpStream as Read>⟧.remaining n buf.new
            self.old.links.items self.new.links.items) }

        // Only failures and results Pending are counted, and nothing is allocated.
        ensures faults { self.new.faults ≡ counted (is_failed result) self.old.faults }
        ensures pendings { self.new.pendings ≡ counted (is_pending result) self.old.pendings }
        ensures none { ¬ (IsErrOf result LinkFault.Memory) }
    {
        self.read_link(link, buf)
    }

    fn write(&mut self, link: u32, piece: &[u8]) -> Result<usize, LinkFault>
        ensures bound { WritesAtMost result piece.now }
        ensures some { 0 < length piece.now → result ≢ Ok 0 }
        ensures traced { Continues None None (λ t. write_made link piece.now result) }
        ensures cause { KeptInCall link (counts_of self.old.faults self.old.pendings)
            (counts_of self.new.faults self.new.pendings) result }

        // The bytes go to the stream of the link.
        ensures stream { IfOk result (λ n. Writes link ⟦<TcpStream as Write>⟧.contents n piece.now
            self.old.links.items self.new.links.items) }

        // Only failures and results Pending are counted, and nothing is allocated.
        ensures faults { self.new.faults ≡ counted (is_failed result) self.old.faults }
        ensures pendings { self.new.pendings ≡ counted (is_pending result) self.old.pendings }
        ensures none { ¬ (IsErrOf result LinkFault.Memory) }
    {
        self.write_link(link, piece)
    }

    fn close(&mut self, link: u32)
        ensures traced { Continues None None (λ t. close_made t link) }
        ensures closes { Closes link self.old.links.items self.new.links.items }
        ensures cause { NoneFalls (counts_of self.old.faults self.old.pendings)
            (counts_of self.new.faults self.new.pendings) }
        ensures faults { self.new.faults ≡ self.old.faults }
        ensures pendings { self.new.pendings ≡ self.old.pendings }
    {
        self.close_link(link);
    }
}
