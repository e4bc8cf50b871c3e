// The relay and its calls.
ghost use Rattle.std.specs.Prelude.{◌≡◌, ◌<◌, ◌≤◌, false, true, None, Ok, IfOk, Some, length, option_map};
ghost use Rattle.std.specs.List.{AllByRecursion};
ghost use Rattle.std.specs.Option.{option_copied};
ghost use Rattle.view_rules.specs.Fold.{IsOrderlyIfShown};
ghost use Rattle.view_relay.specs.Accepted.{new_id};
ghost use Rattle.view_relay.specs.ById.{AreUpTo, AreUpTo-prop, first_id, id_of};
ghost use Rattle.view_relay.specs.Given.{Gives};

use crate::by_id::ById;
use crate::client::Client;
use crate::fault::RelayFault;
use crate::frames::frames_to;
use crate::opening::open;
use crate::origin::{message_within, read};
use crate::stream::Stream;
use crate::streams::{stream_at, stream_of, take_message};
use bytes::Bytes;
use mesh_base::copied::Copied;
use mesh_base::limits::Limits;
use mesh_base::list::List;
use mesh_base::memory::Memory;
use mesh_base::sub_id::SubId;
use std::alloc::Global;
use view_types::config::Config;
use view_types::message::Message;
use view_types::query::Query;
use view_types::view::View;

// Refuses an id that is not above the greatest accepted one, and one more if the limit is reached.
fn accept(limit: u32, last: Option<u32>, live: usize, id: u32) -> Result<(), RelayFault>
    ensures { result ≡ new_id limit last live id }
{
    if let Some(last) = last {
        if id <= last {
            return Err(RelayFault::IdOrder { last });
        }
    }
    if live == limit as usize {
        return Err(RelayFault::TooManySubs { live: limit });
    }
    Ok(())
}

/// The streams of an origin that are carried, and the clients that are served from them.
#[derive(Drop)]
pub struct Relay {
    alloc: Global,
    config: Config,
    limits: Limits,
    streams: Vec<Stream>,
    clients: ById<Client>,
    /// The greatest accepted ids.
    last_stream: Option<u32>,
    last_client: Option<u32>,
    /// Whether memory ran out once.
    spent: bool,
    ghost some_addresses: { 1 ≤ limits.frame_addrs },
    ghost clients_up_to: { AreUpTo last_client clients } by { AreUpTo-prop last_client clients },
}

impl Relay {
    ghost use Rattle.view_relay.specs.Accepted.{carried_query, carry_call, client_call, drain_call, joined_stream, origin_call, taken_message};
    ghost use Rattle.view_relay.specs.Answers.{Answers, Ends, Stops, after_called, done, frames_at, next_of, state_of};
    ghost use Rattle.view_relay.specs.Relays.{Carries, Joins, Takes, after_call, idle, view_for};

    /// Creates a relay without streams and clients.
    pub fn new(alloc: Global, config: Config, limits: Limits) -> Result<Relay, Memory>
        requires { 1 ≤ limits.frame_addrs }
        ensures { IfOk result (λ relay. state_of relay ≡ idle config limits) }
    {
        Ok(Relay {
            alloc,
            config,
            limits,
            streams: Vec::new(alloc),
            clients: ById::new(alloc),
            last_stream: None,
            last_client: None,
            spent: false,
        })
    }

    /// Carries a stream of the origin, which was opened with these bytes.
    pub fn carry(&mut self, id: SubId, opening: &[u8]) -> Result<(), RelayFault>
        ensures { Answers (state_of self.old)
            (done (carry_call (state_of self.old) id.0 opening.now))
            (after_called (state_of self.old) (carry_call (state_of self.old) id.0 opening.now))
            result (state_of self.new) }
    {
        if self.spent {
            return Err(RelayFault::Memory);
        }
        match self.carried_query(id.0, opening) {
            Ok(query) => self.add_stream(id.0, query),
            Err(fault) => self.stop(fault),
        }
    }

    /// Opens a client with these bytes. It is served from the stream with its query, the one with
    /// the least id if several have it.
    pub fn client(&mut self, id: SubId, opening: &[u8]) -> Result<(), RelayFault>
        ensures { Answers (state_of self.old)
            (done (client_call (state_of self.old) id.0 opening.now))
            (after_called (state_of self.old) (client_call (state_of self.old) id.0 opening.now))
            result (state_of self.new) }
    {
        if self.spent {
            return Err(RelayFault::Memory);
        }
        match self.joined_stream(id.0, opening) {
            Ok(stream) => self.add_client(id.0, stream),
            Err(fault) => self.stop(fault),
        }
    }

    /// Folds the message in a frame of the origin on a carried stream.
    pub fn origin(&mut self, id: SubId, frame: &[u8]) -> Result<(), RelayFault>
        ensures { Answers (state_of self.old)
            (done (origin_call (state_of self.old) id.0 frame.now))
            (after_called (state_of self.old) (origin_call (state_of self.old) id.0 frame.now))
            result (state_of self.new) }
    {
        if self.spent {
            return Err(RelayFault::Memory);
        }
        match self.taken_message(id.0, frame) {
            Ok(message) => self.add_message(id.0, message),
            Err(fault) => self.stop(fault),
        }
    }

    /// Returns the frames that bring a client from the view that its last drain showed it to the
    /// view of its stream; none while the stream has no view. If a message is longer than the
    /// limit, the client ends.
    pub fn drain(&mut self, id: SubId) -> Result<List<Bytes>, RelayFault>
        ensures { Answers (state_of self.old) (frames_at (state_of self.old) id.0)
            (after_called (state_of self.old) (drain_call (state_of self.old) id.0))
            result (state_of self.new) }
    {
        if self.spent {
            return Err(RelayFault::Memory);
        }
        match self.next_of(id.0) {
            Ok(None) => Ok(List::new(self.alloc)),
            Ok(Some((client, frames))) => {
                self.clients.put(id.0, client);
                Ok(frames)
            }
            Err(RelayFault::Oversize { bytes }) => {
                self.clients.end(id.0);
                Err(RelayFault::Oversize { bytes })
            }
            Err(RelayFault::Memory) => {
                self.spent = true;
                Err(RelayFault::Memory)
            }
            Err(fault) => Err(fault),
        }
    }

    /// Ends a client. It does not allocate, and works on a spent relay, too.
    pub fn leave(&mut self, id: SubId) -> Result<(), RelayFault>
        ensures { Ends id.0 (state_of self.old) result (state_of self.new) }
    {
        if self.clients.end(id.0) {
            Ok(())
        } else {
            Err(RelayFault::NoSuchId { id: id.0 })
        }
    }

    /// Returns the least id of a live client.
    pub(crate) fn first_client(&self) -> Option<u32>
        ensures { result ≡ first_id self.now.clients }
    {
        self.clients.first()
    }

    /// Returns the frames that a drain would return.
    pub(crate) fn frames_at(&self, id: u32) -> Result<List<Bytes>, RelayFault>
        ensures { Gives result (frames_at (state_of self.now) id) }
    {
        let Some(client) = self.clients.get(id) else {
            return Err(RelayFault::NoSuchId { id });
        };
        match self.view_for(client) {
            Some(view) => frames_to(self.alloc, &self.limits, client.shown(), view),
            None => Ok(List::new(self.alloc)),
        }
    }

    // Refuses a call. Once memory ran out, the relay is spent.
    fn stop(&mut self, fault: RelayFault) -> Result<(), RelayFault>
        ensures { Stops fault (state_of self.old) result (state_of self.new) }
    {
        if let RelayFault::Memory = fault {
            self.spent = true;
        }
        Err(fault)
    }

    // Returns the query of a stream that may be carried.
    fn carried_query(&self, id: u32, opening: &[u8]) -> Result<Query, RelayFault>
        ensures { Gives result (carried_query (state_of self.now) id opening.now) }
    {
        accept(self.limits.subs, self.last_stream, self.streams.len(), id)?;
        open(self.alloc, &self.config, &self.limits, opening)
    }

    // Returns the place of the stream of a client that may open.
    fn joined_stream(&self, id: u32, opening: &[u8]) -> Result<usize, RelayFault>
        ensures { Gives result (joined_stream (state_of self.now) id opening.now) }
    {
        accept(self.limits.subs, self.last_client, self.clients.len(), id)?;
        let query = open(self.alloc, &self.config, &self.limits, opening)?;
        match stream_of(&self.streams, &query) {
            Some(stream) => Ok(stream),
            None => Err(RelayFault::NoStream),
        }
    }

    // Returns the message of a frame on a stream.
    fn taken_message(&self, id: u32, frame: &[u8]) -> Result<Message, RelayFault>
        ensures { Gives result (taken_message (state_of self.now) id frame.now) }
    {
        let message = message_within(self.limits.message, frame)?;
        match stream_at(&self.streams, id) {
            Some(stream) => read(self.alloc, stream.query(), message),
            None => Err(RelayFault::NoSuchId { id }),
        }
    }

    // Returns the view of a client's stream.
    fn view_for(&self, client: &Client) -> Option<&View>
        ensures value { option_copied result ≡ view_for (state_of self.now) client.now }
        ensures orderly { IsOrderlyIfShown (view_for (state_of self.now) client.now) }
    {
        match self.streams.get(client.stream()) {
            Some(stream) => stream.view(),
            None => None,
        }
    }

    // Returns the client after a drain that shows it a view, with the frames that it is sent.
    fn next_of(&self, id: u32) -> Result<Option<(Client, List<Bytes>)>, RelayFault>
        ensures { Gives result (next_of (state_of self.now) id) }
    {
        let Some(client) = self.clients.get(id) else {
            return Err(RelayFault::NoSuchId { id });
        };
        let Some(view) = self.view_for(client) else {
            return Ok(None);
        };
        let frames = frames_to(self.alloc, &self.limits, client.shown(), view)?;
        let view = view.copy(self.alloc)?;
        Ok(Some((Client::showing(client.stream(), view), frames)))
    }

    fn add_stream(&mut self, id: u32, query: Query) -> Result<(), RelayFault>
        requires going { self.old.spent ≡ false }
        ensures { Answers (state_of self.old) (Ok tt)
            (after_call (state_of self.old) (Carries id query)) result (state_of self.new) }
    {
        match self.streams.push(Stream::new(id, query)) {
            Ok(()) => {
                self.last_stream = Some(id);
                Ok(())
            }
            Err(_) => {
                self.spent = true;
                Err(RelayFault::Memory)
            }
        }
    }

    fn add_client(&mut self, id: u32, stream: usize) -> Result<(), RelayFault>
        requires going { self.old.spent ≡ false }
        requires above { AllByRecursion (λ entry. id_of entry < id) self.old.clients }
        ensures { Answers (state_of self.old) (Ok tt)
            (after_call (state_of self.old) (Joins id stream)) result (state_of self.new) }
    {
        match self.clients.add(id, Client::new(stream)) {
            Ok(()) => {
                self.last_client = Some(id);
                Ok(())
            }
            Err(_) => {
                self.spent = true;
                Err(RelayFault::Memory)
            }
        }
    }

    fn add_message(&mut self, id: u32, message: Message) -> Result<(), RelayFault>
        requires going { self.old.spent ≡ false }
        ensures { Answers (state_of self.old) (Ok tt)
            (after_call (state_of self.old) (Takes id message)) result (state_of self.new) }
    {
        match take_message(self.alloc, &mut self.streams, id, message) {
            Ok(()) => Ok(()),
            Err(_) => {
                self.spent = true;
                Err(RelayFault::Memory)
            }
        }
    }
}
