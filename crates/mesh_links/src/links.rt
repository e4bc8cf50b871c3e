// Links to peers.
ghost use Rattle.std.specs.Prelude.{◌≡◌, ◌≢◌, ◌≤◌, ◌<◌, ℕ, List, Option, Some, Ok, IfOk, IsErrOf, length};
ghost use Rattle.std.specs.Io.{ReadsAtMost, WritesAtMost};
ghost use Rattle.mesh_outside.specs.Causes.{Rose};
ghost use Rattle.mesh_links.specs.declared.call.LinkCall.{LinkCall};

use crate::call::LinkEvent;
use mesh_base::list::List;

/// The reason why a read or a write did nothing.
#[derive(Clone, Copy, Debug, PartialEq, Eq)]
pub enum LinkFault {
    /// The link can't be used any more.
    Failed,
    /// Nothing can be read or written now.
    Pending,
    /// Out of memory; the links are as before.
    Memory,
}

/// The reason why a poll returned no events.
#[derive(Clone, Copy, Debug, PartialEq, Eq)]
pub enum PollFault {
    Failed,
    /// Out of memory; the links are as before.
    Memory,
}

/// Links to peers, each with a number.
pub trait Links {
    ghost use Rattle.mesh_links.specs.Calls.{AreNew, Continues, close_made, poll_made, read_made, write_made};
    ghost use Rattle.mesh_links.specs.Counts.{Counts, KeptInCall, KeptInPoll, NoneFalls};

    /// The calls so far and their results, the oldest first, if specified.
    ghost trace: { Self → Option (List LinkCall) };

    /// The number of failed polls, and for each link those of failed reads and writes, and of
    /// `Pending` results. Each count saturates at `u64::MAX`.
    ghost counts: { Self → Counts };

    /// Returns at most 1,024 events since the last poll. With `wait` it may wait for one. New links
    /// get numbers above all earlier ones, from 1.
    fn poll(&mut self, wait: bool) -> Result<List<LinkEvent>, PollFault>
        ensures few { IfOk result (λ events. length events ≤ 1024) }
        ensures fresh { (t : List LinkCall) → trace self.old ≡ Some t → IfOk result (λ events.
            AreNew t events) }
        ensures traced { Continues (trace self.old) (trace self.new) (λ t. poll_made wait result) }
        ensures cause { KeptInPoll (counts self.old) (counts self.new) result };

    /// Moves bytes from the front of the peer's input to the front of the buffer, and returns their
    /// number. 0 for a nonempty buffer means the end of the input.
    fn read(&mut self, link: u32, buf: &mut [u8]) -> Result<usize, LinkFault>
        ensures bound { ReadsAtMost result buf.new }
        ensures traced { Continues (trace self.old) (trace self.new) (λ t.
            read_made link (length buf.old) result buf.new) }
        ensures cause { KeptInCall link (counts self.old) (counts self.new) result };

    /// Sends bytes from the front of the piece and returns their number: 0 only for an empty piece.
    fn write(&mut self, link: u32, piece: &[u8]) -> Result<usize, LinkFault>
        ensures bound { WritesAtMost result piece.now }
        ensures some { 0 < length piece.now → result ≢ Ok 0 }
        ensures traced { Continues (trace self.old) (trace self.new) (λ t.
            write_made link piece.now result) }
        ensures cause { KeptInCall link (counts self.old) (counts self.new) result };

    /// Closes a link. It does nothing to one that no poll returned as `New` or that is closed.
    fn close(&mut self, link: u32)
        ensures traced { Continues (trace self.old) (trace self.new) (λ t. close_made t link) }
        ensures cause { NoneFalls (counts self.old) (counts self.new) };
}
