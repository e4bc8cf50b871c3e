// The open links of a server, and which of them may be read, written or drained.
ghost use Rattle.std.specs.Prelude.{◌≡◌, ◌≤◌, ◌&&◌, ◌||◌, ◌<◌, ◌-◌, [], true, is_some, length, nat_lt, option_map, if◌then◌else◌, IfSome, OnOk};
ghost use Rattle.session_core.specs.Outboxes.{NoneEmpty, head};
ghost use Rattle.link_sessions.specs.Entries.{Feeds, Leaves, changed, filled, entries_of, link_at, opened, outbox_at, passes_at, stays, without, wrote_of};
ghost use Rattle.link_sessions.specs.Roles.{is_opening, is_to_drain, is_to_read, is_to_write};
ghost use Rattle.link_sessions.specs.Sets.{IsAnyOf, IsFirstFrom, IsOneOf};
ghost use Rattle.link_sessions.specs.Settled.{IsSettled, IsSettledBut, IsUnknown, subscribes};

use crate::link::{Link, Role};
use crate::number_sets::{first_from, set_member};
use bytes::Bytes;
use mesh_base::list::List;
use mesh_base::memory::Memory;
use mesh_base::sub_id::SubId;
use session_core::session::{Ask, SessionFault};
use std::alloc::Global;
use std::collections::{BTreeMap, BTreeSet};

/// The open links by their numbers, with the numbers of those that may be read and written. After
/// out of memory they are no longer used.
#[derive(Drop)]
pub struct OpenLinks {
    by_number: BTreeMap<u32, Link>,
    to_read: BTreeSet<u32>,
    to_write: BTreeSet<u32>,
    /// The link of each subscription.
    by_sub: BTreeMap<u32, u32>,
    feeds: u32,
}

fn set_readable_at(by_number: &mut BTreeMap<u32, Link>, number: u32, readable: bool)
    ensures { by_number.new.entries
        ≡ changed number (λ link. record link { readable = readable }) by_number.old.entries }
{
    if let Some(link) = by_number.get_mut(&number) {
        link.readable = readable;
    }
}

fn set_writable_at(by_number: &mut BTreeMap<u32, Link>, number: u32, writable: bool)
    ensures { by_number.new.entries
        ≡ changed number (λ link. record link { writable = writable }) by_number.old.entries }
{
    if let Some(link) = by_number.get_mut(&number) {
        link.writable = writable;
    }
}

fn end_at(by_number: &mut BTreeMap<u32, Link>, number: u32)
    ensures { by_number.new.entries
        ≡ changed number (λ link. record link { ended = true }) by_number.old.entries }
{
    if let Some(link) = by_number.get_mut(&number) {
        link.ended = true;
    }
}

fn set_role_at(by_number: &mut BTreeMap<u32, Link>, number: u32, role: Role)
    ensures { by_number.new.entries
        ≡ changed number (λ link. record link { role = role }) by_number.old.entries }
{
    if let Some(link) = by_number.get_mut(&number) {
        link.role = role;
    }
}

fn feed_at(
    by_number: &mut BTreeMap<u32, Link>,
    number: u32,
    piece: &[u8],
) -> Result<List<Ask>, SessionFault>
    ensures { Feeds number piece.now by_number.old.entries result by_number.new.entries }
{
    match by_number.get_mut(&number) {
        Some(link) => link.session.feed(piece),
        None => Err(SessionFault::BadPath),
    }
}

fn fill(link: &mut Link, items: List<Bytes>) -> Result<(), Memory>
    requires { NoneEmpty items }
    ensures { OnOk result (link.new ≡ filled items link.old) }
{
    if link.is_written() {
        link.session.put(items)?;
    }
    Ok(())
}

fn fill_at(
    by_number: &mut BTreeMap<u32, Link>,
    number: u32,
    items: List<Bytes>,
) -> Result<(), Memory>
    requires { NoneEmpty items }
    ensures { OnOk result (by_number.new.entries
        ≡ changed number (filled items) by_number.old.entries) }
{
    match by_number.get_mut(&number) {
        Some(link) => fill(link, items),
        None => Ok(()),
    }
}

fn wrote_at(by_number: &mut BTreeMap<u32, Link>, number: u32, n: usize)
    requires { n ≤ length (head (outbox_at number by_number.old.entries)) }
    ensures { by_number.new.entries ≡ changed number (wrote_of n) by_number.old.entries }
{
    if let Some(link) = by_number.get_mut(&number) {
        link.session.wrote(n);
    }
}

impl OpenLinks {
    /// Creates an empty set of links.
    pub fn new(alloc: Global) -> OpenLinks
        ensures entries { entries_of result ≡ [] }
        ensures settled { IsSettled result }
    {
        OpenLinks {
            by_number: BTreeMap::new(alloc),
            to_read: BTreeSet::new(alloc),
            to_write: BTreeSet::new(alloc),
            by_sub: BTreeMap::new(alloc),
            feeds: 0,
        }
    }

    /// Returns the number of links.
    pub fn len(&self) -> usize
        ensures { result ≡ length (entries_of self.now) }
    {
        self.by_number.len()
    }

    /// Whether a link may be read or written.
    pub fn has_work(&self) -> bool
        ensures { IsSettled self.now → IsAnyOf (passes_at (λ link.
            is_to_read link || is_to_write link) (entries_of self.now)) result }
    {
        !self.to_read.is_empty() || !self.to_write.is_empty()
    }

    /// Returns the first link from a number on.
    pub fn first_from(&self, from: u32) -> Option<u32>
        ensures { IsFirstFrom (λ n. is_some (link_at n (entries_of self.now))) from result }
    {
        let (number, _) = self.by_number.range(from..).next()?;
        Some(*number)
    }

    /// Returns the first link from a number on that may be read.
    #[tactic(auto, using(crate::proofs::Work::first_later))]
    pub fn first_to_read(&self, from: u32) -> Option<u32>
        ensures first { IsSettled self.now
            → IsFirstFrom (passes_at is_to_read (entries_of self.now)) from result }
        ensures later { IfSome result (λ number. from ≤ number) }
    {
        first_from(&self.to_read, from)
    }

    /// Returns the first link from a number on that may be written.
    #[tactic(auto, using(crate::proofs::Work::first_later))]
    pub fn first_to_write(&self, from: u32) -> Option<u32>
        ensures first { IsSettled self.now
            → IsFirstFrom (passes_at is_to_write (entries_of self.now)) from result }
        ensures later { IfSome result (λ number. from ≤ number) }
    {
        first_from(&self.to_write, from)
    }

    /// Returns the link of a subscription, if it may be drained.
    pub fn to_drain(&self, id: SubId) -> Option<u32>
        ensures { IsSettled self.now → IsOneOf (passes_at (λ link.
            subscribes id.0 link && is_to_drain link) (entries_of self.now)) result }
    {
        let number = *self.by_sub.get(&id.0)?;
        let link = self.by_number.get(&number)?;
        if link.is_to_drain() {
            Some(number)
        } else {
            None
        }
    }

    /// Returns the role of a link.
    pub fn role(&self, number: u32) -> Option<Role>
        ensures { result ≡ option_map (λ link. link.role) (link_at number (entries_of self.now)) }
    {
        Some(self.by_number.get(&number)?.role)
    }

    /// Opens a link. It does nothing if a link with the number is open.
    pub fn open(&mut self, number: u32, link: Link) -> Result<(), Memory>
        requires { link.role ≡ Role.Opening }
        ensures entries { OnOk result (entries_of self.new
            ≡ opened number link (entries_of self.old)) }
        ensures settled { OnOk result (IsSettled self.old → IsSettled self.new) }
    {
        if self.by_number.contains_key(&number) {
            return Ok(());
        }
        self.by_number.insert(number, link)?;
        self.settle(number)
    }

    /// Records whether a read may return something other than Pending.
    pub fn set_readable(&mut self, number: u32, readable: bool) -> Result<(), Memory>
        ensures entries { OnOk result (entries_of self.new
            ≡ changed number (λ link. record link { readable = readable }) (entries_of self.old)) }
        ensures settled { OnOk result (IsSettled self.old → IsSettled self.new) }
    {
        set_readable_at(&mut self.by_number, number, readable);
        self.settle(number)
    }

    /// Records whether a write may return something other than Pending.
    pub fn set_writable(&mut self, number: u32, writable: bool) -> Result<(), Memory>
        ensures entries { OnOk result (entries_of self.new
            ≡ changed number (λ link. record link { writable = writable }) (entries_of self.old)) }
        ensures settled { OnOk result (IsSettled self.old → IsSettled self.new) }
    {
        set_writable_at(&mut self.by_number, number, writable);
        self.settle(number)
    }

    /// Passes a piece of a link's bytes to its session, and returns the requests in it. The caller
    /// must then call `put`, which settles the link, or close it.
    pub fn feed(&mut self, number: u32, piece: &[u8]) -> Result<List<Ask>, SessionFault>
        ensures entries { Feeds number piece.now (entries_of self.old) result
            (entries_of self.new) }
        ensures settled { IsSettledBut number self.old → IsSettledBut number self.new }
    {
        feed_at(&mut self.by_number, number, piece)
    }

    /// Makes a link a feed, unless the limit on feeds is reached. Returns whether it did.
    pub fn begin_feed(&mut self, number: u32, limit: u32) -> bool
        ensures admits { result ≡ nat_lt self.old.feeds limit }
        ensures entries { entries_of self.new ≡ (if result
            then changed number (λ link. record link { role = Role.Feed }) (entries_of self.old)
            else entries_of self.old) }
        ensures settled { passes_at
            (λ link. is_opening link.role) (entries_of self.old) number ≡ true
            → IsSettledBut number self.old → IsSettledBut number self.new }
    {
        if self.feeds >= limit {
            return false;
        }
        set_role_at(&mut self.by_number, number, Role::Feed);
        self.feeds += 1;
        true
    }

    /// Makes a link the subscriber of a subscription that no other link has.
    pub fn begin_sub(&mut self, number: u32, id: SubId) -> Result<(), Memory>
        ensures entries { OnOk result (entries_of self.new
            ≡ changed number (λ link. record link { role = Role.Subscriber id })
            (entries_of self.old)) }
        ensures settled { OnOk result (
            passes_at (λ link. is_opening link.role) (entries_of self.old) number ≡ true
            → IsUnknown id.0 (entries_of self.old)
            → IsSettledBut number self.old → IsSettledBut number self.new) }
    {
        self.by_sub.insert(id.0, number)?;
        set_role_at(&mut self.by_number, number, Role::Subscriber(id));
        Ok(())
    }

    /// Records that the peer of a link sends nothing more.
    pub fn end(&mut self, number: u32)
        ensures entries { entries_of self.new
            ≡ changed number (λ link. record link { ended = true }) (entries_of self.old) }
        ensures settled { IsSettledBut number self.old → IsSettledBut number self.new }
    {
        end_at(&mut self.by_number, number);
    }

    /// Puts items into the outbox of a link, if it is empty.
    pub fn put(&mut self, number: u32, items: List<Bytes>) -> Result<(), Memory>
        requires { NoneEmpty items }
        ensures entries { OnOk result (entries_of self.new
            ≡ changed number (filled items) (entries_of self.old)) }
        ensures settled { OnOk result (IsSettledBut number self.old → IsSettled self.new) }
    {
        fill_at(&mut self.by_number, number, items)?;
        self.settle(number)
    }

    /// Returns the bytes to be written next on a link.
    pub fn head(&self, number: u32) -> &[u8]
        ensures { result.now ≡ head (outbox_at number (entries_of self.now)) }
    {
        match self.by_number.get(&number) {
            Some(link) => link.session.head(),
            None => &[],
        }
    }

    /// Records that this number of bytes of the head were written.
    pub fn wrote(&mut self, number: u32, n: usize) -> Result<(), Memory>
        requires { n ≤ length (head (outbox_at number (entries_of self.old))) }
        ensures entries { OnOk result (entries_of self.new
            ≡ changed number (wrote_of n) (entries_of self.old)) }
        ensures settled { OnOk result (IsSettled self.old → IsSettled self.new) }
    {
        wrote_at(&mut self.by_number, number, n);
        self.settle(number)
    }

    /// Whether a link stays open.
    pub fn stays_open(&self, number: u32) -> bool
        ensures { result ≡ stays (link_at number (entries_of self.now)) }
    {
        match self.by_number.get(&number) {
            Some(link) => link.stays_open(),
            None => true,
        }
    }

    /// Removes a link, and returns its role.
    pub fn close(&mut self, number: u32) -> Option<Role>
        ensures role { result ≡ option_map (λ link. link.role)
            (link_at number (entries_of self.old)) }
        ensures entries { entries_of self.new ≡ without number (entries_of self.old) }
        ensures leaves { Leaves number (entries_of self.old) (entries_of self.new) }
        ensures settled { IsSettledBut number self.old → IsSettled self.new }
    {
        let link = self.by_number.remove(&number);
        self.to_read.remove(&number);
        self.to_write.remove(&number);
        let role = link?.role;
        match role {
            Role::Opening => {}
            Role::Feed => self.feeds = self.feeds.saturating_sub(1),
            Role::Subscriber(id) => {
                self.by_sub.remove(&id.0);
            }
        }
        Some(role)
    }

    // Updates the sets of links that may be read and written.
    fn settle(&mut self, number: u32) -> Result<(), Memory>
        ensures entries { OnOk result (entries_of self.new ≡ entries_of self.old) }
        ensures settled { OnOk result (IsSettledBut number self.old → IsSettled self.new) }
    {
        let (reads, writes) = self.turns(number);
        set_member(&mut self.to_read, number, reads)?;
        set_member(&mut self.to_write, number, writes)
    }

    // Returns whether a link may be read, and whether it may be written.
    fn turns(&self, number: u32) -> (bool, bool)
        ensures reads { result.0 ≡ passes_at is_to_read (entries_of self.now) number }
        ensures writes { result.1 ≡ passes_at is_to_write (entries_of self.now) number }
    {
        match self.by_number.get(&number) {
            Some(link) => (link.is_to_read(), link.is_to_write()),
            None => (false, false),
        }
    }
}
