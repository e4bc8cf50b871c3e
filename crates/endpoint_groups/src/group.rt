ghost use Rattle.std.specs.Prelude.{◌≡◌, ◌≤◌, IfOk, None, OnErr, OnOk, is_none, true};
ghost use Rattle.view_diff.specs.Earlier.{IsByAddress};
ghost use Rattle.view_rules.specs.Batch.{endpoint_batch};
ghost use Rattle.view_rules.specs.Fold.{IsOrderly};
ghost use Rattle.endpoint_groups.specs.Members.{Notes, is_current, is_untold, last_view_of, one_less, one_more, vacant, with_encoding};

use mesh_base::limits::Limits;
use mesh_base::list::List;
use mesh_base::memory::Memory;
use net_cidr::ip::Ip;
use pending_rows::rows::PendingRows;
use std::alloc::Global;
use view_diff::batch::endpoint_batch;
use view_types::endpoint::{EndpointRow, EndpointView};
use view_types::message::Message;

/// Subscribers that were last shown the same endpoints.
#[derive(Drop)]
pub struct Group<F> {
    /// What they were last shown; None if they were shown nothing.
    pub(crate) pending: Option<PendingRows>,
    /// The number of members.
    pub(crate) members: u64,
    /// The kept encoding of the messages that they are due.
    pub(crate) encoding: Option<F>,
}

impl<F: Drop> Group<F> {
    /// Creates a group without members.
    pub(crate) fn vacant() -> Group<F>
        ensures { result ≡ vacant }
    {
        Group {
            pending: None,
            members: 0,
            encoding: None,
        }
    }

    /// Creates a group with one member, which was shown the current endpoints.
    pub(crate) fn of_one(alloc: Global, exists: bool) -> Group<F>
        ensures current { is_current exists result ≡ true }
        ensures members { result.members ≡ 1 }
        ensures encoding { result.encoding ≡ None }
    {
        Group {
            pending: Some(PendingRows::new(alloc, exists)),
            members: 1,
            encoding: None,
        }
    }

    /// Whether there are members, and they were shown the current endpoints.
    pub(crate) fn is_current(&self, exists: bool) -> bool
        ensures { result ≡ is_current exists self.now }
    {
        match &self.pending {
            Some(pending) => self.members != 0 && pending.is_up_to_date(exists),
            None => false,
        }
    }

    /// Adds a member. Returns `Memory` if the count of members would overflow.
    pub(crate) fn enter(&mut self) -> Result<(), Memory>
        ensures ok { OnOk result (self.new ≡ one_more self.old) }
        ensures err { OnErr result (self.new ≡ self.old) }
    {
        match self.members.checked_add(1) {
            Some(members) => {
                self.members = members;
                Ok(())
            }
            None => Err(Memory),
        }
    }

    /// Removes a member. The group is cleared with its last member, except that the encoding for
    /// new subscribers stays, for later ones.
    pub(crate) fn leave(&mut self)
        ensures { self.new ≡ one_less self.old }
    {
        if self.members > 1 {
            self.members -= 1;
        } else if self.pending.is_none() {
            self.members = 0;
        } else {
            *self = Group::vacant();
        }
    }

    /// Keeps the encoding of the messages, if there are members.
    pub(crate) fn keep(&mut self, encoding: F)
        ensures { self.new ≡ with_encoding encoding self.old }
    {
        if self.members > 0 {
            self.encoding = Some(encoding);
        }
    }

    /// Notes addresses whose rows have changed, and drops the kept encoding.
    pub(crate) fn note(
        &mut self,
        alloc: Global,
        before: &[(Ip, u16, Option<EndpointRow>)],
    ) -> Result<(), Memory>
        requires { IsByAddress before.now }
        ensures members { self.new.members ≡ self.old.members }
        ensures encoding { self.new.encoding ≡ None }
        ensures pending { OnOk result (Notes before.now self.old.pending self.new.pending) }
        ensures never { is_untold self.new ≡ is_untold self.old }
    {
        self.encoding = None;
        note(alloc, &mut self.pending, before)
    }

    /// Returns the messages that bring the members from what they were last shown to the current
    /// endpoints.
    pub(crate) fn messages(
        &self,
        alloc: Global,
        now: &EndpointView,
        limits: &Limits,
    ) -> Result<List<Message>, Memory>
        requires limit { 1 ≤ limits.now.frame_addrs }
        requires now { IsOrderly now.now }
        ensures { IfOk result (λ messages. messages
            ≡ endpoint_batch (last_view_of self.now.pending now.now) now.now limits.now) }
    {
        match &self.pending {
            Some(pending) => pending.messages(alloc, now, limits),
            None => endpoint_batch(alloc, None, now, limits),
        }
    }
}

fn note(
    alloc: Global,
    pending: &mut Option<PendingRows>,
    before: &[(Ip, u16, Option<EndpointRow>)],
) -> Result<(), Memory>
    requires { IsByAddress before.now }
    ensures pending { OnOk result (Notes before.now pending.old pending.new) }
    ensures never { is_none pending.new ≡ is_none pending.old }
{
    match pending {
        Some(pending) => pending.note(alloc, before),
        None => Ok(()),
    }
}
