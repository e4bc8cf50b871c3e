ghost use Rattle.std.specs.Prelude.{◌≡◌, ◌≤◌, [], Some, IfOk, OnErr, OnOk};
ghost use Rattle.view_diff.specs.Earlier.{IsByAddress};
ghost use Rattle.view_rules.specs.Batch.{endpoint_batch};
ghost use Rattle.view_rules.specs.Fold.{IsOrderly};
ghost use Rattle.pending_rows.specs.Pending.{AreKeyed, AreOwn, is_up_to_date, last_view, with_notes, pending_of};

use crate::noting::{copied, note_each};
use mesh_base::limits::Limits;
use mesh_base::list::List;
use mesh_base::memory::Memory;
use net_cidr::ip::Ip;
use std::alloc::Global;
use view_diff::since::batch_since;
use view_types::endpoint::{EndpointRow, EndpointView};
use view_types::message::Message;

/// What a subscriber was last shown, relative to the current endpoints.
#[derive(Drop)]
pub struct PendingRows {
    /// Whether the Service existed.
    pub(crate) exists: bool,
    /// The addresses that may have changed since, in order, each with the row that was shown.
    pub(crate) pending: Vec<(Ip, u16, Option<EndpointRow>)>,
    ghost keyed: { AreKeyed pending.items },
    ghost own: { AreOwn pending.items },
}

impl PendingRows {
    /// Creates the state in which the current rows were shown.
    pub fn new(alloc: Global, exists: bool) -> PendingRows
        ensures exists { result.exists ≡ exists }
        ensures pending { result.pending.items ≡ [] }
    {
        PendingRows {
            exists,
            pending: Vec::new(alloc),
        }
    }

    /// Whether the current rows were shown, and whether the Service exists.
    pub fn is_up_to_date(&self, exists: bool) -> bool
        ensures { result ≡ is_up_to_date exists self.now.exists self.now.pending.items }
    {
        self.exists == exists && self.pending.is_empty()
    }

    /// Notes addresses whose rows have changed, each with the row that was there before, which is
    /// copied. An address that is noted already keeps its row. If memory runs out, none is noted.
    pub fn note(
        &mut self,
        alloc: Global,
        before: &[(Ip, u16, Option<EndpointRow>)],
    ) -> Result<(), Memory>
        requires { IsByAddress before.now }
        ensures exists { self.new.exists ≡ self.old.exists }
        ensures ok { OnOk result (pending_of self.new.pending.items
            ≡ with_notes before.now (pending_of self.old.pending.items)) }
        ensures err { OnErr result (self.new.pending.items ≡ self.old.pending.items) }
    {
        let stood = copied(alloc, before)?;
        self.pending.reserve(stood.len())?;
        note_each(&mut self.pending, stood);
        Ok(())
    }

    /// Returns the messages that bring the subscriber from what it was last shown to the current
    /// endpoints.
    pub fn messages(
        &self,
        alloc: Global,
        now: &EndpointView,
        limits: &Limits,
    ) -> Result<List<Message>, Memory>
        requires limit { 1 ≤ limits.now.frame_addrs }
        requires now { IsOrderly now.now }
        ensures { IfOk result (λ messages. messages ≡ endpoint_batch
            (Some (last_view self.now.exists self.now.pending.items now.now)) now.now limits.now) }
    {
        batch_since(alloc, self.exists, self.pending.as_slice(), now, limits)
    }

    /// Returns these messages, and clears the notes. If memory runs out, the notes stay as they
    /// were.
    pub fn drain(
        &mut self,
        alloc: Global,
        now: &EndpointView,
        limits: &Limits,
    ) -> Result<List<Message>, Memory>
        requires limit { 1 ≤ limits.now.frame_addrs }
        requires now { IsOrderly now.now }
        ensures batch { IfOk result (λ messages. messages ≡ endpoint_batch
            (Some (last_view self.old.exists self.old.pending.items now.now)) now.now limits.now) }
        ensures exists { OnOk result (self.new.exists ≡ now.now.exists) }
        ensures pending { OnOk result (self.new.pending.items ≡ []) }
        ensures err_exists { OnErr result (self.new.exists ≡ self.old.exists) }
        ensures err_pending { OnErr result (self.new.pending.items ≡ self.old.pending.items) }
    {
        let messages = self.messages(alloc, now, limits)?;
        self.pending.clear();
        self.exists = now.exists;
        Ok(messages)
    }
}
