ghost use Rattle.std.specs.Prelude.{◌≡◌, ◌<◌, ◌≤◌, ℕ, IfOk, IfSome, IsErr, None, OnErr, OnOk, Option, Some, false, length, true};
ghost use Rattle.std.specs.Option.{option_copied};
ghost use Rattle.view_diff.specs.Earlier.{IsByAddress};
ghost use Rattle.view_rules.specs.Batch.{endpoint_batch};
ghost use Rattle.view_rules.specs.Fold.{IsOrderly};
ghost use Rattle.view_types.specs.declared.endpoint.EndpointView.{EndpointView as TheView};
ghost use Rattle.endpoint_groups.specs.Encoded.{AreEncoded};
ghost use Rattle.endpoint_groups.specs.Members.{KeepsShown, Moves, Same, SetsAt, current_group, encoding_at, group_at, is_untold, members_at, one_less, one_more, shown_at, with_encoding};

use crate::group::Group;
use crate::places::{
    encoding_at, enter_at, enter_current, keep_at, leave_at, messages_at, note_all,
};
use mesh_base::limits::Limits;
use mesh_base::list::List;
use mesh_base::memory::Memory;
use net_cidr::ip::Ip;
use std::alloc::Global;
use view_types::endpoint::{EndpointRow, EndpointView};
use view_types::message::Message;

/// The groups of the subscribers of a key, each known by a number. A number without members may be
/// reused. `F` is the encoding of the messages of a group.
#[derive(Drop)]
pub struct EndpointGroups<F> {
    alloc: Global,
    /// The groups by their numbers. The members of the first one were shown nothing yet.
    groups: Vec<Group<F>>,
    /// The number of the group that was shown the current endpoints last.
    current: usize,
    /// Whether memory ran out at a change.
    spent: bool,
    ghost some: { 0 < length groups.items },
    ghost never: { is_untold (group_at groups.items 0) ≡ true },
}

impl<F: Drop> EndpointGroups<F> {
    /// Creates groups without members.
    pub fn new(alloc: Global) -> Result<EndpointGroups<F>, Memory>
        ensures members { IfOk result (λ all. (n : ℕ) → members_at all.groups.items n ≡ 0) }
        ensures encoding { IfOk result (λ all. (n : ℕ) → encoding_at all.groups.items n ≡ None) }
        ensures going { IfOk result (λ all. all.spent ≡ false) }
    {
        let mut groups = Vec::new(alloc);
        groups.push(Group::vacant())?;
        Ok(EndpointGroups {
            alloc,
            groups,
            current: 0,
            spent: false,
        })
    }

    /// Adds a subscriber that was shown nothing yet. Returns the number of its group. The cost does
    /// not depend on the number of subscribers. After `Memory` all is as before.
    pub fn join(&mut self) -> Result<u64, Memory>
        ensures ok { IfOk result (λ number.
            SetsAt number one_more self.old.groups.items self.new.groups.items) }
        ensures never { IfOk result (λ number. (now : TheView)
            → shown_at self.old.groups.items number now ≡ None) }
        ensures encoded { (encode : Option TheView → Option F) (now : TheView)
            → AreEncoded encode now self.old.groups.items
            → AreEncoded encode now self.new.groups.items }
        ensures err { OnErr result (Same self.old.groups.items self.new.groups.items) }
        ensures current { self.new.current ≡ self.old.current }
        ensures spent { self.new.spent ≡ self.old.spent }
        ensures refused { self.old.spent ≡ true → IsErr result }
    {
        if self.spent {
            return Err(Memory);
        }
        enter_at(&mut self.groups, 0)?;
        Ok(0)
    }

    /// Removes a member from the group. The group is cleared with its last member, except that the
    /// encoding for new subscribers stays until the next change. It does not allocate.
    pub fn leave(&mut self, number: u64)
        ensures left { SetsAt number one_less self.old.groups.items self.new.groups.items }
        ensures encoded { (encode : Option TheView → Option F) (now : TheView)
            → AreEncoded encode now self.old.groups.items
            → AreEncoded encode now self.new.groups.items }
        ensures current { self.new.current ≡ self.old.current }
        ensures spent { self.new.spent ≡ self.old.spent }
    {
        leave_at(&mut self.groups, number);
    }

    /// Records a change of the rows at these addresses, each given with the row that was there
    /// before, or that the Service was created or deleted. Each group notes the addresses once,
    /// however many members it has, and its kept encoding is dropped. After `Memory` the groups are
    /// spent: each call that may return `Memory` does.
    pub fn change(&mut self, before: &[(Ip, u16, Option<EndpointRow>)]) -> Result<(), Memory>
        requires { IsByAddress before.now }
        ensures members { (n : ℕ) → members_at self.new.groups.items n
            ≡ members_at self.old.groups.items n }
        ensures shown { OnOk result
            (KeepsShown before.now self.old.groups.items self.new.groups.items) }
        ensures encoding { OnOk result ((n : ℕ) → encoding_at self.new.groups.items n ≡ None) }
        ensures current { self.new.current ≡ self.old.current }
        ensures going { OnOk result (self.new.spent ≡ false) }
        ensures err { OnErr result (self.new.spent ≡ true) }
        ensures refused { self.old.spent ≡ true → IsErr result }
    {
        if self.spent {
            return Err(Memory);
        }
        self.spent = true;
        note_all(self.alloc, &mut self.groups, before)?;
        self.spent = false;
        Ok(())
    }

    /// Returns the messages that bring the members of the group from what they were last shown to
    /// the current endpoints.
    pub fn messages(
        &self,
        number: u64,
        now: &EndpointView,
        limits: &Limits,
    ) -> Result<List<Message>, Memory>
        requires limit { 1 ≤ limits.now.frame_addrs }
        requires now { IsOrderly now.now }
        ensures batch { IfOk result (λ messages. messages ≡ endpoint_batch
            (shown_at self.now.groups.items number now.now) now.now limits.now) }
        ensures refused { self.now.spent ≡ true → IsErr result }
    {
        if self.spent {
            return Err(Memory);
        }
        messages_at(self.alloc, self.groups.as_slice(), number, now, limits)
    }

    /// Returns the kept encoding of the messages of the group.
    pub fn encoding(&self, number: u64) -> Option<&F>
        ensures { option_copied result ≡ encoding_at self.now.groups.items number }
    {
        encoding_at(self.groups.as_slice(), number)
    }

    /// Keeps the encoding of the messages of the group until the rows change. A group without
    /// members keeps none.
    pub fn keep(&mut self, number: u64, encoding: F)
        ensures kept { SetsAt number (with_encoding encoding) self.old.groups.items
            self.new.groups.items }
        ensures encoded { (encode : Option TheView → Option F) (now : TheView)
            → encode (shown_at self.old.groups.items number now) ≡ Some encoding
            → AreEncoded encode now self.old.groups.items
            → AreEncoded encode now self.new.groups.items }
        ensures current { self.new.current ≡ self.old.current }
        ensures spent { self.new.spent ≡ self.old.spent }
    {
        keep_at(&mut self.groups, number, encoding);
    }

    /// Records that a member of the group was shown the current endpoints, and moves it to the
    /// group of those that were. Returns the number of that group. After `Memory` all is as before.
    pub fn catch_up(&mut self, number: u64, exists: bool) -> Result<u64, Memory>
        ensures moved { 0 < members_at self.old.groups.items number → IfOk result (λ to.
            Moves number to self.old.groups.items self.new.groups.items) }
        ensures shown { 0 < members_at self.old.groups.items number → IfOk result (λ to.
            (now : TheView) → IsOrderly now → now.exists ≡ exists
            → shown_at self.new.groups.items to now ≡ Some now) }
        ensures shared { IfOk result (λ to. IfSome
            (current_group exists self.old.current self.old.groups.items) (λ n. to ≡ n)) }
        ensures current { 0 < members_at self.old.groups.items number → IfOk result (λ to.
            current_group exists self.new.current self.new.groups.items ≡ Some to) }
        ensures encoded { (encode : Option TheView → Option F) (now : TheView)
            → AreEncoded encode now self.old.groups.items
            → AreEncoded encode now self.new.groups.items }
        ensures err { OnErr result (Same self.old.groups.items self.new.groups.items) }
        ensures err_current { OnErr result (self.new.current ≡ self.old.current) }
        ensures spent { self.new.spent ≡ self.old.spent }
        ensures refused { self.old.spent ≡ true → IsErr result }
    {
        if self.spent {
            return Err(Memory);
        }
        let to = enter_current(self.alloc, &mut self.groups, self.current, exists)?;
        leave_at(&mut self.groups, number);
        self.current = to;
        Ok(to as u64)
    }
}
