//! Groups in a list, each at its number.
ghost use Rattle.std.specs.Prelude.{◌≡◌, ◌<◌, ◌≤◌, ℕ, IfOk, IfSome, None, OnErr, OnOk, length, true};
ghost use Rattle.std.specs.Option.{option_copied};
ghost use Rattle.view_diff.specs.Earlier.{IsByAddress};
ghost use Rattle.view_rules.specs.Batch.{endpoint_batch};
ghost use Rattle.view_rules.specs.Fold.{IsOrderly};
ghost use Rattle.endpoint_groups.specs.Members.{Enters, IsFree, KeepsShown, Same, SetsAt, encoding_at, group_at, is_current, is_untold, members_at, one_less, one_more, shown_at, with_encoding};

use crate::group::Group;
use mesh_base::limits::Limits;
use mesh_base::list::List;
use mesh_base::memory::Memory;
use net_cidr::ip::Ip;
use std::alloc::Global;
use view_diff::batch::endpoint_batch;
use view_types::endpoint::{EndpointRow, EndpointView};
use view_types::message::Message;

/// Adds a member to the group at an index.
pub fn enter_at<F: Drop>(groups: &mut Vec<Group<F>>, place: usize) -> Result<(), Memory>
    requires { place < length groups.old.items }
    ensures ok { OnOk result (SetsAt place one_more groups.old.items groups.new.items) }
    ensures err { OnErr result (Same groups.old.items groups.new.items) }
    ensures len { length groups.new.items ≡ length groups.old.items }
{
    groups[place].enter()
}

/// Removes a member from the group with this number, if there is one.
pub fn leave_at<F: Drop>(groups: &mut Vec<Group<F>>, number: u64)
    ensures left { SetsAt number one_less groups.old.items groups.new.items }
    ensures len { length groups.new.items ≡ length groups.old.items }
{
    let place = number as usize;
    if place < groups.len() {
        groups[place].leave();
    }
}

/// Keeps the encoding at the group with this number, if there is one.
pub fn keep_at<F: Drop>(groups: &mut Vec<Group<F>>, number: u64, encoding: F)
    ensures kept { SetsAt number (with_encoding encoding) groups.old.items groups.new.items }
    ensures len { length groups.new.items ≡ length groups.old.items }
{
    let place = number as usize;
    if place < groups.len() {
        groups[place].keep(encoding);
    }
}

pub fn encoding_at<F>(groups: &[Group<F>], number: u64) -> Option<&F>
    ensures { option_copied result ≡ encoding_at groups.now number }
{
    match groups.get(number as usize) {
        Some(group) => group.encoding.as_ref(),
        None => None,
    }
}

pub fn messages_at<F: Drop>(
    alloc: Global,
    groups: &[Group<F>],
    number: u64,
    now: &EndpointView,
    limits: &Limits,
) -> Result<List<Message>, Memory>
    requires limit { 1 ≤ limits.now.frame_addrs }
    requires now { IsOrderly now.now }
    ensures { IfOk result (λ messages. messages
        ≡ endpoint_batch (shown_at groups.now number now.now) now.now limits.now) }
{
    match groups.get(number as usize) {
        Some(group) => group.messages(alloc, now, limits),
        None => endpoint_batch(alloc, None, now, limits),
    }
}

/// Adds a member to the group of those that were shown the current endpoints: the current one, or
/// else a new one.
pub fn enter_current<F: Drop>(
    alloc: Global,
    groups: &mut Vec<Group<F>>,
    current: usize,
    exists: bool,
) -> Result<usize, Memory>
    requires { 0 < length groups.old.items }
    ensures entry { IfOk result (λ to.
        Enters exists current to groups.old.items groups.new.items) }
    ensures err { OnErr result (Same groups.old.items groups.new.items) }
    ensures len { length groups.old.items ≤ length groups.new.items }
{
    if is_current_at(groups.as_slice(), current, exists) {
        enter_at(groups, current)?;
        return Ok(current);
    }
    open(groups, Group::of_one(alloc, exists))
}

fn is_current_at<F: Drop>(groups: &[Group<F>], place: usize, exists: bool) -> bool
    ensures current { result ≡ is_current exists (group_at groups.now place) }
    ensures within { result ≡ true → place < length groups.now }
{
    match groups.get(place) {
        Some(group) => group.is_current(exists),
        None => false,
    }
}

/// Inserts the group at a place without members, and returns its index.
fn open<F: Drop>(groups: &mut Vec<Group<F>>, group: Group<F>) -> Result<usize, Memory>
    requires { 0 < length groups.old.items }
    ensures free { IfOk result (λ to. IsFree groups.old.items to) }
    ensures put { IfOk result (λ to. SetsAt to (λ old. group) groups.old.items groups.new.items) }
    ensures err { OnErr result (Same groups.old.items groups.new.items) }
    ensures len { length groups.old.items ≤ length groups.new.items }
{
    match vacant_place(groups.as_slice()) {
        Some(place) => {
            groups[place] = group;
            Ok(place)
        }
        None => {
            groups.push(group)?;
            Ok(groups.len() - 1)
        }
    }
}

/// Returns the index of a group without members, after the first.
fn vacant_place<F>(groups: &[Group<F>]) -> Option<usize>
    ensures free { IfSome result (λ place. IsFree groups.now place) }
    ensures within { IfSome result (λ place. place < length groups.now) }
{
    for place in 1..groups.len() {
        if groups[place].members == 0 {
            return Some(place);
        }
    }
    None
}

/// Notes the addresses in each group, and drops the kept encodings. If memory runs out, only some
/// groups have noted them.
pub fn note_all<F: Drop>(
    alloc: Global,
    groups: &mut Vec<Group<F>>,
    before: &[(Ip, u16, Option<EndpointRow>)],
) -> Result<(), Memory>
    requires { IsByAddress before.now }
    ensures members { (n : ℕ) → members_at groups.new.items n ≡ members_at groups.old.items n }
    ensures shown { OnOk result (KeepsShown before.now groups.old.items groups.new.items) }
    ensures encoding { OnOk result ((n : ℕ) → encoding_at groups.new.items n ≡ None) }
    ensures never { is_untold (group_at groups.new.items 0)
        ≡ is_untold (group_at groups.old.items 0) }
    ensures len { length groups.new.items ≡ length groups.old.items }
{
    for place in 0..groups.len() {
        groups[place].note(alloc, before)?;
    }
    Ok(())
}
