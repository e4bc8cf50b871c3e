ghost use Rattle.std.specs.Prelude.{◌≡◌, ◌≤◌, ◌++◌, [], Some, IfOk, OnOk, filter_map, is_some, map};
ghost use Rattle.std.specs.List.{cons_option, list_any};
ghost use Rattle.std.specs.Option.{option_copied};
ghost use Rattle.mesh_base.specs.Keyed.{IsKeyed};
ghost use Rattle.view_diff.specs.Earlier.{IsByAddress, changed_at, earlier_endpoints, earlier_rows, gone_at, row_if_changed, row_if_gone};
ghost use Rattle.view_rules.specs.Batch.{endpoint_batch, is_news, messages_to_none, messages_to_rows};
ghost use Rattle.view_rules.specs.Endpoints.{pair_cmp, pair_of};
ghost use Rattle.view_rules.specs.Fold.{IsOrderly};

use crate::keyed::messages_of;
use crate::merge::{Changes, add_if_changed};
use mesh_base::copied::Copied;
use mesh_base::limits::Limits;
use mesh_base::list::List;
use mesh_base::memory::Memory;
use net_cidr::ip::Ip;
use row_places::place::row_at;
use std::alloc::Global;
use view_types::endpoint::{EndpointRow, EndpointView};
use view_types::message::Message;

/// Returns the messages that bring a subscriber from the endpoints that it was shown to the current
/// ones. `exists` says whether the Service existed then. `before` has the addresses that may have
/// changed since, in order, each with the row that was there, if any. At all other addresses the
/// subscriber was shown the current rows, which are not looked at.
pub fn batch_since(
    alloc: Global,
    exists: bool,
    before: &[(Ip, u16, Option<EndpointRow>)],
    now: &EndpointView,
    limits: &Limits,
) -> Result<List<Message>, Memory>
    requires limit { 1 ≤ limits.now.frame_addrs }
    requires before { IsByAddress before.now }
    requires now { IsOrderly now.now }
    ensures { IfOk result (λ messages.
        messages ≡ endpoint_batch (Some (earlier_endpoints exists before.now now.now)) now.now
        limits.now) }
{
    let rows = now.rows.as_slice();
    if rows.is_empty() {
        return to_none(alloc, exists, before, now.exists);
    }
    to_rows(alloc, before, rows, limits.frame_addrs as usize)
}

fn to_none(
    alloc: Global,
    existed: bool,
    before: &[(Ip, u16, Option<EndpointRow>)],
    exists: bool,
) -> Result<List<Message>, Memory>
    requires { IsByAddress before.now }
    ensures { IfOk result (λ messages. messages ≡ messages_to_none
        (Some (record { exists = existed; rows = earlier_rows before.now [] })) exists) }
{
    let mut messages = List::new(alloc);
    if is_news(existed, before, exists) {
        messages.add(Message::NoEndpoints(exists))?;
    }
    Ok(messages)
}

/// Whether a subscriber must be sent that there are no rows.
fn is_news(existed: bool, before: &[(Ip, u16, Option<EndpointRow>)], exists: bool) -> bool
    requires { IsByAddress before.now }
    ensures { result
        ≡ is_news (Some (record { exists = existed; rows = earlier_rows before.now [] })) exists }
{
    existed != exists || had_rows(before)
}

fn had_rows(before: &[(Ip, u16, Option<EndpointRow>)]) -> bool
    ensures { result ≡ list_any (λ s. is_some s.2) before.now }
{
    before.iter().any(|(_, _, was)| was.is_some())
}

fn to_rows(
    alloc: Global,
    before: &[(Ip, u16, Option<EndpointRow>)],
    rows: &[EndpointRow],
    size: usize,
) -> Result<List<Message>, Memory>
    requires size { 1 ≤ size }
    requires before { IsByAddress before.now }
    requires rows { IsKeyed pair_cmp pair_of (λ row. row) rows.now }
    ensures { IfOk result (λ messages.
        messages ≡ messages_to_rows size (earlier_rows before.now rows.now) rows.now) }
{
    let found = find_changes(alloc, before, rows)?;
    messages_of::<EndpointRow>(alloc, found, size)
}

/// Finds the differences at these addresses.
fn find_changes(
    alloc: Global,
    before: &[(Ip, u16, Option<EndpointRow>)],
    rows: &[EndpointRow],
) -> Result<Changes<EndpointRow, (Ip, u16)>, Memory>
    requires { IsKeyed pair_cmp pair_of (λ row. row) rows.now }
    ensures changed { IfOk result (λ found.
        found.changed ≡ filter_map (changed_at rows.now) before.now) }
    ensures gone { IfOk result (λ found.
        found.gone ≡ map pair_of (filter_map (gone_at rows.now) before.now)) }
{
    let mut found = Changes::new(alloc);
    for stood in before {
        let row = row_at(rows, &(stood.0, stood.1));
        add_change(alloc, &mut found, stood.2.as_ref(), row)?;
    }
    Ok(found)
}

/// Adds the difference at one address, from the row that was there and the current one.
fn add_change(
    alloc: Global,
    found: &mut Changes<EndpointRow, (Ip, u16)>,
    was: Option<&EndpointRow>,
    row: Option<&EndpointRow>,
) -> Result<(), Memory>
    ensures changed { OnOk result (found.new.changed ≡ found.old.changed
        ++ cons_option (row_if_changed (option_copied was.entry) (option_copied row.entry)) []) }
    ensures gone { OnOk result (found.new.gone ≡ found.old.gone
        ++ map pair_of
        (cons_option (row_if_gone (option_copied was.entry) (option_copied row.entry)) [])) }
{
    match (was, row) {
        (Some(was), Some(row)) => add_if_changed(alloc, &mut found.changed, was, row),
        (Some(was), None) => found.gone.add((was.ip, was.port)),
        (None, Some(row)) => found.changed.add(row.copy(alloc)?),
        (None, None) => Ok(()),
    }
}
