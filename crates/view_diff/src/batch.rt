ghost use Rattle.std.specs.Prelude.{◌≡◌, ◌≤◌, IfOk};
ghost use Rattle.std.specs.Option.{option_copied};
ghost use Rattle.view_rules.specs.Batch.{endpoint_batch, messages_to_none, rows_before, IsOrderlyBefore, is_news};
ghost use Rattle.view_rules.specs.Fold.{IsOrderly};

use crate::keyed::keyed_batch;
use mesh_base::limits::Limits;
use mesh_base::list::List;
use mesh_base::memory::Memory;
use std::alloc::Global;
use view_types::endpoint::{EndpointRow, EndpointView};
use view_types::message::Message;

/// Returns the messages that bring a subscriber from the old endpoints, or from none, to the new
/// ones. Their rows are copies.
pub fn endpoint_batch(
    alloc: Global,
    old: Option<&EndpointView>,
    new: &EndpointView,
    limits: &Limits,
) -> Result<List<Message>, Memory>
    requires limit { 1 ≤ limits.now.frame_addrs }
    requires old { IsOrderlyBefore (option_copied old) }
    requires new { IsOrderly new.now }
    ensures { IfOk result (λ messages.
        messages ≡ endpoint_batch (option_copied old.entry) new.now limits.now) }
{
    let rows = new.rows.as_slice();
    if rows.is_empty() {
        return to_none(alloc, old, new.exists);
    }
    keyed_batch(alloc, rows_before(old), rows, limits.frame_addrs as usize)
}

fn to_none(alloc: Global, old: Option<&EndpointView>, exists: bool) -> Result<List<Message>, Memory>
    ensures { IfOk result
        (λ messages. messages ≡ messages_to_none (option_copied old.entry) exists) }
{
    let mut messages = List::new(alloc);
    if is_news(old, exists) {
        messages.add(Message::NoEndpoints(exists))?;
    }
    Ok(messages)
}

/// Whether a subscriber must be sent that there are no rows.
fn is_news(old: Option<&EndpointView>, exists: bool) -> bool
    ensures { result ≡ is_news (option_copied old.entry) exists }
{
    match old {
        Some(view) => view.exists != exists || view.rows.len() != 0,
        None => true,
    }
}

fn rows_before<'a>(old: Option<&'a EndpointView>) -> &'a [EndpointRow]
    ensures { result.now ≡ rows_before (option_copied old.entry) }
{
    match old {
        Some(view) => view.rows.as_slice(),
        None => &[],
    }
}
