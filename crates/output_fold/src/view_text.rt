ghost use Rattle.std.specs.Prelude.{◌≡◌, ◌++◌, ◌≤◌, OnOk, Some};
ghost use Rattle.view_rules.specs.Batch.{batch};
ghost use Rattle.view_rules.specs.Fold.{IsOrderlyIfShown};
ghost use Rattle.feed_history.specs.Drains.{too_long};
ghost use Rattle.feed_history.specs.Output.{lines_by};
ghost use Rattle.feed_history.specs.Text.{view_line};
ghost use Rattle.output_fold.specs.Folded.{view_lines};

use feed_history::frames::frames_within;
use feed_history::refusal::HubFault;
use feed_history::text::{push_frames, push_oversize};
use mesh_base::limits::Limits;
use mesh_base::list::List;
use mesh_base::memory::Memory;
use mesh_base::sub_id::SubId;
use std::alloc::Global;
use view_diff::views::batch;
use view_types::message::Message;
use view_types::view::View;

// Writes the frames of messages, or the length of the first message that is too long.
fn push_messages(
    alloc: Global,
    id: SubId,
    limit: u32,
    messages: &List<Message>,
    out: &mut Vec<u8>,
) -> Result<(), Memory>
    ensures { OnOk result (out.new.items
        ≡ out.old.items ++ lines_by (view_line id.0) id.0 messages.now
        (too_long limit messages.now)) }
{
    match frames_within(alloc, limit, messages.as_slice()) {
        Ok(frames) => Ok(push_frames(alloc, out, "view", id.0, &frames)?),
        Err(HubFault::Oversize { bytes }) => Ok(push_oversize(alloc, out, id.0, bytes)?),
        Err(_) => Err(Memory),
    }
}

/// Writes the messages that bring a subscriber without a view to this one.
pub fn push_view(
    alloc: Global,
    id: SubId,
    limits: &Limits,
    view: &View,
    out: &mut Vec<u8>,
) -> Result<(), Memory>
    requires some_addresses { 1 ≤ limits.now.frame_addrs }
    requires orderly { IsOrderlyIfShown (Some view.now) }
    ensures { OnOk result
        (out.new.items ≡ out.old.items ++ view_lines id.0 limits.now (Some view.now)) }
{
    let messages = batch(alloc, None, view, limits)?;
    push_messages(alloc, id, limits.message, &messages, out)
}
