// The frames that a client is sent.
ghost use Rattle.std.specs.Prelude.{◌≡◌, ◌≤◌, Some};
ghost use Rattle.std.specs.Option.{option_copied};
ghost use Rattle.view_rules.specs.Batch.{batch};
ghost use Rattle.view_rules.specs.Fold.{IsOrderlyIfShown};
ghost use Rattle.feed_history.specs.Drains.{frames_within};
ghost use Rattle.view_relay.specs.Accepted.{sent_or_fault};
ghost use Rattle.view_relay.specs.Given.{Gives};

use crate::fault::RelayFault;
use bytes::Bytes;
use feed_history::frames::frames_within;
use feed_history::refusal::HubFault;
use mesh_base::limits::Limits;
use mesh_base::list::List;
use std::alloc::Global;
use view_diff::views::batch;
use view_types::view::View;

/// Returns the frames of the messages from what was shown, or from none, to the view.
pub(crate) fn frames_to(
    alloc: Global,
    limits: &Limits,
    shown: Option<&View>,
    view: &View,
) -> Result<List<Bytes>, RelayFault>
    requires some_addresses { 1 ≤ limits.now.frame_addrs }
    requires shown { IsOrderlyIfShown (option_copied shown) }
    requires view { IsOrderlyIfShown (Some view.now) }
    ensures { Gives result (sent_or_fault
        (frames_within limits.now.message (batch (option_copied shown.entry) view.now limits.now))) }
{
    let messages = batch(alloc, shown, view, limits)?;
    match frames_within(alloc, limits.message, messages.as_slice()) {
        Ok(frames) => Ok(frames),
        Err(HubFault::Oversize { bytes }) => Err(RelayFault::Oversize { bytes }),
        Err(_) => Err(RelayFault::Memory),
    }
}
