// The frames that bring a subscriber to a view. A view of a port is moved into its message and
// back, and not copied.
ghost use Rattle.std.specs.Prelude.{◌≡◌, ◌≤◌, OnOk, Some};
ghost use Rattle.std.specs.Option.{option_copied};
ghost use Rattle.view_types.specs.declared.message.Message.TheVariants as sends;
ghost use Rattle.view_types.specs.declared.server_view.ServerView.{ServerView as TheView};
ghost use Rattle.view_rules.specs.Batch.{batch, server_in, whole_batch};
ghost use Rattle.view_rules.specs.Fold.{IsOrderlyIfShown};
ghost use Rattle.view_rules.specs.Same.{same_option};
ghost use Rattle.view_rules.specs.SamePolicies.{same_server};
ghost use Rattle.feed_history.specs.Drains.{IsOrMemory, frames_within};

use bytes::Bytes;
use feed_history::frames::frames_within;
use feed_history::refusal::HubFault;
use mesh_base::limits::Limits;
use mesh_base::list::List;
use mesh_base::same::Same;
use std::alloc::Global;
use std::{mem, slice};
use view_diff::views::batch;
use view_types::message::Message;
use view_types::server_view::ServerView;
use view_types::view::View;

/// Returns the frames that bring a subscriber from the view that it was last shown, if any, to this
/// one. The view is unchanged unless that fails.
pub fn frames_to(
    alloc: Global,
    shown: Option<&View>,
    view: &mut View,
    limits: &Limits,
) -> Result<List<Bytes>, HubFault>
    requires limit { 1 ≤ limits.now.frame_addrs }
    requires old { IsOrderlyIfShown (option_copied shown) }
    requires new { IsOrderlyIfShown (Some view.old) }
    ensures same { OnOk result (view.new ≡ view.old) }
    ensures frames { IsOrMemory (frames_within limits.now.message
        (batch (option_copied shown.entry) view.old limits.now)) result }
{
    match view {
        View::Server(server) => server_frames(alloc, shown, server, limits.message),
        _ => batch_frames(alloc, shown, view, limits),
    }
}

// Returns the frames of the messages of a view.
fn batch_frames(
    alloc: Global,
    shown: Option<&View>,
    view: &View,
    limits: &Limits,
) -> Result<List<Bytes>, HubFault>
    requires limit { 1 ≤ limits.now.frame_addrs }
    requires old { IsOrderlyIfShown (option_copied shown) }
    requires new { IsOrderlyIfShown (Some view.now) }
    ensures { IsOrMemory (frames_within limits.now.message
        (batch (option_copied shown.entry) view.now limits.now)) result }
{
    let messages = batch(alloc, shown, view, limits)?;
    frames_within(alloc, limits.message, messages.as_slice())
}

// Returns the frame of a view of a port, or none if it is the one that was last shown.
fn server_frames(
    alloc: Global,
    shown: Option<&View>,
    server: &mut ServerView,
    limit: u32,
) -> Result<List<Bytes>, HubFault>
    ensures same { OnOk result (server.new ≡ server.old) }
    ensures frames { IsOrMemory (frames_within limit (whole_batch same_server sends.Server
        (server_in (option_copied shown.entry)) server.old)) result }
{
    if is_shown(shown, server) {
        return Ok(List::new(alloc));
    }
    let message = Message::Server(mem::replace(server, ServerView::Absent));
    let frames = frames_within(alloc, limit, slice::from_ref(&message))?;
    put_back(server, message);
    Ok(frames)
}

// Whether a view of a port is the one that was last shown.
fn is_shown(shown: Option<&View>, server: &ServerView) -> bool
    ensures { result ≡ same_option same_server (server_in (option_copied shown.entry))
        (Some server.now) }
{
    is_same(server_in(shown), server)
}

fn is_same(shown: Option<&ServerView>, server: &ServerView) -> bool
    ensures { result ≡ same_option same_server (option_copied shown.entry) (Some server.now) }
{
    match shown {
        Some(shown) => shown.is_same(server),
        None => false,
    }
}

fn server_in<'a>(view: Option<&'a View>) -> Option<&'a ServerView>
    ensures { option_copied result ≡ server_in (option_copied view.entry) }
{
    match view {
        Some(View::Server(server)) => Some(server),
        _ => None,
    }
}

// Moves the view back out of its message.
fn put_back(server: &mut ServerView, message: Message)
    requires { (lent : TheView) × (message ≡ sends.Server lent) }
    ensures { message ≡ sends.Server server.new }
{
    match message {
        Message::Server(lent) => *server = lent,
        _ => unreachable!(),
    }
}
