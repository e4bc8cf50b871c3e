ghost use Rattle.std.specs.Prelude.{◌≡◌, ◌≤◌, IfOk, Some};
ghost use Rattle.std.specs.Option.{option_copied};
ghost use Rattle.view_rules.specs.Batch.{batch, endpoints_in, outbound_in, port_in, profile_in, server_in};
ghost use Rattle.view_rules.specs.Fold.{IsOrderlyIfShown};

use crate::batch::endpoint_batch;
use crate::port::port_batch;
use crate::whole::{Ports, Profiles, Targets, whole_batch};
use mesh_base::limits::Limits;
use mesh_base::list::List;
use mesh_base::memory::Memory;
use std::alloc::Global;
use view_types::endpoint::EndpointView;
use view_types::message::Message;
use view_types::outbound::{OutboundView, ProfileView};
use view_types::server_view::ServerView;
use view_types::view::View;

/// Returns the messages that bring a subscriber from the old view, or from none, to the new one.
/// Views of endpoints are sent as differences, and so are inbound views of which only the Server's
/// authorizations have changed; all others are sent whole.
pub fn batch(
    alloc: Global,
    old: Option<&View>,
    new: &View,
    limits: &Limits,
) -> Result<List<Message>, Memory>
    requires limit { 1 ≤ limits.now.frame_addrs }
    requires old { IsOrderlyIfShown (option_copied old) }
    requires new { IsOrderlyIfShown (Some new.now) }
    ensures { IfOk result
        (λ messages. messages ≡ batch (option_copied old.entry) new.now limits.now) }
{
    match new {
        View::Endpoints(view) => endpoint_batch(alloc, endpoints_in(old), view, limits),
        View::Profile(view) => whole_batch::<Profiles>(alloc, profile_in(old), view),
        View::Server(view) => whole_batch::<Ports>(alloc, server_in(old), view),
        View::Outbound(view) => whole_batch::<Targets>(alloc, outbound_in(old), view),
        View::ServerRows(view) => port_batch(alloc, port_in(old), view, limits),
    }
}

fn endpoints_in<'a>(view: Option<&'a View>) -> Option<&'a EndpointView>
    ensures { option_copied result ≡ endpoints_in (option_copied view.entry) }
{
    match view {
        Some(View::Endpoints(view)) => Some(view),
        _ => None,
    }
}

fn profile_in<'a>(view: Option<&'a View>) -> Option<&'a ProfileView>
    ensures { option_copied result ≡ profile_in (option_copied view.entry) }
{
    match view {
        Some(View::Profile(view)) => Some(view),
        _ => None,
    }
}

fn server_in<'a>(view: Option<&'a View>) -> Option<&'a ServerView>
    ensures { option_copied result ≡ server_in (option_copied view.entry) }
{
    match view {
        Some(View::Server(view)) => Some(view),
        _ => None,
    }
}

fn outbound_in<'a>(view: Option<&'a View>) -> Option<&'a OutboundView>
    ensures { option_copied result ≡ outbound_in (option_copied view.entry) }
{
    match view {
        Some(View::Outbound(view)) => Some(view),
        _ => None,
    }
}

fn port_in<'a>(view: Option<&'a View>) -> Option<&'a ServerView>
    ensures { option_copied result ≡ port_in (option_copied view.entry) }
{
    match view {
        Some(View::ServerRows(view)) => Some(view),
        _ => None,
    }
}
