//! The messages for an inbound view that is sent as changes of its authorizations.
ghost use Rattle.std.specs.Prelude.{◌≡◌, ◌≤◌, IfOk};
ghost use Rattle.std.specs.Option.{option_copied};
ghost use Rattle.mesh_base.specs.Keyed.{IsKeyed};
ghost use Rattle.view_rules.specs.AuthzOrder.{authz_cmp, authz_key};
ghost use Rattle.view_rules.specs.Batch.{authz_before, differ_in_authz, port_batch};
ghost use Rattle.view_rules.specs.Fold.{authz_of};

use crate::keyed::keyed_batch;
use crate::whole::{PortRows, whole_batch};
use mesh_base::limits::Limits;
use mesh_base::list::List;
use mesh_base::memory::Memory;
use std::alloc::Global;
use view_types::message::Message;
use view_types::server_view::{AuthzRow, ServerView};

/// Returns the messages that bring a subscriber from the old view of a port, or from none, to the
/// new one: the differences of the Server's authorizations if nothing else differs, and otherwise
/// the whole view.
pub(crate) fn port_batch(
    alloc: Global,
    old: Option<&ServerView>,
    new: &ServerView,
    limits: &Limits,
) -> Result<List<Message>, Memory>
    requires limit { 1 ≤ limits.now.frame_addrs }
    requires old { IsKeyed authz_cmp authz_key (λ row. row) (authz_before (option_copied old)) }
    requires new { IsKeyed authz_cmp authz_key (λ row. row) (authz_of new.now) }
    ensures { IfOk result (λ messages. messages
        ≡ port_batch limits.now.frame_addrs (option_copied old.entry) new.now) }
{
    if differ_in_authz(old, new) {
        let before = authz_before(old);
        return keyed_batch(alloc, before, authz_of(new), limits.frame_addrs as usize);
    }
    whole_batch::<PortRows>(alloc, old, new)
}

/// Whether both views have a Server, and only its own authorizations differ.
fn differ_in_authz(old: Option<&ServerView>, new: &ServerView) -> bool
    ensures { result ≡ differ_in_authz (option_copied old.entry) new.now }
{
    match old {
        Some(ServerView::Present(old)) => match new {
            ServerView::Present(new) => old.is_same_but_authz(new),
            ServerView::Absent => false,
        },
        _ => false,
    }
}

fn authz_before<'a>(old: Option<&'a ServerView>) -> &'a [AuthzRow]
    ensures { result.now ≡ authz_before (option_copied old.entry) }
{
    match old {
        Some(view) => authz_of(view),
        None => &[],
    }
}

fn authz_of<'a>(view: &'a ServerView) -> &'a [AuthzRow]
    ensures { result.now ≡ authz_of view.now }
{
    match view {
        ServerView::Present(row) => row.authz.as_slice(),
        ServerView::Absent => &[],
    }
}
