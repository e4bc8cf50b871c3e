ghost use Rattle.std.specs.Prelude.{◌≡◌, Bool, IfOk, Some};
ghost use Rattle.std.specs.Bool.{Decides};
ghost use Rattle.std.specs.Option.{option_copied};
ghost use Rattle.view_rules.proofs.SamePolicies.{outbound_decides, server_decides};
ghost use Rattle.view_rules.proofs.SameProfile.{profile_decides};
ghost use Rattle.view_rules.specs.Batch.{whole_batch};
ghost use Rattle.view_rules.specs.Same.{same_option, same_profile};
ghost use Rattle.view_rules.specs.SamePolicies.{same_outbound, same_server};
ghost use Rattle.view_types.specs.declared.message.Message.{Message as TheMessage};
ghost use Rattle.view_types.specs.declared.message.Message.TheVariants as message;

use mesh_base::copied::Copied;
use mesh_base::list::List;
use mesh_base::memory::Memory;
use mesh_base::same::Same;
use std::alloc::Global;
use view_types::message::Message;
use view_types::outbound::{OutboundView, ProfileView};
use view_types::server_view::ServerView;

/// A kind of view that is sent whole.
pub trait Whole {
    type View: Copied + Same;

    /// Whether two views are the same.
    ghost same: { Self.View → Self.View → Bool };

    /// The message that carries the view.
    ghost whole: { Self.View → TheMessage };

    fn message(view: Self::View) -> Message
        ensures { result ≡ whole view };

    /// States that views are the same exactly if they are equal.
    ghost decides: { (v w : Self.View) → Decides (same v w) (v ≡ w) };
}

/// Profiles of targets.
pub struct Profiles;

/// Inbound views of Pod ports.
pub struct Ports;

/// Outbound views of targets.
pub struct Targets;

/// Inbound views of Pod ports whose later changes are sent as differences.
pub struct PortRows;

impl Whole for Profiles {
    type View = ProfileView;

    ghost same = { same_profile };

    ghost whole = { message.Profile };

    ghost decides = { profile_decides };

    fn message(view: ProfileView) -> Message {
        Message::Profile(view)
    }
}

impl Whole for Ports {
    type View = ServerView;

    ghost same = { same_server };

    ghost whole = { message.Server };

    ghost decides = { server_decides };

    fn message(view: ServerView) -> Message {
        Message::Server(view)
    }
}

impl Whole for Targets {
    type View = OutboundView;

    ghost same = { same_outbound };

    ghost whole = { message.Outbound };

    ghost decides = { outbound_decides };

    fn message(view: OutboundView) -> Message {
        Message::Outbound(view)
    }
}

impl Whole for PortRows {
    type View = ServerView;

    ghost same = { same_server };

    ghost whole = { message.Whole };

    ghost decides = { server_decides };

    fn message(view: ServerView) -> Message {
        Message::Whole(view)
    }
}

/// Returns the message that brings a subscriber from the old view, or from none, to the new one,
/// unless both are the same. The message has a copy of the view.
pub fn whole_batch<T: Whole>(
    alloc: Global,
    old: Option<&T::View>,
    new: &T::View,
) -> Result<List<Message>, Memory>
    ensures { IfOk result (λ messages.
        messages ≡ whole_batch T.same T.whole (option_copied old.entry) new.now) }
{
    let mut messages = List::new(alloc);
    if !is_shown::<T>(old, new) {
        messages.add(T::message(new.copy(alloc)?))?;
    }
    Ok(messages)
}

fn is_shown<T: Whole>(old: Option<&T::View>, new: &T::View) -> bool
    ensures { result ≡ same_option T.same (option_copied old.entry) (Some new.now) }
{
    match old {
        Some(old) => old.is_same(new),
        None => false,
    }
}
