ghost use Rattle.std.specs.Prelude.{◌≡◌, IfOk};

use crate::endpoint::EndpointRow;
use crate::outbound::{OutboundView, ProfileView};
use crate::server_view::{AuthzKind, AuthzRow, ServerView};
use mesh_base::copied::Copied;
use mesh_base::list::List;
use mesh_base::memory::Memory;
use mesh_base::text::Text;
use net_cidr::ip::Ip;
use std::alloc::Global;

/// A message to a subscriber.
#[derive(Drop)]
pub enum Message {
    /// Endpoints that are new or have changed.
    Add(List<EndpointRow>),
    /// Addresses and ports that no longer have an endpoint.
    Remove(List<(Ip, u16)>),
    /// There are no endpoints. The flag is whether the Service exists.
    NoEndpoints(bool),
    /// The whole profile of a target.
    Profile(ProfileView),
    /// The whole inbound view of a port of a Pod.
    Server(ServerView),
    /// The whole outbound view of a target.
    Outbound(OutboundView),
    /// The whole inbound view of a port of a Pod. Later messages carry only what changes.
    Whole(ServerView),
    /// Authorizations of the Server that are new or have changed.
    AuthzPut(List<AuthzRow>),
    /// Kinds and names of authorizations that the Server no longer has.
    AuthzGone(List<(AuthzKind, Text)>),
}

impl Copied for Message {
    fn copy(&self, alloc: Global) -> Result<Message, Memory> {
        match self {
            Message::Add(list) => Ok(Message::Add(list.copy(alloc)?)),
            Message::Remove(list) => Ok(Message::Remove(list.copy(alloc)?)),
            Message::NoEndpoints(exists) => Ok(Message::NoEndpoints(*exists)),
            Message::Profile(view) => Ok(Message::Profile(view.copy(alloc)?)),
            Message::Server(view) => Ok(Message::Server(view.copy(alloc)?)),
            Message::Outbound(view) => Ok(Message::Outbound(view.copy(alloc)?)),
            Message::Whole(view) => Ok(Message::Whole(view.copy(alloc)?)),
            Message::AuthzPut(list) => Ok(Message::AuthzPut(list.copy(alloc)?)),
            Message::AuthzGone(list) => Ok(Message::AuthzGone(list.copy(alloc)?)),
        }
    }
}
