ghost use Rattle.std.specs.Prelude.{◌≡◌, ◌↔◌, IfOk, IsTrue};
ghost use Rattle.view_types.specs.Ports.{by_rows};

use crate::endpoint::EndpointView;
use crate::outbound::{OutboundView, ProfileView};
use crate::server_view::ServerView;
use mesh_base::copied::Copied;
use mesh_base::memory::Memory;
use mesh_base::same::Same;
use std::alloc::Global;

/// The view of a query over the objects held.
pub enum View {
    Endpoints(EndpointView),
    Profile(ProfileView),
    Server(ServerView),
    Outbound(OutboundView),
    /// An inbound view whose later messages carry only what changes of the Server's authorizations.
    /// These are in the order of their kinds and names, each once.
    ServerRows(ServerView),
}

// Each drained subscription keeps a view, so its size counts.
const _: () = prove!(size_of::<View>() == 112);

impl View {
    /// Converts an inbound view to one that is sent by rows. Any other view is returned as it is.
    pub fn by_rows(self) -> View
        ensures { result ≡ by_rows self }
    {
        match self {
            View::Server(view) => View::ServerRows(view),
            view => view,
        }
    }
}

/// Written by hand, as that of `Object`.
impl Drop for View {
    fn drop(self) {
        match self {
            View::Endpoints(_view) => {}
            View::Profile(_view) => {}
            View::Server(_view) => {}
            View::Outbound(_view) => {}
            View::ServerRows(_view) => {}
        }
    }
}

impl Copied for View {
    fn copy(&self, alloc: Global) -> Result<View, Memory> {
        match self {
            View::Endpoints(view) => Ok(View::Endpoints(view.copy(alloc)?)),
            View::Profile(view) => Ok(View::Profile(view.copy(alloc)?)),
            View::Server(view) => Ok(View::Server(view.copy(alloc)?)),
            View::Outbound(view) => Ok(View::Outbound(view.copy(alloc)?)),
            View::ServerRows(view) => Ok(View::ServerRows(view.copy(alloc)?)),
        }
    }
}

impl Same for View {
    fn is_same(&self, other: &View) -> bool {
        match (self, other) {
            (View::Endpoints(mine), View::Endpoints(others)) => mine.is_same(others),
            (View::Profile(mine), View::Profile(others)) => mine.is_same(others),
            (View::Server(mine), View::Server(others)) => mine.is_same(others),
            (View::Outbound(mine), View::Outbound(others)) => mine.is_same(others),
            (View::ServerRows(mine), View::ServerRows(others)) => mine.is_same(others),
            _ => false,
        }
    }
}
