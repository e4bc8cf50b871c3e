// The view of any port and the authorizations of any route, without a subscription. Stored rows are
// borrowed, and the others computed.
ghost use Rattle.std.specs.Prelude.{◌≡◌, ◌≤◌, ◌+◌, IfOk};
ghost use Rattle.view_types.specs.declared.config.Config.{Config};
ghost use Rattle.row_table.specs.PeekedRow.{peeked_row};
ghost use Rattle.row_views.specs.Costs.{cost_of};
ghost use Rattle.inbound_views.specs.BarePorts.{authz_of_route, bare_port, bare_rows, route_cost};

use crate::joining::{bare_port, copied_part};
use crate::keys::key_of_row;
use crate::sources::RowSource;
use crate::views::{InboundViews, KeepsRows};
use mark_rules::keys::{RouteKey, ServerKey};
use mesh_base::key::ObjKey;
use mesh_base::list::List;
use mesh_base::memory::Memory;
use mesh_base::steps::Steps;
use mesh_base::text::Text;
use object_store::store::Store;
use row_table::peeked::Peeked;
use row_views::query_views::QueryViews;
use server_index::kept::ServerPart;
use std::alloc::Global;
use view_types::server_view::{AuthzRow, RouteRow, ServerView};

/// The rows of ports over the objects of a store, whether or not they are stored.
#[derive(Clone, Copy)]
pub struct PeekedRows<'a> {
    views: &'a InboundViews,
    store: &'a Store,
}

impl RowSource for PeekedRows<'_> {
    ghost use Rattle.std.specs.Prelude.{◌≡◌};
    ghost use Rattle.mark_rules.specs.Rows.{authz_row, server_routes};

    ghost stand = { λ s config held.
        ⟦<InboundViews as KeepsRows>⟧.stand s.views.now config held
        × (held ≡ s.store.now.objects) };

    ghost routes_at = { λ s held key. server_routes held key };

    ghost authz_at = { λ s config held key. authz_row config held key };

    fn routes<L>(&self, key: &RouteKey, steps: &mut Steps<L>) -> Result<List<RouteRow>, Memory> {
        let rows = self.views.routes.peek(self.store, key, steps)?;
        rows.into_row(self.views.alloc)
    }

    fn authz<L>(&self, key: &ObjKey, steps: &mut Steps<L>) -> Result<List<AuthzRow>, Memory> {
        let rows = self.views.authz.peek(self.store, key, steps)?;
        rows.into_row(self.views.alloc)
    }
}

impl InboundViews {
    /// Returns the view of a port over the objects of the store. Its routes are without their
    /// authorizations.
    pub fn peek_bare<L>(
        &self,
        store: &Store,
        key: &ServerKey,
        steps: &mut Steps<L>,
    ) -> Result<ServerView, Memory>
        ensures view { IfOk result (λ view. (config : Config)
            → ⟦<InboundViews as QueryViews>⟧.stands self.now config store.now.objects
            → view ≡ bare_port config store.now.objects key.now) }
        ensures steps { (config : Config)
            → ⟦<InboundViews as QueryViews>⟧.stands self.now config store.now.objects
            → steps.new ≤ steps.old
            + cost_of config store.now.objects (bare_rows config store.now.objects key.now) }
    {
        let peeked = self.servers.peek(store, key, steps)?;
        let part = own_part(self.alloc, peeked)?;
        let rows = PeekedRows { views: self, store };
        bare_port(&rows, self.alloc, &key.ns, part, steps)
    }

    /// Returns the authorizations of a route in a namespace over the objects of the store.
    pub fn peek_authz<L>(
        &self,
        store: &Store,
        ns: &Text,
        route: &RouteRow,
        steps: &mut Steps<L>,
    ) -> Result<List<AuthzRow>, Memory>
        ensures rows { IfOk result (λ rows. (config : Config)
            → ⟦<InboundViews as QueryViews>⟧.stands self.now config store.now.objects
            → rows ≡ authz_of_route config store.now.objects ns.now route.now) }
        ensures steps { (config : Config)
            → ⟦<InboundViews as QueryViews>⟧.stands self.now config store.now.objects
            → steps.new ≤ steps.old + route_cost store.now.objects ns.now route.now }
    {
        let key = key_of_row(ns, route)?;
        let rows = PeekedRows { views: self, store };
        rows.authz(&key, steps)
    }
}

// Copies or moves out the server part of a port.
fn own_part(
    alloc: Global,
    part: Peeked<'_, Option<ServerPart>>,
) -> Result<Option<ServerPart>, Memory>
    ensures { IfOk result (λ own. own ≡ peeked_row part.entry) }
{
    match part {
        Peeked::Kept(part) => copied_part(alloc, part),
        Peeked::Made(part) => Ok(part),
    }
}
