// The views of ports that subscribers request.
ghost use Rattle.std.specs.Prelude.{◌≡◌, ℕ, IfOk};
ghost use Rattle.view_types.specs.Objects.{ObjectMap};
ghost use Rattle.view_types.specs.declared.config.Config.{Config as TheConfig};
ghost use Rattle.mark_graph.specs.RowMarks.{has_row};

use crate::keys::port_key;
use crate::moving::{Earlier, KeysOf, append};
use authz_index::index::{AuthzIndex, new_index as new_authz_index};
use mark_graph::by_mark::in_order;
use mark_rules::keys::{RouteKey, ServerKey};
use mesh_base::key::ObjKey;
use mesh_base::list::List;
use mesh_base::memory::Memory;
use mesh_base::steps::Steps;
use object_store::change::Change;
use object_store::store::Store;
use route_index::index::{RouteIndex, new_index as new_route_index};
use row_sets::sets::RowSets;
use row_table::row_index::RowIndex;
use row_views::query_views::QueryViews;
use row_views::views::RowViews;
use server_index::index::{ServerIndex, new_index as new_server_index};
use std::alloc::Global;
use view_types::config::Config;
use view_types::query::Query;
use view_types::view::View;

/// The views of queries of ports, each joined from rows that are stored once for all subscriptions
/// of their keys.
#[derive(Drop)]
pub struct InboundViews {
    /// The server part of the port of each id.
    pub(crate) servers: RowViews<ServerIndex>,
    /// The routes of its Server.
    pub(crate) routes: RowSets<RouteIndex>,
    /// The authorizations of its Server, and of each of these routes.
    pub(crate) authz: RowSets<AuthzIndex>,
    pub(crate) alloc: Global,
}

/// The ids that a change affects.
#[derive(Drop)]
struct Touched {
    /// Those whose keys differ after it.
    moved: List<u64>,
    /// Those with a row that reads a mark of it.
    all: List<u64>,
}

/// The contents of the three indexes, whatever keys ids are open with.
pub trait KeepsRows {
    /// They stand for these objects.
    ghost stand: { Self → TheConfig → ObjectMap → Type 0 };
}

impl KeepsRows for InboundViews {
    ghost use Rattle.row_views.specs.Standing.{AreKept};
    ghost use Rattle.inbound_views.specs.PortRows.{authz_rows, route_rows, server_rows};
    ghost use Rattle.inbound_views.specs.Standing.{AllAreKept, SetsAreKept};

    ghost stand = { λ s config held. AllAreKept
        (AreKept ⟦<ServerKey as Ord>⟧.cmp ⟦<ServerIndex as RowIndex>⟧.users
        ⟦<ServerIndex as RowIndex>⟧.number_at ⟦<ServerIndex as RowIndex>⟧.stands
        ⟦<ServerIndex as RowIndex>⟧.filter (server_rows config) held s.servers.index
        s.servers.by_number s.servers.by_id)
        (SetsAreKept ⟦<RouteKey as Ord>⟧.cmp ⟦<RouteIndex as RowIndex>⟧.users
        ⟦<RouteIndex as RowIndex>⟧.stands ⟦<RouteIndex as RowIndex>⟧.filter
        route_rows held s.routes.used.index s.routes.used.by_key s.routes.by_id)
        (SetsAreKept ⟦<ObjKey as Ord>⟧.cmp ⟦<AuthzIndex as RowIndex>⟧.users
        ⟦<AuthzIndex as RowIndex>⟧.stands ⟦<AuthzIndex as RowIndex>⟧.filter
        (authz_rows config) held s.authz.used.index s.authz.used.by_key s.authz.by_id) };
}

impl InboundViews {
    ghost use Rattle.std.specs.Prelude.{◌≡◌, ◌≤◌, ◌+◌, ℕ, None, Some, IfOk, OnErr, OnOk};
    ghost use Rattle.view_types.specs.Objects.{ObjectMap};
    ghost use Rattle.mark_rules.specs.Changes.{Leads};
    ghost use Rattle.row_views.specs.Costs.{open_cost};
    ghost use Rattle.row_views.specs.Ids.{Keeps, SetsAt, key_at};
    ghost use Rattle.inbound_views.specs.Costs.{RowsFollow};
    ghost use Rattle.inbound_views.specs.PortRows.{query_for};
    ghost use Rattle.inbound_views.specs.Standing.{AreJoined, AreMoved, reads_row};

    /// Creates views without open ids, under a configuration.
    pub fn new(alloc: Global, config: &Config) -> Result<InboundViews, Memory>
        ensures queries { IfOk result (λ views. (id : ℕ)
            → ⟦<InboundViews as QueryViews>⟧.query_of views id ≡ None) }
        ensures stands { IfOk result (λ views. (held : ObjectMap)
            → ⟦<InboundViews as QueryViews>⟧.stands views config.now held) }
    {
        let servers = new_server_index(alloc, config)?;
        let routes = new_route_index(alloc);
        let authz = new_authz_index(alloc, config)?;
        Ok(InboundViews {
            servers: RowViews::new(alloc, servers),
            routes: RowSets::new(alloc, routes),
            authz: RowSets::new(alloc, authz),
            alloc,
        })
    }

    // Opens an id with a port. The id must not be open.
    fn open_port<L>(
        &mut self,
        store: &Store,
        id: u64,
        key: ServerKey,
        steps: &mut Steps<L>,
    ) -> Result<(), Memory>
        requires free { key_at self.old.servers.by_id id ≡ None }
        ensures keys { OnOk result (SetsAt id (Some key) (key_at self.old.servers.by_id)
            (key_at self.new.servers.by_id)) }
        ensures joined { OnOk result ((config : TheConfig)
            → AreJoined ⟦<InboundViews as KeepsRows>⟧.stand config store.now.objects self.old
            → AreJoined ⟦<InboundViews as KeepsRows>⟧.stand config store.now.objects self.new) }
        ensures steps { (config : TheConfig)
            → AreJoined ⟦<InboundViews as KeepsRows>⟧.stand config store.now.objects self.old
            → steps.new ≤ steps.old + open_cost config store.now.objects (Some (query_for key)) }
        ensures kept { OnErr result
            (Keeps (key_at self.old.servers.by_id) (key_at self.new.servers.by_id)) }
    {
        self.servers.open(store, id, key, steps)?;
        match self.set_rows(store, id, Earlier::Leave, steps) {
            Ok(()) => Ok(()),
            Err(_) => {
                self.servers.close(id);
                Err(Memory)
            }
        }
    }

    // Updates the stored rows for a change of the store. The keys of ids are unchanged.
    fn follow_rows<L>(
        &mut self,
        store: &Store,
        change: &Change,
        steps: &mut Steps<L>,
    ) -> Result<Touched, Memory>
        ensures touched { IfOk result (λ ids. (config : TheConfig) (held : ObjectMap)
            → ⟦<InboundViews as KeepsRows>⟧.stand self.old config held
            → (id : ℕ) → has_row id ids.all
            ≡ reads_row config held change.now.marks self.old id) }
        ensures moved { IfOk result (λ ids. (config : TheConfig) (held : ObjectMap)
            → ⟦<InboundViews as KeepsRows>⟧.stand self.old config held
            → Leads change.now.marks held store.now.objects
            → AreMoved config held store.now.objects self.old ids.moved) }
        ensures stand { OnOk result ((config : TheConfig) (held : ObjectMap)
            → ⟦<InboundViews as KeepsRows>⟧.stand self.old config held
            → Leads change.now.marks held store.now.objects
            → ⟦<InboundViews as KeepsRows>⟧.stand self.new config store.now.objects) }
        ensures steps { OnOk result ((config : TheConfig) (held : ObjectMap)
            → ⟦<InboundViews as KeepsRows>⟧.stand self.old config held → RowsFollow
            (⟦<ServerIndex as RowIndex>⟧.number_at self.old.servers.index) config held
            store.now.objects change.now.marks self.old steps.old steps.new) }
        ensures ports { self.new.servers.by_id ≡ self.old.servers.by_id }
        ensures routes { OnOk result (self.new.routes.by_id ≡ self.old.routes.by_id) }
        ensures authz { OnOk result (self.new.authz.by_id ≡ self.old.authz.by_id) }
    {
        let asked = self.servers.follow(store, change, steps)?;
        let differing = self.servers.differing()?;
        let rerouted = self.routes.follow(store, change, steps)?;
        let authorized = self.authz.follow(store, change, steps)?;
        let moved = self.moved_among(differing.as_slice(), KeysOf::Routes)?;
        let others = self.moved_among(rerouted.as_slice(), KeysOf::Rows)?;
        let moved = append(self.alloc, moved, others.as_slice())?;
        let moved = in_order(moved);
        let all = append(self.alloc, asked, rerouted.as_slice())?;
        let all = append(self.alloc, all, authorized.as_slice())?;
        let all = in_order(all);
        Ok(Touched { moved, all })
    }
}

impl QueryViews for InboundViews {
    ghost use Rattle.std.proofs.Math.Logic.{∥∥₁_prop};
    ghost use Rattle.row_views.proofs.InUse.{in_use_of};
    ghost use Rattle.inbound_views.specs.InUse.{port_users, ports_in_use};
    ghost use Rattle.inbound_views.specs.PortRows.{port_query, ports_same};
    ghost use Rattle.inbound_views.specs.Standing.{AreJoined, query_at};

    ghost kept_query = { port_query };

    ghost query_of = { query_at };

    ghost users = { λ s. port_users (⟦<ServerIndex as RowIndex>⟧.users s.servers.index)
        (⟦<RouteIndex as RowIndex>⟧.users s.routes.used.index)
        (⟦<AuthzIndex as RowIndex>⟧.users s.authz.used.index) };

    ghost stands = { λ s config held.
        ∥ AreJoined ⟦<InboundViews as KeepsRows>⟧.stand config held s ∥₁ };

    fn keeps(query: &Query) -> bool {
        match query {
            Query::Port { .. } | Query::PortRows { .. } => true,
            _ => false,
        }
    }

    fn open<L>(
        &mut self,
        store: &Store,
        id: u64,
        query: &Query,
        steps: &mut Steps<L>,
    ) -> Result<(), Memory> {
        match port_key(query)? {
            Some(key) => self.open_port(store, id, key, steps),
            None => Ok(()),
        }
    }

    fn close(&mut self, id: u64) {
        self.servers.close(id);
        self.routes.clear(id);
        self.authz.clear(id);
    }

    fn follow<L>(
        &mut self,
        store: &Store,
        change: &Change,
        steps: &mut Steps<L>,
    ) -> Result<List<u64>, Memory> {
        let touched = self.follow_rows(store, change, steps)?;
        // The old keys stay until all ids have the new ones, so that no row is dropped that another
        // id needs.
        self.set_all(store, touched.moved.as_slice(), Earlier::Stay, steps)?;
        self.set_all(store, touched.moved.as_slice(), Earlier::Leave, steps)?;
        Ok(touched.all)
    }

    fn view(&self, id: u64) -> Result<Option<View>, Memory> {
        match self.servers.key(id) {
            Some(key) => Ok(Some(View::Server(self.joined(id, key)?))),
            None => Ok(None),
        }
    }

    ghost same = { ports_same };

    ghost unique = { λ s config held. ∥∥₁_prop };

    ghost in_use = { λ s config held stands. in_use_of stands (λ joined.
        ports_in_use config joined.kept.servers.rows joined.kept.routes.rows
        joined.kept.authz.rows joined.routes joined.authz) };
}
