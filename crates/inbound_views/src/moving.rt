// The keys of the rows of ports, which change with Servers and routes.
ghost use Rattle.std.specs.Prelude.{◌≡◌, ◌≤◌, ◌+◌, ◌↔◌, ◌++◌, ℕ, true, IfOk, IsTrue, OnOk, flat_map, option_and_then};
ghost use Rattle.std.specs.Option.{option_copied};
ghost use Rattle.view_types.specs.Objects.{ObjectMap};
ghost use Rattle.view_types.specs.declared.config.Config.{Config};
ghost use Rattle.mark_graph.specs.RowMarks.{has_row};
ghost use Rattle.mark_rules.specs.Rows.{name_in, server_part};
ghost use Rattle.row_views.specs.Ids.{SetsAt, key_at};
ghost use Rattle.inbound_views.specs.Costs.{AllEnter, AuthzEnter, Enters, RoutesEnter, cost_of_authz, cost_of_routes};
ghost use Rattle.inbound_views.specs.PortRows.{authz_keys, authz_of_server, route_keys};
ghost use Rattle.inbound_views.specs.Standing.{AreThoseWithout, AreUsed, HasAuthz, HasKeys, HasRoutes, HasRowsOf, NotesUnless, SetsAllRows, SetsRows, authz_of, kept_routes, query_at, routes_of, with_earlier};
ghost use Rattle.inbound_views.specs.declared.moving.Earlier.TheVariants.{Stay, Leave};

use crate::keys::{add_routes, are_behind, are_listed, listed, name_in, server_key};
use crate::views::{InboundViews, KeepsRows};
use mark_rules::keys::RouteKey;
use mesh_base::copied::Copied;
use mesh_base::key::ObjKey;
use mesh_base::list::List;
use mesh_base::memory::Memory;
use mesh_base::steps::Steps;
use mesh_base::text::Text;
use object_store::store::Store;
use std::alloc::Global;
use view_types::server_view::RouteRow;

/// What happens to the old keys of an id.
#[derive(Clone, Copy)]
pub enum Earlier {
    Stay,
    Leave,
}

/// Keys of the rows of a port.
#[derive(Clone, Copy)]
pub enum KeysOf {
    /// That of the routes of its Server.
    Routes,
    /// This, and those of the authorizations of the Server and of its routes.
    Rows,
}

impl InboundViews {
    /// Opens each of these ids with the keys of the rows of its query.
    pub(crate) fn set_all<L>(
        &mut self,
        store: &Store,
        ids: &[u64],
        earlier: Earlier,
        steps: &mut Steps<L>,
    ) -> Result<(), Memory>
        ensures servers { self.new.servers ≡ self.old.servers }
        ensures set { OnOk result ((config : Config)
            → ⟦<InboundViews as KeepsRows>⟧.stand self.old config store.now.objects
            → SetsAllRows ⟦<InboundViews as KeepsRows>⟧.stand config store.now.objects earlier
            ids.now self.old self.new) }
        ensures entered { OnOk result ((config : Config) → earlier ≡ Stay
            → ⟦<InboundViews as KeepsRows>⟧.stand self.old config store.now.objects
            → AllEnter config store.now.objects self.old steps.old steps.new) }
        ensures none_entered { OnOk result ((config : Config) → earlier ≡ Leave
            → ⟦<InboundViews as KeepsRows>⟧.stand self.old config store.now.objects
            → ((id : ℕ) → has_row id ids.now ≡ true → HasRowsOf config store.now.objects
            (query_at self.old id) self.old id) → steps.new ≤ steps.old) }
    {
        for id in ids {
            self.set_rows(store, *id, earlier, steps)?;
        }
        Ok(())
    }

    /// Opens an id with the keys of the rows of its query.
    pub(crate) fn set_rows<L>(
        &mut self,
        store: &Store,
        id: u64,
        earlier: Earlier,
        steps: &mut Steps<L>,
    ) -> Result<(), Memory>
        ensures servers { self.new.servers ≡ self.old.servers }
        ensures set { OnOk result ((config : Config)
            → ⟦<InboundViews as KeepsRows>⟧.stand self.old config store.now.objects
            → SetsRows ⟦<InboundViews as KeepsRows>⟧.stand config store.now.objects earlier id
            self.old self.new) }
        ensures entered { OnOk result ((config : Config)
            → ⟦<InboundViews as KeepsRows>⟧.stand self.old config store.now.objects
            → Enters config store.now.objects earlier id self.old steps.old steps.new) }
        ensures steps { (config : Config) → earlier ≡ Leave
            → ⟦<InboundViews as KeepsRows>⟧.stand self.old config store.now.objects → steps.new
            ≤ steps.old + (cost_of_routes store.now.objects
            (route_keys config store.now.objects (query_at self.old id)) + cost_of_authz
            store.now.objects (authz_keys config store.now.objects (query_at self.old id))) }
    {
        let servers = self.set_routes(store, id, earlier, steps)?;
        self.set_authz(store, id, servers.as_slice(), earlier, steps)
    }

    // Opens an id with the key of the routes of its Server, if it has one. Returns this key.
    fn set_routes<L>(
        &mut self,
        store: &Store,
        id: u64,
        earlier: Earlier,
        steps: &mut Steps<L>,
    ) -> Result<List<RouteKey>, Memory>
        ensures servers { self.new.servers ≡ self.old.servers }
        ensures authz { self.new.authz ≡ self.old.authz }
        ensures key { IfOk result (λ keys. (config : Config)
            → ⟦<InboundViews as KeepsRows>⟧.stand self.old config store.now.objects
            → keys ≡ route_keys config store.now.objects (query_at self.old id)) }
        ensures stand { OnOk result ((config : Config)
            → ⟦<InboundViews as KeepsRows>⟧.stand self.old config store.now.objects
            → ⟦<InboundViews as KeepsRows>⟧.stand self.new config store.now.objects) }
        ensures set { OnOk result ((config : Config)
            → ⟦<InboundViews as KeepsRows>⟧.stand self.old config store.now.objects → SetsAt id
            (with_earlier earlier (route_keys config store.now.objects (query_at self.old id))
            (routes_of self.old id)) (routes_of self.old) (routes_of self.new)) }
        ensures entered { OnOk result ((config : Config)
            → ⟦<InboundViews as KeepsRows>⟧.stand self.old config store.now.objects
            → RoutesEnter config store.now.objects earlier id self.old steps.old steps.new) }
        ensures steps { (config : Config) → earlier ≡ Leave
            → ⟦<InboundViews as KeepsRows>⟧.stand self.old config store.now.objects
            → steps.new ≤ steps.old + cost_of_routes store.now.objects
            (route_keys config store.now.objects (query_at self.old id)) }
    {
        let servers = self.servers_of(id)?;
        let routes = servers.copy(self.alloc)?;
        let routes = with_earlier(self.alloc, earlier, routes, self.routes.keys(id))?;
        self.routes.set(store, id, routes, steps)?;
        Ok(servers)
    }

    // Opens an id with the authorizations of its Server and of the Server's routes.
    fn set_authz<L>(
        &mut self,
        store: &Store,
        id: u64,
        servers: &[RouteKey],
        earlier: Earlier,
        steps: &mut Steps<L>,
    ) -> Result<(), Memory>
        ensures servers { self.new.servers ≡ self.old.servers }
        ensures routes { self.new.routes ≡ self.old.routes }
        ensures stand { OnOk result ((config : Config)
            → ⟦<InboundViews as KeepsRows>⟧.stand self.old config store.now.objects
            → ⟦<InboundViews as KeepsRows>⟧.stand self.new config store.now.objects) }
        ensures set { OnOk result ((config : Config)
            → ⟦<InboundViews as KeepsRows>⟧.stand self.old config store.now.objects
            → AreUsed config store.now.objects servers.now id self.old → SetsAt id
            (with_earlier earlier (authz_keys config store.now.objects (query_at self.old id))
            (authz_of self.old id)) (authz_of self.old) (authz_of self.new)) }
        ensures entered { OnOk result ((config : Config)
            → ⟦<InboundViews as KeepsRows>⟧.stand self.old config store.now.objects
            → AreUsed config store.now.objects servers.now id self.old
            → AuthzEnter config store.now.objects earlier id self.old steps.old steps.new) }
        ensures steps { (config : Config) → earlier ≡ Leave
            → ⟦<InboundViews as KeepsRows>⟧.stand self.old config store.now.objects
            → AreUsed config store.now.objects servers.now id self.old
            → steps.new ≤ steps.old + cost_of_authz store.now.objects
            (authz_keys config store.now.objects (query_at self.old id)) }
    {
        let authz = self.authz_behind(servers)?;
        let authz = with_earlier(self.alloc, earlier, authz, self.authz.keys(id))?;
        self.authz.set(store, id, authz, steps)
    }

    /// Returns those of these ids that are open with other keys than these.
    pub(crate) fn moved_among(&self, ids: &[u64], keys: KeysOf) -> Result<List<u64>, Memory>
        ensures { IfOk result (λ moved. (config : Config) (held : ObjectMap)
            → ⟦<InboundViews as KeepsRows>⟧.stand self.now config held
            → AreThoseWithout (HasKeys config held keys self.now) ids.now moved) }
    {
        let mut moved = List::new(self.alloc);
        for id in ids {
            self.note_moved(&mut moved, *id, keys)?;
        }
        Ok(moved)
    }

    // Appends the id if it is open with other keys than these.
    fn note_moved(&self, moved: &mut List<u64>, id: u64, keys: KeysOf) -> Result<(), Memory>
        ensures { OnOk result ((config : Config) (held : ObjectMap)
            → ⟦<InboundViews as KeepsRows>⟧.stand self.now config held
            → NotesUnless (HasKeys config held keys self.now id) id moved.old moved.new) }
    {
        if self.has_keys(id, keys) {
            return Ok(());
        }
        moved.add(id)
    }

    // Whether an id is open with these keys.
    fn has_keys(&self, id: u64, keys: KeysOf) -> bool
        ensures { (config : Config) (held : ObjectMap)
            → ⟦<InboundViews as KeepsRows>⟧.stand self.now config held
            → IsTrue result ↔ HasKeys config held keys self.now id }
    {
        match keys {
            KeysOf::Routes => self.has_routes(id),
            KeysOf::Rows => self.has_rows(id),
        }
    }

    // Whether an id is open with the keys of all rows of its port.
    fn has_rows(&self, id: u64) -> bool
        ensures { (config : Config) (held : ObjectMap)
            → ⟦<InboundViews as KeepsRows>⟧.stand self.now config held → IsTrue result
            ↔ (HasRoutes config held self.now id × HasAuthz config held self.now id) }
    {
        self.has_routes(id) && self.has_authz(id)
    }

    // Whether an id is open with the routes of the Server of its port.
    fn has_routes(&self, id: u64) -> bool
        ensures { (config : Config) (held : ObjectMap)
            → ⟦<InboundViews as KeepsRows>⟧.stand self.now config held
            → IsTrue result ↔ HasRoutes config held self.now id }
    {
        let routes = self.routes.keys(id);
        match self.servers.key(id) {
            Some(key) => are_listed(routes, &key.ns, self.server_named(id)),
            None => routes.is_empty(),
        }
    }

    // Whether an id that is open with the routes of its Server has the authorizations of both.
    fn has_authz(&self, id: u64) -> bool
        ensures { (config : Config) (held : ObjectMap)
            → ⟦<InboundViews as KeepsRows>⟧.stand self.now config held
            → HasRoutes config held self.now id
            → IsTrue result ↔ HasAuthz config held self.now id }
    {
        let authz = self.authz.keys(id);
        match self.routes.keys(id).first() {
            Some(server) => are_behind(authz, server, self.kept_routes(server)),
            None => authz.is_empty(),
        }
    }

    // Returns the key of the routes of the Server of an id's port, if it has one.
    fn servers_of(&self, id: u64) -> Result<List<RouteKey>, Memory>
        ensures { IfOk result (λ keys. (config : Config) (held : ObjectMap)
            → ⟦<InboundViews as KeepsRows>⟧.stand self.now config held
            → keys ≡ route_keys config held (query_at self.now id)) }
    {
        match self.servers.key(id) {
            Some(key) => listed(self.alloc, &key.ns, self.server_named(id)),
            None => Ok(List::new(self.alloc)),
        }
    }

    // Returns the name of this Server.
    fn server_named(&self, id: u64) -> Option<&Text>
        ensures { (config : Config) (held : ObjectMap)
            → ⟦<InboundViews as KeepsRows>⟧.stand self.now config held → option_copied result
            ≡ option_and_then (λ key. name_in (server_part config held key))
            (key_at self.now.servers.by_id id) }
    {
        match self.servers.row(id) {
            Some(part) => name_in(part),
            None => None,
        }
    }

    // Returns the keys of the authorizations of these Servers and of their routes.
    fn authz_behind(&self, servers: &[RouteKey]) -> Result<List<ObjKey>, Memory>
        ensures { IfOk result (λ keys. (config : Config) (held : ObjectMap)
            → ⟦<InboundViews as KeepsRows>⟧.stand self.now config held
            → keys ≡ flat_map (authz_of_server (kept_routes self.now held)) servers.now) }
    {
        let mut keys = List::new(self.alloc);
        for server in servers {
            keys.add(server_key(&server.ns, &server.server)?)?;
            add_routes(&mut keys, &server.ns, self.kept_routes(server))?;
        }
        Ok(keys)
    }

    /// Returns the routes of a Server, if its key is in use.
    pub(crate) fn kept_routes(&self, key: &RouteKey) -> &[RouteRow]
        ensures { (config : Config) (held : ObjectMap)
            → ⟦<InboundViews as KeepsRows>⟧.stand self.now config held
            → result.now ≡ kept_routes self.now held key.now }
    {
        match self.routes.row(key) {
            Some(rows) => rows.as_slice(),
            None => &[],
        }
    }
}

// Returns these keys, and the old ones unless they leave.
fn with_earlier<K: Copied>(
    alloc: Global,
    earlier: Earlier,
    keys: List<K>,
    before: &[K],
) -> Result<List<K>, Memory>
    ensures { IfOk result (λ all. all ≡ with_earlier earlier keys before.now) }
{
    match earlier {
        Earlier::Stay => append(alloc, keys, before),
        Earlier::Leave => Ok(keys),
    }
}

/// Appends items to a list.
pub(crate) fn append<T: Copied>(
    alloc: Global,
    items: List<T>,
    more: &[T],
) -> Result<List<T>, Memory>
    ensures { IfOk result (λ all. all ≡ items ++ more.now) }
{
    let mut items = items;
    for item in more {
        items.add(item.copy(alloc)?)?;
    }
    Ok(items)
}
