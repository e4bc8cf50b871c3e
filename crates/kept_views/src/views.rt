// The views of the open queries, each in the part for its kind.
ghost use Rattle.std.specs.Prelude.{◌≡◌, ◌++◌, IfOk};
ghost use Rattle.view_types.specs.declared.config.Config.{Config as TheConfig};

use inbound_views::views::InboundViews;
use key_views::views::{KeyViews, OutboundViews, ProfileViews};
use mark_rules::keys::ServerKey;
use mesh_base::list::List;
use mesh_base::memory::Memory;
use mesh_base::steps::Steps;
use mesh_base::text::Text;
use object_store::change::Change;
use object_store::store::Store;
use outbound_index::index::new_index as new_outbound;
use profile_index::index::new_index as new_profiles;
use row_views::query_views::QueryViews;
use std::alloc::Global;
use view_types::config::Config;
use view_types::query::Query;
use view_types::server_view::{AuthzRow, RouteRow, ServerView};
use view_types::view::View;

/// The views of all queries except those for endpoints. An id is open in at most one of the three
/// parts.
#[derive(Drop)]
pub struct KeptViews {
    profiles: ProfileViews,
    ports: InboundViews,
    outbound: OutboundViews,
}

impl KeptViews {
    ghost use Rattle.std.specs.Prelude.{◌≡◌, ◌≤◌, ◌+◌, ℕ, None, IfOk};
    ghost use Rattle.view_types.specs.Objects.{ObjectMap};
    ghost use Rattle.row_views.specs.Costs.{cost_of};
    ghost use Rattle.inbound_views.specs.BarePorts.{authz_of_route, bare_port, bare_rows, route_cost};

    /// Creates an empty set of views. The configuration applies to all of them.
    pub fn new(alloc: Global, config: &Config) -> Result<KeptViews, Memory>
        ensures queries { IfOk result (λ views. (id : ℕ)
            → ⟦<KeptViews as QueryViews>⟧.query_of views id ≡ None) }
        ensures stands { IfOk result (λ views. (held : ObjectMap)
            → ⟦<KeptViews as QueryViews>⟧.stands views config.now held) }
    {
        let profiles = new_profiles(alloc, config)?;
        let ports = InboundViews::new(alloc, config)?;
        let outbound = new_outbound(alloc, config)?;
        Ok(KeptViews {
            profiles: KeyViews::new(alloc, profiles),
            ports,
            outbound: KeyViews::new(alloc, outbound),
        })
    }

    /// Returns the view of a port over the objects of the store, whether or not an id is open with
    /// it. Its routes are without their authorizations.
    pub fn peek_port<L>(
        &self,
        store: &Store,
        key: &ServerKey,
        steps: &mut Steps<L>,
    ) -> Result<ServerView, Memory>
        ensures view { IfOk result (λ view. (config : TheConfig)
            → ⟦<KeptViews as QueryViews>⟧.stands self.now config store.now.objects
            → view ≡ bare_port config store.now.objects key.now) }
        ensures steps { (config : TheConfig)
            → ⟦<KeptViews as QueryViews>⟧.stands self.now config store.now.objects
            → steps.new ≤ steps.old
            + cost_of config store.now.objects (bare_rows config store.now.objects key.now) }
    {
        self.ports.peek_bare(store, key, steps)
    }

    /// Returns the authorizations of a route in a namespace over the objects of the store.
    pub fn peek_authz<L>(
        &self,
        store: &Store,
        ns: &Text,
        route: &RouteRow,
        steps: &mut Steps<L>,
    ) -> Result<List<AuthzRow>, Memory>
        ensures rows { IfOk result (λ rows. (config : TheConfig)
            → ⟦<KeptViews as QueryViews>⟧.stands self.now config store.now.objects
            → rows ≡ authz_of_route config store.now.objects ns.now route.now) }
        ensures steps { (config : TheConfig)
            → ⟦<KeptViews as QueryViews>⟧.stands self.now config store.now.objects
            → steps.new ≤ steps.old + route_cost store.now.objects ns.now route.now }
    {
        self.ports.peek_authz(store, ns, route, steps)
    }
}

impl QueryViews for KeptViews {
    ghost use Rattle.std.specs.Prelude.{◌+◌};
    ghost use Rattle.inbound_views.specs.contracts.views.InboundViewsQueryViews.TheImpl.Laws.{in_use-law as ports_in_use, unique-law as ports_unique};
    ghost use Rattle.std.proofs.Math.Logic.{∥∥₁_prop};
    ghost use Rattle.view_types.specs.contracts.query.TargetOrd.TheImpl.Laws.{total-law as targets_total};
    ghost use Rattle.mark_rules.specs.contracts.keys.ProfileKeyOrd.TheImpl.Laws.{total-law as profiles_total};
    ghost use Rattle.profile_index.specs.ProfileKeys.{profile_keys_exact, targets_exact};
    ghost use Rattle.key_views.specs.InUse.{keys_in_use};
    ghost use Rattle.key_views.specs.OutboundQueries.{outbound_asked};
    ghost use Rattle.key_views.specs.ProfileQueries.{profiles_asked};
    ghost use Rattle.kept_views.specs.InUse.{parts_in_use};
    ghost use Rattle.kept_views.specs.KeptQueries.{kept_query, kept_same};
    ghost use Rattle.kept_views.specs.Parts.{PartsStand, PartsStand-prop, first_of};

    ghost kept_query = { kept_query };

    ghost query_of = { λ s id. first_of (⟦<ProfileViews as QueryViews>⟧.query_of s.profiles id)
        (⟦<InboundViews as QueryViews>⟧.query_of s.ports id)
        (⟦<OutboundViews as QueryViews>⟧.query_of s.outbound id) };

    ghost users = { λ s key. ⟦<ProfileViews as QueryViews>⟧.users s.profiles key
        + (⟦<InboundViews as QueryViews>⟧.users s.ports key
        + ⟦<OutboundViews as QueryViews>⟧.users s.outbound key) };

    ghost stands = { λ s config held. PartsStand
        (⟦<ProfileViews as QueryViews>⟧.stands s.profiles config held)
        (⟦<InboundViews as QueryViews>⟧.stands s.ports config held)
        (⟦<OutboundViews as QueryViews>⟧.stands s.outbound config held)
        (⟦<ProfileViews as QueryViews>⟧.query_of s.profiles)
        (⟦<InboundViews as QueryViews>⟧.query_of s.ports)
        (⟦<OutboundViews as QueryViews>⟧.query_of s.outbound) };

    fn keeps(query: &Query) -> bool {
        match query {
            Query::Get { .. } => false,
            _ => true,
        }
    }

    fn open<L>(
        &mut self,
        store: &Store,
        id: u64,
        query: &Query,
        steps: &mut Steps<L>,
    ) -> Result<(), Memory> {
        match query {
            Query::Profile { .. } => self.profiles.open(store, id, query, steps),
            Query::Port { .. } => self.ports.open(store, id, query, steps),
            Query::PortRows { .. } => self.ports.open(store, id, query, steps),
            Query::Traffic { .. } => self.outbound.open(store, id, query, steps),
            Query::Get { .. } => Ok(()),
        }
    }

    fn close(&mut self, id: u64) {
        self.profiles.close(id);
        self.ports.close(id);
        self.outbound.close(id);
    }

    fn follow<L>(
        &mut self,
        store: &Store,
        change: &Change,
        steps: &mut Steps<L>,
    ) -> Result<List<u64>, Memory> {
        let profiles = self.profiles.follow(store, change, steps)?;
        let ports = self.ports.follow(store, change, steps)?;
        let outbound = self.outbound.follow(store, change, steps)?;
        joined(joined(profiles, ports)?, outbound)
    }

    fn view(&self, id: u64) -> Result<Option<View>, Memory> {
        match self.profiles.view(id)? {
            Some(view) => Ok(Some(view)),
            None => match self.ports.view(id)? {
                Some(view) => Ok(Some(view)),
                None => self.outbound.view(id),
            },
        }
    }

    ghost same = { kept_same };

    ghost unique = { λ s config held. PartsStand-prop ∥∥₁_prop
        (ports_unique s.ports config held) ∥∥₁_prop };

    ghost in_use = { λ s config held stands. parts_in_use config held stands
        (keys_in_use profiles_asked profiles_total profile_keys_exact stands.profiles)
        (ports_in_use s.ports config held stands.ports)
        (keys_in_use outbound_asked targets_total targets_exact stands.outbound) };
}

// The ids of the first list, followed by those of the second.
fn joined(ids: List<u64>, others: List<u64>) -> Result<List<u64>, Memory>
    ensures { IfOk result (λ all. all ≡ ids ++ others) }
{
    let mut all = ids.into_vec();
    let mut more = others.into_vec();
    all.append(&mut more)?;
    Ok(List::from_vec(all))
}
