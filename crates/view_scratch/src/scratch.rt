ghost use Rattle.std.specs.Prelude.{◌≡◌, IfOk, Some};
ghost use Rattle.view_rules.specs.Fold.{IsOrderlyIfShown};
ghost use Rattle.view_rules.specs.Views.{view_of};

use crate::endpoints::endpoints;
use crate::inbound::inbound;
use crate::outbound::outbound;
use crate::profile::profile;
use mesh_base::memory::Memory;
use mesh_base::steps::Steps;
use object_store::store::Store;
use policy_rows::snapshot::Snapshot;
use std::alloc::Global;
use view_types::config::Config;
use view_types::query::Query;
use view_types::view::View;

/// Returns the view of a query over the objects held.
pub fn scratch<L>(
    alloc: Global,
    store: &Store,
    config: &Config,
    query: &Query,
    steps: &mut Steps<L>,
) -> Result<View, Memory>
    ensures value { IfOk result (λ view. view ≡ view_of config.now store.now.objects query.now) }
    ensures orderly { IfOk result (λ view. IsOrderlyIfShown (Some view)) }
{
    let from = Snapshot {
        alloc,
        config,
        store,
    };
    store.stand_at_keys();
    match query {
        Query::Get { ns, name, port, .. } => {
            let view = endpoints(&from, ns, name, *port, steps)?;
            Ok(View::Endpoints(view))
        }
        Query::Profile { target, ctx } => {
            let view = profile(&from, target, &ctx.ns, steps)?;
            Ok(View::Profile(view))
        }
        Query::Port { ns, pod, port } => {
            let view = inbound(&from, ns, pod, *port, steps)?;
            Ok(View::Server(view))
        }
        Query::Traffic { target } => {
            let view = outbound(&from, target, steps)?;
            Ok(View::Outbound(view))
        }
        Query::PortRows { ns, pod, port } => {
            let view = inbound(&from, ns, pod, *port, steps)?;
            Ok(View::ServerRows(view))
        }
    }
}
