ghost use Rattle.std.specs.Prelude.{◌≡◌, ◌≤◌, ◌+◌, ◌∷◌, IfOk, flat_map};
ghost use Rattle.std.specs.Option.{option_copied};
ghost use Rattle.view_types.specs.declared.mark.Mark.TheVariants.{SlicesOf};
ghost use Rattle.view_rules.specs.Endpoints.{endpoints, no_endpoints, rows_from, slices_held};
ghost use Rattle.view_rules.specs.PodRows.{row_for};
ghost use Rattle.mark_rules.specs.Reads.{cost, endpoint_reads, pods_of};

use crate::collect::rows_of_places;
use crate::pairs::first_rows;
use crate::service::{port_name, service_held};
use mesh_base::list::List;
use mesh_base::memory::Memory;
use mesh_base::steps::Steps;
use mesh_base::text::Text;
use policy_rows::snapshot::Snapshot;
use std::alloc::Global;
use view_types::endpoint::{EndpointRow, EndpointView};

/// Returns the endpoints of the Service port over the objects held.
#[tactic(auto, using(mark_rules::proofs::Counts::cost_cons))]
pub fn endpoints<L>(
    from: &Snapshot,
    ns: &Text,
    name: &Text,
    port: u16,
    steps: &mut Steps<L>,
) -> Result<EndpointView, Memory>
    ensures value { IfOk result (λ view.
        view ≡ endpoints from.now.config.now from.now.store.now.objects ns.now name.now port) }
    ensures steps { steps.new ≤ steps.old + cost from.now.store.now.objects (endpoint_reads
        from.now.store.now.objects (record { ns = ns.now; name = name.now; port = port })) }
{
    match service_held(from.store, ns, name, steps) {
        Some(service) if !service.external => {
            let port_name = port_name(service.ports.as_slice(), port);
            let rows = rows_held(from, ns, name, port_name, steps)?;
            Ok(EndpointView { exists: true, rows })
        }
        _ => Ok(no_endpoints(from.alloc)),
    }
}

fn no_endpoints(alloc: Global) -> EndpointView
    ensures { result ≡ no_endpoints }
{
    EndpointView {
        exists: false,
        rows: List::new(alloc),
    }
}

fn rows_held<L>(
    from: &Snapshot,
    ns: &Text,
    name: &Text,
    port_name: Option<&Text>,
    steps: &mut Steps<L>,
) -> Result<List<EndpointRow>, Memory>
    ensures value { IfOk result (λ rows.
        rows ≡ rows_from (row_for from.now.config.now from.now.store.now.objects)
        (slices_held from.now.store.now.objects ns.now name.now) (option_copied port_name.entry)) }
    ensures steps { steps.new ≤ steps.old + cost from.now.store.now.objects
        (SlicesOf ns.now name.now
        ∷ flat_map pods_of (slices_held from.now.store.now.objects ns.now name.now)) }
{
    match port_name {
        Some(port_name) => first_rows(rows_of_places(from, ns, name, port_name, steps)?),
        None => Ok(List::new(from.alloc)),
    }
}
