// A port in a Service.
ghost use Rattle.std.specs.Prelude.{◌≡◌, ◌≤◌, ◌+◌};
ghost use Rattle.std.specs.Option.{option_copied};
ghost use Rattle.view_types.specs.declared.mark.Mark.TheVariants.{Obj};
ghost use Rattle.view_rules.specs.Endpoints.{service_held, service_key};
ghost use Rattle.view_rules.specs.Laws.{name_of_port};
ghost use Rattle.mark_rules.specs.Reads.{count_at};
ghost use Rattle.endpoint_index.specs.Given.{has_endpoints};

use mark_rules::keys::EndpointKey;
use mesh_base::steps::Steps;
use mesh_base::text::Text;
use object_store::store::Store;
use policy_rows::snapshot::Snapshot;
use view_scratch::service::{port_name, service_held};
use view_types::service::Service;

/// A port of a Service, as far as it has endpoints.
#[derive(Clone, Copy)]
pub(crate) struct ServicePort<'a> {
    /// Whether the Service is held, and is not external.
    pub(crate) exists: bool,
    pub(crate) name: Option<&'a Text>,
}

/// A port of a Service, and the objects from which its rows are made.
#[derive(Clone, Copy)]
pub(crate) struct PortSource<'a> {
    pub(crate) from: &'a Snapshot<'a>,
    pub(crate) key: &'a EndpointKey,
    pub(crate) port: ServicePort<'a>,
}

/// Returns the port of the key.
pub(crate) fn port_of<'a, L>(
    store: &'a Store,
    key: &EndpointKey,
    steps: &mut Steps<L>,
) -> ServicePort<'a>
    ensures exists { result.exists
        ≡ has_endpoints (service_held store.now.objects key.now.ns key.now.name) }
    ensures name { option_copied result.name
        ≡ name_of_port key.now.port (service_held store.now.objects key.now.ns key.now.name) }
    ensures steps { steps.new ≤ steps.old
        + count_at store.now.objects (Obj (service_key key.now.ns key.now.name)) }
{
    port_in(service_held(store, &key.ns, &key.name, steps), key.port)
}

fn port_in(service: Option<&Service>, port: u16) -> ServicePort<'_>
    ensures exists { result.exists ≡ has_endpoints (option_copied service.entry) }
    ensures name { option_copied result.name ≡ name_of_port port (option_copied service.entry) }
{
    match service {
        Some(service) if !service.external => ServicePort {
            exists: true,
            name: port_name(service.ports.as_slice(), port),
        },
        _ => ServicePort {
            exists: false,
            name: None,
        },
    }
}
