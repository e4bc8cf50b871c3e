ghost use Rattle.std.specs.Prelude.{◌≡◌, ◌≤◌, ◌+◌, ◌&&◌, ◌==◌, find, option_map};
ghost use Rattle.std.specs.Option.{option_copied};
ghost use Rattle.view_types.specs.declared.mark.Mark.TheVariants.{Obj};
ghost use Rattle.view_rules.specs.Endpoints.{as_service, port_name, service_found, service_held, service_key};
ghost use Rattle.mark_rules.specs.Reads.{count_at};

use mesh_base::key::Kind;
use mesh_base::steps::Steps;
use mesh_base::text::Text;
use object_store::store::Store;
use view_types::object::Object;
use view_types::service::{NamedPort, Service};

/// Returns the Service of the namespace and name, if it is held.
pub fn service_held<'a, L>(
    store: &'a Store,
    ns: &Text,
    name: &Text,
    steps: &mut Steps<L>,
) -> Option<&'a Service>
    ensures value { option_copied result ≡ service_held store.now.objects ns.now name.now }
    ensures steps { steps.new ≤ steps.old
        + count_at store.now.objects (Obj (service_key ns.now name.now)) }
{
    service_found(store.find(Kind::Service, ns, name, steps))
}

pub(crate) fn service_found(found: Option<&Object>) -> Option<&Service>
    ensures { option_copied result ≡ service_found (option_copied found.entry) }
{
    match found {
        Some(object) => as_service(object),
        None => None,
    }
}

fn as_service(object: &Object) -> Option<&Service>
    ensures { option_copied result ≡ as_service object.now }
{
    match object {
        Object::Service(boxed) => Some(boxed.get()),
        _ => None,
    }
}

/// Returns the name of the first TCP port with the number.
pub fn port_name(ports: &[NamedPort], number: u16) -> Option<&Text>
    ensures { option_copied result ≡ port_name number ports.now }
{
    match tcp_port(ports, number) {
        Some(port) => Some(&port.name),
        None => None,
    }
}

fn tcp_port(ports: &[NamedPort], number: u16) -> Option<&NamedPort>
    ensures { option_copied result ≡ find (λ p. p.tcp && (p.port == number)) ports.now }
{
    ports.iter().find(|port| port.tcp && port.port == number)
}
