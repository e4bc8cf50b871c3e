ghost use Rattle.std.specs.Prelude.{◌≡◌};
ghost use Rattle.k8s_meta.specs.Spots.{◌·◌, Reads, seen};
ghost use Rattle.k8s_meta.specs.declared.key.Key.TheVariants as keys;
ghost use Rattle.route_objects.specs.Backends.{backend_at, backend_port, is_service};

use k8s_meta::fault::ReadFault;
use k8s_meta::key::Key;
use k8s_meta::place::Place;
use k8s_meta::reader::Reader;
use k8s_meta::words::{Name, Namespace, Number32, PORT};
use mesh_text::group::is_core;
use view_types::route::BackendRef;

const WEIGHT: Number32 = Number32 {
    low: 0,
    high: 1_000_000,
};

/// A destination of requests to a route in the namespace `own`.
#[derive(Clone, Copy)]
pub struct Backend<'b> {
    pub own: &'b str,
}

impl<'b> Reader for Backend<'b> {
    type Made = BackendRef;

    ghost reading = { λ r. backend_at r.own.now };

    #[tactic(auto, unfolding(k8s_meta::specs::Spots::then, crate::specs::Backends::backend_at))]
    fn read<'a>(&self, place: &'a Place<'a>) -> Result<BackendRef, ReadFault> {
        place.object()?;
        let group = place.str_or(Key::Group, "")?;
        let kind = place.str_or(Key::Kind, "Service")?;
        let name = place.required(Key::Name, &Name)?;
        let ns = place.text_or(Key::Namespace, &Namespace, self.own)?;
        let service = is_service(group, kind);
        let port = port_of(place, service)?;
        let weight = place.default(Key::Weight, &WEIGHT, 1)?;
        Ok(BackendRef {
            service,
            ns,
            name,
            port,
            weight,
        })
    }
}

/// Reads the port, which is required for a Service.
#[tactic(auto, unfolding(k8s_meta::specs::Spots::then, crate::specs::Backends::backend_port))]
fn port_of<'a>(place: &'a Place<'a>, service: bool) -> Result<Option<u16>, ReadFault>
    ensures { Reads result (backend_port service ((seen place.now) · keys.Port)) }
{
    if service {
        let port = place.required(Key::Port, &PORT)?;
        return Ok(Some(port));
    }
    place.optional(Key::Port, &PORT)
}

fn is_service(group: &str, kind: &str) -> bool
    ensures { result ≡ is_service group.now kind.now }
{
    kind == "Service" && is_core(group)
}
