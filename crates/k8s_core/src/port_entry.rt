ghost use Rattle.std.specs.Prelude.{◌≡◌, codes, bytes_eq};
ghost use Rattle.k8s_core.specs.NamedPorts.{port_at, slice_port_at};
ghost use Rattle.k8s_meta.specs.Spots.{Reads, seen};

use k8s_meta::fault::ReadFault;
use k8s_meta::key::Key;
use k8s_meta::place::Place;
use k8s_meta::reader::Reader;
use k8s_meta::words::{AnyText, PORT};
use view_types::service::NamedPort;

/// A port, whose number is the member under the key.
#[derive(Clone, Copy)]
pub struct PortEntry {
    pub key: Key,
}

impl Reader for PortEntry {
    type Made = NamedPort;

    ghost reading = { λ r. port_at r.key };

    #[tactic(auto, unfolding(k8s_meta::specs::Spots::then, crate::specs::NamedPorts::port_at))]
    fn read<'a>(&self, place: &'a Place<'a>) -> Result<NamedPort, ReadFault> {
        place.object()?;
        let name = place.text_or(Key::Name, &AnyText, "")?;
        let port = place.required(self.key, &PORT)?;
        let protocol = place.str_or(Key::Protocol, "TCP")?;
        Ok(NamedPort {
            name,
            port,
            tcp: protocol == "TCP",
        })
    }
}

/// A port of an EndpointSlice, or None if it has no number.
pub struct SlicePort;

impl Reader for SlicePort {
    type Made = Option<NamedPort>;

    ghost reading = { λ _. slice_port_at };

    #[tactic(auto, unfolding(k8s_meta::specs::Spots::then, crate::specs::NamedPorts::slice_port_at))]
    fn read<'a>(&self, place: &'a Place<'a>) -> Result<Option<NamedPort>, ReadFault> {
        place.object()?;
        let name = place.text_or(Key::Name, &AnyText, "")?;
        let port = place.optional(Key::Port, &PORT)?;
        let protocol = place.str_or(Key::Protocol, "TCP")?;
        let tcp = protocol == "TCP";
        match port {
            Some(port) => Ok(Some(NamedPort { name, port, tcp })),
            None => Ok(None),
        }
    }
}
