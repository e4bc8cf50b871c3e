ghost use Rattle.std.specs.Prelude.{◌≡◌, ◌++◌, IfOk, OnOk, flat_map};
ghost use Rattle.k8s_core.specs.Pods.{container_at};
ghost use Rattle.k8s_core.specs.declared.container.Container.{Container as AContainer};
ghost use Rattle.k8s_meta.specs.Spots.{Reads, seen};

use crate::port_entry::PortEntry;
use crate::probe::{add_asked, probe_of};
use k8s_meta::fault::ReadFault;
use k8s_meta::key::Key;
use k8s_meta::place::Place;
use k8s_meta::reader::Reader;
use mesh_base::list::List;
use mesh_base::memory::Memory;
use mesh_base::text::Text;
use std::alloc::Global;
use view_types::service::NamedPort;

/// The ports and probes of a container, or of all containers of a Pod.
#[derive(Drop)]
pub struct Container {
    pub ports: List<NamedPort>,
    /// The ports and paths of its HTTP probes.
    pub probes: List<(u16, Text)>,
}

/// A container.
pub struct ContainerEntry;

impl Reader for ContainerEntry {
    type Made = Container;

    ghost reading = { λ _. container_at };

    #[tactic(auto, unfolding(k8s_meta::specs::Spots::then, crate::specs::Pods::container_at))]
    fn read<'a>(&self, place: &'a Place<'a>) -> Result<Container, ReadFault> {
        place.object()?;
        let ports = place.each(
            Key::Ports,
            &PortEntry {
                key: Key::ContainerPort,
            },
        )?;
        let liveness = probe_of(place, Key::LivenessProbe)?;
        let readiness = probe_of(place, Key::ReadinessProbe)?;
        let startup = probe_of(place, Key::StartupProbe)?;
        let mut probes = List::new(place.alloc());
        add_asked(&mut probes, ports.as_slice(), liveness)?;
        add_asked(&mut probes, ports.as_slice(), readiness)?;
        add_asked(&mut probes, ports.as_slice(), startup)?;
        Ok(Container { ports, probes })
    }
}

/// Concatenates the ports and the probes of containers.
pub(crate) fn joined(alloc: Global, containers: List<Container>) -> Result<Container, Memory>
    ensures ports { IfOk result (λ all.
        all.ports ≡ flat_map (λ (c : AContainer). c.ports) containers) }
    ensures probes { IfOk result (λ all.
        all.probes ≡ flat_map (λ (c : AContainer). c.probes) containers) }
{
    let mut ports = List::new(alloc);
    let mut probes = List::new(alloc);
    for container in containers.into_vec() {
        append(&mut ports, container.ports)?;
        append(&mut probes, container.probes)?;
    }
    Ok(Container { ports, probes })
}

fn append<T: Drop>(items: &mut List<T>, more: List<T>) -> Result<(), Memory>
    ensures { OnOk result (items.new ≡ items.old ++ more) }
{
    for item in more.into_vec() {
        items.add(item)?;
    }
    Ok(())
}
