ghost use Rattle.std.specs.Prelude.{◌≡◌, ◌++◌, OnOk};
ghost use Rattle.std.specs.List.{before_first};
ghost use Rattle.k8s_core.specs.Probes.{asked, at_named, at_port, http_get_at, is_question_mark, or_root, path_in, probe_at};
ghost use Rattle.k8s_meta.specs.Spots.{◌·◌, Reads, seen};
ghost use Rattle.view_types.specs.declared.server.PortRef.TheVariants.{Named};

use k8s_meta::fault::ReadFault;
use k8s_meta::key::Key;
use k8s_meta::place::Place;
use k8s_meta::reader::Reader;
use mesh_base::list::List;
use mesh_base::memory::Memory;
use mesh_base::text::Text;
use mesh_text::port_ref::NameOrNumber;
use view_types::server::PortRef;
use view_types::service::NamedPort;

/// The request of an HTTP probe.
#[derive(Drop)]
pub struct HttpGet {
    pub port: PortRef,
    /// Without a query.
    pub path: Text,
}

/// Reads the request of the probe at a member of a container, if it is an HTTP probe.
#[tactic(auto, unfolding(k8s_meta::specs::Spots::then, crate::specs::Probes::probe_at))]
pub(crate) fn probe_of<'a>(container: &'a Place<'a>, key: Key) -> Result<Option<HttpGet>, ReadFault>
    ensures { Reads result (probe_at ((seen container.now) · key)) }
{
    let probe = container.part(key)?;
    probe.optional(Key::HttpGet, &Asking)
}

/// The `httpGet` of a probe.
struct Asking;

impl Reader for Asking {
    type Made = HttpGet;

    ghost reading = { λ _. http_get_at };

    #[tactic(auto, unfolding(k8s_meta::specs::Spots::then, crate::specs::Probes::http_get_at))]
    fn read<'a>(&self, place: &'a Place<'a>) -> Result<HttpGet, ReadFault> {
        place.object()?;
        let target = place.str_or(Key::Path, "")?;
        let port = place.required(Key::Port, &NameOrNumber)?;
        let path = Text::from_str(place.alloc(), path_in(target))?;
        Ok(HttpGet { port, path })
    }
}

/// Returns the path of a request, without the query.
fn path_in(target: &str) -> &str
    ensures { result.now ≡ path_in target.now }
{
    or_root(before_query(target))
}

fn before_query(target: &str) -> &str
    ensures { result.now ≡ before_first is_question_mark target.now }
{
    match target.split_once('?') {
        Some(parts) => parts.0,
        None => target,
    }
}

fn or_root(path: &str) -> &str
    ensures { result.now ≡ or_root path.now }
{
    if path.is_empty() { "/" } else { path }
}

/// Adds the ports that a probe of a container with these ports requests, each with its path.
pub(crate) fn add_asked(
    probes: &mut List<(u16, Text)>,
    ports: &[NamedPort],
    probe: Option<HttpGet>,
) -> Result<(), Memory>
    ensures { OnOk result (probes.new ≡ probes.old ++ asked ports.now probe) }
{
    match probe {
        Some(HttpGet { port, path }) => add_at_port(probes, ports, port, path),
        None => Ok(()),
    }
}

fn add_at_port(
    probes: &mut List<(u16, Text)>,
    ports: &[NamedPort],
    port: PortRef,
    path: Text,
) -> Result<(), Memory>
    ensures { OnOk result (probes.new ≡ probes.old ++ at_port ports.now path port) }
{
    match port {
        PortRef::Number(port) => probes.add((port, path)),
        PortRef::Named(name) => add_at_named(probes, ports, &name, &path),
    }
}

fn add_at_named(
    probes: &mut List<(u16, Text)>,
    ports: &[NamedPort],
    name: &Text,
    path: &Text,
) -> Result<(), Memory>
    ensures { OnOk result
        (probes.new ≡ probes.old ++ at_port ports.now path.now (Named name.now)) }
{
    for port in ports {
        add_named(probes, port, name, path)?;
    }
    Ok(())
}

fn add_named(
    probes: &mut List<(u16, Text)>,
    port: &NamedPort,
    name: &Text,
    path: &Text,
) -> Result<(), Memory>
    ensures { OnOk result (probes.new ≡ probes.old ++ at_named name.now path.now port.now) }
{
    if port.tcp && port.name == *name {
        probes.add((port.port, path.copy()?))?;
    }
    Ok(())
}
