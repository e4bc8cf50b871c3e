// The paths of a Pod's probes.
ghost use Rattle.std.specs.Prelude.{◌≡◌, ◌++◌, IfOk, OnOk, filter_map, option_to_list};
ghost use Rattle.view_rules.specs.Inbound.{path_at, probe_paths, unless_routes};

use crate::in_order::in_byte_order;
use mesh_base::list::List;
use mesh_base::memory::Memory;
use mesh_base::text::Text;
use std::alloc::Global;
use view_types::pod::Pod;
use view_types::server_view::RouteRow;

/// Returns the paths of the Pod's probes on the port, in byte order, each once.
pub fn probe_paths(alloc: Global, pod: &Pod, port: u16) -> Result<List<Text>, Memory>
    ensures { IfOk result (λ paths. paths ≡ probe_paths pod.now port) }
{
    let paths = paths_at(alloc, pod.probes.as_slice(), port)?;
    in_byte_order(paths.into_vec())
}

// Returns the paths of the probes on the port.
fn paths_at(alloc: Global, probes: &[(u16, Text)], port: u16) -> Result<List<Text>, Memory>
    ensures { IfOk result (λ paths. paths ≡ filter_map (path_at port) probes.now) }
{
    let mut paths = List::new(alloc);
    for probe in probes {
        let path = path_at(probe, port)?;
        add_path(&mut paths, path)?;
    }
    Ok(paths)
}

fn path_at(probe: &(u16, Text), port: u16) -> Result<Option<Text>, Memory>
    ensures { IfOk result (λ path. path ≡ path_at port probe.now) }
{
    if probe.0 == port {
        Ok(Some(probe.1.copy()?))
    } else {
        Ok(None)
    }
}

fn add_path(paths: &mut List<Text>, path: Option<Text>) -> Result<(), Memory>
    ensures { OnOk result (paths.new ≡ paths.old ++ option_to_list path) }
{
    match path {
        Some(path) => paths.add(path),
        None => Ok(()),
    }
}

/// Returns the paths, or none if there are routes.
pub fn unless_routes(alloc: Global, routes: &[RouteRow], paths: List<Text>) -> List<Text>
    ensures { result ≡ unless_routes routes.now paths }
{
    match routes {
        [] => paths,
        [_, ..] => List::new(alloc),
    }
}
