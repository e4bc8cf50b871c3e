ghost use Rattle.std.specs.Prelude.{◌≡◌, ◌≤◌, ◌+◌, ◌&&◌, ◌==◌, IfOk, filter_map, find, if◌then◌else◌, is_some, length, option_to_list};
ghost use Rattle.std.specs.FinMap.{get};
ghost use Rattle.std.specs.List.{list_any};
ghost use Rattle.std.specs.Option.{option_copied};
ghost use Rattle.std.specs.Str.{bytes_eq};
ghost use Rattle.view_types.specs.declared.mark.Mark.TheVariants.{ServersIn};
ghost use Rattle.view_rules.specs.Servers.{chosen_server, is_for_port, is_named, is_server_for, selects_pod, selects_port, server_found};
ghost use Rattle.mark_rules.specs.Reads.{count_at};

use crate::by_mark::servers_in;
use crate::selects::selects;
use label_select::selector::Selector;
use mark_rules::laws::rows_by_marks;
use mesh_base::key::ObjKey;
use mesh_base::memory::Memory;
use mesh_base::steps::Steps;
use mesh_base::text::Text;
use object_store::store::Store;
use view_types::object::Object;
use view_types::pod::Pod;
use view_types::server::{PortRef, ServerSpec};
use view_types::service::NamedPort;

/// A port of a Pod, whose Servers are those of the namespace.
#[derive(Clone, Copy)]
struct PodPort<'a> {
    ns: &'a Text,
    pod: &'a Pod,
    port: u16,
}

/// Returns the least Server of the namespace, by name, that selects the Pod and the port.
pub fn chosen_server<'a, L>(
    store: &'a Store,
    ns: &Text,
    pod: &Pod,
    port: u16,
    steps: &mut Steps<L>,
) -> Result<Option<&'a ServerSpec>, Memory>
    ensures value { IfOk result (λ server.
        option_copied server ≡ chosen_server store.now.objects ns.now pod.now port) }
    ensures steps { steps.new ≤ steps.old + count_at store.now.objects (ServersIn ns.now) }
{
    rows_by_marks();
    let keys = servers_in(store, ns)?;
    let asked = PodPort { ns, pod, port };
    Ok(server_found(first_server(store, keys, &asked, steps)))
}

/// Returns the first object under these keys that is a Server for the port.
fn first_server<'a, L>(
    store: &'a Store,
    keys: &[ObjKey],
    asked: &PodPort,
    steps: &mut Steps<L>,
) -> Option<&'a Object>
    ensures value { option_copied result
        ≡ find (is_server_for asked.now.ns.now asked.now.pod.now asked.now.port)
        (filter_map (get store.now.objects) keys.now) }
    ensures steps { steps.new ≤ steps.old
        + length (filter_map (get store.now.objects) keys.now) }
{
    for key in keys {
        match server_at(store, key, asked, steps) {
            Some(server) => return Some(server),
            None => {}
        }
    }
    None
}

/// Returns the object under the key, if it is a Server for the port.
#[tactic(auto, using(object_store::proofs::Counts::copied_some))]
fn server_at<'a, L>(
    store: &'a Store,
    key: &ObjKey,
    asked: &PodPort,
    steps: &mut Steps<L>,
) -> Option<&'a Object>
    ensures value { option_copied result
        ≡ find (is_server_for asked.now.ns.now asked.now.pod.now asked.now.port)
        (option_to_list (get store.now.objects key.now)) }
    ensures steps { steps.new ≤ steps.old
        + (if is_some (get store.now.objects key.now) then 1 else 0) }
{
    match store.get(key, steps) {
        Some(object) if is_server_for(asked.ns, asked.pod, asked.port, object) => Some(object),
        _ => None,
    }
}

/// Returns the object, if there is one and it is a Server.
pub fn server_found(found: Option<&Object>) -> Option<&ServerSpec>
    ensures { option_copied result ≡ server_found (option_copied found.entry) }
{
    match found {
        Some(Object::Server(server)) => Some(server.get()),
        _ => None,
    }
}

fn is_server_for(ns: &Text, pod: &Pod, port: u16, object: &Object) -> bool
    ensures { result ≡ is_server_for ns.now pod.now port object.now }
{
    match object {
        Object::Server(server) => is_for_port(ns, pod, port, server.get()),
        _ => false,
    }
}

/// Whether the Server is in the namespace and selects the Pod and the port.
pub fn is_for_port(ns: &Text, pod: &Pod, port: u16, server: &ServerSpec) -> bool
    ensures { result ≡ is_for_port ns.now pod.now port server.now }
{
    server.meta.ns == *ns && selects_pod(&server.pods, pod) && selects_port(&server.port, pod, port)
}

fn selects_pod(selector: &Option<Selector>, pod: &Pod) -> bool
    ensures { result ≡ selects_pod selector.now pod.now }
{
    match selector {
        Some(selector) => selects(selector, &pod.meta.labels),
        None => false,
    }
}

fn selects_port(reference: &PortRef, pod: &Pod, number: u16) -> bool
    ensures { result ≡ selects_port reference.now pod.now number }
{
    match reference {
        PortRef::Number(port) => *port == number,
        PortRef::Named(name) => has_port(pod.ports.as_slice(), name, number),
    }
}

fn has_port(ports: &[NamedPort], name: &Text, number: u16) -> bool
    ensures { result ≡ list_any (is_named name.now number) ports.now }
{
    ports.iter().any(|port| is_named(name, number, port))
}

fn is_named(name: &Text, number: u16, port: &NamedPort) -> bool
    ensures { result ≡ is_named name.now number port.now }
{
    port.tcp && port.name == *name && port.port == number
}
