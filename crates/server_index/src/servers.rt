// The Servers that match a port: found among those of the namespace, or updated for a change.
ghost use Rattle.std.specs.Prelude.{◌≡◌, ◌≤◌, ◌+◌, ◌||◌, ◌↔◌, false, if◌then◌else◌, IfOk, OnOk, IsTrue, count_by, is_some, length, map};
ghost use Rattle.std.specs.FinMap.{entries, get};
ghost use Rattle.std.specs.List.{list_any, sum_by};
ghost use Rattle.std.specs.Option.{option_copied};
ghost use Rattle.key_lists.specs.Keys.{has_key, is_key};
ghost use Rattle.view_types.specs.Objects.{ObjectMap};
ghost use Rattle.view_types.specs.declared.mark.Mark.TheVariants.{Obj, ServersIn};
ghost use Rattle.view_rules.specs.PolicyLaws.{server_key};
ghost use Rattle.view_rules.specs.Servers.{server_found};
ghost use Rattle.mark_rules.specs.MarkLookups.{keys_at};
ghost use Rattle.mark_rules.specs.Marks.{has_mark, same_mark};
ghost use Rattle.mark_rules.specs.Reads.{count_at};
ghost use Rattle.server_index.specs.Matches.{AreRight, AreUp, BringsUp, names_server, noted_at, terms_of};
ghost use Rattle.server_index.specs.Requiring.{HaveServers};

use crate::matching::Matching;
use crate::notes::{ServerNotes, server_at};
use crate::port::PodPort;
use crate::required::required_lists;
use mark_rules::laws::keys_by_mark;
use mesh_base::key::{Kind, ObjKey};
use mesh_base::memory::Memory;
use mesh_base::same::Same;
use mesh_base::steps::Steps;
use mesh_base::text::Text;
use policy_rows::server::{is_for_port, server_found};
use view_types::mark::Mark;
use view_types::policy::{Policy, Protocol};
use view_types::server::ServerSpec;

/// Returns the Servers of the namespace that match the port. Checks those that may select the Pod
/// by their first required label, or all if there are few.
pub(crate) fn servers_for<L>(port: &PodPort, steps: &mut Steps<L>) -> Result<Matching, Memory>
    requires { port.now.from.now.store.now.spent ≡ false }
    ensures servers { IfOk result (AreUp port.now.from.now.store.now.objects port.now.key.now
        port.now.pod.now) }
    ensures steps { steps.new ≤ steps.old + count_at port.now.from.now.store.now.objects
        (ServersIn port.now.key.now.ns) }
{
    let PodPort { from, key, pod } = *port;
    let keys = from.store.servers_in(&key.ns);
    let labels = pod.meta.labels.entries();
    match required_lists(from.alloc, from.store, &key.ns, labels, keys.len())? {
        Some(lists) => match_lists(port, lists.as_slice(), steps),
        None => match_all(port, keys, steps),
    }
}

/// Returns the Servers that match, if those that may select the Pod are in these lists.
fn match_lists<L>(
    port: &PodPort,
    lists: &[&[ObjKey]],
    steps: &mut Steps<L>,
) -> Result<Matching, Memory>
    requires { HaveServers port.now.from.now.store.now.objects port.now.key.now.ns
        (entries port.now.pod.now.meta.labels) (map (λ l. l.now) lists.now) }
    ensures servers { IfOk result (AreUp port.now.from.now.store.now.objects port.now.key.now
        port.now.pod.now) }
    ensures steps { steps.new ≤ steps.old + sum_by length (map (λ l. l.now) lists.now) }
{
    let mut servers = Matching::new(port.from.alloc);
    add_lists(port, lists, &mut servers, steps)?;
    Ok(servers)
}

/// Returns the Servers that match, if these are the keys of all Servers of the namespace.
fn match_all<L>(port: &PodPort, keys: &[ObjKey], steps: &mut Steps<L>) -> Result<Matching, Memory>
    requires { keys.now ≡ keys_at port.now.from.now.store.now.objects
        (ServersIn port.now.key.now.ns) }
    ensures servers { IfOk result (AreUp port.now.from.now.store.now.objects port.now.key.now
        port.now.pod.now) }
    ensures steps { steps.new ≤ steps.old + length keys.now }
{
    keys_by_mark();
    port.from.store.stand_at_keys();
    let mut servers = Matching::new(port.from.alloc);
    add_servers(port, keys, &mut servers, steps)?;
    Ok(servers)
}

/// Inserts the Servers under the keys of these lists that match.
fn add_lists<L>(
    port: &PodPort,
    lists: &[&[ObjKey]],
    servers: &mut Matching,
    steps: &mut Steps<L>,
) -> Result<(), Memory>
    ensures servers { OnOk result (BringsUp port.now.from.now.store.now.objects port.now.key.now
        port.now.pod.now (λ k. list_any (λ l. has_key k l.now) lists.now) servers.old servers.new) }
    ensures steps { steps.new ≤ steps.old + sum_by (λ l. length l.now) lists.now }
{
    for keys in lists {
        add_servers(port, *keys, servers, steps)?;
    }
    Ok(())
}

/// Inserts the Servers under these keys that match.
fn add_servers<L>(
    port: &PodPort,
    keys: &[ObjKey],
    servers: &mut Matching,
    steps: &mut Steps<L>,
) -> Result<(), Memory>
    ensures servers { OnOk result (BringsUp port.now.from.now.store.now.objects port.now.key.now
        port.now.pod.now (λ k. has_key k keys.now) servers.old servers.new) }
    ensures steps { steps.new ≤ steps.old + length keys.now }
{
    for key in keys {
        add_server(port, key, servers, steps)?;
    }
    Ok(())
}

/// Inserts the Server under a key if it matches.
fn add_server<L>(
    port: &PodPort,
    key: &ObjKey,
    servers: &mut Matching,
    steps: &mut Steps<L>,
) -> Result<bool, Memory>
    ensures servers { OnOk result (BringsUp port.now.from.now.store.now.objects port.now.key.now
        port.now.pod.now (λ k. is_key k key.now) servers.old servers.new) }
    ensures steps { steps.new ≤ steps.old + 1 }
{
    if !is_server_in(key, &port.key.ns) {
        return Ok(false);
    }
    let server = server_at(port.from.store, key, steps);
    put_server(port, key, server, servers)
}

/// Updates the Servers that match for a change with these marks. Returns whether any differs.
pub(crate) fn follow_servers<L>(
    port: &PodPort,
    changed: &[Mark],
    servers: &mut Matching,
    notes: &mut ServerNotes,
    steps: &mut Steps<L>,
) -> Result<bool, Memory>
    requires { AreRight port.now.from.now.store.now.objects notes.old }
    ensures servers { OnOk result (BringsUp port.now.from.now.store.now.objects port.now.key.now
        port.now.pod.now (λ k. has_mark changed.now (Obj k)) servers.old servers.new) }
    ensures same { IfOk result (λ differs. differs ≡ false → servers.new ≡ servers.old) }
    ensures notes { OnOk result (AreRight port.now.from.now.store.now.objects notes.new) }
    ensures steps { steps.new ≤ steps.old
        + count_by (names_server port.now.key.now.ns) changed.now }
{
    let mut differs = false;
    for mark in changed {
        let differs_now = follow_mark(port, mark, servers, notes, steps)?;
        differs = either(differs, differs_now);
    }
    Ok(differs)
}

fn either(one: bool, other: bool) -> bool
    ensures { result ≡ (one || other) }
{
    one || other
}

/// Updates the Servers that match for a mark of a change.
fn follow_mark<L>(
    port: &PodPort,
    mark: &Mark,
    servers: &mut Matching,
    notes: &mut ServerNotes,
    steps: &mut Steps<L>,
) -> Result<bool, Memory>
    requires { AreRight port.now.from.now.store.now.objects notes.old }
    ensures servers { OnOk result (BringsUp port.now.from.now.store.now.objects port.now.key.now
        port.now.pod.now (λ k. same_mark (Obj k) mark.now) servers.old servers.new) }
    ensures same { IfOk result (λ differs. differs ≡ false → servers.new ≡ servers.old) }
    ensures notes { OnOk result (AreRight port.now.from.now.store.now.objects notes.new) }
    ensures steps { steps.new ≤ steps.old
        + (if names_server port.now.key.now.ns mark.now then 1 else 0) }
{
    match mark {
        Mark::Obj(key) => follow_key(port, key, servers, notes, steps),
        _ => Ok(false),
    }
}

/// Inserts or removes the Server under the key of a change.
fn follow_key<L>(
    port: &PodPort,
    key: &ObjKey,
    servers: &mut Matching,
    notes: &mut ServerNotes,
    steps: &mut Steps<L>,
) -> Result<bool, Memory>
    requires { AreRight port.now.from.now.store.now.objects notes.old }
    ensures servers { OnOk result (BringsUp port.now.from.now.store.now.objects port.now.key.now
        port.now.pod.now (λ k. is_key k key.now) servers.old servers.new) }
    ensures same { IfOk result (λ differs. differs ≡ false → servers.new ≡ servers.old) }
    ensures notes { OnOk result (AreRight port.now.from.now.store.now.objects notes.new) }
    ensures steps { steps.new ≤ steps.old
        + (if names_server port.now.key.now.ns (Obj key.now) then 1 else 0) }
    ensures once { IsTrue (is_some (noted_at notes.old key.now)) → steps.new ≡ steps.old }
    ensures noted { OnOk result (key.now ≡ server_key port.now.key.now.ns key.now.name
        → IsTrue (is_some (noted_at notes.new key.now))) }
{
    if !is_server_in(key, &port.key.ns) {
        return Ok(false);
    }
    notes.note(port.from.store, key, steps)?;
    put_server(port, key, notes.of(key), servers)
}

/// Returns how many marks are keys of Servers of the namespace.
pub(crate) fn count_servers(ns: &Text, marks: &[Mark]) -> usize
    ensures { result ≡ count_by (names_server ns.now) marks.now }
{
    marks.iter().filter(|mark| names_server(ns, mark)).count()
}

/// Whether a mark is the key of a Server of the namespace.
fn names_server(ns: &Text, mark: &Mark) -> bool
    ensures { result ≡ names_server ns.now mark.now }
{
    match mark {
        Mark::Obj(key) => is_server_in(key, ns),
        _ => false,
    }
}

/// Whether a key is that of a Server of the namespace.
fn is_server_in(key: &ObjKey, ns: &Text) -> bool
    ensures { IsTrue result ↔ (key.now ≡ server_key ns.now key.now.name) }
{
    key.kind.is_same(&Kind::Server) && key.ns.is_same(ns)
}

/// Inserts the Server of a key if it matches, and removes it otherwise.
fn put_server(
    port: &PodPort,
    key: &ObjKey,
    server: Option<&ServerSpec>,
    servers: &mut Matching,
) -> Result<bool, Memory>
    requires { key.now ≡ server_key port.now.key.now.ns key.now.name }
    ensures servers { OnOk result ((held : ObjectMap)
        → option_copied server.entry ≡ server_found (get held key.now)
        → BringsUp held port.now.key.now port.now.pod.now (λ k. is_key k key.now) servers.old
        servers.new) }
    ensures same { IfOk result (λ differs. differs ≡ false → servers.new ≡ servers.old) }
{
    servers.put(&key.name, terms_of(port, server))
}

/// Returns the protocol and the policy of a Server that matches the port.
fn terms_of(port: &PodPort, server: Option<&ServerSpec>) -> Option<(Protocol, Policy)>
    ensures { result ≡ terms_of port.now.key.now.ns port.now.pod.now port.now.key.now.port
        (option_copied server.entry) }
{
    match server {
        Some(server) if is_for_port(&port.key.ns, port.pod, port.key.port, server) => {
            Some((server.protocol, server.policy))
        }
        _ => None,
    }
}
