// What is stored for a port: its row, and the Servers that match it.
ghost use Rattle.std.specs.Prelude.{◌≡◌, ◌≤◌, ◌+◌, ◌↔◌, false, Some, None, IsTrue, IfOk, OnOk, count_by, length, slice_get};
ghost use Rattle.std.specs.FinMap.{entries};
ghost use Rattle.view_types.specs.Objects.{ObjectMap};
ghost use Rattle.view_types.specs.declared.mark.Mark.TheVariants.{Obj, ServersIn};
ghost use Rattle.view_rules.specs.PodRows.{pod_key};
ghost use Rattle.mark_rules.specs.Changes.{Leads};
ghost use Rattle.mark_rules.specs.Marks.{has_mark, same_mark};
ghost use Rattle.mark_rules.specs.Reads.{cost, count_at, server_reads};
ghost use Rattle.server_index.specs.Concerned.{HaveValues};
ghost use Rattle.server_index.specs.Matches.{AreUp, BringsUp, names_server, part_from};
ghost use Rattle.server_index.specs.Noting.{NotesHold};
ghost use Rattle.server_index.specs.Standing.{Stands};

use crate::change_notes::ChangeNotes;
use crate::concerns::pod_values;
use crate::matching::Matching;
use crate::name_filter::NameFilter;
use crate::port::{PodPort, Port};
use crate::servers::{count_servers, follow_servers, servers_for};
use mark_rules::keys::ServerKey;
use mesh_base::key::{Kind, ObjKey};
use mesh_base::list::List;
use mesh_base::memory::Memory;
use mesh_base::same::Same;
use mesh_base::steps::Steps;
use mesh_base::text::Text;
use policy_rows::probes::probe_paths;
use row_reads::rows::server_reads;
use view_scratch::inbound::{default_policy, default_protocol};
use view_scratch::pod::pod_named;
use view_types::mark::Mark;
use view_types::policy::{Policy, Protocol};

/// The server part of a port: the protocol, the policy, the name of the Server if one is chosen,
/// and the paths of the Pod's probes.
pub type ServerPart = (Protocol, Policy, Option<Text>, List<Text>);

/// The server part of a port, if its Pod is held, with the Servers that match the port, the marks
/// that are read, and a filter of the values of the Pod's labels.
#[derive(Drop)]
pub struct KeptServer {
    pub(crate) row: Option<ServerPart>,
    pub(crate) servers: Matching,
    pub(crate) marks: List<Mark>,
    values: NameFilter,
}

/// Computes the server part of a port.
pub(crate) fn find<L>(port: &Port, steps: &mut Steps<L>) -> Result<KeptServer, Memory>
    requires { port.now.from.now.store.now.spent ≡ false }
    ensures stands { IfOk result (Stands port.now.from.now.config.now
        port.now.from.now.store.now.objects port.now.key.now) }
    ensures steps { steps.new ≤ steps.old + cost port.now.from.now.store.now.objects
        (server_reads port.now.key.now) }
{
    let alloc = port.from.alloc;
    let mut kept = KeptServer {
        row: None,
        servers: Matching::new(alloc),
        marks: server_reads(alloc, port.key)?,
        values: NameFilter::new(),
    };
    find_again(port, &mut kept, steps)?;
    Ok(kept)
}

/// Updates what is stored for a port for a change with these marks. A port that the change doesn't
/// concern by the filters is left as it is. Returns whether the row may differ.
pub(crate) fn follow<L>(
    port: &Port,
    changed: &[Mark],
    kept: &mut KeptServer,
    notes: &mut ChangeNotes,
    steps: &mut Steps<L>,
) -> Result<bool, Memory>
    requires going { port.now.from.now.store.now.spent ≡ false }
    requires notes { NotesHold port.now.from.now.store.now.objects changed.now notes.old }
    ensures stands { OnOk result ((held : ObjectMap)
        → Stands port.now.from.now.config.now held port.now.key.now kept.old
        → Leads changed.now held port.now.from.now.store.now.objects
        → Stands port.now.from.now.config.now port.now.from.now.store.now.objects
        port.now.key.now kept.new) }
    ensures differ { IfOk result (λ differs. differs ≡ false → kept.new.row ≡ kept.old.row) }
    ensures marks { OnOk result (kept.new.marks ≡ kept.old.marks) }
    ensures notes { OnOk result (NotesHold port.now.from.now.store.now.objects changed.now
        notes.new) }
    ensures steps { steps.new ≤ steps.old + cost port.now.from.now.store.now.objects
        (server_reads port.now.key.now) }
{
    if notes.passes_over(kept.servers.names(), &kept.values) {
        return Ok(false);
    }
    follow_concerned(port, changed, kept, notes, steps)
}

/// Does the same for a port that the change may concern. Only the Servers of the change are
/// checked, unless it has the mark of the Pod, or is of more Servers than the namespace then has.
fn follow_concerned<L>(
    port: &Port,
    changed: &[Mark],
    kept: &mut KeptServer,
    notes: &mut ChangeNotes,
    steps: &mut Steps<L>,
) -> Result<bool, Memory>
    requires going { port.now.from.now.store.now.spent ≡ false }
    requires notes { NotesHold port.now.from.now.store.now.objects changed.now notes.old }
    ensures stands { OnOk result ((held : ObjectMap)
        → Stands port.now.from.now.config.now held port.now.key.now kept.old
        → Leads changed.now held port.now.from.now.store.now.objects
        → Stands port.now.from.now.config.now port.now.from.now.store.now.objects
        port.now.key.now kept.new) }
    ensures differ { IfOk result (λ differs. differs ≡ false → kept.new.row ≡ kept.old.row) }
    ensures marks { OnOk result (kept.new.marks ≡ kept.old.marks) }
    ensures notes { OnOk result (NotesHold port.now.from.now.store.now.objects changed.now
        notes.new) }
    ensures steps { steps.new ≤ steps.old + cost port.now.from.now.store.now.objects
        (server_reads port.now.key.now) }
{
    let servers = port.from.store.servers_in(&port.key.ns);
    if !is_in_place(changed, servers, port.key) {
        find_again(port, kept, steps)?;
        return Ok(true);
    }
    follow_in_place(port, changed, kept, notes, steps)
}

/// Whether the change leaves the Pod unchanged, and is of no more Servers of the namespace than
/// these.
fn is_in_place(changed: &[Mark], servers: &[ObjKey], key: &ServerKey) -> bool
    ensures pod { IsTrue result
        → has_mark changed.now (Obj (pod_key key.now.ns key.now.pod)) ≡ false }
    ensures few { IsTrue result
        → count_by (names_server key.now.ns) changed.now ≤ length servers.now }
{
    if count_servers(&key.ns, changed) > servers.len() {
        return false;
    }
    !has_pod(changed, key)
}

/// Whether the change has the mark of the Pod.
fn has_pod(changed: &[Mark], key: &ServerKey) -> bool
    ensures { result ≡ has_mark changed.now (Obj (pod_key key.now.ns key.now.pod)) }
{
    changed.iter().any(|mark| is_pod(key, mark))
}

fn is_pod(key: &ServerKey, mark: &Mark) -> bool
    ensures { result ≡ same_mark (Obj (pod_key key.now.ns key.now.pod)) mark.now }
{
    match mark {
        Mark::Obj(other) => is_pod_key(key, other),
        _ => false,
    }
}

fn is_pod_key(key: &ServerKey, other: &ObjKey) -> bool
    ensures { IsTrue result ↔ (other.now ≡ pod_key key.now.ns key.now.pod) }
{
    other.kind.is_same(&Kind::Pod) && other.ns.is_same(&key.ns) && other.name.is_same(&key.pod)
}

/// Computes the row and the Servers again. The marks are unchanged, since they depend on the key
/// alone.
fn find_again<L>(port: &Port, kept: &mut KeptServer, steps: &mut Steps<L>) -> Result<(), Memory>
    requires { port.now.from.now.store.now.spent ≡ false }
    ensures stands { OnOk result (kept.old.marks ≡ server_reads port.now.key.now
        → Stands port.now.from.now.config.now port.now.from.now.store.now.objects
        port.now.key.now kept.new) }
    ensures marks { OnOk result (kept.new.marks ≡ kept.old.marks) }
    ensures steps { steps.new ≤ steps.old + cost port.now.from.now.store.now.objects
        (server_reads port.now.key.now) }
{
    let Port { from, key } = *port;
    from.store.stand_at_keys();
    match pod_named(from.store, &key.ns, &key.pod, steps) {
        Some(pod) => {
            fill(&PodPort { from, key, pod }, kept, steps)?;
            Ok(())
        }
        None => {
            kept.row = None;
            Ok(())
        }
    }
}

/// Computes the Servers that match the port of a Pod, and the row.
fn fill<L>(port: &PodPort, kept: &mut KeptServer, steps: &mut Steps<L>) -> Result<(), Memory>
    requires { port.now.from.now.store.now.spent ≡ false }
    ensures servers { OnOk result (AreUp port.now.from.now.store.now.objects port.now.key.now
        port.now.pod.now kept.new.servers) }
    ensures row { OnOk result (kept.new.row ≡ Some (part_from port.now.from.now.config.now
        port.now.pod.now port.now.key.now.port (slice_get kept.new.servers.by_name.entries 0))) }
    ensures values { OnOk result (HaveValues kept.new.values
        (entries port.now.pod.now.meta.labels)) }
    ensures marks { OnOk result (kept.new.marks ≡ kept.old.marks) }
    ensures steps { steps.new ≤ steps.old + count_at port.now.from.now.store.now.objects
        (ServersIn port.now.key.now.ns) }
{
    kept.servers = servers_for(port, steps)?;
    kept.values = pod_values(port.pod);
    kept.row = Some(part_from(port, &kept.servers)?);
    Ok(())
}

/// Updates what is stored for a change that leaves the Pod unchanged. Returns whether the row may
/// differ.
fn follow_in_place<L>(
    port: &Port,
    changed: &[Mark],
    kept: &mut KeptServer,
    notes: &mut ChangeNotes,
    steps: &mut Steps<L>,
) -> Result<bool, Memory>
    requires going { port.now.from.now.store.now.spent ≡ false }
    requires notes { NotesHold port.now.from.now.store.now.objects changed.now notes.old }
    requires pod { has_mark changed.now (Obj (pod_key port.now.key.now.ns port.now.key.now.pod))
        ≡ false }
    requires few { count_by (names_server port.now.key.now.ns) changed.now
        ≤ count_at port.now.from.now.store.now.objects (ServersIn port.now.key.now.ns) }
    ensures stands { OnOk result ((held : ObjectMap)
        → Stands port.now.from.now.config.now held port.now.key.now kept.old
        → Leads changed.now held port.now.from.now.store.now.objects
        → Stands port.now.from.now.config.now port.now.from.now.store.now.objects
        port.now.key.now kept.new) }
    ensures differ { IfOk result (λ differs. differs ≡ false → kept.new.row ≡ kept.old.row) }
    ensures marks { OnOk result (kept.new.marks ≡ kept.old.marks) }
    ensures notes { OnOk result (NotesHold port.now.from.now.store.now.objects changed.now
        notes.new) }
    ensures steps { steps.new ≤ steps.old + cost port.now.from.now.store.now.objects
        (server_reads port.now.key.now) }
{
    let Port { from, key } = *port;
    match pod_named(from.store, &key.ns, &key.pod, steps) {
        Some(pod) => Ok(renew(&PodPort { from, key, pod }, changed, kept, notes, steps)?),
        None => Ok(false),
    }
}

/// Updates the Servers for a change with these marks, and the row if a Server differs. Returns
/// whether one does.
fn renew<L>(
    port: &PodPort,
    changed: &[Mark],
    kept: &mut KeptServer,
    notes: &mut ChangeNotes,
    steps: &mut Steps<L>,
) -> Result<bool, Memory>
    requires { NotesHold port.now.from.now.store.now.objects changed.now notes.old }
    ensures servers { OnOk result (BringsUp port.now.from.now.store.now.objects port.now.key.now
        port.now.pod.now (λ k. has_mark changed.now (Obj k)) kept.old.servers kept.new.servers) }
    ensures row { OnOk result (kept.old.row ≡ Some (part_from port.now.from.now.config.now
        port.now.pod.now port.now.key.now.port (slice_get kept.old.servers.by_name.entries 0))
        → kept.new.row ≡ Some (part_from port.now.from.now.config.now port.now.pod.now
        port.now.key.now.port (slice_get kept.new.servers.by_name.entries 0))) }
    ensures differ { IfOk result (λ differs. differs ≡ false → kept.new.row ≡ kept.old.row) }
    ensures values { OnOk result (kept.new.values ≡ kept.old.values) }
    ensures marks { OnOk result (kept.new.marks ≡ kept.old.marks) }
    ensures notes { OnOk result (NotesHold port.now.from.now.store.now.objects changed.now
        notes.new) }
    ensures steps { steps.new ≤ steps.old
        + count_by (names_server port.now.key.now.ns) changed.now }
{
    let servers = &mut kept.servers;
    let differs = follow_servers(port, changed, servers, &mut notes.servers, steps)?;
    notes.list(changed)?;
    if !differs {
        return Ok(false);
    }
    kept.row = Some(part_from(port, &kept.servers)?);
    Ok(true)
}

/// Returns the row by the Server with the least name, or the default one if there is none.
fn part_from(port: &PodPort, servers: &Matching) -> Result<ServerPart, Memory>
    ensures { IfOk result (λ part. part ≡ part_from port.now.from.now.config.now port.now.pod.now
        port.now.key.now.port (slice_get servers.now.by_name.entries 0)) }
{
    match servers.first() {
        Some((name, terms)) => named_part(port, name, terms),
        None => default_part(port),
    }
}

fn named_part(port: &PodPort, name: &Text, terms: &(Protocol, Policy)) -> Result<ServerPart, Memory>
    ensures { IfOk result (λ part. part ≡ part_from port.now.from.now.config.now port.now.pod.now
        port.now.key.now.port (Some (name.now, terms.now))) }
{
    let probes = probe_paths(port.from.alloc, port.pod, port.key.port)?;
    Ok((terms.0, terms.1, Some(name.copy()?), probes))
}

fn default_part(port: &PodPort) -> Result<ServerPart, Memory>
    ensures { IfOk result (λ part. part ≡ part_from port.now.from.now.config.now port.now.pod.now
        port.now.key.now.port None) }
{
    let protocol = default_protocol(port.from.alloc, port.pod, port.key.port)?;
    let probes = probe_paths(port.from.alloc, port.pod, port.key.port)?;
    let policy = default_policy(port.from.config, port.pod);
    Ok((protocol, policy, None, probes))
}
