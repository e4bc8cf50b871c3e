// The marks that the rows of a query read.
ghost use Rattle.std.specs.Prelude.{◌≡◌, ◌++◌, Some, None, false, IfOk, OnOk, flat_map, map, option_map};
ghost use Rattle.std.specs.Option.{option_copied};
ghost use Rattle.view_rules.specs.PodRows.{pod_held};
ghost use Rattle.view_rules.specs.PolicyLaws.{AreLawful, server_key};
ghost use Rattle.mark_rules.specs.Reads.{query_reads, reads};
ghost use Rattle.mark_rules.specs.Rows.{name_in, server_part};
ghost use Rattle.mark_rules.specs.declared.keys.RowKey.TheVariants as row;
ghost use Rattle.mark_tests.specs.QueryRows.{behind_name, behind_row, behind_server, first_row, port_row, route_row};
ghost use Rattle.row_reads.specs.References.{HaveSame};

use mark_rules::keys::{EndpointKey, ProfileKey, RouteKey, RowKey, ServerKey};
use mesh_base::copied::Copied;
use mesh_base::key::{Kind, ObjKey};
use mesh_base::list::List;
use mesh_base::memory::Memory;
use mesh_base::steps::Steps;
use mesh_base::text::Text;
use policy_rows::server::chosen_server;
use row_reads::at_mark::Reader;
use std::alloc::Global;
use view_types::mark::Mark;
use view_types::object::Object;
use view_types::pod::Pod;
use view_types::query::Query;
use view_types::route::ParentKind;
use view_types::server::ServerSpec;

/// Returns the marks that the rows of a query read, possibly with duplicates.
pub(crate) fn query_reads<L>(
    reader: &Reader,
    query: &Query,
    steps: &mut Steps<L>,
) -> Result<List<Mark>, Memory>
    ensures { reader.now.store.now.spent ≡ false → AreLawful reader.now.store.now.objects
        → IfOk result (λ marks. HaveSame marks
        (query_reads reader.now.config.now reader.now.store.now.objects query.now)) }
{
    reader.store.stand_at_keys();
    let first = first_row(reader.alloc, query)?;
    let behind = rows_behind(reader, &first, steps)?;
    let mut marks = reader.reads(&first, steps)?.into_vec();
    add_rows(reader, behind.as_slice(), &mut marks, steps)?;
    Ok(List::from_vec(marks))
}

// Adds the marks that rows read.
fn add_rows<L>(
    reader: &Reader,
    rows: &[RowKey],
    marks: &mut Vec<Mark>,
    steps: &mut Steps<L>,
) -> Result<(), Memory>
    ensures { reader.now.store.now.spent ≡ false
        → OnOk result (HaveSame marks.new.items (marks.old.items
        ++ flat_map (reads reader.now.config.now reader.now.store.now.objects) rows.now)) }
{
    for row in rows {
        add_row(reader, row, marks, steps)?;
    }
    Ok(())
}

fn add_row<L>(
    reader: &Reader,
    row: &RowKey,
    marks: &mut Vec<Mark>,
    steps: &mut Steps<L>,
) -> Result<(), Memory>
    ensures { reader.now.store.now.spent ≡ false
        → OnOk result (HaveSame marks.new.items (marks.old.items
        ++ reads reader.now.config.now reader.now.store.now.objects row.now)) }
{
    let mut found = reader.reads(row, steps)?.into_vec();
    marks.append(&mut found)?;
    Ok(())
}

// Returns the other rows of a query, if this is its first row.
fn rows_behind<L>(
    reader: &Reader,
    first: &RowKey,
    steps: &mut Steps<L>,
) -> Result<List<RowKey>, Memory>
    ensures { reader.now.store.now.spent ≡ false → IfOk result (λ rows. rows
        ≡ behind_row reader.now.config.now reader.now.store.now.objects first.now) }
{
    match first {
        RowKey::Server(key) => {
            let name = server_name(reader, key, steps)?;
            rows_behind_name(reader, &key.ns, name)
        }
        _ => Ok(List::new(reader.alloc)),
    }
}

fn rows_behind_name(reader: &Reader, ns: &Text, name: Option<&Text>) -> Result<List<RowKey>, Memory>
    ensures { reader.now.store.now.spent ≡ false → IfOk result (λ rows. rows
        ≡ behind_name reader.now.store.now.objects ns.now (option_copied name.entry)) }
{
    match name {
        Some(name) => rows_behind_server(reader, ns, name),
        None => Ok(List::new(reader.alloc)),
    }
}

// Returns the rows of the routes of a Server, of its authorizations, and of those of each route
// that has it as a parent.
fn rows_behind_server(reader: &Reader, ns: &Text, name: &Text) -> Result<List<RowKey>, Memory>
    ensures { reader.now.store.now.spent ≡ false → IfOk result (λ rows. rows
        ≡ behind_server reader.now.store.now.objects ns.now name.now) }
{
    let mut rows = List::new(reader.alloc);
    rows.add(route_row(ns, name)?)?;
    rows.add(RowKey::Authz(server_key(ns, name)?))?;
    let routes = reader.store.routes_on(ns, ParentKind::Server, name);
    add_authz(reader.alloc, &mut rows, routes)?;
    Ok(rows)
}

fn add_authz(alloc: Global, rows: &mut List<RowKey>, keys: &[ObjKey]) -> Result<(), Memory>
    ensures { OnOk result (rows.new ≡ rows.old ++ map row.Authz keys.now) }
{
    for key in keys {
        rows.add(RowKey::Authz(key.copy(alloc)?))?;
    }
    Ok(())
}

// Returns the name of the Server that is chosen for a port, or None if the Pod is not held.
fn server_name<'a, L>(
    reader: &Reader<'a>,
    key: &ServerKey,
    steps: &mut Steps<L>,
) -> Result<Option<&'a Text>, Memory>
    ensures { IfOk result (λ name. option_copied name
        ≡ name_in (server_part reader.now.config.now reader.now.store.now.objects key.now)) }
{
    match pod(reader, key, steps) {
        Some(pod) => {
            let server = chosen_server(reader.store, &key.ns, pod, key.port, steps)?;
            Ok(name_of(server))
        }
        None => Ok(None),
    }
}

fn pod<'a, L>(reader: &Reader<'a>, key: &ServerKey, steps: &mut Steps<L>) -> Option<&'a Pod>
    ensures { option_copied result
        ≡ pod_held reader.now.store.now.objects (Some (key.now.ns, key.now.pod)) }
{
    match reader.store.find(Kind::Pod, &key.ns, &key.pod, steps)? {
        Object::Pod(pod) => Some(pod.get()),
        _ => None,
    }
}

fn name_of(server: Option<&ServerSpec>) -> Option<&Text>
    ensures { option_copied result
        ≡ option_map (λ server. server.meta.name) (option_copied server.entry) }
{
    match server {
        Some(server) => Some(&server.meta.name),
        None => None,
    }
}

fn server_key(ns: &Text, name: &Text) -> Result<ObjKey, Memory>
    ensures { IfOk result (λ key. key ≡ server_key ns.now name.now) }
{
    Ok(ObjKey {
        kind: Kind::Server,
        ns: ns.copy()?,
        name: name.copy()?,
    })
}

fn route_row(ns: &Text, name: &Text) -> Result<RowKey, Memory>
    ensures { IfOk result (λ row. row ≡ route_row ns.now name.now) }
{
    Ok(RowKey::Route(RouteKey {
        ns: ns.copy()?,
        server: name.copy()?,
    }))
}

fn port_row(ns: &Text, pod: &Text, port: u16) -> Result<RowKey, Memory>
    ensures { IfOk result (λ row. row ≡ port_row ns.now pod.now port) }
{
    Ok(RowKey::Server(ServerKey {
        ns: ns.copy()?,
        pod: pod.copy()?,
        port,
    }))
}

// Returns the first row of a query, which is the only one unless the query is for a port.
fn first_row(alloc: Global, query: &Query) -> Result<RowKey, Memory>
    ensures { IfOk result (λ row. row ≡ first_row query.now) }
{
    match query {
        Query::Get { ns, name, port, .. } => Ok(RowKey::Endpoint(EndpointKey {
            ns: ns.copy()?,
            name: name.copy()?,
            port: *port,
        })),
        Query::Profile { target, ctx } => Ok(RowKey::Profile(ProfileKey {
            target: target.copy(alloc)?,
            client: ctx.ns.copy(alloc)?,
        })),
        Query::Port { ns, pod, port } => port_row(ns, pod, *port),
        Query::Traffic { target } => Ok(RowKey::Outbound(target.copy(alloc)?)),
        Query::PortRows { ns, pod, port } => port_row(ns, pod, *port),
    }
}
