// The authorizations of a Server or of a route, with the marks that they read.
ghost use Rattle.std.specs.Prelude.{◌≡◌, ◌≤◌, ◌+◌, ◌++◌, ◌∷◌, IfOk, flat_map, map};
ghost use Rattle.std.specs.FinMap.{get};
ghost use Rattle.view_types.specs.declared.mark.Mark.TheVariants.{Obj, PolicyOn};
ghost use Rattle.view_rules.specs.Policies.{applies_to_route, authz_rows};
ghost use Rattle.view_rules.specs.Servers.{server_found};
ghost use Rattle.mark_rules.specs.Marks.{objects_with};
ghost use Rattle.mark_rules.specs.Reads.{authz_reads, cost, count_at, needs_of, server_authz_marks, with_needs};
ghost use Rattle.mark_rules.specs.Rows.{authz_found, authz_row};
ghost use Rattle.policy_rows.specs.ByMark.{route_target};
ghost use Rattle.policy_rows.specs.References.{route_marks};

use mark_rules::laws::rows_by_marks;
use mesh_base::copied::Copied;
use mesh_base::key::{Kind, ObjKey};
use mesh_base::list::List;
use mesh_base::memory::Memory;
use mesh_base::steps::Steps;
use policy_rows::candidates::server_candidates;
use policy_rows::rows::rows_among;
use policy_rows::server::server_found;
use policy_rows::snapshot::Snapshot;
use policy_rows::subject::Subject;
use row_reads::references::{Reference, add_all_references};
use row_reads::rows::{authz_in, policies_on};
use row_table::plain_row::PlainRow;
use std::alloc::Global;
use view_types::authn::RefKind;
use view_types::mark::Mark;
use view_types::object::Object;
use view_types::server_view::AuthzRow;

/// Returns the authorizations of the Server or the route of a key. Any other key has none.
pub(crate) fn authz_of<L>(
    from: &Snapshot,
    key: &ObjKey,
    steps: &mut Steps<L>,
) -> Result<PlainRow<List<AuthzRow>>, Memory>
    ensures row { IfOk result (λ found. found.row
        ≡ authz_row from.now.config.now from.now.store.now.objects key.now) }
    ensures marks { IfOk result (λ found. found.marks
        ≡ authz_reads from.now.store.now.objects key.now) }
    ensures steps { steps.new ≤ steps.old + cost from.now.store.now.objects
        (authz_reads from.now.store.now.objects key.now) }
{
    match key.kind {
        Kind::Server => server_authz(from, key, steps),
        Kind::LinkerdRoute => route_authz(from, key, RefKind::LinkerdRoute, steps),
        Kind::GatewayRoute => route_authz(from, key, RefKind::GatewayRoute, steps),
        _ => Ok(PlainRow {
            row: List::new(from.alloc),
            marks: List::new(from.alloc),
        }),
    }
}

// ---- Servers

fn server_authz<L>(
    from: &Snapshot,
    key: &ObjKey,
    steps: &mut Steps<L>,
) -> Result<PlainRow<List<AuthzRow>>, Memory>
    ensures row { IfOk result (λ found. found.row ≡ authz_found from.now.config.now
        from.now.store.now.objects (server_found (get from.now.store.now.objects key.now))) }
    ensures marks { IfOk result (λ found. found.marks ≡ Obj key.now ∷ with_needs
        from.now.store.now.objects (server_authz_marks key.now.ns key.now.name)) }
    ensures steps { steps.new ≤ steps.old + cost from.now.store.now.objects (Obj key.now
        ∷ with_needs from.now.store.now.objects (server_authz_marks key.now.ns key.now.name)) }
{
    let objects = server_candidates(from.alloc, from.store, &key.ns, &key.name, steps)?;
    let row = server_rows(from, key, objects.as_slice(), steps)?;
    let marks = marks_of_server(from.alloc, key, objects.as_slice())?;
    Ok(PlainRow { row, marks })
}

// Returns the rows of those of the objects with a mark of the Server that apply to it. There are
// none if no Server is held.
fn server_rows<L>(
    from: &Snapshot,
    key: &ObjKey,
    objects: &[&Object],
    steps: &mut Steps<L>,
) -> Result<List<AuthzRow>, Memory>
    ensures rows { IfOk result (λ rows. map (λ o. o.now) objects.now ≡ objects_with
        from.now.store.now.objects (server_authz_marks key.now.ns key.now.name)
        → rows ≡ authz_found from.now.config.now from.now.store.now.objects
        (server_found (get from.now.store.now.objects key.now))) }
    ensures steps { steps.new ≤ steps.old + (count_at from.now.store.now.objects (Obj key.now)
        + cost from.now.store.now.objects (flat_map (λ o. needs_of o.now) objects.now)) }
{
    rows_by_marks();
    from.store.stand_at_keys();
    match server_found(from.store.get(key, steps)) {
        Some(server) => rows_among(from, server, objects, steps),
        None => Ok(List::new(from.alloc)),
    }
}

// Returns the mark of the Server, those of what may apply to it, and those of what these objects
// refer to.
fn marks_of_server(alloc: Global, key: &ObjKey, objects: &[&Object]) -> Result<List<Mark>, Memory>
    ensures { IfOk result (λ marks.
        marks ≡ Obj key.now ∷ (server_authz_marks key.now.ns key.now.name
        ++ flat_map needs_of (map (λ o. o.now) objects.now))) }
{
    let mut marks = List::new(alloc);
    marks.add(Mark::Obj(key.copy(alloc)?))?;
    marks.add(authz_in(&key.ns)?)?;
    marks.add(policies_on(&key.ns, RefKind::Server, &key.name)?)?;
    marks.add(policies_on(&key.ns, RefKind::Namespace, &key.ns)?)?;
    add_all_references(&mut marks, Reference::Authentications, objects)?;
    Ok(marks)
}

// ---- routes

fn route_authz<L>(
    from: &Snapshot,
    key: &ObjKey,
    target: RefKind,
    steps: &mut Steps<L>,
) -> Result<PlainRow<List<AuthzRow>>, Memory>
    ensures row { IfOk result (λ found. found.row ≡ authz_rows from.now.config.now
        from.now.store.now.objects (applies_to_route from.now.store.now.objects key.now)) }
    ensures marks { IfOk result (λ found. found.marks ≡ PolicyOn key.now.ns target key.now.name
        ∷ flat_map needs_of (objects_with from.now.store.now.objects
        (route_marks key.now (route_target key.now.kind)))) }
    ensures steps { steps.new ≤ steps.old + cost from.now.store.now.objects
        (authz_reads from.now.store.now.objects key.now) }
{
    let objects = key.candidates(from.alloc, from.store, steps)?;
    let row = rows_among(from, key, objects.as_slice(), steps)?;
    let marks = marks_of_route(from.alloc, key, target, objects.as_slice())?;
    Ok(PlainRow { row, marks })
}

// Returns the mark of the policies that target the route, and those of what these objects refer to.
fn marks_of_route(
    alloc: Global,
    key: &ObjKey,
    target: RefKind,
    objects: &[&Object],
) -> Result<List<Mark>, Memory>
    ensures { IfOk result (λ marks. marks ≡ PolicyOn key.now.ns target key.now.name
        ∷ flat_map needs_of (map (λ o. o.now) objects.now)) }
{
    let mut marks = List::new(alloc);
    marks.add(policies_on(&key.ns, target, &key.name)?)?;
    add_all_references(&mut marks, Reference::Authentications, objects)?;
    Ok(marks)
}
