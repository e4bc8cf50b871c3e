ghost use Rattle.std.specs.Prelude.{◌≡◌, ◌≤◌, ◌+◌, ◌++◌, [], ◌∷◌, IfOk, OnOk, filter, filter_map, flat_map, map, option_to_list};
ghost use Rattle.std.specs.Option.{unwrap_or};
ghost use Rattle.view_types.specs.declared.object.Object.TheVariants as object;
ghost use Rattle.view_rules.specs.Policies.{authn_shown, authz_row, authz_rows, everywhere, policy_authn};
ghost use Rattle.mark_rules.specs.Reads.{cost, needs_of, with_needs};
ghost use Rattle.policy_rows.specs.References.{whole_row};

use crate::clients::authn_shown;
use crate::refs::{Needs, needs_found, policy_authn, policy_blocks};
use crate::snapshot::Snapshot;
use crate::subject::Subject;
use mesh_base::copied::Copied;
use mesh_base::list::List;
use mesh_base::memory::Memory;
use mesh_base::steps::Steps;
use std::alloc::Global;
use view_types::authn::{AuthzPolicy, ServerAuthz};
use view_types::config::Config;
use view_types::object::Object;
use view_types::server_view::{AuthzKind, AuthzRow};

/// Returns the rows of the authorizations that apply, by kind and name.
pub fn authz_rows<S: Subject, L>(
    from: &Snapshot,
    subject: &S,
    steps: &mut Steps<L>,
) -> Result<List<AuthzRow>, Memory>
    ensures rows { IfOk result (λ rows.
        rows ≡ authz_rows from.now.config.now from.now.store.now.objects
        (S.applies from.now.store.now.objects subject.now)) }
    ensures steps { steps.new ≤ steps.old + cost from.now.store.now.objects
        (with_needs from.now.store.now.objects (S.marks subject.now)) }
{
    let objects = subject.candidates(from.alloc, from.store, steps)?;
    rows_among(from, subject, objects.as_slice(), steps)
}

/// Returns the rows of those of these objects that apply.
pub fn rows_among<S: Subject, L>(
    from: &Snapshot,
    subject: &S,
    objects: &[&Object],
    steps: &mut Steps<L>,
) -> Result<List<AuthzRow>, Memory>
    ensures rows { IfOk result (λ rows.
        rows ≡ filter_map (authz_row from.now.config.now from.now.store.now.objects)
        (filter (S.applies from.now.store.now.objects subject.now)
        (map (λ o. o.now) objects.now))) }
    ensures steps { steps.new ≤ steps.old + cost from.now.store.now.objects
        (flat_map (λ o. needs_of o.now) objects.now) }
{
    let mut rows = List::new(from.alloc);
    for object in objects {
        add_if_applies(from, &mut rows, subject, object, steps)?;
    }
    Ok(rows)
}

fn add_if_applies<S: Subject, L>(
    from: &Snapshot,
    rows: &mut List<AuthzRow>,
    subject: &S,
    object: &Object,
    steps: &mut Steps<L>,
) -> Result<(), Memory>
    ensures rows { OnOk result (rows.new
        ≡ rows.old ++ filter_map (authz_row from.now.config.now from.now.store.now.objects)
        (filter (S.applies from.now.store.now.objects subject.now) (object.now ∷ []))) }
    ensures steps { steps.new ≤ steps.old
        + cost from.now.store.now.objects (needs_of object.now) }
{
    if subject.concerns(object) {
        return add(rows, whole_row(from, object, steps)?);
    }
    Ok(())
}

fn add(rows: &mut List<AuthzRow>, row: Option<AuthzRow>) -> Result<(), Memory>
    ensures { OnOk result (rows.new ≡ rows.old ++ option_to_list row) }
{
    match row {
        Some(row) => rows.add(row),
        None => Ok(()),
    }
}

/// Returns the row of an authorization, if none of its references is missing.
fn whole_row<L>(
    from: &Snapshot,
    object: &Object,
    steps: &mut Steps<L>,
) -> Result<Option<AuthzRow>, Memory>
    ensures value { IfOk result (λ row. row
        ≡ whole_row from.now.config.now from.now.store.now.objects object.now) }
    ensures steps { steps.new ≤ steps.old
        + cost from.now.store.now.objects (needs_of object.now) }
{
    match object {
        Object::ServerAuthorization(authz) => {
            Ok(Some(server_authz_row(from.alloc, from.config, authz.get())?))
        }
        Object::AuthorizationPolicy(policy) => policy_row(from, policy.get(), steps),
        _ => Ok(None),
    }
}

fn server_authz_row(alloc: Global, config: &Config, authz: &ServerAuthz) -> Result<AuthzRow, Memory>
    ensures { IfOk result (λ row. row
        ≡ record {
          kind = AuthzKind.ServerAuthorization;
          name = authz.now.meta.name;
          blocks =
              authz.now.blocks;
          authn = authn_shown config.now authz.now.authn;
        }) }
{
    Ok(AuthzRow {
        kind: AuthzKind::ServerAuthorization,
        name: authz.meta.name.copy()?,
        blocks: authz.blocks.copy(alloc)?,
        authn: authn_shown(alloc, config, &authz.authn)?,
    })
}

fn policy_row<L>(
    from: &Snapshot,
    policy: &AuthzPolicy,
    steps: &mut Steps<L>,
) -> Result<Option<AuthzRow>, Memory>
    ensures value { IfOk result (λ row. row ≡ whole_row from.now.config.now
        from.now.store.now.objects (object.AuthorizationPolicy policy.now)) }
    ensures steps { steps.new ≤ steps.old + cost from.now.store.now.objects
        (needs_of (object.AuthorizationPolicy policy.now)) }
{
    match needs_found(from, policy, steps)? {
        Some(needs) => Ok(Some(row_with(from.alloc, from.config, policy, needs)?)),
        None => Ok(None),
    }
}

/// Returns the row of a policy with these networks and clients.
fn row_with(
    alloc: Global,
    config: &Config,
    policy: &AuthzPolicy,
    needs: Needs,
) -> Result<AuthzRow, Memory>
    ensures { IfOk result (λ row. row
        ≡ record {
          kind = AuthzKind.AuthorizationPolicy;
          name = policy.now.meta.name;
          blocks = unwrap_or needs.networks everywhere;
          authn = policy_authn config.now needs.clients;
        }) }
{
    let Needs { networks, clients } = needs;
    Ok(AuthzRow {
        kind: AuthzKind::AuthorizationPolicy,
        name: policy.meta.name.copy()?,
        blocks: policy_blocks(alloc, networks)?,
        authn: policy_authn(alloc, config, clients)?,
    })
}
