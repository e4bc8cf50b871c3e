ghost use Rattle.std.specs.Prelude.{◌≡◌, IfOk};
ghost use Rattle.serde_json.specs.View.{view};
ghost use Rattle.k8s_meta.specs.Lists.{each};
ghost use Rattle.k8s_meta.specs.Spots.{◌·◌, Reads, seen};
ghost use Rattle.k8s_meta.specs.declared.key.Key.TheVariants as keys;
ghost use Rattle.policy_objects.specs.Identities.{account_at};
ghost use Rattle.view_types.specs.Lawful.{IsLawfulServerAuthz};
ghost use Rattle.policy_objects.specs.ServerAuthorizations.{authn_at, authn_of, named_or_chosen, server_authz_at, server_ref_at};

use crate::block::{NetworkBlock, blocks_or_all};
use crate::identity::{ServiceAccount, WrittenIdentity, joined};
use crate::selector::LabelSelector;
use k8s_meta::fault::ReadFault;
use k8s_meta::key::Key;
use k8s_meta::meta::meta_of;
use k8s_meta::place::Place;
use k8s_meta::words::{Flag, Name};
use label_select::selector::Selector;
use mesh_base::list::List;
use mesh_base::text::Text;
use serde_json::Value;
use std::alloc::Global;
use view_types::authn::{AuthnSpec, IdSpec, ServerAuthz, ServerRef};

/// Reads the ServerAuthorization at the path `at`. A fault is the first one in the order of the
/// members; the lack of both a Server's name and a selector is a fault of the name.
pub fn read_server_authz(alloc: Global, object: &Value, at: &str) -> Result<ServerAuthz, ReadFault>
    ensures value { Reads result (server_authz_at record { at = at.now; value = view object.now }) }
    ensures lawful { IfOk result IsLawfulServerAuthz }
{
    server_authz_of(&Place::top(alloc, object, at))
}

/// Reads the ServerAuthorization at a place.
pub fn server_authz_of<'a>(object: &'a Place<'a>) -> Result<ServerAuthz, ReadFault>
    ensures value { Reads result (server_authz_at (seen object.now)) }
    ensures lawful { IfOk result IsLawfulServerAuthz }
{
    members_of(object)
}

#[tactic(auto, unfolding(k8s_meta::specs::Spots::then, crate::specs::ServerAuthorizations::server_authz_at))]
fn members_of<'a>(object: &'a Place<'a>) -> Result<ServerAuthz, ReadFault>
    ensures { Reads result (server_authz_at (seen object.now)) }
{
    let meta = meta_of(object)?;
    let spec = object.part(Key::Spec)?;
    let target = spec.part(Key::Server)?;
    let server = server_ref_of(&target)?;
    let client = spec.part(Key::Client)?;
    let blocks = client.each(Key::Networks, &NetworkBlock)?;
    let authn = read_authn(&client, meta.ns.as_str())?;
    Ok(ServerAuthz {
        meta,
        server,
        blocks: blocks_or_all(object.alloc(), blocks)?,
        authn,
    })
}

#[tactic(auto, unfolding(k8s_meta::specs::Spots::then, crate::specs::ServerAuthorizations::server_ref_at))]
fn server_ref_of<'a>(place: &'a Place<'a>) -> Result<ServerRef, ReadFault>
    ensures { Reads result (server_ref_at (seen place.now)) }
{
    let name = place.optional(Key::Name, &Name)?;
    let selector = place.optional(Key::Selector, &LabelSelector)?;
    named_or_chosen(place, name, selector)
}

#[tactic(auto, unfolding(crate::specs::ServerAuthorizations::named_or_chosen))]
fn named_or_chosen<'a>(
    place: &'a Place<'a>,
    name: Option<Text>,
    selector: Option<Selector>,
) -> Result<ServerRef, ReadFault>
    ensures { Reads result (named_or_chosen ((seen place.now) · keys.Name).at name selector) }
{
    match (name, selector) {
        (Some(name), _) => Ok(ServerRef::Named(name)),
        (None, Some(selector)) => Ok(ServerRef::Chosen(selector)),
        (None, None) => Err(place.member(Key::Name).missing()),
    }
}

/// Reads the clients, in an object of the namespace `own`.
#[tactic(auto, unfolding(k8s_meta::specs::Spots::then, crate::specs::ServerAuthorizations::authn_at))]
fn read_authn<'a>(client: &'a Place<'a>, own: &str) -> Result<AuthnSpec, ReadFault>
    ensures { Reads result (authn_at own.now (seen client.now)) }
{
    let without_tls = client.default(Key::Unauthenticated, &Flag, false)?;
    let tls = client.part(Key::MeshTls)?;
    let any_tls = tls.default(Key::UnauthenticatedTls, &Flag, false)?;
    let written = tls.each(Key::Identities, &WrittenIdentity)?;
    let accounts = accounts_of(&tls, own)?;
    let ids = joined(written, accounts)?;
    Ok(authn_of(without_tls, any_tls, ids))
}

fn accounts_of<'a>(tls: &'a Place<'a>, own: &str) -> Result<List<IdSpec>, ReadFault>
    ensures { Reads result (each (account_at own.now) ((seen tls.now) · keys.ServiceAccounts)) }
{
    tls.each(Key::ServiceAccounts, &ServiceAccount { own })
}

#[tactic(auto, unfolding(crate::specs::ServerAuthorizations::authn_of))]
fn authn_of(without_tls: bool, any_tls: bool, ids: List<IdSpec>) -> AuthnSpec
    ensures { result ≡ authn_of without_tls any_tls ids }
{
    if without_tls {
        AuthnSpec::Anyone
    } else if any_tls {
        AuthnSpec::AnyTls
    } else {
        AuthnSpec::Clients(ids)
    }
}
