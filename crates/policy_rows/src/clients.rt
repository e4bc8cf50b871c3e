ghost use Rattle.std.specs.Prelude.{◌≡◌, ◌++◌, ◌||◌, IfOk, None, OnOk, Some, drop, filter_map, if◌then◌else◌, option_to_list};
ghost use Rattle.std.specs.List.{list_any};
ghost use Rattle.view_rules.specs.InOrder.{in_byte_order};
ghost use Rattle.view_rules.specs.Policies.{authn_shown, clients_shown, identity_in, is_everyone, is_star, is_wild, namespace_suffix, suffix_in};

use crate::in_order::in_byte_order;
use mesh_base::list::List;
use mesh_base::memory::Memory;
use mesh_base::text::Text;
use mesh_text::mesh::identity_of;
use std::alloc::Global;
use view_types::authn::{AuthnSpec, IdSpec};
use view_types::config::Config;
use view_types::server_view::Authn;

/// Returns the clients that a ServerAuthorization admits, as shown in a view.
pub(crate) fn authn_shown(
    alloc: Global,
    config: &Config,
    authn: &AuthnSpec,
) -> Result<Authn, Memory>
    ensures { IfOk result (λ shown. shown ≡ authn_shown config.now authn.now) }
{
    match authn {
        AuthnSpec::Anyone => Ok(Authn::Anyone),
        AuthnSpec::AnyTls => Ok(Authn::AnyTls),
        AuthnSpec::Clients(ids) => clients_shown(alloc, config, ids.as_slice()),
    }
}

/// Converts a list of clients to that shown in a view.
pub(crate) fn clients_shown(alloc: Global, config: &Config, ids: &[IdSpec]) -> Result<Authn, Memory>
    ensures { IfOk result (λ shown. shown ≡ clients_shown config.now ids.now) }
{
    let mut identities = Vec::new(alloc);
    let mut suffixes = Vec::new(alloc);
    for id in ids {
        add(&mut identities, identity_in(alloc, config, id)?)?;
        add(&mut suffixes, suffix_in(alloc, config, id)?)?;
    }
    Ok(Authn::Clients {
        ids: in_byte_order(identities)?,
        suffixes: in_byte_order(suffixes)?,
        everyone: has_everyone(ids),
    })
}

fn add(strings: &mut Vec<Text>, string: Option<Text>) -> Result<(), Memory>
    ensures { OnOk result (strings.new.items ≡ strings.old.items ++ option_to_list string) }
{
    if let Some(string) = string {
        strings.push(string)?;
    }
    Ok(())
}

fn identity_in(alloc: Global, config: &Config, id: &IdSpec) -> Result<Option<Text>, Memory>
    ensures { IfOk result (λ identity. identity ≡ identity_in config.now id.now) }
{
    match id {
        IdSpec::Written(string) => written_identity(string),
        IdSpec::Account { ns, name } => Ok(Some(identity_of(alloc, config, ns, name)?)),
        IdSpec::Namespace(_) => Ok(None),
    }
}

fn written_identity(string: &Text) -> Result<Option<Text>, Memory>
    ensures { IfOk result (λ identity.
        identity ≡ (if is_star string.now || is_wild string.now then None else Some string.now)) }
{
    if is_star(string) || is_wild(string) {
        Ok(None)
    } else {
        Ok(Some(string.copy()?))
    }
}

fn suffix_in(alloc: Global, config: &Config, id: &IdSpec) -> Result<Option<Text>, Memory>
    ensures { IfOk result (λ suffix. suffix ≡ suffix_in config.now id.now) }
{
    match id {
        IdSpec::Written(string) => written_suffix(alloc, string),
        IdSpec::Account { .. } => Ok(None),
        IdSpec::Namespace(ns) => Ok(Some(namespace_suffix(alloc, config, ns)?)),
    }
}

fn written_suffix(alloc: Global, string: &Text) -> Result<Option<Text>, Memory>
    ensures { IfOk result (λ suffix.
        suffix ≡ (if is_wild string.now then Some (drop 1 string.now) else None)) }
{
    if !is_wild(string) {
        return Ok(None);
    }
    match string.as_str().strip_prefix('*') {
        Some(suffix) => Ok(Some(Text::from_str(alloc, suffix)?)),
        None => Ok(None),
    }
}

fn namespace_suffix(alloc: Global, config: &Config, ns: &Text) -> Result<Text, Memory>
    ensures { IfOk result (λ suffix. suffix ≡ namespace_suffix config.now ns.now) }
{
    identity_of(alloc, config, ns, &Text::from_str(alloc, "")?)
}

fn has_everyone(ids: &[IdSpec]) -> bool
    ensures { result ≡ list_any is_everyone ids.now }
{
    ids.iter().any(|id| is_everyone(id))
}

fn is_everyone(id: &IdSpec) -> bool
    ensures { result ≡ is_everyone id.now }
{
    match id {
        IdSpec::Written(string) => is_star(string),
        _ => false,
    }
}

fn is_star(string: &Text) -> bool
    ensures { result ≡ is_star string.now }
{
    string.as_bytes() == b"*".as_slice()
}

fn is_wild(string: &Text) -> bool
    ensures { result ≡ is_wild string.now }
{
    string.as_bytes().starts_with(b"*.")
}
