ghost use Rattle.std.specs.Prelude.{◌≡◌, ◌≤◌, ◌+◌, [], ◌∷◌, IfOk, Some, flat_map};
ghost use Rattle.std.specs.Option.{option_copied, option_map, option_or, unwrap_or};
ghost use Rattle.view_rules.specs.Policies.{everywhere, ns_of, policy_authn};
ghost use Rattle.mark_rules.specs.Reads.{cost, need_marks};
ghost use Rattle.policy_rows.specs.References.{given_by, needs_found, with_given};
ghost use Rattle.policy_rows.specs.declared.refs.Given.TheVariants as gives;

use crate::clients::clients_shown;
use crate::held::{mesh_authn_held, net_authn_held};
use crate::snapshot::Snapshot;
use mesh_base::copied::Copied;
use mesh_base::list::List;
use mesh_base::memory::Memory;
use mesh_base::steps::Steps;
use mesh_base::text::Text;
use net_cidr::block::Block;
use net_cidr::ip::Ip;
use net_cidr::net::Net;
use std::alloc::Global;
use view_types::authn::{AuthzPolicy, IdSpec, MeshAuthn, NetAuthn, Ref, RefKind};
use view_types::config::Config;
use view_types::server_view::Authn;

/// The networks and clients of the references of a policy.
#[derive(Drop)]
pub(crate) struct Needs {
    /// The networks of the first NetworkAuthentication, if there is one.
    pub(crate) networks: Option<List<Block>>,
    /// The clients of the first reference to clients, if there is one.
    pub(crate) clients: Option<List<IdSpec>>,
}

/// The networks or clients of one reference.
#[derive(Drop)]
pub(crate) enum Given {
    Networks(List<Block>),
    Clients(List<IdSpec>),
}

/// Returns the namespace of a reference. The default is that of its policy.
pub(crate) fn ns_of<'a>(own: &'a Text, need: &'a Ref) -> &'a Text
    ensures { result.now ≡ ns_of own.now need.now }
{
    match &need.ns {
        Some(ns) => ns,
        None => own,
    }
}

/// Returns the networks and clients of the policy, if no reference is missing. Looks each up once.
pub(crate) fn needs_found<L>(
    from: &Snapshot,
    policy: &AuthzPolicy,
    steps: &mut Steps<L>,
) -> Result<Option<Needs>, Memory>
    ensures value { IfOk result (λ needs.
        needs ≡ needs_found from.now.store.now.objects policy.now) }
    ensures steps { steps.new ≤ steps.old + cost from.now.store.now.objects (flat_map
        (λ need. need_marks (ns_of policy.now.meta.ns need) need.name need.kind) policy.now.needs) }
{
    let own = &policy.meta.ns;
    let mut found = Needs {
        networks: None,
        clients: None,
    };
    for need in policy.needs.as_slice() {
        match given_by(from, ns_of(own, need), &need.name, need.kind, steps)? {
            Some(given) => keep(&mut found, given),
            None => return Ok(None),
        }
    }
    Ok(Some(found))
}

/// Returns the networks or clients of a reference, if it is not missing.
fn given_by<L>(
    from: &Snapshot,
    ns: &Text,
    name: &Text,
    kind: RefKind,
    steps: &mut Steps<L>,
) -> Result<Option<Given>, Memory>
    ensures value { IfOk result (λ given.
        given ≡ given_by from.now.store.now.objects ns.now name.now kind) }
    ensures steps { steps.new ≤ steps.old
        + cost from.now.store.now.objects (need_marks ns.now name.now kind) }
{
    match kind {
        RefKind::ServiceAccount => Ok(Some(Given::Clients(account(from.alloc, ns, name)?))),
        RefKind::MeshAuthn => {
            clients_given(from.alloc, mesh_authn_held(from.store, ns, name, steps))
        }
        RefKind::NetAuthn => networks_given(
            from.alloc,
            net_authn_held(from.store, ns, name, steps),
        ),
        _ => Ok(None),
    }
}

fn account(alloc: Global, ns: &Text, name: &Text) -> Result<List<IdSpec>, Memory>
    ensures { IfOk result (λ ids. ids ≡ IdSpec.Account ns.now name.now ∷ []) }
{
    let mut ids = List::new(alloc);
    ids.add(IdSpec::Account {
        ns: ns.copy()?,
        name: name.copy()?,
    })?;
    Ok(ids)
}

fn clients_given(alloc: Global, found: Option<&MeshAuthn>) -> Result<Option<Given>, Memory>
    ensures { IfOk result (λ given. given
        ≡ option_map (λ authn. gives.Clients authn.ids) (option_copied found.entry)) }
{
    match found {
        Some(authn) => Ok(Some(Given::Clients(authn.ids.copy(alloc)?))),
        None => Ok(None),
    }
}

fn networks_given(alloc: Global, found: Option<&NetAuthn>) -> Result<Option<Given>, Memory>
    ensures { IfOk result (λ given. given
        ≡ option_map (λ authn. gives.Networks authn.blocks) (option_copied found.entry)) }
{
    match found {
        Some(authn) => Ok(Some(Given::Networks(authn.blocks.copy(alloc)?))),
        None => Ok(None),
    }
}

/// Keeps the networks or clients of a reference, if they are the first.
fn keep(needs: &mut Needs, given: Given)
    ensures { needs.new ≡ with_given needs.old given }
{
    match given {
        Given::Networks(blocks) => keep_first(&mut needs.networks, blocks),
        Given::Clients(ids) => keep_first(&mut needs.clients, ids),
    }
}

fn keep_first<T: Drop>(first: &mut Option<T>, item: T)
    ensures { first.new ≡ option_or first.old (Some item) }
{
    if first.is_none() {
        *first = Some(item);
    }
}

/// Returns the networks that a policy refers to. The default is all addresses.
pub(crate) fn policy_blocks(
    alloc: Global,
    networks: Option<List<Block>>,
) -> Result<List<Block>, Memory>
    ensures { IfOk result (λ blocks. blocks ≡ unwrap_or networks everywhere) }
{
    match networks {
        Some(blocks) => Ok(blocks),
        None => everywhere(alloc),
    }
}

fn everywhere(alloc: Global) -> Result<List<Block>, Memory>
    ensures { IfOk result (λ blocks. blocks ≡ everywhere) }
{
    let mut blocks = List::new(alloc);
    blocks.add(whole(alloc, Ip::V4(0)))?;
    blocks.add(whole(alloc, Ip::V6(0)))?;
    Ok(blocks)
}

/// Returns all addresses of the family of an address.
fn whole(alloc: Global, base: Ip) -> Block
    ensures { result ≡ record { net = record { base = base; bits = 0 }; except = [] } }
{
    Block {
        net: Net { base, bits: 0 },
        except: List::new(alloc),
    }
}

/// Returns the clients that a policy refers to. The default is anyone.
pub(crate) fn policy_authn(
    alloc: Global,
    config: &Config,
    clients: Option<List<IdSpec>>,
) -> Result<Authn, Memory>
    ensures { IfOk result (λ authn. authn ≡ policy_authn config.now clients) }
{
    match clients {
        Some(ids) => clients_shown(alloc, config, ids.as_slice()),
        None => Ok(Authn::Anyone),
    }
}
