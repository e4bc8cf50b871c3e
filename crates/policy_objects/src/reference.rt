ghost use Rattle.std.specs.Prelude.{◌≡◌};
ghost use Rattle.k8s_meta.specs.Spots.{Reads, seen};
ghost use Rattle.policy_objects.specs.References.{core_kind, gateway_kind, is_single, linkerd_kind, ref_at, ref_kind, single};
ghost use Rattle.view_types.specs.Lawful.{count_of, gives_clients, gives_networks};

use k8s_meta::fault::{ReadFault, What};
use k8s_meta::key::Key;
use k8s_meta::place::Place;
use k8s_meta::reader::Reader;
use k8s_meta::words::{AnyText, Name, Namespace};
use mesh_base::list::List;
use mesh_text::group::is_core;
use view_types::authn::{Ref, RefKind};

/// A reference to another object.
pub struct Reference;

impl Reader for Reference {
    type Made = Ref;

    ghost reading = { λ _. ref_at };

    #[tactic(auto, unfolding(k8s_meta::specs::Spots::then, crate::specs::References::ref_at))]
    fn read<'a>(&self, place: &'a Place<'a>) -> Result<Ref, ReadFault> {
        place.object()?;
        let group = place.str_or(Key::Group, "")?;
        let kind = place.required(Key::Kind, &AnyText)?;
        let name = place.required(Key::Name, &Name)?;
        let ns = place.optional(Key::Namespace, &Namespace)?;
        Ok(Ref {
            kind: ref_kind(group, kind.as_str()),
            ns,
            name,
        })
    }
}

fn ref_kind(group: &str, kind: &str) -> RefKind
    ensures { result ≡ ref_kind group.now kind.now }
{
    if group == "policy.linkerd.io" {
        linkerd_kind(kind)
    } else if group == "gateway.networking.k8s.io" {
        gateway_kind(kind)
    } else if is_core(group) {
        core_kind(kind)
    } else {
        RefKind::Other
    }
}

fn linkerd_kind(kind: &str) -> RefKind
    ensures { result ≡ linkerd_kind kind.now }
{
    if kind == "Server" {
        RefKind::Server
    } else if kind == "HTTPRoute" {
        RefKind::LinkerdRoute
    } else if kind == "MeshTLSAuthentication" {
        RefKind::MeshAuthn
    } else if kind == "NetworkAuthentication" {
        RefKind::NetAuthn
    } else {
        RefKind::Other
    }
}

fn gateway_kind(kind: &str) -> RefKind
    ensures { result ≡ gateway_kind kind.now }
{
    if kind == "HTTPRoute" {
        RefKind::GatewayRoute
    } else {
        RefKind::Other
    }
}

fn core_kind(kind: &str) -> RefKind
    ensures { result ≡ core_kind kind.now }
{
    if kind == "Namespace" {
        RefKind::Namespace
    } else if kind == "ServiceAccount" {
        RefKind::ServiceAccount
    } else {
        RefKind::Other
    }
}

/// Returns the references, if at most one is to networks and at most one to clients. The place is
/// that of their list.
pub fn single<'a>(place: &'a Place<'a>, needs: List<Ref>) -> Result<List<Ref>, ReadFault>
    ensures { Reads result (single (seen place.now).at needs) }
{
    if is_single(needs.as_slice()) {
        Ok(needs)
    } else {
        Err(place.bad_value(What::TwoReferences))
    }
}

fn is_single(needs: &[Ref]) -> bool
    ensures { result ≡ is_single needs.now }
{
    network_count(needs) <= 1 && client_count(needs) <= 1
}

fn network_count(needs: &[Ref]) -> usize
    ensures { result ≡ count_of gives_networks needs.now }
{
    needs
        .iter()
        .filter(|need| gives_networks(need.kind))
        .count()
}

fn client_count(needs: &[Ref]) -> usize
    ensures { result ≡ count_of gives_clients needs.now }
{
    needs.iter().filter(|need| gives_clients(need.kind)).count()
}

fn gives_networks(kind: RefKind) -> bool
    ensures { result ≡ gives_networks kind }
{
    matches!(kind, RefKind::NetAuthn)
}

fn gives_clients(kind: RefKind) -> bool
    ensures { result ≡ gives_clients kind }
{
    matches!(kind, RefKind::MeshAuthn | RefKind::ServiceAccount)
}
