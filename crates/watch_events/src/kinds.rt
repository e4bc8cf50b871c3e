ghost use Rattle.std.specs.Prelude.{◌≡◌};
ghost use Rattle.std.specs.Str.{bytes_eq};
ghost use Rattle.k8s_meta.specs.Spots.{seen};
ghost use Rattle.watch_events.specs.Given.{Gives};
ghost use Rattle.watch_events.specs.Kinds.{group_in, group_of, kind_named, policy_kind, text_or_empty};
ghost use Rattle.watch_events.specs.Tables.{kind_of};

use crate::line::LineFault;
use crate::table::KindTable;
use k8s_meta::key::Key;
use k8s_meta::place::Place;
use mesh_base::key::Kind;
use mesh_base::pieces::cut;

fn is_bytes(found: &[u8], wanted: &[u8]) -> bool
    ensures { result ≡ bytes_eq found.now wanted.now }
{
    found == wanted
}

#[tactic(auto, using(crate::proofs::Groups::group_first), unfolding(crate::specs::Kinds::group_in))]
fn group_in(version: &str) -> &[u8]
    ensures { result.now ≡ group_in version.now }
{
    match cut(version.as_bytes(), b'/') {
        None => b"",
        Some((group, _)) => group,
    }
}

/// Returns the string at a place, or the empty string if there is none.
pub fn text_or_empty<'a>(place: &Place<'a>) -> &'a str
    ensures { result.now ≡ text_or_empty (seen place.now) }
{
    match place.as_text() {
        Some(text) => text,
        None => "",
    }
}

#[tactic(auto, unfolding(crate::specs::Kinds::group_of))]
fn group_of<'a>(place: &'a Place<'a>) -> &'a [u8]
    ensures { result.now ≡ group_of (seen place.now) }
{
    group_in(text_or_empty(&place.member(Key::ApiVersion)))
}

#[tactic(auto, unfolding(crate::specs::Kinds::policy_kind))]
fn policy_kind(kind: &[u8]) -> Option<Kind>
    ensures { result ≡ policy_kind kind.now }
{
    if is_bytes(kind, b"Server") {
        Some(Kind::Server)
    } else if is_bytes(kind, b"ServerAuthorization") {
        Some(Kind::ServerAuthorization)
    } else if is_bytes(kind, b"AuthorizationPolicy") {
        Some(Kind::AuthorizationPolicy)
    } else if is_bytes(kind, b"MeshTLSAuthentication") {
        Some(Kind::MeshTLSAuthentication)
    } else if is_bytes(kind, b"NetworkAuthentication") {
        Some(Kind::NetworkAuthentication)
    } else if is_bytes(kind, b"HTTPRoute") {
        Some(Kind::LinkerdRoute)
    } else {
        None
    }
}

/// Returns the kind with this name in this API group.
#[tactic(auto, unfolding(crate::specs::Kinds::kind_named))]
pub fn kind_named(kind: &[u8], group: &[u8]) -> Option<Kind>
    ensures { result ≡ kind_named kind.now group.now }
{
    if is_bytes(group, b"policy.linkerd.io") {
        policy_kind(kind)
    } else if is_bytes(kind, b"Pod") && is_bytes(group, b"") {
        Some(Kind::Pod)
    } else if is_bytes(kind, b"Service") && is_bytes(group, b"") {
        Some(Kind::Service)
    } else if is_bytes(kind, b"EndpointSlice") && is_bytes(group, b"discovery.k8s.io") {
        Some(Kind::EndpointSlice)
    } else if is_bytes(kind, b"ServiceProfile") && is_bytes(group, b"linkerd.io") {
        Some(Kind::ServiceProfile)
    } else if is_bytes(kind, b"HTTPRoute") && is_bytes(group, b"gateway.networking.k8s.io") {
        Some(Kind::GatewayRoute)
    } else {
        None
    }
}

/// Returns the kind with this name in the group at the place.
#[tactic(auto, unfolding(crate::specs::Tables::kind_of))]
pub fn kind_of<'a, T: KindTable>(
    table: &T,
    name: &[u8],
    place: &'a Place<'a>,
) -> Result<T::Kind, LineFault>
    ensures { Gives result (kind_of (T.table table.now) name.now (seen place.now)) }
{
    match table.kind_named(name, group_of(place)) {
        None => Err(LineFault::UnknownKind),
        Some(kind) => Ok(kind),
    }
}
