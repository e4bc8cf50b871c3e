ghost use Rattle.std.specs.Prelude.{◌≡◌, IfOk, bytes_eq, option_map};
ghost use Rattle.k8s_meta.specs.Words.{string_in};
ghost use Rattle.k8s_meta.specs.Spots.{Reads, seen};
ghost use Rattle.watch_events.specs.SameKeys.{same_keys_is};
ghost use Rattle.grpc_feed.specs.FeedKinds.{feed_key_at, feed_kind_named, feed_kinds, feed_object_at, grpc_key_at, has_text, held_at, is_gateway_ref, is_gateway_route, is_lowered, is_lowered_name, is_of_grpc, is_policy, is_reserved_target, lowered_target, policy_at, policy_of, route_at};
ghost use Rattle.view_types.specs.Objects.{key_of};

use grpc_routes::lower::{lower, lowered_name};
use grpc_routes::read::{NAME_LENGTH, grpc_route_of};
use k8s_meta::fault::ReadFault;
use k8s_meta::key::Key;
use k8s_meta::place::Place;
use k8s_meta::words::{NameWithin, Namespace};
use mesh_base::boxed::Boxed;
use mesh_base::copied::Copied;
use mesh_base::key::{Kind, ObjKey};
use mesh_base::memory::Memory;
use policy_objects::authz_policy::authz_policy_of;
use std::alloc::Global;
use view_types::authn::{AuthzPolicy, Ref, RefKind};
use view_types::object::Object;
use watch_events::plain::PlainKinds;
use watch_events::table::KindTable;

/// The kind of an object in a feed with GRPCRoutes.
#[derive(Clone, Copy)]
pub enum FeedKind {
    GrpcRoute,
    /// A kind of objects that are held.
    Held(Kind),
}

/// An object that was read, as it is held.
#[derive(Drop)]
pub struct FeedObject {
    pub object: Object,
    /// It is an HTTPRoute with a name of a lowered GRPCRoute, or a policy for one.
    pub reserved: bool,
}

/// The kinds of objects in a feed with GRPCRoutes.
#[derive(Clone, Copy)]
pub struct FeedKinds;

impl KindTable for FeedKinds {
    type Kind = FeedKind;

    type Object = FeedObject;

    type Key = ObjKey;

    ghost table = { λ _. feed_kinds };

    fn kind_named(&self, name: &[u8], group: &[u8]) -> Option<FeedKind> {
        kind_named(name, group)
    }

    fn read_object<'a>(
        &self,
        kind: FeedKind,
        object: &'a Place<'a>,
    ) -> Result<FeedObject, ReadFault> {
        read_object(kind, object)
    }

    fn read_key<'a>(&self, kind: FeedKind, object: &'a Place<'a>) -> Result<ObjKey, ReadFault> {
        read_key(kind, object)
    }

    fn key(&self, alloc: Global, object: &FeedObject) -> Result<ObjKey, Memory> {
        object.object.key(alloc)
    }

    ghost same_keys = { λ _ a b. same_keys_is a b };
}

fn is_bytes(found: &[u8], wanted: &[u8]) -> bool
    ensures { result ≡ bytes_eq found.now wanted.now }
{
    found == wanted
}

#[tactic(auto, unfolding(crate::specs::FeedKinds::feed_kind_named))]
fn kind_named(name: &[u8], group: &[u8]) -> Option<FeedKind>
    ensures { result ≡ feed_kind_named name.now group.now }
{
    if is_bytes(name, b"GRPCRoute") && is_bytes(group, b"gateway.networking.k8s.io") {
        return Some(FeedKind::GrpcRoute);
    }
    match PlainKinds.kind_named(name, group) {
        Some(kind) => Some(FeedKind::Held(kind)),
        None => None,
    }
}

#[tactic(auto, unfolding(crate::specs::FeedKinds::feed_object_at))]
fn read_object<'a>(kind: FeedKind, object: &'a Place<'a>) -> Result<FeedObject, ReadFault>
    ensures { Reads result (feed_object_at kind (seen object.now)) }
{
    match kind {
        FeedKind::GrpcRoute => read_route(object),
        FeedKind::Held(kind) => {
            if is_policy(kind) {
                read_policy(object)
            } else {
                read_held(kind, object)
            }
        }
    }
}

fn is_policy(kind: Kind) -> bool
    ensures { result ≡ is_policy kind }
{
    matches!(kind, Kind::AuthorizationPolicy)
}

#[tactic(auto, unfolding(k8s_meta::specs::Spots::then, crate::specs::FeedKinds::route_at))]
fn read_route<'a>(object: &'a Place<'a>) -> Result<FeedObject, ReadFault>
    ensures { Reads result (route_at (seen object.now)) }
{
    let route = grpc_route_of(object)?;
    let alloc = object.alloc();
    let lowered = lower(alloc, &route)?;
    Ok(FeedObject {
        object: Object::GatewayRoute(Boxed::new(alloc, lowered)?),
        reserved: false,
    })
}

#[tactic(auto, unfolding(k8s_meta::specs::Spots::then, crate::specs::FeedKinds::held_at))]
fn read_held<'a>(kind: Kind, object: &'a Place<'a>) -> Result<FeedObject, ReadFault>
    ensures { Reads result (held_at kind (seen object.now)) }
{
    let object = PlainKinds.read_object(kind, object)?;
    let reserved = is_lowered_object(&object);
    Ok(FeedObject { object, reserved })
}

/// Returns whether the object is a lowered route.
pub fn is_lowered_object(object: &Object) -> bool
    ensures { result ≡ is_lowered (key_of object.now) }
{
    is_gateway_route(object.kind()) && is_lowered_name(object.meta().name.as_str())
}

/// Returns whether the kind is that of lowered routes.
pub fn is_gateway_route(kind: Kind) -> bool
    ensures { result ≡ is_gateway_route kind }
{
    matches!(kind, Kind::GatewayRoute)
}

/// Returns whether the key is that of a lowered route.
pub fn is_lowered(key: &ObjKey) -> bool
    ensures { result ≡ is_lowered key.now }
{
    is_gateway_route(key.kind) && is_lowered_name(key.name.as_str())
}

fn is_lowered_name(name: &str) -> bool
    ensures { result ≡ is_lowered_name name.now }
{
    name.as_bytes().ends_with(b".grpc")
}

#[tactic(auto, unfolding(k8s_meta::specs::Spots::then, crate::specs::FeedKinds::policy_at))]
fn read_policy<'a>(object: &'a Place<'a>) -> Result<FeedObject, ReadFault>
    ensures { Reads result (policy_at (seen object.now)) }
{
    let policy = authz_policy_of(object)?;
    let of_grpc = is_of_grpc(object);
    Ok(as_held(object.alloc(), of_grpc, policy)?)
}

fn as_held(alloc: Global, of_grpc: bool, policy: AuthzPolicy) -> Result<FeedObject, Memory>
    ensures { IfOk result (λ made. made ≡ policy_of of_grpc policy) }
{
    let mut policy = policy;
    let reserved = if of_grpc {
        policy.target = lowered_target(alloc, &policy.target)?;
        false
    } else {
        is_reserved_target(&policy.target)
    };
    Ok(FeedObject {
        object: Object::AuthorizationPolicy(Boxed::new(alloc, policy)?),
        reserved,
    })
}

fn is_of_grpc<'a>(policy: &'a Place<'a>) -> bool
    ensures { result ≡ is_of_grpc (seen policy.now) }
{
    let spec = policy.member(Key::Spec);
    let target = spec.member(Key::TargetRef);
    has_text(&target.member(Key::Kind), "GRPCRoute")
        && has_text(&target.member(Key::Group), "gateway.networking.k8s.io")
}

fn has_text<'a>(place: &'a Place<'a>, wanted: &str) -> bool
    ensures { result ≡ has_text wanted.now (string_in (seen place.now).value) }
{
    match place.as_text() {
        Some(text) => text == wanted,
        None => false,
    }
}

fn is_reserved_target(target: &Ref) -> bool
    ensures { result ≡ is_reserved_target target.now }
{
    matches!(target.kind, RefKind::GatewayRoute) && is_lowered_name(target.name.as_str())
}

fn lowered_target(alloc: Global, target: &Ref) -> Result<Ref, Memory>
    ensures { IfOk result (λ made. made ≡ lowered_target target.now) }
{
    Ok(Ref {
        kind: RefKind::GatewayRoute,
        ns: target.ns.copy(alloc)?,
        name: lowered_name(alloc, target.name.as_str())?,
    })
}

#[tactic(auto, unfolding(crate::specs::FeedKinds::feed_key_at))]
fn read_key<'a>(kind: FeedKind, object: &'a Place<'a>) -> Result<ObjKey, ReadFault>
    ensures { Reads result (feed_key_at kind (seen object.now)) }
{
    match kind {
        FeedKind::GrpcRoute => read_grpc_key(object),
        FeedKind::Held(kind) => PlainKinds.read_key(kind, object),
    }
}

#[tactic(auto, unfolding(k8s_meta::specs::Spots::then, crate::specs::FeedKinds::grpc_key_at))]
fn read_grpc_key<'a>(object: &'a Place<'a>) -> Result<ObjKey, ReadFault>
    ensures { Reads result (grpc_key_at (seen object.now)) }
{
    object.object()?;
    let metadata = object.part(Key::Metadata)?;
    let name = metadata.required(Key::Name, &NameWithin { most: NAME_LENGTH })?;
    let ns = metadata.text_or(Key::Namespace, &Namespace, "default")?;
    Ok(ObjKey {
        kind: Kind::GatewayRoute,
        ns,
        name: lowered_name(object.alloc(), name.as_str())?,
    })
}
