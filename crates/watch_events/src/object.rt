ghost use Rattle.k8s_meta.specs.Spots.{Reads, seen};
ghost use Rattle.watch_events.specs.Keys.{key_at};
ghost use Rattle.watch_events.specs.Objects.{object_at};

use k8s_core::pod::pod_of;
use k8s_core::service::service_of;
use k8s_core::slice::slice_of;
use k8s_meta::fault::ReadFault;
use k8s_meta::key::Key;
use k8s_meta::place::Place;
use k8s_meta::words::{Name, Namespace};
use mesh_base::boxed::Boxed;
use mesh_base::key::{Kind, ObjKey};
use policy_objects::authn::{mesh_authn_of, net_authn_of};
use policy_objects::authz_policy::authz_policy_of;
use policy_objects::server::server_of;
use policy_objects::server_authz::server_authz_of;
use profile_objects::profile::profile_of;
use route_objects::route::route_of;
use view_types::object::Object;

/// Reads the object at a place, as one of the kind.
#[tactic(auto, unfolding(k8s_meta::specs::Spots::then, crate::specs::Objects::object_at))]
pub fn read_object<'a>(kind: Kind, place: &'a Place<'a>) -> Result<Object, ReadFault>
    ensures { Reads result (object_at kind (seen place.now)) }
{
    let alloc = place.alloc();
    match kind {
        Kind::Pod => {
            let pod = pod_of(place)?;
            Ok(Object::Pod(Boxed::new(alloc, pod)?))
        }
        Kind::Service => {
            let service = service_of(place)?;
            Ok(Object::Service(Boxed::new(alloc, service)?))
        }
        Kind::EndpointSlice => {
            let slice = slice_of(place)?;
            Ok(Object::EndpointSlice(Boxed::new(alloc, slice)?))
        }
        Kind::ServiceProfile => {
            let profile = profile_of(place)?;
            Ok(Object::ServiceProfile(Boxed::new(alloc, profile)?))
        }
        Kind::Server => {
            let server = server_of(place)?;
            Ok(Object::Server(Boxed::new(alloc, server)?))
        }
        Kind::ServerAuthorization => {
            let authz = server_authz_of(place)?;
            Ok(Object::ServerAuthorization(Boxed::new(alloc, authz)?))
        }
        Kind::AuthorizationPolicy => {
            let policy = authz_policy_of(place)?;
            Ok(Object::AuthorizationPolicy(Boxed::new(alloc, policy)?))
        }
        Kind::MeshTLSAuthentication => {
            let authn = mesh_authn_of(place)?;
            Ok(Object::MeshTLSAuthentication(Boxed::new(alloc, authn)?))
        }
        Kind::NetworkAuthentication => {
            let authn = net_authn_of(place)?;
            Ok(Object::NetworkAuthentication(Boxed::new(alloc, authn)?))
        }
        Kind::LinkerdRoute => {
            let route = route_of(Kind::LinkerdRoute, place)?;
            Ok(Object::LinkerdRoute(Boxed::new(alloc, route)?))
        }
        Kind::GatewayRoute => {
            let route = route_of(Kind::GatewayRoute, place)?;
            Ok(Object::GatewayRoute(Boxed::new(alloc, route)?))
        }
    }
}

/// Reads the key of the object at a place: only its name and its namespace.
#[tactic(auto, unfolding(k8s_meta::specs::Spots::then, crate::specs::Keys::key_at))]
pub fn read_key<'a>(kind: Kind, object: &'a Place<'a>) -> Result<ObjKey, ReadFault>
    ensures { Reads result (key_at kind (seen object.now)) }
{
    object.object()?;
    let metadata = object.part(Key::Metadata)?;
    let name = metadata.required(Key::Name, &Name)?;
    let ns = metadata.text_or(Key::Namespace, &Namespace, "default")?;
    Ok(ObjKey { kind, ns, name })
}
