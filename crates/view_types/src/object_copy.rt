ghost use Rattle.std.specs.Prelude.{◌≡◌, IfOk};

use crate::object::Object;
use mesh_base::copied::Copied;
use mesh_base::memory::Memory;
use std::alloc::Global;

impl Copied for Object {
    fn copy(&self, alloc: Global) -> Result<Object, Memory> {
        match self {
            Object::Pod(pod) => Ok(Object::Pod(pod.copy(alloc)?)),
            Object::Service(service) => Ok(Object::Service(service.copy(alloc)?)),
            Object::EndpointSlice(slice) => Ok(Object::EndpointSlice(slice.copy(alloc)?)),
            Object::ServiceProfile(profile) => Ok(Object::ServiceProfile(profile.copy(alloc)?)),
            Object::Server(server) => Ok(Object::Server(server.copy(alloc)?)),
            Object::ServerAuthorization(authz) => Ok(Object::ServerAuthorization(authz.copy(
                alloc,
            )?)),
            Object::AuthorizationPolicy(policy) => Ok(Object::AuthorizationPolicy(policy.copy(
                alloc,
            )?)),
            Object::MeshTLSAuthentication(authn) => Ok(Object::MeshTLSAuthentication(authn.copy(
                alloc,
            )?)),
            Object::NetworkAuthentication(authn) => Ok(Object::NetworkAuthentication(authn.copy(
                alloc,
            )?)),
            Object::LinkerdRoute(route) => Ok(Object::LinkerdRoute(route.copy(alloc)?)),
            Object::GatewayRoute(route) => Ok(Object::GatewayRoute(route.copy(alloc)?)),
        }
    }
}
