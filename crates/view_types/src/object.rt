ghost use Rattle.std.specs.Prelude.{◌≡◌, IfOk};
ghost use Rattle.mesh_base.specs.KeyOrder.{key_cmp};
ghost use Rattle.view_types.specs.Objects.{key_of, kind_of, meta_of};

use crate::authn::{AuthzPolicy, MeshAuthn, NetAuthn, ServerAuthz};
use crate::pod::Pod;
use crate::profile::Profile;
use crate::route::Route;
use crate::server::ServerSpec;
use crate::service::Service;
use crate::slice::Slice;
use k8s_meta::meta::Meta;
use mesh_base::boxed::Boxed;
use mesh_base::copied::Copied;
use mesh_base::key::{Kind, ObjKey};
use mesh_base::memory::Memory;
use std::alloc::Global;
use std::cmp::Ordering;

/// An object of the cluster. Its contents are boxed, so that moving objects in a list is cheap.
pub enum Object {
    Pod(Boxed<Pod>),
    Service(Boxed<Service>),
    EndpointSlice(Boxed<Slice>),
    ServiceProfile(Boxed<Profile>),
    Server(Boxed<ServerSpec>),
    ServerAuthorization(Boxed<ServerAuthz>),
    AuthorizationPolicy(Boxed<AuthzPolicy>),
    MeshTLSAuthentication(Boxed<MeshAuthn>),
    NetworkAuthentication(Boxed<NetAuthn>),
    LinkerdRoute(Boxed<Route>),
    GatewayRoute(Boxed<Route>),
}

/// Written by hand, so that crates that drop objects need no proofs about their contents.
impl Drop for Object {
    fn drop(self) {
        match self {
            Object::Pod(_object) => {}
            Object::Service(_object) => {}
            Object::EndpointSlice(_object) => {}
            Object::ServiceProfile(_object) => {}
            Object::Server(_object) => {}
            Object::ServerAuthorization(_object) => {}
            Object::AuthorizationPolicy(_object) => {}
            Object::MeshTLSAuthentication(_object) => {}
            Object::NetworkAuthentication(_object) => {}
            Object::LinkerdRoute(_object) => {}
            Object::GatewayRoute(_object) => {}
        }
    }
}

impl Object {
    pub fn meta(&self) -> &Meta
        ensures { result.now ≡ meta_of self.now }
    {
        match self {
            Object::Pod(pod) => &pod.get().meta,
            Object::Service(service) => &service.get().meta,
            Object::EndpointSlice(slice) => &slice.get().meta,
            Object::ServiceProfile(profile) => &profile.get().meta,
            Object::Server(server) => &server.get().meta,
            Object::ServerAuthorization(authz) => &authz.get().meta,
            Object::AuthorizationPolicy(policy) => &policy.get().meta,
            Object::MeshTLSAuthentication(authn) => &authn.get().meta,
            Object::NetworkAuthentication(authn) => &authn.get().meta,
            Object::LinkerdRoute(route) => &route.get().meta,
            Object::GatewayRoute(route) => &route.get().meta,
        }
    }

    pub fn kind(&self) -> Kind
        ensures { result ≡ kind_of self.now }
    {
        match self {
            Object::Pod(_) => Kind::Pod,
            Object::Service(_) => Kind::Service,
            Object::EndpointSlice(_) => Kind::EndpointSlice,
            Object::ServiceProfile(_) => Kind::ServiceProfile,
            Object::Server(_) => Kind::Server,
            Object::ServerAuthorization(_) => Kind::ServerAuthorization,
            Object::AuthorizationPolicy(_) => Kind::AuthorizationPolicy,
            Object::MeshTLSAuthentication(_) => Kind::MeshTLSAuthentication,
            Object::NetworkAuthentication(_) => Kind::NetworkAuthentication,
            Object::LinkerdRoute(_) => Kind::LinkerdRoute,
            Object::GatewayRoute(_) => Kind::GatewayRoute,
        }
    }

    /// Returns the key of the object.
    pub fn key(&self, alloc: Global) -> Result<ObjKey, Memory>
        ensures { IfOk result (λ key. key ≡ key_of self.now) }
    {
        let meta = self.meta();
        Ok(ObjKey {
            kind: self.kind(),
            ns: meta.ns.copy()?,
            name: meta.name.copy()?,
        })
    }

    /// Compares the object's key with a key. Allocates nothing.
    pub fn compare_key(&self, key: &ObjKey) -> Ordering
        ensures { result ≡ key_cmp (key_of self.now) key.now }
    {
        let meta = self.meta();
        match self.kind().cmp(&key.kind) {
            Ordering::Equal => match meta.ns.cmp(&key.ns) {
                Ordering::Equal => meta.name.cmp(&key.name),
                other => other,
            },
            other => other,
        }
    }

    /// Compares the keys of two objects. Allocates nothing.
    pub fn compare_keys(&self, other: &Object) -> Ordering
        ensures { result ≡ key_cmp (key_of self.now) (key_of other.now) }
    {
        let mine = self.meta();
        let others = other.meta();
        match self.kind().cmp(&other.kind()) {
            Ordering::Equal => match mine.ns.cmp(&others.ns) {
                Ordering::Equal => mine.name.cmp(&others.name),
                unequal => unequal,
            },
            unequal => unequal,
        }
    }
}
