use super::{Page, Show};
use view_types::object::Object;

/// As what it holds.
impl Show for Object {
    fn show(&self, page: &mut Page) {
        match self {
            Object::Pod(pod) => pod.show(page),
            Object::Service(service) => service.show(page),
            Object::EndpointSlice(slice) => slice.show(page),
            Object::ServiceProfile(profile) => profile.show(page),
            Object::Server(server) => server.show(page),
            Object::ServerAuthorization(authz) => authz.show(page),
            Object::AuthorizationPolicy(policy) => policy.show(page),
            Object::MeshTLSAuthentication(authn) => authn.show(page),
            Object::NetworkAuthentication(authn) => authn.show(page),
            Object::LinkerdRoute(route) => route.show(page),
            Object::GatewayRoute(route) => route.show(page),
        }
    }
}
