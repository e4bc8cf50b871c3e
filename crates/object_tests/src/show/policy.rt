use super::{Page, Show};
use view_types::authn::{
    AuthnSpec, AuthzPolicy, IdSpec, MeshAuthn, NetAuthn, Ref, RefKind, ServerAuthz, ServerRef,
};
use view_types::policy::{Policy, Protocol};
use view_types::server::{PortRef, ServerSpec};

impl Show for Protocol {
    fn show(&self, page: &mut Page) {
        page.put(match self {
            Protocol::Unknown => "Unknown",
            Protocol::Http1 => "Http1",
            Protocol::Http2 => "Http2",
            Protocol::Grpc => "Grpc",
            Protocol::Opaque => "Opaque",
            Protocol::Tls => "Tls",
        });
    }
}

impl Show for Policy {
    fn show(&self, page: &mut Page) {
        page.put(match self {
            Policy::AllUnauthenticated => "AllUnauthenticated",
            Policy::AllAuthenticated => "AllAuthenticated",
            Policy::ClusterUnauthenticated => "ClusterUnauthenticated",
            Policy::ClusterAuthenticated => "ClusterAuthenticated",
            Policy::Deny => "Deny",
            Policy::Audit => "Audit",
        });
    }
}

impl Show for PortRef {
    fn show(&self, page: &mut Page) {
        match self {
            PortRef::Number(number) => number.show(page),
            PortRef::Named(name) => name.show(page),
        }
    }
}

impl Show for ServerSpec {
    fn show(&self, page: &mut Page) {
        page.first("meta", &self.meta);
        page.next("pods", &self.pods);
        page.next("port", &self.port);
        page.next("protocol", &self.protocol);
        page.last("policy", &self.policy);
    }
}

impl Show for ServerRef {
    fn show(&self, page: &mut Page) {
        match self {
            ServerRef::Named(name) => name.show(page),
            ServerRef::Chosen(selector) => selector.show(page),
        }
    }
}

impl Show for IdSpec {
    fn show(&self, page: &mut Page) {
        match self {
            IdSpec::Written(text) => text.show(page),
            IdSpec::Account { ns, name } => {
                page.put("Account");
                page.first("ns", ns);
                page.last("name", name);
            }
            IdSpec::Namespace(ns) => page.variant("Namespace", ns),
        }
    }
}

impl Show for AuthnSpec {
    fn show(&self, page: &mut Page) {
        match self {
            AuthnSpec::Anyone => page.put("Anyone"),
            AuthnSpec::AnyTls => page.put("AnyTls"),
            AuthnSpec::Clients(ids) => page.variant("Clients", ids),
        }
    }
}

impl Show for ServerAuthz {
    fn show(&self, page: &mut Page) {
        page.first("meta", &self.meta);
        page.next("server", &self.server);
        page.next("blocks", &self.blocks);
        page.last("authn", &self.authn);
    }
}

impl Show for RefKind {
    fn show(&self, page: &mut Page) {
        page.put(match self {
            RefKind::Server => "Server",
            RefKind::LinkerdRoute => "LinkerdRoute",
            RefKind::GatewayRoute => "GatewayRoute",
            RefKind::Namespace => "Namespace",
            RefKind::ServiceAccount => "ServiceAccount",
            RefKind::MeshAuthn => "MeshAuthn",
            RefKind::NetAuthn => "NetAuthn",
            RefKind::Other => "Other",
        });
    }
}

impl Show for Ref {
    fn show(&self, page: &mut Page) {
        page.first("kind", &self.kind);
        page.next("ns", &self.ns);
        page.last("name", &self.name);
    }
}

impl Show for AuthzPolicy {
    fn show(&self, page: &mut Page) {
        page.first("meta", &self.meta);
        page.next("target", &self.target);
        page.last("needs", &self.needs);
    }
}

impl Show for MeshAuthn {
    fn show(&self, page: &mut Page) {
        page.first("meta", &self.meta);
        page.last("ids", &self.ids);
    }
}

impl Show for NetAuthn {
    fn show(&self, page: &mut Page) {
        page.first("meta", &self.meta);
        page.last("blocks", &self.blocks);
    }
}
