use super::{Page, Show};
use view_types::config::Config;
use view_types::mark::Mark;
use view_types::query::{Context, Query, Target};
use view_types::request::{ClientTls, HttpRequest, Request};

impl Show for Config {
    fn show(&self, page: &mut Page) {
        page.first("cluster_domain", &self.cluster_domain);
        page.next("trust_domain", &self.trust_domain);
        page.next("control_ns", &self.control_ns);
        page.next("cluster_nets", &self.cluster_nets);
        page.last("default_policy", &self.default_policy);
    }
}

impl Show for Target {
    fn show(&self, page: &mut Page) {
        match self {
            Target::Service { ns, name, port } => {
                page.first("ns", ns);
                page.next("name", name);
                page.last("port", port);
            }
            Target::Address { ip, port } => {
                page.first("ip", &ip.get());
                page.last("port", port);
            }
        }
    }
}

impl Show for Context {
    fn show(&self, page: &mut Page) {
        page.first("ns", &self.ns);
        page.last("node", &self.node);
    }
}

impl Show for Query {
    fn show(&self, page: &mut Page) {
        match self {
            Query::Get {
                ns,
                name,
                port,
                ctx,
            } => {
                page.put("Get");
                page.first("ns", ns);
                page.next("name", name);
                page.next("port", port);
                page.last("ctx", ctx);
            }
            Query::Profile { target, ctx } => {
                page.put("Profile");
                page.first("target", target);
                page.last("ctx", ctx);
            }
            Query::Port { ns, pod, port } => {
                page.put("Port");
                page.first("ns", ns);
                page.next("pod", pod);
                page.last("port", port);
            }
            Query::Traffic { target } => page.variant("Traffic", target),
            Query::PortRows { ns, pod, port } => {
                page.put("PortRows");
                page.first("ns", ns);
                page.next("pod", pod);
                page.last("port", port);
            }
        }
    }
}

impl Show for ClientTls {
    fn show(&self, page: &mut Page) {
        match self {
            ClientTls::Plain => page.put("Plain"),
            ClientTls::Anonymous => page.put("Anonymous"),
            ClientTls::Identity(name) => page.variant("Identity", name),
        }
    }
}

impl Show for HttpRequest {
    fn show(&self, page: &mut Page) {
        page.first("method", &self.method);
        page.next("path", &self.path);
        page.next("host", &self.host);
        page.next("query", &self.query);
        page.last("headers", &self.headers);
    }
}

impl Show for Request {
    fn show(&self, page: &mut Page) {
        page.first("ns", &self.ns);
        page.next("pod", &self.pod);
        page.next("port", &self.port);
        page.next("client", &self.client);
        page.next("tls", &self.tls);
        page.last("http", &self.http);
    }
}

impl Show for Mark {
    fn show(&self, page: &mut Page) {
        match self {
            Mark::Obj(key) => page.variant("Obj", key),
            Mark::SlicesOf(ns, service) => {
                page.put("SlicesOf");
                page.first("ns", ns);
                page.last("service", service);
            }
            Mark::ServersIn(ns) => page.variant("ServersIn", ns),
            Mark::ServerAuthzIn(ns) => page.variant("ServerAuthzIn", ns),
            Mark::PolicyOn(ns, kind, name) => {
                page.put("PolicyOn");
                page.first("ns", ns);
                page.next("kind", kind);
                page.last("name", name);
            }
            Mark::RouteOn(ns, kind, name) => {
                page.put("RouteOn");
                page.first("ns", ns);
                page.next("kind", kind);
                page.last("name", name);
            }
            Mark::IpService(ip) => page.variant("IpService", &ip.get()),
            Mark::IpPod(ip) => page.variant("IpPod", &ip.get()),
        }
    }
}
