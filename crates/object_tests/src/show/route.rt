use super::{Page, Show};
use view_types::route::{
    BackendRef, Filter, HttpMatch, NameMatch, Parent, ParentKind, PathMatch, Route, Rule,
};

impl Show for ParentKind {
    fn show(&self, page: &mut Page) {
        page.put(match self {
            ParentKind::Server => "Server",
            ParentKind::Service => "Service",
        });
    }
}

impl Show for Parent {
    fn show(&self, page: &mut Page) {
        page.first("kind", &self.kind);
        page.next("name", &self.name);
        page.last("port", &self.port);
    }
}

impl Show for PathMatch {
    fn show(&self, page: &mut Page) {
        match self {
            PathMatch::Exact(path) => page.variant("Exact", path),
            PathMatch::Prefix(path) => page.variant("Prefix", path),
            PathMatch::Regex(regex) => page.variant("Regex", regex),
        }
    }
}

impl Show for NameMatch {
    fn show(&self, page: &mut Page) {
        page.first("name", &self.name);
        page.next("value", &self.value);
        page.last("regex", &self.regex);
    }
}

impl Show for HttpMatch {
    fn show(&self, page: &mut Page) {
        page.first("path", &self.path);
        page.next("headers", &self.headers);
        page.next("query", &self.query);
        page.last("method", &self.method);
    }
}

impl Show for Filter {
    fn show(&self, page: &mut Page) {
        match self {
            Filter::Headers { add, set, remove } => {
                page.put("Headers");
                page.first("add", add);
                page.next("set", set);
                page.last("remove", remove);
            }
            Filter::Redirect {
                scheme,
                host,
                port,
                status,
            } => {
                page.put("Redirect");
                page.first("scheme", scheme);
                page.next("host", host);
                page.next("port", port);
                page.last("status", status);
            }
        }
    }
}

impl Show for BackendRef {
    fn show(&self, page: &mut Page) {
        page.first("service", &self.service);
        page.next("ns", &self.ns);
        page.next("name", &self.name);
        page.next("port", &self.port);
        page.last("weight", &self.weight);
    }
}

impl Show for Rule {
    fn show(&self, page: &mut Page) {
        page.first("matches", &self.matches);
        page.next("filters", &self.filters);
        page.next("backends", &self.backends);
        page.next("request_timeout", &self.request_timeout);
        page.last("backend_timeout", &self.backend_timeout);
    }
}

impl Show for Route {
    fn show(&self, page: &mut Page) {
        page.first("kind", &self.kind);
        page.next("meta", &self.meta);
        page.next("parents", &self.parents);
        page.next("hosts", &self.hosts);
        page.last("rules", &self.rules);
    }
}
