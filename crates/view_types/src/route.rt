ghost use Rattle.std.specs.Prelude.{◌≡◌, ◌↔◌, IfOk, IsTrue};

use k8s_meta::meta::Meta;
use mesh_base::copied::Copied;
use mesh_base::key::Kind;
use mesh_base::list::List;
use mesh_base::memory::Memory;
use mesh_base::same::Same;
use mesh_base::text::Text;
use std::alloc::Global;

/// The kinds of objects that a route may be attached to.
#[derive(Clone, Copy, PartialEq, Eq, PartialOrd, Ord, Hash)]
pub enum ParentKind {
    Server,
    Service,
}

/// An object that a route is attached to, in the route's own namespace.
#[derive(Drop)]
pub struct Parent {
    pub kind: ParentKind,
    pub name: Text,
    pub port: Option<u16>,
}

/// Which paths match.
#[derive(Drop)]
pub enum PathMatch {
    Exact(Text),
    Prefix(Text),
    Regex(Text),
}

/// Which headers or query parameters match.
#[derive(Drop)]
pub struct NameMatch {
    pub name: Text,
    pub value: Text,
    /// Whether the value is a regular expression.
    pub regex: bool,
}

/// Which requests match: those that match all parts.
pub struct HttpMatch {
    pub path: PathMatch,
    pub headers: List<NameMatch>,
    pub query: List<NameMatch>,
    pub method: Option<Text>,
}

/// Written by hand, as that of `Text`.
impl Drop for HttpMatch {
    fn drop(self) {
        let HttpMatch {
            path: _path,
            headers: _headers,
            query: _query,
            method: _method,
        } = self;
    }
}

/// A filter of requests. It is passed on, and has no effect here.
pub enum Filter {
    Headers {
        add: List<(Text, Text)>,
        set: List<(Text, Text)>,
        remove: List<Text>,
    },
    Redirect {
        scheme: Option<Text>,
        host: Option<Text>,
        port: Option<u16>,
        status: u16,
    },
}

/// Written by hand, as that of `Text`.
impl Drop for Filter {
    fn drop(self) {
        match self {
            Filter::Headers {
                add: _add,
                set: _set,
                remove: _remove,
            } => {}
            Filter::Redirect {
                scheme: _scheme,
                host: _host,
                port: _port,
                status: _status,
            } => {}
        }
    }
}

/// A destination of requests.
#[derive(Drop)]
pub struct BackendRef {
    /// Whether it refers to a Service.
    pub service: bool,
    pub ns: Text,
    pub name: Text,
    pub port: Option<u16>,
    pub weight: u32,
}

/// A rule of a route. Its matches are alternatives.
#[derive(Drop)]
pub struct Rule {
    pub matches: List<HttpMatch>,
    pub filters: List<Filter>,
    pub backends: List<BackendRef>,
    /// In nanoseconds, below 2^63.
    pub request_timeout: Option<u64>,
    /// In nanoseconds, below 2^63.
    pub backend_timeout: Option<u64>,
}

/// An HTTPRoute, of policy.linkerd.io or of gateway.networking.k8s.io.
#[derive(Drop)]
pub struct Route {
    /// One of the two kinds of routes.
    pub kind: Kind,
    pub meta: Meta,
    /// Those that are supported.
    pub parents: List<Parent>,
    pub hosts: List<Text>,
    pub rules: List<Rule>,
}

impl Copied for Parent {
    fn copy(&self, _alloc: Global) -> Result<Parent, Memory> {
        Ok(Parent {
            kind: self.kind,
            name: self.name.copy()?,
            port: self.port,
        })
    }
}

impl Copied for PathMatch {
    fn copy(&self, _alloc: Global) -> Result<PathMatch, Memory> {
        match self {
            PathMatch::Exact(text) => Ok(PathMatch::Exact(text.copy()?)),
            PathMatch::Prefix(text) => Ok(PathMatch::Prefix(text.copy()?)),
            PathMatch::Regex(text) => Ok(PathMatch::Regex(text.copy()?)),
        }
    }
}

impl Same for PathMatch {
    fn is_same(&self, other: &PathMatch) -> bool {
        match (self, other) {
            (PathMatch::Exact(mine), PathMatch::Exact(others)) => mine.is_same(others),
            (PathMatch::Prefix(mine), PathMatch::Prefix(others)) => mine.is_same(others),
            (PathMatch::Regex(mine), PathMatch::Regex(others)) => mine.is_same(others),
            _ => false,
        }
    }
}

impl Copied for NameMatch {
    fn copy(&self, _alloc: Global) -> Result<NameMatch, Memory> {
        Ok(NameMatch {
            name: self.name.copy()?,
            value: self.value.copy()?,
            regex: self.regex,
        })
    }
}

impl Same for NameMatch {
    fn is_same(&self, other: &NameMatch) -> bool {
        self.name.is_same(&other.name)
            && self.value.is_same(&other.value)
            && self.regex.is_same(&other.regex)
    }
}

impl Copied for HttpMatch {
    fn copy(&self, alloc: Global) -> Result<HttpMatch, Memory> {
        Ok(HttpMatch {
            path: self.path.copy(alloc)?,
            headers: self.headers.copy(alloc)?,
            query: self.query.copy(alloc)?,
            method: self.method.copy(alloc)?,
        })
    }
}

impl Same for HttpMatch {
    fn is_same(&self, other: &HttpMatch) -> bool {
        self.path.is_same(&other.path)
            && self.headers.is_same(&other.headers)
            && self.query.is_same(&other.query)
            && self.method.is_same(&other.method)
    }
}

impl Copied for Filter {
    fn copy(&self, alloc: Global) -> Result<Filter, Memory> {
        match self {
            Filter::Headers { add, set, remove } => Ok(Filter::Headers {
                add: add.copy(alloc)?,
                set: set.copy(alloc)?,
                remove: remove.copy(alloc)?,
            }),
            Filter::Redirect {
                scheme,
                host,
                port,
                status,
            } => Ok(Filter::Redirect {
                scheme: scheme.copy(alloc)?,
                host: host.copy(alloc)?,
                port: *port,
                status: *status,
            }),
        }
    }
}

impl Same for Filter {
    fn is_same(&self, other: &Filter) -> bool {
        match (self, other) {
            (
                Filter::Headers { add, set, remove },
                Filter::Headers {
                    add: other_add,
                    set: other_set,
                    remove: other_remove,
                },
            ) => add.is_same(other_add) && set.is_same(other_set) && remove.is_same(other_remove),
            (
                Filter::Redirect {
                    scheme,
                    host,
                    port,
                    status,
                },
                Filter::Redirect {
                    scheme: other_scheme,
                    host: other_host,
                    port: other_port,
                    status: other_status,
                },
            ) => scheme.is_same(other_scheme)
                && host.is_same(other_host)
                && port.is_same(other_port)
                && status.is_same(other_status),
            _ => false,
        }
    }
}

impl Copied for BackendRef {
    fn copy(&self, _alloc: Global) -> Result<BackendRef, Memory> {
        Ok(BackendRef {
            service: self.service,
            ns: self.ns.copy()?,
            name: self.name.copy()?,
            port: self.port,
            weight: self.weight,
        })
    }
}

impl Copied for Rule {
    fn copy(&self, alloc: Global) -> Result<Rule, Memory> {
        Ok(Rule {
            matches: self.matches.copy(alloc)?,
            filters: self.filters.copy(alloc)?,
            backends: self.backends.copy(alloc)?,
            request_timeout: self.request_timeout,
            backend_timeout: self.backend_timeout,
        })
    }
}

impl Copied for Route {
    fn copy(&self, alloc: Global) -> Result<Route, Memory> {
        Ok(Route {
            kind: self.kind,
            meta: self.meta.copy(alloc)?,
            parents: self.parents.copy(alloc)?,
            hosts: self.hosts.copy(alloc)?,
            rules: self.rules.copy(alloc)?,
        })
    }
}
