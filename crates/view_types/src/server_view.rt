ghost use Rattle.std.specs.Prelude.{◌≡◌, ◌↔◌, IfOk, IsTrue};
ghost use Rattle.view_types.specs.Numbers.{authz_number};

use crate::policy::{Policy, Protocol};
use crate::route::{Filter, HttpMatch};
use mesh_base::copied::Copied;
use mesh_base::key::Kind;
use mesh_base::list::List;
use mesh_base::memory::Memory;
use mesh_base::same::Same;
use mesh_base::text::Text;
use net_cidr::block::Block;
use std::alloc::Global;

/// The kind of an authorization.
#[derive(Clone, Copy, PartialEq, Eq)]
pub enum AuthzKind {
    ServerAuthorization,
    AuthorizationPolicy,
}

/// The clients that an authorization admits.
#[derive(Drop)]
pub enum Authn {
    Anyone,
    AnyTls,
    /// Identities and suffixes in byte order, each once.
    Clients {
        ids: List<Text>,
        suffixes: List<Text>,
        everyone: bool,
    },
}

/// An authorization in a view.
pub struct AuthzRow {
    pub kind: AuthzKind,
    pub name: Text,
    pub blocks: List<Block>,
    pub authn: Authn,
}

/// Written by hand, as that of `Text`.
impl Drop for AuthzRow {
    fn drop(self) {
        let AuthzRow {
            kind: _kind,
            name: _name,
            blocks: _blocks,
            authn: _authn,
        } = self;
    }
}

/// A backend in a view.
pub struct BackendRow {
    pub ns: Text,
    pub name: Text,
    pub port: u16,
    pub weight: u32,
    /// Whether it is not a Service, or the Service is not held.
    pub missing: bool,
}

/// Written by hand, as that of `Text`.
impl Drop for BackendRow {
    fn drop(self) {
        let BackendRow {
            ns: _ns,
            name: _name,
            port: _,
            weight: _,
            missing: _,
        } = self;
    }
}

/// A rule in a view.
pub struct RuleRow {
    pub matches: List<HttpMatch>,
    pub filters: List<Filter>,
    pub backends: List<BackendRow>,
    /// In nanoseconds, below 2^63.
    pub request_timeout: Option<u64>,
    /// In nanoseconds, below 2^63.
    pub backend_timeout: Option<u64>,
}

/// Written by hand, as that of `Text`.
impl Drop for RuleRow {
    fn drop(self) {
        let RuleRow {
            matches: _matches,
            filters: _filters,
            backends: _backends,
            request_timeout: _request_timeout,
            backend_timeout: _backend_timeout,
        } = self;
    }
}

/// A route in a view.
pub struct RouteRow {
    pub kind: Kind,
    pub name: Text,
    pub created: Option<Text>,
    pub hosts: List<Text>,
    pub rules: List<RuleRow>,
    pub authz: List<AuthzRow>,
}

/// Written by hand, as that of `Text`.
impl Drop for RouteRow {
    fn drop(self) {
        let RouteRow {
            kind: _,
            name: _name,
            created: _created,
            hosts: _hosts,
            rules: _rules,
            authz: _authz,
        } = self;
    }
}

/// The policy of a port of a Pod.
#[derive(Drop)]
pub struct ServerRow {
    pub protocol: Protocol,
    pub policy: Policy,
    /// The name of the Server, if there is one.
    pub server: Option<Text>,
    pub authz: List<AuthzRow>,
    pub routes: List<RouteRow>,
    /// The paths of the Pod's probes on the port, in byte order, each once. Empty if there are
    /// routes.
    pub probes: List<Text>,
}

/// The inbound view of a port of a Pod.
#[derive(Drop)]
pub enum ServerView {
    Absent,
    Present(ServerRow),
}

impl AuthzKind {
    /// Returns its number among the kinds, from 1.
    pub fn number(self) -> u8
        ensures { result ≡ authz_number self }
    {
        match self {
            AuthzKind::ServerAuthorization => 1,
            AuthzKind::AuthorizationPolicy => 2,
        }
    }
}

impl Copied for AuthzKind {
    fn copy(&self, _alloc: Global) -> Result<AuthzKind, Memory> {
        Ok(*self)
    }
}

impl Same for AuthzKind {
    fn is_same(&self, other: &AuthzKind) -> bool {
        *self == *other
    }
}

impl Copied for Authn {
    fn copy(&self, alloc: Global) -> Result<Authn, Memory> {
        match self {
            Authn::Anyone => Ok(Authn::Anyone),
            Authn::AnyTls => Ok(Authn::AnyTls),
            Authn::Clients {
                ids,
                suffixes,
                everyone,
            } => Ok(Authn::Clients {
                ids: ids.copy(alloc)?,
                suffixes: suffixes.copy(alloc)?,
                everyone: *everyone,
            }),
        }
    }
}

impl Same for Authn {
    fn is_same(&self, other: &Authn) -> bool {
        match (self, other) {
            (Authn::Anyone, Authn::Anyone) => true,
            (Authn::AnyTls, Authn::AnyTls) => true,
            (
                Authn::Clients {
                    ids,
                    suffixes,
                    everyone,
                },
                Authn::Clients {
                    ids: other_ids,
                    suffixes: other_suffixes,
                    everyone: other_everyone,
                },
            ) => ids.is_same(other_ids)
                && suffixes.is_same(other_suffixes)
                && everyone.is_same(other_everyone),
            _ => false,
        }
    }
}

impl Copied for AuthzRow {
    fn copy(&self, alloc: Global) -> Result<AuthzRow, Memory> {
        Ok(AuthzRow {
            kind: self.kind,
            name: self.name.copy()?,
            blocks: self.blocks.copy(alloc)?,
            authn: self.authn.copy(alloc)?,
        })
    }
}

impl Same for AuthzRow {
    fn is_same(&self, other: &AuthzRow) -> bool {
        self.kind.is_same(&other.kind)
            && self.name.is_same(&other.name)
            && self.blocks.is_same(&other.blocks)
            && self.authn.is_same(&other.authn)
    }
}

impl Copied for BackendRow {
    fn copy(&self, _alloc: Global) -> Result<BackendRow, Memory> {
        Ok(BackendRow {
            ns: self.ns.copy()?,
            name: self.name.copy()?,
            port: self.port,
            weight: self.weight,
            missing: self.missing,
        })
    }
}

impl Same for BackendRow {
    fn is_same(&self, other: &BackendRow) -> bool {
        self.ns.is_same(&other.ns)
            && self.name.is_same(&other.name)
            && self.port.is_same(&other.port)
            && self.weight.is_same(&other.weight)
            && self.missing.is_same(&other.missing)
    }
}

impl Copied for RuleRow {
    fn copy(&self, alloc: Global) -> Result<RuleRow, Memory> {
        Ok(RuleRow {
            matches: self.matches.copy(alloc)?,
            filters: self.filters.copy(alloc)?,
            backends: self.backends.copy(alloc)?,
            request_timeout: self.request_timeout,
            backend_timeout: self.backend_timeout,
        })
    }
}

impl Same for RuleRow {
    fn is_same(&self, other: &RuleRow) -> bool {
        self.matches.is_same(&other.matches)
            && self.filters.is_same(&other.filters)
            && self.backends.is_same(&other.backends)
            && self.request_timeout.is_same(&other.request_timeout)
            && self.backend_timeout.is_same(&other.backend_timeout)
    }
}

impl Copied for RouteRow {
    fn copy(&self, alloc: Global) -> Result<RouteRow, Memory> {
        Ok(RouteRow {
            kind: self.kind,
            name: self.name.copy()?,
            created: self.created.copy(alloc)?,
            hosts: self.hosts.copy(alloc)?,
            rules: self.rules.copy(alloc)?,
            authz: self.authz.copy(alloc)?,
        })
    }
}

impl Same for RouteRow {
    fn is_same(&self, other: &RouteRow) -> bool {
        self.kind.is_same(&other.kind)
            && self.name.is_same(&other.name)
            && self.created.is_same(&other.created)
            && self.hosts.is_same(&other.hosts)
            && self.rules.is_same(&other.rules)
            && self.authz.is_same(&other.authz)
    }
}

impl Copied for ServerRow {
    fn copy(&self, alloc: Global) -> Result<ServerRow, Memory> {
        Ok(ServerRow {
            protocol: self.protocol,
            policy: self.policy,
            server: self.server.copy(alloc)?,
            authz: self.authz.copy(alloc)?,
            routes: self.routes.copy(alloc)?,
            probes: self.probes.copy(alloc)?,
        })
    }
}

impl Same for ServerRow {
    fn is_same(&self, other: &ServerRow) -> bool {
        self.protocol.is_same(&other.protocol)
            && self.policy.is_same(&other.policy)
            && self.server.is_same(&other.server)
            && self.authz.is_same(&other.authz)
            && self.routes.is_same(&other.routes)
            && self.probes.is_same(&other.probes)
    }
}

impl ServerRow {
    /// Whether the rows differ in the Server's own authorizations alone, or not at all.
    pub fn is_same_but_authz(&self, other: &ServerRow) -> bool
        ensures { IsTrue result ↔ (record (self.now) { authz = other.now.authz } ≡ other.now) }
    {
        self.protocol.is_same(&other.protocol)
            && self.policy.is_same(&other.policy)
            && self.server.is_same(&other.server)
            && self.routes.is_same(&other.routes)
            && self.probes.is_same(&other.probes)
    }
}

impl Copied for ServerView {
    fn copy(&self, alloc: Global) -> Result<ServerView, Memory> {
        match self {
            ServerView::Absent => Ok(ServerView::Absent),
            ServerView::Present(row) => Ok(ServerView::Present(row.copy(alloc)?)),
        }
    }
}

impl Same for ServerView {
    fn is_same(&self, other: &ServerView) -> bool {
        match (self, other) {
            (ServerView::Absent, ServerView::Absent) => true,
            (ServerView::Present(mine), ServerView::Present(others)) => mine.is_same(others),
            _ => false,
        }
    }
}
