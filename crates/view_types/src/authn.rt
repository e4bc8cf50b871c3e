ghost use Rattle.std.specs.Prelude.{◌≡◌, IfOk};

use k8s_meta::meta::Meta;
use label_select::selector::Selector;
use mesh_base::copied::Copied;
use mesh_base::list::List;
use mesh_base::memory::Memory;
use mesh_base::text::Text;
use net_cidr::block::Block;
use std::alloc::Global;

/// The Servers that a ServerAuthorization applies to.
#[derive(Drop)]
pub enum ServerRef {
    Named(Text),
    Chosen(Selector),
}

/// An identity, as written in an object.
#[derive(Drop)]
pub enum IdSpec {
    /// An identity, `*`, or `*` and a suffix.
    Written(Text),
    /// A service account.
    Account { ns: Text, name: Text },
    /// All service accounts of a namespace.
    Namespace(Text),
}

/// The clients that a ServerAuthorization admits.
#[derive(Drop)]
pub enum AuthnSpec {
    Anyone,
    AnyTls,
    Clients(List<IdSpec>),
}

/// A ServerAuthorization, policy.linkerd.io/v1beta1.
#[derive(Drop)]
pub struct ServerAuthz {
    pub meta: Meta,
    pub server: ServerRef,
    pub blocks: List<Block>,
    pub authn: AuthnSpec,
}

/// The kind of object that a reference refers to.
#[derive(Clone, Copy, PartialEq, Eq, PartialOrd, Ord, Hash)]
pub enum RefKind {
    Server,
    LinkerdRoute,
    GatewayRoute,
    Namespace,
    ServiceAccount,
    MeshAuthn,
    NetAuthn,
    Other,
}

/// A reference to another object. The default namespace is that of the object itself.
#[derive(Drop)]
pub struct Ref {
    pub kind: RefKind,
    pub ns: Option<Text>,
    pub name: Text,
}

/// An AuthorizationPolicy, policy.linkerd.io/v1alpha1.
#[derive(Drop)]
pub struct AuthzPolicy {
    pub meta: Meta,
    pub target: Ref,
    pub needs: List<Ref>,
}

/// A MeshTLSAuthentication, policy.linkerd.io/v1alpha1.
#[derive(Drop)]
pub struct MeshAuthn {
    pub meta: Meta,
    pub ids: List<IdSpec>,
}

/// A NetworkAuthentication, policy.linkerd.io/v1alpha1.
#[derive(Drop)]
pub struct NetAuthn {
    pub meta: Meta,
    pub blocks: List<Block>,
}

impl Copied for ServerRef {
    fn copy(&self, alloc: Global) -> Result<ServerRef, Memory> {
        match self {
            ServerRef::Named(text) => Ok(ServerRef::Named(text.copy()?)),
            ServerRef::Chosen(selector) => Ok(ServerRef::Chosen(selector.copy(alloc)?)),
        }
    }
}

impl Copied for IdSpec {
    fn copy(&self, _alloc: Global) -> Result<IdSpec, Memory> {
        match self {
            IdSpec::Written(text) => Ok(IdSpec::Written(text.copy()?)),
            IdSpec::Account { ns, name } => Ok(IdSpec::Account {
                ns: ns.copy()?,
                name: name.copy()?,
            }),
            IdSpec::Namespace(text) => Ok(IdSpec::Namespace(text.copy()?)),
        }
    }
}

impl Copied for AuthnSpec {
    fn copy(&self, alloc: Global) -> Result<AuthnSpec, Memory> {
        match self {
            AuthnSpec::Anyone => Ok(AuthnSpec::Anyone),
            AuthnSpec::AnyTls => Ok(AuthnSpec::AnyTls),
            AuthnSpec::Clients(list) => Ok(AuthnSpec::Clients(list.copy(alloc)?)),
        }
    }
}

impl Copied for ServerAuthz {
    fn copy(&self, alloc: Global) -> Result<ServerAuthz, Memory> {
        Ok(ServerAuthz {
            meta: self.meta.copy(alloc)?,
            server: self.server.copy(alloc)?,
            blocks: self.blocks.copy(alloc)?,
            authn: self.authn.copy(alloc)?,
        })
    }
}

impl Copied for Ref {
    fn copy(&self, alloc: Global) -> Result<Ref, Memory> {
        Ok(Ref {
            kind: self.kind,
            ns: self.ns.copy(alloc)?,
            name: self.name.copy()?,
        })
    }
}

impl Copied for AuthzPolicy {
    fn copy(&self, alloc: Global) -> Result<AuthzPolicy, Memory> {
        Ok(AuthzPolicy {
            meta: self.meta.copy(alloc)?,
            target: self.target.copy(alloc)?,
            needs: self.needs.copy(alloc)?,
        })
    }
}

impl Copied for MeshAuthn {
    fn copy(&self, alloc: Global) -> Result<MeshAuthn, Memory> {
        Ok(MeshAuthn {
            meta: self.meta.copy(alloc)?,
            ids: self.ids.copy(alloc)?,
        })
    }
}

impl Copied for NetAuthn {
    fn copy(&self, alloc: Global) -> Result<NetAuthn, Memory> {
        Ok(NetAuthn {
            meta: self.meta.copy(alloc)?,
            blocks: self.blocks.copy(alloc)?,
        })
    }
}
