ghost use Rattle.std.specs.Prelude.{◌≡◌, IfOk};
ghost use Rattle.view_types.specs.Ports.{query_by_rows, query_whole};

use mesh_base::copied::Copied;
use mesh_base::memory::Memory;
use mesh_base::text::Text;
use net_cidr::packed_ip::PackedIp;
use std::alloc::Global;

/// The kinds of subscriptions of a proxy.
#[derive(Clone, Copy, PartialEq, Eq)]
pub enum Method {
    Get,
    GetProfile,
    WatchPort,
    Watch,
    /// As WatchPort, but later messages carry only what changes of a Server's authorizations.
    WatchPort2,
}

/// The target of traffic. A port is from 1 to 65535.
#[derive(Drop, PartialEq, Eq, PartialOrd, Ord, Hash)]
pub enum Target {
    Service { ns: Text, name: Text, port: u16 },
    Address { ip: PackedIp, port: u16 },
}

/// What a client declares about itself.
#[derive(Drop)]
pub struct Context {
    pub ns: Option<Text>,
    pub node: Option<Text>,
}

/// What a subscription requests.
pub enum Query {
    Get {
        ns: Text,
        name: Text,
        port: u16,
        ctx: Context,
    },
    Profile {
        target: Target,
        ctx: Context,
    },
    Port {
        ns: Text,
        pod: Text,
        port: u16,
    },
    Traffic {
        target: Target,
    },
    /// As Port, but later messages carry only what changes of a Server's authorizations.
    PortRows {
        ns: Text,
        pod: Text,
        port: u16,
    },
}

// Each subscription keeps its query, so the size of a query counts.
const _: () = prove!(size_of::<Query>() == 80);

/// A port of a Pod.
#[derive(Drop)]
pub struct PodPort {
    pub ns: Text,
    pub pod: Text,
    pub port: u16,
}

impl PodPort {
    /// Returns the query for its policy, which is always sent whole.
    pub fn whole(self) -> Query
        ensures { result ≡ query_whole self }
    {
        let PodPort { ns, pod, port } = self;
        Query::Port { ns, pod, port }
    }

    /// Returns the query for its policy, sent by what changes of a Server's authorizations.
    pub fn by_rows(self) -> Query
        ensures { result ≡ query_by_rows self }
    {
        let PodPort { ns, pod, port } = self;
        Query::PortRows { ns, pod, port }
    }
}

/// Written by hand, as that of `Object`.
impl Drop for Query {
    fn drop(self) {
        match self {
            Query::Get {
                ns: _ns,
                name: _name,
                port: _,
                ctx: _ctx,
            } => {}
            Query::Profile {
                target: _target,
                ctx: _ctx,
            } => {}
            Query::Port {
                ns: _ns,
                pod: _pod,
                port: _,
            } => {}
            Query::Traffic { target: _target } => {}
            Query::PortRows {
                ns: _ns,
                pod: _pod,
                port: _,
            } => {}
        }
    }
}

impl Copied for Target {
    fn copy(&self, _alloc: Global) -> Result<Target, Memory> {
        match self {
            Target::Service { ns, name, port } => Ok(Target::Service {
                ns: ns.copy()?,
                name: name.copy()?,
                port: *port,
            }),
            Target::Address { ip, port } => Ok(Target::Address {
                ip: *ip,
                port: *port,
            }),
        }
    }
}

impl Copied for Context {
    fn copy(&self, alloc: Global) -> Result<Context, Memory> {
        Ok(Context {
            ns: self.ns.copy(alloc)?,
            node: self.node.copy(alloc)?,
        })
    }
}

impl Copied for Query {
    fn copy(&self, alloc: Global) -> Result<Query, Memory> {
        match self {
            Query::Get {
                ns,
                name,
                port,
                ctx,
            } => Ok(Query::Get {
                ns: ns.copy()?,
                name: name.copy()?,
                port: *port,
                ctx: ctx.copy(alloc)?,
            }),
            Query::Profile { target, ctx } => Ok(Query::Profile {
                target: target.copy(alloc)?,
                ctx: ctx.copy(alloc)?,
            }),
            Query::Port { ns, pod, port } => Ok(Query::Port {
                ns: ns.copy()?,
                pod: pod.copy()?,
                port: *port,
            }),
            Query::Traffic { target } => Ok(Query::Traffic {
                target: target.copy(alloc)?,
            }),
            Query::PortRows { ns, pod, port } => Ok(Query::PortRows {
                ns: ns.copy()?,
                pod: pod.copy()?,
                port: *port,
            }),
        }
    }
}
