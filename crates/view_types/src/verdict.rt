ghost use Rattle.std.specs.Prelude.{◌≡◌, IfOk};

use crate::policy::Policy;
use crate::server_view::AuthzKind;
use mesh_base::copied::Copied;
use mesh_base::memory::Memory;
use mesh_base::text::Text;
use std::alloc::Global;

/// What decided a request.
#[derive(Drop)]
pub enum Decider {
    /// An authorization in the Server's namespace, by its name.
    Authz { kind: AuthzKind, name: Text },
    /// The effective policy.
    Default(Policy),
    /// A probe of the Pod, by the index of its path among the distinct paths of the Pod's probes on
    /// the port in byte order.
    Probe { place: u64 },
}

/// The verdict on a request to a port of a Pod.
#[derive(Drop)]
pub enum Verdict {
    Allowed(Decider),
    /// No authorization admits the client; the decider is the effective policy.
    Denied(Decider),
    /// The Server has routes, and none matches.
    NotFound,
    /// There is no such Pod.
    NoWorkload,
}

impl Copied for Decider {
    fn copy(&self, _alloc: Global) -> Result<Decider, Memory> {
        match self {
            Decider::Authz { kind, name } => Ok(Decider::Authz {
                kind: *kind,
                name: name.copy()?,
            }),
            Decider::Default(policy) => Ok(Decider::Default(*policy)),
            Decider::Probe { place } => Ok(Decider::Probe { place: *place }),
        }
    }
}

impl Copied for Verdict {
    fn copy(&self, alloc: Global) -> Result<Verdict, Memory> {
        match self {
            Verdict::Allowed(decider) => Ok(Verdict::Allowed(decider.copy(alloc)?)),
            Verdict::Denied(decider) => Ok(Verdict::Denied(decider.copy(alloc)?)),
            Verdict::NotFound => Ok(Verdict::NotFound),
            Verdict::NoWorkload => Ok(Verdict::NoWorkload),
        }
    }
}
