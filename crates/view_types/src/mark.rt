ghost use Rattle.std.specs.Prelude.{◌≡◌, IfOk};

use crate::authn::RefKind;
use crate::route::ParentKind;
use mesh_base::copied::Copied;
use mesh_base::key::ObjKey;
use mesh_base::memory::Memory;
use mesh_base::text::Text;
use net_cidr::packed_ip::PackedIp;
use std::alloc::Global;

/// What a change of an object affects, and what a view reads.
#[derive(PartialEq, Eq, PartialOrd, Ord, Hash)]
pub enum Mark {
    /// The object under a key.
    Obj(ObjKey),
    /// The EndpointSlices of a Service, by namespace and name.
    SlicesOf(Text, Text),
    /// The Servers of a namespace.
    ServersIn(Text),
    /// The ServerAuthorizations of a namespace.
    ServerAuthzIn(Text),
    /// The AuthorizationPolicies of a namespace with a target of this kind and name.
    PolicyOn(Text, RefKind, Text),
    /// The routes of a namespace with a parent of this kind and name.
    RouteOn(Text, ParentKind, Text),
    /// The Services at an address.
    IpService(PackedIp),
    /// The Pods at an address.
    IpPod(PackedIp),
}

// Each row keeps several marks, so their size counts.
const _: () = prove!(size_of::<Mark>() == 32);

/// Written by hand, as that of `Text`.
impl Drop for Mark {
    fn drop(self) {
        match self {
            Mark::Obj(_value) => {}
            Mark::SlicesOf(_a, _b) => {}
            Mark::ServersIn(_value) => {}
            Mark::ServerAuthzIn(_value) => {}
            Mark::PolicyOn(_a, _b, _c) => {}
            Mark::RouteOn(_a, _b, _c) => {}
            Mark::IpService(_value) => {}
            Mark::IpPod(_value) => {}
        }
    }
}

impl Copied for Mark {
    fn copy(&self, alloc: Global) -> Result<Mark, Memory> {
        match self {
            Mark::Obj(key) => Ok(Mark::Obj(key.copy(alloc)?)),
            Mark::SlicesOf(ns, service) => Ok(Mark::SlicesOf(ns.copy()?, service.copy()?)),
            Mark::ServersIn(text) => Ok(Mark::ServersIn(text.copy()?)),
            Mark::ServerAuthzIn(text) => Ok(Mark::ServerAuthzIn(text.copy()?)),
            Mark::PolicyOn(ns, kind, name) => Ok(Mark::PolicyOn(ns.copy()?, *kind, name.copy()?)),
            Mark::RouteOn(ns, kind, name) => Ok(Mark::RouteOn(ns.copy()?, *kind, name.copy()?)),
            Mark::IpService(ip) => Ok(Mark::IpService(*ip)),
            Mark::IpPod(ip) => Ok(Mark::IpPod(*ip)),
        }
    }
}
