// Marks in words.
use mesh_base::key::Kind;
use mesh_base::text::Text;
use net_cidr::ip::Ip;
use net_cidr::packed_ip::PackedIp;
use row_file::TrialFault;
use std::alloc::Global;
use view_types::authn::RefKind;
use view_types::mark::Mark;
use view_types::route::ParentKind;

fn kind_name(kind: Kind) -> &'static str {
    match kind {
        Kind::Pod => "Pod",
        Kind::Service => "Service",
        Kind::ServiceProfile => "ServiceProfile",
        Kind::Server => "Server",
        Kind::MeshTLSAuthentication => "MeshTLSAuthentication",
        Kind::NetworkAuthentication => "NetworkAuthentication",
        _ => "?",
    }
}

fn target_name(kind: RefKind) -> &'static str {
    match kind {
        RefKind::Server => "Server",
        RefKind::LinkerdRoute => "LinkerdRoute",
        RefKind::GatewayRoute => "GatewayRoute",
        RefKind::Namespace => "Namespace",
        _ => "?",
    }
}

fn parent_name(kind: ParentKind) -> &'static str {
    match kind {
        ParentKind::Server => "Server",
        ParentKind::Service => "Service",
    }
}

fn push_ip(ip: PackedIp, out: &mut String) -> Result<(), TrialFault> {
    match ip.get() {
        Ip::V4(n) => {
            let (a, b, c, d) = (n >> 24, n >> 16 & 255, n >> 8 & 255, n & 255);
            Ok(writeln!(out, "{a}.{b}.{c}.{d}")?)
        }
        Ip::V6(_) => Err(TrialFault::new("no row has an IPv6 address")),
    }
}

// Writes a namespace and a name.
fn push_name(ns: &Text, name: &Text, out: &mut String) -> Result<(), TrialFault> {
    Ok(writeln!(out, " {}/{}", ns.as_str(), name.as_str())?)
}

/// Writes a mark and a line feed.
pub(crate) fn push_mark(mark: &Mark, out: &mut String) -> Result<(), TrialFault> {
    match mark {
        Mark::Obj(key) => {
            out.push_str(kind_name(key.kind))?;
            push_name(&key.ns, &key.name, out)
        }
        Mark::SlicesOf(ns, name) => {
            out.push_str("SlicesOf")?;
            push_name(ns, name, out)
        }
        Mark::ServersIn(ns) => Ok(writeln!(out, "ServersIn {}", ns.as_str())?),
        Mark::ServerAuthzIn(ns) => Ok(writeln!(out, "ServerAuthzIn {}", ns.as_str())?),
        Mark::PolicyOn(ns, kind, name) => {
            write!(out, "PolicyOn {}", target_name(*kind))?;
            push_name(ns, name, out)
        }
        Mark::RouteOn(ns, kind, name) => {
            write!(out, "RouteOn {}", parent_name(*kind))?;
            push_name(ns, name, out)
        }
        Mark::IpService(ip) => {
            out.push_str("IpService ")?;
            push_ip(*ip, out)
        }
        Mark::IpPod(ip) => {
            out.push_str("IpPod ")?;
            push_ip(*ip, out)
        }
    }
}
