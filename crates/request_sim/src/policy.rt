// The verdict by the policy in force, if no authorization admits the client and the request is no
// probe.
ghost use Rattle.std.specs.Prelude.{◌≡◌};
ghost use Rattle.std.specs.List.{list_any};
ghost use Rattle.request_rules.specs.Networks.{net_holds};
ghost use Rattle.request_rules.specs.Verdicts.{asks_routes, by_policy, has_identity, is_in_cluster, policy_admits};

use net_cidr::ip::Ip;
use net_cidr::net::Net;
use view_types::config::Config;
use view_types::policy::{Policy, Protocol};
use view_types::request::{ClientTls, Request};
use view_types::verdict::{Decider, Verdict};

/// Returns the verdict by the policy.
pub(crate) fn by_policy(config: &Config, request: &Request, policy: Policy) -> Verdict
    ensures { result ≡ by_policy config.now request.now policy }
{
    if policy_admits(config, request.client, &request.tls, policy) {
        Verdict::Allowed(Decider::Default(policy))
    } else {
        Verdict::Denied(Decider::Default(policy))
    }
}

fn policy_admits(config: &Config, ip: Ip, tls: &ClientTls, policy: Policy) -> bool
    ensures { result ≡ policy_admits config.now ip tls.now policy }
{
    match policy {
        Policy::AllUnauthenticated | Policy::Audit => true,
        Policy::AllAuthenticated => has_identity(tls),
        Policy::ClusterUnauthenticated => is_in_cluster(config, ip),
        Policy::ClusterAuthenticated => is_in_cluster(config, ip) && has_identity(tls),
        Policy::Deny => false,
    }
}

fn has_identity(tls: &ClientTls) -> bool
    ensures { result ≡ has_identity tls.now }
{
    matches!(tls, ClientTls::Identity(_))
}

/// Whether the address is in one of the configured cluster networks.
pub(crate) fn is_in_cluster(config: &Config, ip: Ip) -> bool
    ensures { result ≡ is_in_cluster config.now ip }
{
    any_net_holds(config.cluster_nets.as_slice(), ip)
}

fn any_net_holds(nets: &[Net], ip: Ip) -> bool
    ensures { result ≡ list_any (net_holds ip) nets.now }
{
    nets.iter().any(|net| net_holds(net, ip))
}

fn net_holds(net: &Net, ip: Ip) -> bool
    ensures { result ≡ net_holds ip net.now }
{
    net.holds(ip)
}

/// Whether routes are used with this protocol.
pub(crate) fn asks_routes(protocol: Protocol) -> bool
    ensures { result ≡ asks_routes protocol }
{
    match protocol {
        Protocol::Opaque | Protocol::Tls => false,
        _ => true,
    }
}
