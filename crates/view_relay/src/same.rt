// Whether two queries are the same.
ghost use Rattle.std.specs.Prelude.{◌≡◌, bytes_eq};
ghost use Rattle.std.specs.Ordering.{eq_by_cmp};
ghost use Rattle.net_cidr.specs.Address.{ip_cmp};
ghost use Rattle.view_rules.specs.Same.{same_option};
ghost use Rattle.view_relay.specs.SameQuery.{same_context, same_query, same_target};

use mesh_base::text::Text;
use net_cidr::ip::compare_ips;
use net_cidr::packed_ip::PackedIp;
use view_types::query::{Context, Query, Target};

fn same_text(a: &Text, b: &Text) -> bool
    ensures { result ≡ bytes_eq a.now b.now }
{
    a.as_bytes() == b.as_bytes()
}

fn same_optional(a: &Option<Text>, b: &Option<Text>) -> bool
    ensures { result ≡ same_option bytes_eq a.now b.now }
{
    match (a, b) {
        (Some(a), Some(b)) => same_text(a, b),
        (None, None) => true,
        _ => false,
    }
}

fn same_ip(a: PackedIp, b: PackedIp) -> bool
    ensures { result ≡ eq_by_cmp ip_cmp a b }
{
    compare_ips(a.get(), b.get()).is_eq()
}

fn same_context(a: &Context, b: &Context) -> bool
    ensures { result ≡ same_context a.now b.now }
{
    same_optional(&a.ns, &b.ns) && same_optional(&a.node, &b.node)
}

fn same_target(a: &Target, b: &Target) -> bool
    ensures { result ≡ same_target a.now b.now }
{
    match (a, b) {
        (
            Target::Service { ns, name, port },
            Target::Service {
                ns: other_ns,
                name: other_name,
                port: other_port,
            },
        ) => same_text(ns, other_ns) && same_text(name, other_name) && *port == *other_port,
        (
            Target::Address { ip, port },
            Target::Address {
                ip: other_ip,
                port: other_port,
            },
        ) => same_ip(*ip, *other_ip) && *port == *other_port,
        _ => false,
    }
}

/// Whether two queries are the same: the same method, target, port and context.
pub(crate) fn same_query(a: &Query, b: &Query) -> bool
    ensures { result ≡ same_query a.now b.now }
{
    match (a, b) {
        (
            Query::Get {
                ns,
                name,
                port,
                ctx,
            },
            Query::Get {
                ns: other_ns,
                name: other_name,
                port: other_port,
                ctx: other_ctx,
            },
        ) => {
            same_text(ns, other_ns)
                && same_text(name, other_name)
                && *port == *other_port
                && same_context(ctx, other_ctx)
        }
        (
            Query::Profile { target, ctx },
            Query::Profile {
                target: other_target,
                ctx: other_ctx,
            },
        ) => same_target(target, other_target) && same_context(ctx, other_ctx),
        (
            Query::Port { ns, pod, port },
            Query::Port {
                ns: other_ns,
                pod: other_pod,
                port: other_port,
            },
        ) => same_text(ns, other_ns) && same_text(pod, other_pod) && *port == *other_port,
        (
            Query::Traffic { target },
            Query::Traffic {
                target: other_target,
            },
        ) => same_target(target, other_target),
        (
            Query::PortRows { ns, pod, port },
            Query::PortRows {
                ns: other_ns,
                pod: other_pod,
                port: other_port,
            },
        ) => same_text(ns, other_ns) && same_text(pod, other_pod) && *port == *other_port,
        _ => false,
    }
}
