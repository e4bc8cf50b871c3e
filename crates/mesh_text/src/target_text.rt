ghost use Rattle.std.specs.Prelude.{◌≡◌, ◌++◌, Some, None, codes, nat_eq, IfSome, IsTrue, MatchOption};
ghost use Rattle.std.specs.Cmp.Lexicographic.{pointwise};
ghost use Rattle.mesh_base.specs.Pieces.{pieces};
ghost use Rattle.net_cidr.specs.Address.{ip_of};
ghost use Rattle.mesh_text.specs.Answers.{Answers};
ghost use Rattle.k8s_meta.specs.Scalars.{is_name};
ghost use Rattle.mesh_text.specs.Targets.{bracketed, host_target, hosted, lowered_target, names_of, port_after, port_of, service_target, target_of};
ghost use Rattle.mesh_text.specs.declared.target_text.TargetFault.TheVariants as faults;

use crate::name::{is_dotless, name_text};
use mesh_base::memory;
use mesh_base::numeral::read_plain;
use mesh_base::pieces::cut;
use net_cidr::ip::{Ip, read_ip};
use net_cidr::packed_ip::PackedIp;
use std::alloc::{AllocError, Global};
use view_types::config::Config;
use view_types::query::Target;

/// Why a string is not a target or a workload.
#[derive(Clone, Copy, Debug, PartialEq, Eq)]
pub enum TargetFault {
    Memory,
    /// The string has another form, or a part of it is not a name, address or port.
    Bad,
}

impl From<memory::Memory> for TargetFault {
    ghost from_gives = { λ _ e. e ≡ faults.Memory };

    fn from(_e: memory::Memory) -> TargetFault {
        TargetFault::Memory
    }
}

impl From<AllocError> for TargetFault {
    ghost from_gives = { λ _ e. e ≡ faults.Memory };

    fn from(_e: AllocError) -> TargetFault {
        TargetFault::Memory
    }
}

/// Parses a target: `ip:port`, or `name.namespace.svc.` and the cluster's domain, with or without
/// `:port`. An IPv6 address is in brackets, letters may be in upper case, and the default port is
/// 80. Any other string is `Bad`.
#[tactic(auto, unfolding(crate::specs::Targets::target_of))]
pub fn read_target(alloc: Global, text: &[u8], config: &Config) -> Result<Target, TargetFault>
    ensures { Answers (target_of config.now text.now) result }
{
    let lowered = text.to_ascii_lowercase(alloc)?;
    read_lowered(alloc, lowered.as_slice(), config.cluster_domain.as_bytes())
}

fn read_lowered(alloc: Global, text: &[u8], domain: &[u8]) -> Result<Target, TargetFault>
    ensures { Answers (lowered_target domain.now text.now) result }
{
    let [first, rest @ ..] = text else {
        return Err(TargetFault::Bad);
    };
    if *first != b'[' {
        return read_hosted(alloc, text, domain);
    }
    match read_bracketed(rest) {
        Some(target) => Ok(target),
        None => Err(TargetFault::Bad),
    }
}

#[tactic(auto, using(crate::proofs::Pieces::bracketed_more))]
fn read_bracketed(text: &[u8]) -> Option<Target>
    ensures { result ≡ bracketed (pieces 93 text.now) }
{
    let (address, after) = cut(text, b']')?;
    if cut(after, b']').is_some() {
        return None;
    }
    let port = read_port_after(after)?;
    match read_ip(address)? {
        Ip::V4(_) => None,
        ip => Some(Target::Address {
            ip: PackedIp::new(ip),
            port,
        }),
    }
}

#[tactic(auto, unfolding(crate::specs::Targets::port_after))]
fn read_port_after(text: &[u8]) -> Option<u16>
    ensures { result ≡ port_after text.now }
{
    match text {
        [] => Some(80),
        [b':', digits @ ..] => read_port(digits),
        _ => None,
    }
}

#[tactic(auto, unfolding(crate::specs::Targets::port_of))]
fn read_port(digits: &[u8]) -> Option<u16>
    ensures { result ≡ port_of digits.now }
{
    match read_plain(digits, 65535)? {
        0 => None,
        port => Some(port as u16),
    }
}

#[tactic(auto, using(crate::proofs::Pieces::hosted_more))]
fn read_hosted(alloc: Global, text: &[u8], domain: &[u8]) -> Result<Target, TargetFault>
    ensures { Answers (hosted domain.now (pieces 58 text.now)) result }
{
    let Some((host, digits)) = cut(text, b':') else {
        return read_host(alloc, text, 80, domain);
    };
    if cut(digits, b':').is_some() {
        return Err(TargetFault::Bad);
    }
    match read_port(digits) {
        Some(port) => read_host(alloc, host, port, domain),
        None => Err(TargetFault::Bad),
    }
}

fn read_host(alloc: Global, host: &[u8], port: u16, domain: &[u8]) -> Result<Target, TargetFault>
    ensures { Answers (host_target domain.now host.now port (ip_of host.now)) result }
{
    match read_ip(host) {
        Some(Ip::V4(number)) => Ok(Target::Address {
            ip: PackedIp::new(Ip::V4(number)),
            port,
        }),
        _ => read_service(alloc, host, port, domain),
    }
}

fn read_service(alloc: Global, host: &[u8], port: u16, domain: &[u8]) -> Result<Target, TargetFault>
    ensures { Answers (service_target port (names_of domain.now host.now (pieces 46 host.now)))
        result }
{
    let Some((name, ns)) = service_names(host, domain) else {
        return Err(TargetFault::Bad);
    };
    Ok(Target::Service {
        ns: name_text(alloc, ns)?,
        name: name_text(alloc, name)?,
        port,
    })
}

/// Returns the name and the namespace.
#[tactic(auto, using(crate::proofs::Hosts::names_are, crate::proofs::Names::dotless_name))]
fn service_names<'a>(host: &'a [u8], domain: &[u8]) -> Option<(&'a [u8], &'a [u8])>
    ensures pair { MatchOption result (names_of domain.now host.now (pieces 46 host.now) ≡ None)
        (λ p. names_of domain.now host.now (pieces 46 host.now) ≡ Some (p.0.now, p.1.now)) }
    ensures names { IfSome result (λ p. IsTrue (is_name p.0.now) × IsTrue (is_name p.1.now)) }
{
    let (name, rest) = cut(host, b'.')?;
    let (ns, zone) = cut(rest, b'.')?;
    if !is_dotless(name) {
        return None;
    }
    if !is_dotless(ns) {
        return None;
    }
    if !is_zone(zone, domain) {
        return None;
    }
    Some((name, ns))
}

/// Whether the string is `svc.` and the domain.
fn is_zone(text: &[u8], domain: &[u8]) -> bool
    ensures { result ≡ pointwise nat_eq text.now (codes "svc." ++ domain.now) }
{
    match text.strip_prefix(b"svc.") {
        Some(rest) => rest == domain,
        None => false,
    }
}
