use net_cidr::ip::{Ip, read_ip};
use net_cidr::net::read_net;
use net_cidr::packed_ip::PackedIp;
use row_file::TrialFault;
use std::alloc::{AllocError, Global};

fn text_of(alloc: Global, ip: Ip) -> Result<String, AllocError> {
    match ip {
        Ip::V4(number) => format!(in alloc; "4:{number:x}"),
        Ip::V6(number) => format!(in alloc; "6:{number:x}"),
    }
}

pub fn address(alloc: Global, text: &str) -> Result<String, TrialFault> {
    match read_ip(text.as_bytes()) {
        Some(ip) => Ok(text_of(alloc, ip)?),
        None => Ok(String::from_str(alloc, "none")?),
    }
}

pub fn network(alloc: Global, text: &str) -> Result<String, TrialFault> {
    let Some(net) = read_net(text.as_bytes()) else {
        return Ok(String::from_str(alloc, "none")?);
    };
    let base = text_of(alloc, net.base)?;
    let bits = net.bits;
    Ok(format!(in alloc; "{base}/{bits}")?)
}

/// Whether the network of a line holds its address.
pub fn holds(alloc: Global, line: &str) -> Result<String, TrialFault> {
    let (net, ip) = line.split_once(' ').unwrap_or((line, ""));
    let (Some(net), Some(ip)) = (read_net(net.as_bytes()), read_ip(ip.as_bytes())) else {
        return Err(TrialFault::new("a network or an address does not read"));
    };
    Ok(String::from_str(alloc, if net.holds(ip) { "yes" } else { "no" })?)
}

/// Compares each address with that of the line before.
pub fn order(input: &str, out: &mut String) -> Result<(), TrialFault> {
    let mut before = None;
    for line in input.lines() {
        let Some(ip) = read_ip(line.as_bytes()) else {
            return Err(TrialFault::new("an address does not read"));
        };
        let packed = PackedIp::new(ip);
        out.push_str(if packed.get() != ip {
            "another\n"
        } else if before.is_none() {
            "first\n"
        } else if before < Some(packed) {
            "greater\n"
        } else {
            "not greater\n"
        })?;
        before = Some(packed);
    }
    Ok(())
}
