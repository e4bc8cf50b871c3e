ghost use Rattle.std.specs.Prelude.{◌≡◌};
ghost use Rattle.std.specs.List.{list_any};
ghost use Rattle.std.specs.Str.{str_eq_ignore_ascii_case};
ghost use Rattle.route_match.specs.Matching.{ends_in, host_holds, hosts_hold};

use mesh_base::text::Text;

/// Whether a route with these hostnames applies to the host.
pub(crate) fn hosts_hold(host: &Text, hosts: &[Text]) -> bool
    ensures { result ≡ hosts_hold host.now hosts.now }
{
    match hosts {
        [_, ..] => has_host(host, hosts),
        [] => true,
    }
}

fn has_host(host: &Text, hosts: &[Text]) -> bool
    ensures { result ≡ list_any (host_holds host.now) hosts.now }
{
    hosts.iter().any(|written| host_holds(host, written))
}

fn host_holds(host: &Text, written: &Text) -> bool
    ensures { result ≡ host_holds host.now written.now }
{
    let bytes = written.as_bytes();
    if bytes.starts_with(b"*.") {
        ends_in(host.as_bytes(), &bytes[1..])
    } else {
        is_same_name(host.as_bytes(), bytes)
    }
}

fn ends_in(host: &[u8], suffix: &[u8]) -> bool
    ensures { result ≡ ends_in host.now suffix.now }
{
    if host.len() <= suffix.len() {
        return false;
    }
    is_same_name(&host[host.len() - suffix.len()..], suffix)
}

fn is_same_name(name: &[u8], other: &[u8]) -> bool
    ensures { result ≡ str_eq_ignore_ascii_case name.now other.now }
{
    name.eq_ignore_ascii_case(other)
}
