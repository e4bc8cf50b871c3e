// Probes of a Pod, which are admitted if no authorization decides.
ghost use Rattle.std.specs.Prelude.{◌≡◌, Some, position};
ghost use Rattle.std.specs.Str.{bytes_eq};
ghost use Rattle.request_rules.specs.Verdicts.{by_paths, may_be_probe, probe_place};

use crate::policy::{asks_routes, by_policy, is_in_cluster};
use mesh_base::text::Text;
use view_types::config::Config;
use view_types::policy::{Policy, Protocol};
use view_types::request::{HttpRequest, Request};
use view_types::verdict::{Decider, Verdict};

/// Returns the verdict by these probe paths, and otherwise by the policy.
pub(crate) fn by_paths(
    config: &Config,
    request: &Request,
    protocol: Protocol,
    policy: Policy,
    paths: &[Text],
) -> Verdict
    ensures { result ≡ by_paths config.now request.now protocol policy paths.now }
{
    match probe_place(config, request, protocol, paths) {
        Some(place) => Verdict::Allowed(Decider::Probe {
            place: place as u64,
        }),
        None => by_policy(config, request, policy),
    }
}

// Returns the index of the request's path among these paths, if the request may be a probe.
fn probe_place(
    config: &Config,
    request: &Request,
    protocol: Protocol,
    paths: &[Text],
) -> Option<usize>
    ensures { result
        ≡ probe_place config.now request.now protocol paths.now request.now.http }
{
    match &request.http {
        Some(http) => place_asked(config, request, protocol, paths, http),
        None => None,
    }
}

fn place_asked(
    config: &Config,
    request: &Request,
    protocol: Protocol,
    paths: &[Text],
    http: &HttpRequest,
) -> Option<usize>
    ensures { result
        ≡ probe_place config.now request.now protocol paths.now (Some http.now) }
{
    if may_be_probe(config, request, protocol, http) {
        place_of(paths, http)
    } else {
        None
    }
}

// Whether the request is a GET from a cluster network, to a port whose protocol is not opaque or
// TLS.
fn may_be_probe(config: &Config, request: &Request, protocol: Protocol, http: &HttpRequest) -> bool
    ensures { result ≡ may_be_probe config.now request.now protocol http.now }
{
    http.method.as_str() == "GET" && asks_routes(protocol) && is_in_cluster(config, request.client)
}

fn place_of(paths: &[Text], http: &HttpRequest) -> Option<usize>
    ensures { result ≡ position (bytes_eq http.now.path) paths.now }
{
    paths.iter().position(|path| is_path(http, path))
}

fn is_path(http: &HttpRequest, path: &Text) -> bool
    ensures { result ≡ bytes_eq http.now.path path.now }
{
    http.path == *path
}
