ghost use Rattle.std.specs.Prelude.{◌≡◌, Some, IfOk, IsErrOf};
ghost use Rattle.route_match.specs.Asking.{AsksPatterns, AsksRefused, facts_of};
ghost use Rattle.route_match.specs.Matching.{Pat, holds, is_method};

use crate::header::headers_hold;
use crate::host::hosts_hold;
use crate::path::path_holds;
use crate::query::query_holds;
use mesh_base::list::List;
use mesh_base::text::Text;
use mesh_outside::{PatternFault, Patterns};
use std::alloc::Global;
use view_types::request::HttpRequest;
use view_types::route::HttpMatch;

/// Whether the hostnames of its route and all parts of the match hold.
pub(crate) fn holds<P: Patterns>(
    alloc: Global,
    patterns: &mut P,
    request: &HttpRequest,
    hosts: &List<Text>,
    item: &HttpMatch,
) -> Result<bool, PatternFault>
    ensures told { (pat : Pat) → P.tells patterns.old ≡ Some pat → IfOk result (λ all.
        all ≡ holds pat request.now hosts.now item.now) }
    ensures asks { AsksPatterns P.Patterns patterns.old patterns.new
        (IsErrOf result PatternFault.Refused) }
    ensures named { IsErrOf result PatternFault.Refused
        → AsksRefused (facts_of P.Patterns patterns.old) request.now hosts.now item.now }
{
    if !hosts_hold(&request.host, hosts.as_slice()) {
        return Ok(false);
    }
    if !is_method(&request.method, &item.method) {
        return Ok(false);
    }
    match path_holds(alloc, patterns, &request.path, &item.path) {
        Ok(true) => {}
        Ok(false) => return Ok(false),
        Err(fault) => return Err(fault),
    }
    match headers_hold(
        alloc,
        patterns,
        request.headers.as_slice(),
        item.headers.as_slice(),
    ) {
        Ok(true) => {}
        Ok(false) => return Ok(false),
        Err(fault) => return Err(fault),
    }
    query_holds(
        alloc,
        patterns,
        request.query.as_str(),
        item.query.as_slice(),
    )
}

fn is_method(method: &Text, wanted: &Option<Text>) -> bool
    ensures { result ≡ is_method method.now wanted.now }
{
    match wanted {
        Some(wanted) => *wanted == *method,
        None => true,
    }
}
