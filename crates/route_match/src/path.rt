ghost use Rattle.std.specs.Prelude.{◌≡◌, Some, IfOk, IsErrOf};
ghost use Rattle.route_match.specs.Asking.{AsksPatterns, HasRefused, path_pattern};
ghost use Rattle.route_match.specs.Matching.{Pat, goes_on, has_prefix, path_holds};

use crate::merit::trimmed;
use crate::value::is_whole;
use mesh_base::text::Text;
use mesh_outside::{PatternFault, Patterns};
use std::alloc::Global;
use view_types::route::PathMatch;

/// Whether the path matches.
pub(crate) fn path_holds<P: Patterns>(
    alloc: Global,
    patterns: &mut P,
    path: &Text,
    wanted: &PathMatch,
) -> Result<bool, PatternFault>
    ensures told { (pat : Pat) → P.tells patterns.old ≡ Some pat → IfOk result (λ holds.
        holds ≡ path_holds pat path.now wanted.now) }
    ensures asks { AsksPatterns P.Patterns patterns.old patterns.new
        (IsErrOf result PatternFault.Refused) }
    ensures named { IsErrOf result PatternFault.Refused
        → HasRefused (P.refuses patterns.old) (path_pattern wanted.now) }
{
    match wanted {
        PathMatch::Exact(string) => Ok(*string == *path),
        PathMatch::Prefix(string) => Ok(has_prefix(path.as_bytes(), trimmed(string.as_bytes()))),
        PathMatch::Regex(string) => is_whole(alloc, patterns, string, path.as_str()),
    }
}

fn has_prefix(path: &[u8], prefix: &[u8]) -> bool
    ensures { result ≡ has_prefix path.now prefix.now }
{
    path.starts_with(prefix) && goes_on(&path[prefix.len()..])
}

fn goes_on(rest: &[u8]) -> bool
    ensures { result ≡ goes_on rest.now }
{
    match rest {
        [next, ..] => *next == b'/',
        [] => true,
    }
}
