ghost use Rattle.std.specs.Prelude.{◌≡◌, Some, IfOk, IsErrOf};
ghost use Rattle.std.specs.List.{list_all};
ghost use Rattle.std.specs.Str.{str_eq_ignore_ascii_case};
ghost use Rattle.route_match.specs.Asking.{AsksPatterns, HasRefused, RefusesAt, facts_of, value_pattern};
ghost use Rattle.route_match.specs.Matching.{Pat, header_holds, is_wanted};

use crate::value::value_holds;
use mesh_base::text::Text;
use mesh_outside::{PatternFault, Patterns};
use std::alloc::Global;
use view_types::route::NameMatch;

/// Whether the request has all of the headers of the match.
pub(crate) fn headers_hold<P: Patterns>(
    alloc: Global,
    patterns: &mut P,
    headers: &[(Text, Text)],
    wanted: &[NameMatch],
) -> Result<bool, PatternFault>
    ensures told { (pat : Pat) → P.tells patterns.old ≡ Some pat → IfOk result (λ all.
        all ≡ list_all (header_holds pat headers.now) wanted.now) }
    ensures asks { AsksPatterns P.Patterns patterns.old patterns.new
        (IsErrOf result PatternFault.Refused) }
    ensures named { IsErrOf result PatternFault.Refused
        → RefusesAt (facts_of P.Patterns patterns.old) value_pattern
        (λ pat. header_holds pat headers.now) wanted.now }
{
    for part in wanted {
        match header_holds(alloc, patterns, headers, part) {
            Ok(true) => {}
            Ok(false) => return Ok(false),
            Err(fault) => return Err(fault),
        }
    }
    Ok(true)
}

fn header_holds<P: Patterns>(
    alloc: Global,
    patterns: &mut P,
    headers: &[(Text, Text)],
    part: &NameMatch,
) -> Result<bool, PatternFault>
    ensures told { (pat : Pat) → P.tells patterns.old ≡ Some pat → IfOk result (λ some.
        some ≡ header_holds pat headers.now part.now) }
    ensures asks { AsksPatterns P.Patterns patterns.old patterns.new
        (IsErrOf result PatternFault.Refused) }
    ensures named { IsErrOf result PatternFault.Refused
        → HasRefused (P.refuses patterns.old) (value_pattern part.now) }
{
    for header in headers {
        match is_wanted(alloc, patterns, header, part) {
            Ok(true) => return Ok(true),
            Ok(false) => {}
            Err(fault) => return Err(fault),
        }
    }
    Ok(false)
}

fn is_wanted<P: Patterns>(
    alloc: Global,
    patterns: &mut P,
    header: &(Text, Text),
    part: &NameMatch,
) -> Result<bool, PatternFault>
    ensures told { (pat : Pat) → P.tells patterns.old ≡ Some pat → IfOk result (λ wanted.
        wanted ≡ is_wanted pat part.now header.now) }
    ensures asks { AsksPatterns P.Patterns patterns.old patterns.new
        (IsErrOf result PatternFault.Refused) }
    ensures named { IsErrOf result PatternFault.Refused
        → HasRefused (P.refuses patterns.old) (value_pattern part.now) }
{
    if is_same_name(&header.0, &part.name) {
        value_holds(alloc, patterns, part, header.1.as_str())
    } else {
        Ok(false)
    }
}

fn is_same_name(name: &Text, other: &Text) -> bool
    ensures { result ≡ str_eq_ignore_ascii_case name.now other.now }
{
    name.as_str().eq_ignore_ascii_case(other.as_str())
}
