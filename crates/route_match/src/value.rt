ghost use Rattle.std.specs.Prelude.{◌≡◌, [], ◌∷◌, Some, IfOk, IsErrOf};
ghost use Rattle.route_match.specs.Asking.{AsksPatterns, HasRefused, value_pattern};
ghost use Rattle.route_match.specs.Matching.{Pat, value_holds};

use mesh_base::text::Text;
use mesh_outside::{PatternFault, Patterns};
use std::alloc::Global;
use view_types::route::NameMatch;

/// Whether the pattern matches the whole string.
pub(crate) fn is_whole<P: Patterns>(
    alloc: Global,
    patterns: &mut P,
    pattern: &Text,
    string: &str,
) -> Result<bool, PatternFault>
    ensures told { (pat : Pat) → P.tells patterns.old ≡ Some pat → IfOk result (λ yes.
        yes ≡ pat pattern.now string.now) }
    ensures asks { AsksPatterns P.Patterns patterns.old patterns.new
        (IsErrOf result PatternFault.Refused) }
    ensures named { IsErrOf result PatternFault.Refused
        → HasRefused (P.refuses patterns.old) (pattern.now ∷ []) }
{
    patterns.whole(alloc, pattern.as_str(), string)
}

/// Whether a header or a query parameter with this value matches.
pub(crate) fn value_holds<P: Patterns>(
    alloc: Global,
    patterns: &mut P,
    part: &NameMatch,
    value: &str,
) -> Result<bool, PatternFault>
    ensures told { (pat : Pat) → P.tells patterns.old ≡ Some pat → IfOk result (λ holds.
        holds ≡ value_holds pat part.now value.now) }
    ensures asks { AsksPatterns P.Patterns patterns.old patterns.new
        (IsErrOf result PatternFault.Refused) }
    ensures named { IsErrOf result PatternFault.Refused
        → HasRefused (P.refuses patterns.old) (value_pattern part.now) }
{
    if part.regex {
        is_whole(alloc, patterns, &part.value, value)
    } else {
        Ok(part.value.as_str() == value)
    }
}
