ghost use Rattle.std.specs.Prelude.{◌≡◌, ◌<◌, [], ◌∷◌, Some, IfNone, IfOk, IfSome, IsErrOf, filter, length, map, option_copied};
ghost use Rattle.std.specs.List.{list_all};
ghost use Rattle.mesh_base.specs.Pieces.{pieces};
ghost use Rattle.route_match.specs.Asking.{AsksPatterns, HasRefused, RefusesAt, facts_of, value_pattern};
ghost use Rattle.route_match.specs.Matching.{Pat, is_filled, part_of, parts_of, query_holds, value_in};

use crate::value::value_holds;
use mesh_outside::{PatternFault, Patterns};
use std::alloc::Global;
use view_types::route::NameMatch;

/// Whether the query has all of the parameters of the match.
pub(crate) fn query_holds<P: Patterns>(
    alloc: Global,
    patterns: &mut P,
    query: &str,
    wanted: &[NameMatch],
) -> Result<bool, PatternFault>
    ensures told { (pat : Pat) → P.tells patterns.old ≡ Some pat → IfOk result (λ all.
        all ≡ list_all (query_holds pat (parts_of query.now)) wanted.now) }
    ensures asks { AsksPatterns P.Patterns patterns.old patterns.new
        (IsErrOf result PatternFault.Refused) }
    ensures named { IsErrOf result PatternFault.Refused
        → RefusesAt (facts_of P.Patterns patterns.old) value_pattern
        (λ pat. query_holds pat (parts_of query.now)) wanted.now }
{
    for part in wanted {
        match part_holds(alloc, patterns, query, part) {
            Ok(true) => {}
            Ok(false) => return Ok(false),
            Err(fault) => return Err(fault),
        }
    }
    Ok(true)
}

fn part_holds<P: Patterns>(
    alloc: Global,
    patterns: &mut P,
    query: &str,
    part: &NameMatch,
) -> Result<bool, PatternFault>
    ensures told { (pat : Pat) → P.tells patterns.old ≡ Some pat → IfOk result (λ holds.
        holds ≡ query_holds pat (parts_of query.now) part.now) }
    ensures asks { AsksPatterns P.Patterns patterns.old patterns.new
        (IsErrOf result PatternFault.Refused) }
    ensures named { IsErrOf result PatternFault.Refused
        → HasRefused (P.refuses patterns.old) (value_pattern part.now) }
{
    match value_in(query, part.name.as_str()) {
        Some(value) => value_holds(alloc, patterns, part, value),
        None => Ok(false),
    }
}

/// Returns what follows the `=` in the first parameter with the name.
#[tactic(auto, using(crate::proofs::Queries::first_found, crate::proofs::Queries::first_passed, crate::proofs::Queries::one_piece))]
fn value_in<'a>(query: &'a str, name: &str) -> Option<&'a str>
    ensures { option_copied result ≡ value_in name.now (parts_of query.now) }
{
    let mut rest = query;
    while let Some((piece, after)) = cut(rest) {
        match value_at(piece, name) {
            Some(value) => return Some(value),
            None => rest = after,
        }
    }
    value_at(rest, name)
}

/// Returns the query before the first `&`, and what follows it.
fn cut(query: &str) -> Option<(&str, &str)>
    ensures whole { IfNone result (pieces 38 query.now ≡ query.now ∷ []) }
    ensures cut { IfSome result
        (λ halves. pieces 38 query.now ≡ halves.0.now ∷ pieces 38 halves.1.now) }
    ensures shorter { IfSome result (λ halves. length halves.1.now < length query.now) }
{
    query.split_once('&')
}

/// Returns what follows the `=` in a piece of a query, if its name is this.
#[tactic(auto, using(crate::proofs::Queries::no_part, crate::proofs::Queries::own_part, crate::proofs::Queries::other_part))]
fn value_at<'a>(piece: &'a str, name: &str) -> Option<&'a str>
    ensures { option_copied result
        ≡ value_in name.now (map part_of (filter is_filled (piece.now ∷ []))) }
{
    if piece.is_empty() {
        return None;
    }
    let (own, value) = part_of(piece);
    if own == name { Some(value) } else { None }
}

fn part_of(piece: &str) -> (&str, &str)
    ensures { (result.0.now, result.1.now) ≡ part_of piece.now }
{
    match piece.split_once('=') {
        Some(part) => part,
        None => (piece, ""),
    }
}
