ghost use Rattle.std.specs.Prelude.{◌≡◌, Some, IfErr, IfOk, fold, map, option_to_list};
ghost use Rattle.std.specs.List.{slice_get};
ghost use Rattle.route_match.specs.Asking.{AsksPatterns, facts_of};
ghost use Rattle.route_match.specs.Faults.{HasMatch, HasRule, IsNamed, MetRefused, NamesIn};
ghost use Rattle.route_match.specs.Matching.{Pat, best, better, flat_from, in_match, in_route, row_shape};

use crate::fault::MatchFault;
use crate::holds::holds;
use crate::merit::{is_more, merit};
use mesh_base::list::List;
use mesh_base::text::Text;
use mesh_outside::{PatternFault, Patterns};
use std::alloc::Global;
use view_types::request::HttpRequest;
use view_types::route::HttpMatch;
use view_types::server_view::{RouteRow, RuleRow};

/// A match that holds for a request, with its merit and indexes.
#[derive(Clone, Copy, Debug)]
pub struct Candidate {
    /// The greater the better, the first number first.
    pub merit: [usize; 5],
    pub route: usize,
    pub rule: usize,
    pub item: usize,
}

/// The indexes of a rule.
#[derive(Clone, Copy)]
struct RulePlace {
    route: usize,
    rule: usize,
}

/// Returns the best match of all routes. Matches are tested in the order of their indexes, and the
/// parts of a match in the order of hostnames, method, path, headers and query, up to the first
/// that fails.
pub fn best_match<P: Patterns>(
    alloc: Global,
    patterns: &mut P,
    request: &HttpRequest,
    routes: &[RouteRow],
) -> Result<Option<Candidate>, MatchFault>
    ensures best { (pat : Pat) → P.tells patterns.old ≡ Some pat → IfOk result (λ found.
        found ≡ best pat request.now (map row_shape routes.now)) }
    ensures named { IfErr result (IsNamed (facts_of P.Patterns patterns.old) request.now
        (map row_shape routes.now)) }
    ensures asks { AsksPatterns P.Patterns patterns.old patterns.new (MetRefused result) }
{
    let mut found = None;
    for (place, route) in routes.iter().enumerate() {
        match over_route(alloc, patterns, request, place, found, route) {
            Ok(kept) => found = kept,
            Err(fault) => return Err(fault),
        }
    }
    Ok(found)
}

fn over_route<P: Patterns>(
    alloc: Global,
    patterns: &mut P,
    request: &HttpRequest,
    place: usize,
    found: Option<Candidate>,
    route: &RouteRow,
) -> Result<Option<Candidate>, MatchFault>
    ensures best { (pat : Pat) → P.tells patterns.old ≡ Some pat → IfOk result (λ next.
        next ≡ fold better found (in_route pat request.now place (row_shape route.now))) }
    ensures named { NamesIn (facts_of P.Patterns patterns.old) request.now
        (λ shapes. slice_get shapes place ≡ Some (row_shape route.now)) result }
    ensures asks { AsksPatterns P.Patterns patterns.old patterns.new (MetRefused result) }
{
    let mut next = found;
    for (rule_place, rule) in route.rules.as_slice().iter().enumerate() {
        let at = RulePlace {
            route: place,
            rule: rule_place,
        };
        match over_rule(alloc, patterns, request, &route.hosts, at, next, rule) {
            Ok(kept) => next = kept,
            Err(fault) => return Err(fault),
        }
    }
    Ok(next)
}

fn over_rule<P: Patterns>(
    alloc: Global,
    patterns: &mut P,
    request: &HttpRequest,
    hosts: &List<Text>,
    at: RulePlace,
    found: Option<Candidate>,
    rule: &RuleRow,
) -> Result<Option<Candidate>, MatchFault>
    ensures best { (pat : Pat) → P.tells patterns.old ≡ Some pat → IfOk result (λ next.
        next ≡ fold better found (flat_from (in_match pat request.now hosts.now at.route at.rule) 0
        rule.now.matches)) }
    ensures named { NamesIn (facts_of P.Patterns patterns.old) request.now
        (HasRule hosts.now at.route at.rule rule.now.matches) result }
    ensures asks { AsksPatterns P.Patterns patterns.old patterns.new (MetRefused result) }
{
    let mut next = found;
    for (place, item) in rule.matches.as_slice().iter().enumerate() {
        match candidate_at(alloc, patterns, request, hosts, at, place, item) {
            Ok(other) => next = better_of(next, other),
            Err(fault) => return Err(fault),
        }
    }
    Ok(next)
}

/// Returns the match, if it holds.
fn candidate_at<P: Patterns>(
    alloc: Global,
    patterns: &mut P,
    request: &HttpRequest,
    hosts: &List<Text>,
    at: RulePlace,
    place: usize,
    item: &HttpMatch,
) -> Result<Option<Candidate>, MatchFault>
    ensures best { (pat : Pat) → P.tells patterns.old ≡ Some pat → IfOk result (λ found.
        option_to_list found ≡ in_match pat request.now hosts.now at.route at.rule place item.now) }
    ensures named { NamesIn (facts_of P.Patterns patterns.old) request.now
        (HasMatch hosts.now at.route at.rule place item.now) result }
    ensures asks { AsksPatterns P.Patterns patterns.old patterns.new (MetRefused result) }
{
    match holds(alloc, patterns, request, hosts, item) {
        Ok(true) => Ok(Some(Candidate {
            merit: merit(item),
            route: at.route,
            rule: at.rule,
            item: place,
        })),
        Ok(false) => Ok(None),
        Err(PatternFault::Refused) => Err(MatchFault::Refused {
            route: at.route,
            rule: at.rule,
            item: place,
        }),
        Err(PatternFault::Memory) => Err(MatchFault::Memory),
    }
}

fn better_of(best: Option<Candidate>, other: Option<Candidate>) -> Option<Candidate>
    ensures { result ≡ fold better best (option_to_list other) }
{
    match other {
        Some(other) => better(best, other),
        None => best,
    }
}

/// Returns the better of the two, or the first if they are equal.
fn better(best: Option<Candidate>, other: Candidate) -> Option<Candidate>
    ensures { result ≡ better best other }
{
    match best {
        Some(best) => Some(if is_more(&other.merit, &best.merit) {
            other
        } else {
            best
        }),
        None => Some(other),
    }
}
