ghost use Rattle.std.specs.Prelude.{◌≡◌, ◌∷◌, [], IfOk};
ghost use Rattle.k8s_meta.specs.Spots.{◌·◌, Reads, seen};
ghost use Rattle.k8s_meta.specs.declared.key.Key.TheVariants as keys;
ghost use Rattle.route_objects.specs.Matches.{default_match, or_one};
ghost use Rattle.route_objects.specs.Rules.{default_rule, rule_at, rules_at};

use crate::backend::Backend;
use crate::filter::RuleFilter;
use crate::matches::RuleMatch;
use k8s_meta::fault::ReadFault;
use k8s_meta::key::Key;
use k8s_meta::place::Place;
use k8s_meta::reader::Reader;
use k8s_meta::words::Nanoseconds;
use mesh_base::list::List;
use mesh_base::memory::Memory;
use mesh_base::text::Text;
use std::alloc::Global;
use view_types::route::{HttpMatch, PathMatch, Rule};

/// Reads the rules of a route in a namespace. The default is one rule with the default match.
#[tactic(auto, unfolding(k8s_meta::specs::Words::default))]
pub fn rules_of<'a>(spec: &'a Place<'a>, own: &str) -> Result<List<Rule>, ReadFault>
    ensures { Reads result (rules_at own.now ((seen spec.now) · keys.Rules)) }
{
    if spec.member(Key::Rules).is_absent() {
        return Ok(default_rules(spec.alloc())?);
    }
    spec.each(Key::Rules, &RouteRule { own })
}

fn default_rules(alloc: Global) -> Result<List<Rule>, Memory>
    ensures { IfOk result (λ rules. rules ≡ default_rule ∷ []) }
{
    list_of_one(
        alloc,
        Rule {
            matches: some_match(alloc, List::new(alloc))?,
            filters: List::new(alloc),
            backends: List::new(alloc),
            request_timeout: None,
            backend_timeout: None,
        },
    )
}

/// A rule of a route in a namespace.
#[derive(Clone, Copy)]
struct RouteRule<'b> {
    own: &'b str,
}

impl<'b> Reader for RouteRule<'b> {
    type Made = Rule;

    ghost reading = { λ r. rule_at r.own.now };

    #[tactic(auto, unfolding(k8s_meta::specs::Spots::then, crate::specs::Rules::rule_at))]
    fn read<'a>(&self, place: &'a Place<'a>) -> Result<Rule, ReadFault> {
        place.object()?;
        let matches = place.each(Key::Matches, &RuleMatch)?;
        let filters = place.each_some(Key::Filters, &RuleFilter)?;
        let backends = place.each(Key::BackendRefs, &Backend { own: self.own })?;
        let timeouts = place.part(Key::Timeouts)?;
        let request_timeout = timeouts.optional(Key::Request, &Nanoseconds)?;
        let backend_timeout = timeouts.optional(Key::BackendRequest, &Nanoseconds)?;
        Ok(Rule {
            matches: some_match(place.alloc(), matches)?,
            filters,
            backends,
            request_timeout,
            backend_timeout,
        })
    }
}

/// Returns the matches, or if there are none the default one, which matches each path.
fn some_match(alloc: Global, matches: List<HttpMatch>) -> Result<List<HttpMatch>, Memory>
    ensures { IfOk result (λ some. some ≡ or_one default_match matches) }
{
    if matches.len() > 0 {
        return Ok(matches);
    }
    list_of_one(
        alloc,
        HttpMatch {
            path: PathMatch::Prefix(Text::from_str(alloc, "/")?),
            headers: List::new(alloc),
            query: List::new(alloc),
            method: None,
        },
    )
}

/// Returns a list of the item alone.
pub fn list_of_one<T: Drop>(alloc: Global, item: T) -> Result<List<T>, Memory>
    ensures { IfOk result (λ list. list ≡ item ∷ []) }
{
    let mut list = List::new(alloc);
    list.add(item)?;
    Ok(list)
}
