ghost use Rattle.std.specs.Prelude.{◌≡◌, ◌∷◌, [], IfOk};
ghost use Rattle.k8s_meta.specs.Spots.{◌·◌, Reads, seen};
ghost use Rattle.k8s_meta.specs.declared.key.Key.TheVariants as keys;
ghost use Rattle.grpc_routes.specs.GrpcRoutes.{grpc_rule_at, grpc_rules_at, open_rule};
ghost use Rattle.grpc_routes.specs.Matches.{open_match};
ghost use Rattle.route_objects.specs.Matches.{or_one};

use crate::filter::HeaderFilter;
use crate::matches::CallMatch;
use crate::route::{GrpcMatch, GrpcRule};
use k8s_meta::fault::ReadFault;
use k8s_meta::key::Key;
use k8s_meta::place::Place;
use k8s_meta::reader::Reader;
use mesh_base::list::List;
use mesh_base::memory::Memory;
use route_objects::backend::Backend;
use route_objects::rule::list_of_one;
use std::alloc::Global;

/// Reads the rules of a route in a namespace. The default is one rule that matches each call.
#[tactic(auto, unfolding(k8s_meta::specs::Words::default))]
pub fn rules_of<'a>(spec: &'a Place<'a>, own: &str) -> Result<List<GrpcRule>, ReadFault>
    ensures { Reads result (grpc_rules_at own.now ((seen spec.now) · keys.Rules)) }
{
    if spec.member(Key::Rules).is_absent() {
        return Ok(open_rules(spec.alloc())?);
    }
    spec.each(Key::Rules, &RouteRule { own })
}

fn open_rules(alloc: Global) -> Result<List<GrpcRule>, Memory>
    ensures { IfOk result (λ rules. rules ≡ open_rule ∷ []) }
{
    list_of_one(
        alloc,
        GrpcRule {
            matches: some_match(alloc, List::new(alloc))?,
            filters: List::new(alloc),
            backends: List::new(alloc),
        },
    )
}

/// A rule of a route in a namespace.
#[derive(Clone, Copy)]
struct RouteRule<'b> {
    own: &'b str,
}

impl<'b> Reader for RouteRule<'b> {
    type Made = GrpcRule;

    ghost reading = { λ r. grpc_rule_at r.own.now };

    #[tactic(auto, unfolding(k8s_meta::specs::Spots::then, crate::specs::GrpcRoutes::grpc_rule_at))]
    fn read<'a>(&self, place: &'a Place<'a>) -> Result<GrpcRule, ReadFault> {
        place.object()?;
        let matches = place.each(Key::Matches, &CallMatch)?;
        let filters = place.each_some(Key::Filters, &HeaderFilter)?;
        let backends = place.each(Key::BackendRefs, &Backend { own: self.own })?;
        Ok(GrpcRule {
            matches: some_match(place.alloc(), matches)?,
            filters,
            backends,
        })
    }
}

/// Returns the matches, or if there are none the default one, which matches each call.
fn some_match(alloc: Global, matches: List<GrpcMatch>) -> Result<List<GrpcMatch>, Memory>
    ensures { IfOk result (λ some. some ≡ or_one open_match matches) }
{
    if matches.len() > 0 {
        return Ok(matches);
    }
    list_of_one(
        alloc,
        GrpcMatch {
            service: None,
            method: None,
            regex: false,
            headers: List::new(alloc),
        },
    )
}
