ghost use Rattle.std.specs.Prelude.{◌≡◌, IfOk, option_to_list};
ghost use Rattle.profile_objects.specs.Responses.{responses_kind, status_at};
ghost use Rattle.view_types.specs.declared.profile.RespMatch.TheVariants as responses;

use crate::kind::MatchKind;
use crate::parts::add_some;
use k8s_meta::fault::{ReadFault, What};
use k8s_meta::key::Key;
use k8s_meta::place::Place;
use k8s_meta::reader::Reader;
use k8s_meta::words::Number16;
use mesh_base::boxed::Boxed;
use mesh_base::list::List;
use mesh_base::memory::Memory;
use std::alloc::Global;
use view_types::profile::RespMatch;

/// The responses that a response class applies to.
#[derive(Clone, Copy)]
pub struct Responses;

impl MatchKind for Responses {
    type Made = RespMatch;

    ghost kind = { λ _. responses_kind };

    #[tactic(auto, unfolding(k8s_meta::specs::Spots::then, crate::specs::Responses::response_members))]
    fn own<'a>(&self, place: &'a Place<'a>) -> Result<List<RespMatch>, ReadFault> {
        let status = place.optional(Key::Status, &Status)?;
        Ok(members(place.alloc(), status)?)
    }

    fn all(&self, parts: List<RespMatch>) -> RespMatch
        ensures { result ≡ responses.All parts }
    {
        RespMatch::All(parts)
    }

    fn any(&self, parts: List<RespMatch>) -> RespMatch
        ensures { result ≡ responses.Any parts }
    {
        RespMatch::Any(parts)
    }

    fn negated(&self, part: Boxed<RespMatch>) -> RespMatch
        ensures { result ≡ responses.Not part }
    {
        RespMatch::Not(part)
    }
}

fn members(alloc: Global, status: Option<RespMatch>) -> Result<List<RespMatch>, Memory>
    ensures { IfOk result (λ found. found ≡ option_to_list status) }
{
    let mut found = List::new(alloc);
    add_some(&mut found, status)?;
    Ok(found)
}

const CODE: Number16 = Number16 {
    low: 100,
    high: 599,
};

/// A range of status codes.
struct Status;

impl Reader for Status {
    type Made = RespMatch;

    ghost reading = { λ _. status_at };

    #[tactic(auto, unfolding(k8s_meta::specs::Spots::then, crate::specs::Responses::status_at))]
    fn read<'a>(&self, place: &'a Place<'a>) -> Result<RespMatch, ReadFault> {
        place.object()?;
        let low = place.default(Key::Min, &CODE, 100)?;
        let high = place.default(Key::Max, &CODE, 599)?;
        if low <= high {
            Ok(RespMatch::Status(low, high))
        } else {
            Err(place.member(Key::Max).bad_value(What::Range))
        }
    }
}
