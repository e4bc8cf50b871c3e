ghost use Rattle.k8s_meta.specs.Spots.{◌·◌};
ghost use Rattle.grpc_routes.specs.Matches.{grpc_match_at};

use crate::call::CallText;
use crate::route::GrpcMatch;
use k8s_meta::choice::Choice;
use k8s_meta::fault::ReadFault;
use k8s_meta::key::Key;
use k8s_meta::place::Place;
use k8s_meta::reader::Reader;
use k8s_meta::words::Filled;
use route_objects::name_match::{NameAndValue, ValueType};

/// A match of gRPC calls.
pub struct CallMatch;

impl Reader for CallMatch {
    type Made = GrpcMatch;

    ghost reading = { λ _. grpc_match_at };

    #[tactic(auto, unfolding(k8s_meta::specs::Spots::then, crate::specs::Matches::grpc_match_at))]
    fn read<'a>(&self, place: &'a Place<'a>) -> Result<GrpcMatch, ReadFault> {
        place.object()?;
        let named = place.part(Key::Method)?;
        let regex = named.default(Key::Type, &Choice(ValueType), false)?;
        let service = named.default(Key::Service, &Filled(CallText { regex, dots: true }), None)?;
        let method = named.default(Key::Method, &Filled(CallText { regex, dots: false }), None)?;
        let headers = place.each(Key::Headers, &NameAndValue)?;
        Ok(GrpcMatch {
            service,
            method,
            regex,
            headers,
        })
    }
}
