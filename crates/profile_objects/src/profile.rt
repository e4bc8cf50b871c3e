ghost use Rattle.std.specs.Prelude.{IfOk};
ghost use Rattle.serde_json.specs.View.{view};
ghost use Rattle.view_types.specs.Lawful.{IsLawfulProfile};
ghost use Rattle.profile_objects.specs.Profiles.{class_at, override_at, profile_at, route_at};
ghost use Rattle.k8s_meta.specs.Spots.{Reads, seen};

use crate::nested::MatchOf;
use crate::request::Requests;
use crate::response::Responses;
use k8s_meta::fault::ReadFault;
use k8s_meta::key::Key;
use k8s_meta::meta::meta_of;
use k8s_meta::place::Place;
use k8s_meta::reader::Reader;
use k8s_meta::words::{AnyText, Flag, Nanoseconds, Thousandths};
use serde_json::Value;
use std::alloc::Global;
use view_types::profile::{Override, Profile, ProfileRoute, RespClass};

/// Reads the ServiceProfile at the path `at`. A fault is the first one in the order of the members.
pub fn read_profile(alloc: Global, object: &Value, at: &str) -> Result<Profile, ReadFault>
    ensures value { Reads result (profile_at record { at = at.now; value = view object.now }) }
    ensures lawful { IfOk result IsLawfulProfile }
{
    profile_of(&Place::top(alloc, object, at))
}

/// Reads the ServiceProfile at a place.
pub fn profile_of<'a>(object: &'a Place<'a>) -> Result<Profile, ReadFault>
    ensures value { Reads result (profile_at (seen object.now)) }
    ensures lawful { IfOk result IsLawfulProfile }
{
    members_of(object)
}

#[tactic(auto, unfolding(k8s_meta::specs::Spots::then, crate::specs::Profiles::profile_at))]
fn members_of<'a>(object: &'a Place<'a>) -> Result<Profile, ReadFault>
    ensures { Reads result (profile_at (seen object.now)) }
{
    let meta = meta_of(object)?;
    let spec = object.part(Key::Spec)?;
    let routes = spec.each(Key::Routes, &Route)?;
    let overrides = spec.each(Key::DstOverrides, &OtherDestination)?;
    Ok(Profile {
        meta,
        routes,
        overrides,
    })
}

/// A route, which applies to the requests that match its condition.
struct Route;

impl Reader for Route {
    type Made = ProfileRoute;

    ghost reading = { λ _. route_at };

    #[tactic(auto, unfolding(k8s_meta::specs::Spots::then, crate::specs::Profiles::route_at))]
    fn read<'a>(&self, place: &'a Place<'a>) -> Result<ProfileRoute, ReadFault> {
        place.object()?;
        let name = place.required(Key::Name, &AnyText)?;
        let condition = place.required(Key::Condition, &MatchOf(Requests))?;
        let classes = place.each(Key::ResponseClasses, &Class)?;
        let retryable = place.default(Key::IsRetryable, &Flag, false)?;
        let timeout = place.optional(Key::Timeout, &Nanoseconds)?;
        Ok(ProfileRoute {
            name,
            condition,
            classes,
            retryable,
            timeout,
        })
    }
}

/// A response class.
struct Class;

impl Reader for Class {
    type Made = RespClass;

    ghost reading = { λ _. class_at };

    #[tactic(auto, unfolding(k8s_meta::specs::Spots::then, crate::specs::Profiles::class_at))]
    fn read<'a>(&self, place: &'a Place<'a>) -> Result<RespClass, ReadFault> {
        place.object()?;
        let condition = place.required(Key::Condition, &MatchOf(Responses))?;
        let failure = place.default(Key::IsFailure, &Flag, false)?;
        Ok(RespClass { condition, failure })
    }
}

/// A destination that replaces the Service.
struct OtherDestination;

impl Reader for OtherDestination {
    type Made = Override;

    ghost reading = { λ _. override_at };

    #[tactic(auto, unfolding(k8s_meta::specs::Spots::then, crate::specs::Profiles::override_at))]
    fn read<'a>(&self, place: &'a Place<'a>) -> Result<Override, ReadFault> {
        place.object()?;
        let authority = place.required(Key::Authority, &AnyText)?;
        let weight = place.required(Key::Weight, &Thousandths)?;
        Ok(Override { authority, weight })
    }
}
