ghost use Rattle.std.specs.Prelude.{◌≡◌, ◌++◌, IfOk, option_map, option_to_list};
ghost use Rattle.profile_objects.specs.Requests.{requests_kind};
ghost use Rattle.view_types.specs.declared.profile.ReqMatch.TheVariants as requests;

use crate::kind::MatchKind;
use crate::parts::add_some;
use k8s_meta::fault::ReadFault;
use k8s_meta::key::Key;
use k8s_meta::place::Place;
use k8s_meta::words::AnyText;
use mesh_base::boxed::Boxed;
use mesh_base::list::List;
use mesh_base::memory::Memory;
use mesh_base::text::Text;
use mesh_text::method::MethodText;
use std::alloc::Global;
use view_types::profile::ReqMatch;

/// The requests that a route applies to.
#[derive(Clone, Copy)]
pub struct Requests;

impl MatchKind for Requests {
    type Made = ReqMatch;

    ghost kind = { λ _. requests_kind };

    #[tactic(auto, unfolding(k8s_meta::specs::Spots::then, crate::specs::Requests::request_members))]
    fn own<'a>(&self, place: &'a Place<'a>) -> Result<List<ReqMatch>, ReadFault> {
        let method = place.optional(Key::Method, &MethodText)?;
        let path = place.optional(Key::PathRegex, &AnyText)?;
        Ok(members(place.alloc(), method, path)?)
    }

    fn all(&self, parts: List<ReqMatch>) -> ReqMatch
        ensures { result ≡ requests.All parts }
    {
        ReqMatch::All(parts)
    }

    fn any(&self, parts: List<ReqMatch>) -> ReqMatch
        ensures { result ≡ requests.Any parts }
    {
        ReqMatch::Any(parts)
    }

    fn negated(&self, part: Boxed<ReqMatch>) -> ReqMatch
        ensures { result ≡ requests.Not part }
    {
        ReqMatch::Not(part)
    }
}

fn members(
    alloc: Global,
    method: Option<Text>,
    path: Option<Text>,
) -> Result<List<ReqMatch>, Memory>
    ensures { IfOk result
        (λ found. found ≡ option_to_list (option_map requests.Method method)
        ++ option_to_list (option_map requests.Path path)) }
{
    let mut found = List::new(alloc);
    add_some(&mut found, some_method(method))?;
    add_some(&mut found, some_path(path))?;
    Ok(found)
}

fn some_method(method: Option<Text>) -> Option<ReqMatch>
    ensures { result ≡ option_map requests.Method method }
{
    match method {
        Some(method) => Some(ReqMatch::Method(method)),
        None => None,
    }
}

fn some_path(path: Option<Text>) -> Option<ReqMatch>
    ensures { result ≡ option_map requests.Path path }
{
    match path {
        Some(path) => Some(ReqMatch::Path(path)),
        None => None,
    }
}
