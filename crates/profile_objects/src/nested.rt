ghost use Rattle.std.specs.Prelude.{◌≡◌, IfOk, option_map};
ghost use Rattle.serde_json.specs.View.{items_view};
ghost use Rattle.profile_objects.specs.Matches.{joined, match_of, negation, only, parts};
ghost use Rattle.k8s_meta.specs.Lists.{each, each_from};
ghost use Rattle.k8s_meta.specs.Spots.{Gives, Reads, seen};
ghost use Rattle.k8s_meta.specs.Words.{optional};

use crate::kind::MatchKind;
use crate::parts::add_some;
use k8s_meta::fault::{ReadFault, What};
use k8s_meta::key::Key;
use k8s_meta::place::Place;
use k8s_meta::reader::Reader;
use mesh_base::boxed::Boxed;
use mesh_base::list::List;
use mesh_base::memory::Memory;
use serde_json::Value;

/// A match of a kind, whose matches are of the same kind.
#[derive(Clone, Copy)]
pub struct MatchOf<K>(pub K);

impl<K: MatchKind> Reader for MatchOf<K> {
    type Made = K::Made;

    ghost reading = { λ r. match_of (K.kind r.0) };

    fn read<'a>(&self, place: &'a Place<'a>) -> Result<K::Made, ReadFault> {
        match_here(&self.0, place)
    }
}

#[cycle(nested)]
#[tactic(auto, using(crate::proofs::Tables::match_is), unfolding(k8s_meta::specs::Spots::then, crate::specs::Matches::match_by))]
fn match_here<'a, K: MatchKind>(kind: &K, place: &'a Place<'a>) -> Result<K::Made, ReadFault>
    ensures { Reads result (match_of (K.kind kind.now) (seen place.now)) }
{
    place.object()?;
    let own = kind.own(place)?;
    let all = list_here(kind, &place.member(Key::All))?;
    let any = list_here(kind, &place.member(Key::Any))?;
    let negated = negated_here(kind, &place.member(Key::Not))?;
    let found = joined(kind, own, all, any, negated)?;
    place.valid(What::Shape, found)
}

#[cycle(nested)]
#[tactic(auto, unfolding(k8s_meta::specs::Spots::then, k8s_meta::specs::Words::optional, k8s_meta::specs::Words::default, k8s_meta::specs::Lists::each))]
fn list_here<'a, K: MatchKind>(
    kind: &K,
    place: &'a Place<'a>,
) -> Result<Option<List<K::Made>>, ReadFault>
    ensures { Reads result (optional (each (match_of (K.kind kind.now))) (seen place.now)) }
{
    if place.is_absent() {
        return Ok(None);
    }
    let list = place.list()?;
    let parts = items_of(kind, place, list)?;
    Ok(Some(parts))
}

#[cycle(nested)]
fn items_of<'a, K: MatchKind>(
    kind: &K,
    place: &'a Place<'a>,
    list: &'a [Value],
) -> Result<List<K::Made>, ReadFault>
    ensures { Reads result
        (each_from (match_of (K.kind kind.now)) (seen place.now).at 0 (items_view list.now)) }
{
    let mut found = List::new(place.alloc());
    for i in 0..list.len() {
        let item = match_here(kind, &place.item(i, &list[i]))?;
        found.add(item)?;
    }
    Ok(found)
}

#[cycle(nested)]
#[tactic(auto, unfolding(k8s_meta::specs::Spots::then, k8s_meta::specs::Words::optional, k8s_meta::specs::Words::default))]
fn negated_here<'a, K: MatchKind>(
    kind: &K,
    place: &'a Place<'a>,
) -> Result<Option<Boxed<K::Made>>, ReadFault>
    ensures { Reads result (optional (negation (match_of (K.kind kind.now))) (seen place.now)) }
{
    if place.is_absent() {
        return Ok(None);
    }
    let negated = only(place)?;
    let found = match_here(kind, &negated)?;
    Ok(Some(Boxed::new(place.alloc(), found)?))
}

/// Returns the place of the negated match: here, or the item of a list of one.
#[tactic(auto, using(crate::proofs::Negations::one_item, crate::proofs::Negations::other_items), unfolding(k8s_meta::specs::Spots::then, crate::specs::Matches::only))]
fn only<'a>(place: &'a Place<'a>) -> Result<Place<'a>, ReadFault>
    ensures { Gives seen result (only (seen place.now)) }
{
    let Some(list) = place.as_list() else {
        return Ok(*place);
    };
    if list.len() != 1 {
        return Err(place.bad_value(What::Shape));
    }
    Ok(place.item(0, &list[0]))
}

fn joined<K: MatchKind>(
    kind: &K,
    own: List<K::Made>,
    all: Option<List<K::Made>>,
    any: Option<List<K::Made>>,
    negated: Option<Boxed<K::Made>>,
) -> Result<Option<K::Made>, Memory>
    ensures { let k = K.kind kind.now
        in IfOk result (λ found. found ≡ joined k.all (parts k own all any negated)) }
{
    let mut parts = own;
    add_some(&mut parts, some_all(kind, all))?;
    add_some(&mut parts, some_any(kind, any))?;
    add_some(&mut parts, some_negated(kind, negated))?;
    Ok(one_or_all(kind, parts))
}

fn some_all<K: MatchKind>(kind: &K, all: Option<List<K::Made>>) -> Option<K::Made>
    ensures { result ≡ option_map (K.kind kind.now).all all }
{
    match all {
        Some(parts) => Some(kind.all(parts)),
        None => None,
    }
}

fn some_any<K: MatchKind>(kind: &K, any: Option<List<K::Made>>) -> Option<K::Made>
    ensures { result ≡ option_map (K.kind kind.now).any any }
{
    match any {
        Some(parts) => Some(kind.any(parts)),
        None => None,
    }
}

fn some_negated<K: MatchKind>(kind: &K, negated: Option<Boxed<K::Made>>) -> Option<K::Made>
    ensures { result ≡ option_map (K.kind kind.now).negated negated }
{
    match negated {
        Some(part) => Some(kind.negated(part)),
        None => None,
    }
}

/// Returns one part as it is, and several as a match of all of them.
fn one_or_all<K: MatchKind>(kind: &K, parts: List<K::Made>) -> Option<K::Made>
    ensures { result ≡ joined (K.kind kind.now).all parts }
{
    if parts.len() > 1 {
        return Some(kind.all(parts));
    }
    parts.into_vec().pop()
}
