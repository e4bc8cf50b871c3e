ghost use Rattle.std.specs.Prelude.{◌≡◌};
ghost use Rattle.k8s_meta.specs.Spots.{◌·◌, Reads, seen};
ghost use Rattle.k8s_meta.specs.declared.key.Key.TheVariants as keys;
ghost use Rattle.route_objects.specs.Matches.{match_at, path_at, path_form, path_match};

use crate::name_match::NameAndValue;
use k8s_meta::choice::{Choice, Word};
use k8s_meta::fault::ReadFault;
use k8s_meta::key::Key;
use k8s_meta::place::Place;
use k8s_meta::reader::Reader;
use k8s_meta::words::AnyText;
use mesh_base::text::Text;
use mesh_text::method::MethodText;
use view_types::route::{HttpMatch, PathMatch};

/// A match of requests.
pub struct RuleMatch;

impl Reader for RuleMatch {
    type Made = HttpMatch;

    ghost reading = { λ _. match_at };

    #[tactic(auto, unfolding(k8s_meta::specs::Spots::then, crate::specs::Matches::match_at))]
    fn read<'a>(&self, place: &'a Place<'a>) -> Result<HttpMatch, ReadFault> {
        place.object()?;
        let path = path_of(place)?;
        let headers = place.each(Key::Headers, &NameAndValue)?;
        let query = place.each(Key::QueryParams, &NameAndValue)?;
        let method = place.optional(Key::Method, &MethodText)?;
        Ok(HttpMatch {
            path,
            headers,
            query,
            method,
        })
    }
}

/// How a path is compared.
#[derive(Clone, Copy)]
enum PathForm {
    Exact,
    Prefix,
    Regex,
}

#[tactic(auto, unfolding(k8s_meta::specs::Spots::then, crate::specs::Matches::path_at))]
fn path_of<'a>(matched: &'a Place<'a>) -> Result<PathMatch, ReadFault>
    ensures { Reads result (path_at ((seen matched.now) · keys.Path)) }
{
    let path = matched.part(Key::Path)?;
    let form = path.default(Key::Type, &Choice(PathType), PathForm::Prefix)?;
    let value = path.text_or(Key::Value, &AnyText, "/")?;
    Ok(path_match(form, value))
}

fn path_match(form: PathForm, value: Text) -> PathMatch
    ensures { result ≡ path_match form value }
{
    match form {
        PathForm::Exact => PathMatch::Exact(value),
        PathForm::Prefix => PathMatch::Prefix(value),
        PathForm::Regex => PathMatch::Regex(value),
    }
}

/// The names of the forms of a path.
struct PathType;

impl Word for PathType {
    type Meaning = PathForm;

    ghost meaning = { λ _. path_form };

    fn meaning_of(&self, text: &str) -> Option<PathForm> {
        if text == "Exact" {
            Some(PathForm::Exact)
        } else if text == "PathPrefix" {
            Some(PathForm::Prefix)
        } else if text == "RegularExpression" {
            Some(PathForm::Regex)
        } else {
            None
        }
    }
}
