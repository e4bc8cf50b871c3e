ghost use Rattle.route_objects.specs.NameMatches.{name_match_at, value_form};

use k8s_meta::choice::{Choice, Word};
use k8s_meta::fault::ReadFault;
use k8s_meta::key::Key;
use k8s_meta::place::Place;
use k8s_meta::reader::Reader;
use k8s_meta::words::AnyText;
use view_types::route::NameMatch;

/// A header or a query parameter.
pub struct NameAndValue;

impl Reader for NameAndValue {
    type Made = NameMatch;

    ghost reading = { λ _. name_match_at };

    #[tactic(auto, unfolding(k8s_meta::specs::Spots::then, crate::specs::NameMatches::name_match_at))]
    fn read<'a>(&self, place: &'a Place<'a>) -> Result<NameMatch, ReadFault> {
        place.object()?;
        let regex = place.default(Key::Type, &Choice(ValueType), false)?;
        let name = place.required(Key::Name, &AnyText)?;
        let value = place.required(Key::Value, &AnyText)?;
        Ok(NameMatch { name, value, regex })
    }
}

/// The names of the types of a value: whether it is a regular expression.
pub struct ValueType;

impl Word for ValueType {
    type Meaning = bool;

    ghost meaning = { λ _. value_form };

    fn meaning_of(&self, text: &str) -> Option<bool> {
        if text == "Exact" {
            Some(false)
        } else if text == "RegularExpression" {
            Some(true)
        } else {
            None
        }
    }
}
