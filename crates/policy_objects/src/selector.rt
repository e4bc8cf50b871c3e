ghost use Rattle.std.specs.Prelude.{◌≡◌};
ghost use Rattle.policy_objects.specs.Selectors.{operator_of, rule_at, selector_at};

use k8s_meta::choice::{Choice, Word};
use k8s_meta::fault::ReadFault;
use k8s_meta::key::Key;
use k8s_meta::place::Place;
use k8s_meta::reader::Reader;
use k8s_meta::words::AnyText;
use label_select::selector::{SelOp, SelRule, Selector};

/// A label selector (LabelSelector, meta/v1).
pub struct LabelSelector;

impl Reader for LabelSelector {
    type Made = Selector;

    ghost reading = { λ _. selector_at };

    #[tactic(auto, unfolding(k8s_meta::specs::Spots::then, crate::specs::Selectors::selector_at))]
    fn read<'a>(&self, place: &'a Place<'a>) -> Result<Selector, ReadFault> {
        place.object()?;
        let exact = place.labels(Key::MatchLabels)?;
        let rules = place.each(Key::MatchExpressions, &Rule)?;
        Ok(Selector { exact, rules })
    }
}

/// An expression of a selector.
struct Rule;

impl Reader for Rule {
    type Made = SelRule;

    ghost reading = { λ _. rule_at };

    #[tactic(auto, unfolding(k8s_meta::specs::Spots::then, crate::specs::Selectors::rule_at))]
    fn read<'a>(&self, place: &'a Place<'a>) -> Result<SelRule, ReadFault> {
        place.object()?;
        let key = place.required(Key::LabelKey, &AnyText)?;
        let op = place.required(Key::Operator, &Choice(Operator))?;
        let values = place.each(Key::Values, &AnyText)?;
        Ok(SelRule { key, op, values })
    }
}

/// The names of operators.
struct Operator;

impl Word for Operator {
    type Meaning = SelOp;

    ghost meaning = { λ _. operator_of };

    fn meaning_of(&self, text: &str) -> Option<SelOp> {
        if text == "In" {
            Some(SelOp::OneOf)
        } else if text == "NotIn" {
            Some(SelOp::NoneOf)
        } else if text == "Exists" {
            Some(SelOp::Present)
        } else if text == "DoesNotExist" {
            Some(SelOp::Lacking)
        } else {
            None
        }
    }
}
