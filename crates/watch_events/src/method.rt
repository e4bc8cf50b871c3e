ghost use Rattle.std.specs.Prelude.{◌≡◌};
ghost use Rattle.watch_events.specs.Queries.{method_of};

use k8s_meta::choice::Word;
use view_types::query::Method;

/// Returns the method with this name.
#[tactic(auto, unfolding(crate::specs::Queries::method_of))]
pub fn method_of(word: &str) -> Option<Method>
    ensures { result ≡ method_of word.now }
{
    if word == "Get" {
        Some(Method::Get)
    } else if word == "GetProfile" {
        Some(Method::GetProfile)
    } else if word == "WatchPort" {
        Some(Method::WatchPort)
    } else if word == "Watch" {
        Some(Method::Watch)
    } else if word == "WatchPort2" {
        Some(Method::WatchPort2)
    } else {
        None
    }
}

/// The names of methods.
#[derive(Clone, Copy)]
pub(crate) struct MethodWord;

impl Word for MethodWord {
    type Meaning = Method;

    ghost meaning = { λ _. method_of };

    fn meaning_of(&self, text: &str) -> Option<Method> {
        method_of(text)
    }
}
