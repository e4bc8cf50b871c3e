ghost use Rattle.mesh_text.specs.PolicyWords.{policy_of};

use k8s_meta::choice::Word;
use view_types::policy::Policy;

/// The names of policies.
pub struct PolicyWord;

impl Word for PolicyWord {
    type Meaning = Policy;

    ghost meaning = { λ _. policy_of };

    fn meaning_of(&self, text: &str) -> Option<Policy> {
        if text == "all-unauthenticated" {
            Some(Policy::AllUnauthenticated)
        } else if text == "all-authenticated" {
            Some(Policy::AllAuthenticated)
        } else if text == "cluster-unauthenticated" {
            Some(Policy::ClusterUnauthenticated)
        } else if text == "cluster-authenticated" {
            Some(Policy::ClusterAuthenticated)
        } else if text == "deny" {
            Some(Policy::Deny)
        } else if text == "audit" {
            Some(Policy::Audit)
        } else {
            None
        }
    }
}
