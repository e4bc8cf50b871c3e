ghost use Rattle.std.specs.Prelude.{◌≡◌, Some};
ghost use Rattle.feed_history.specs.VerdictText.{decider_text, kind_text, policy_text, verdict_text};

use std::fmt;
use view_types::policy::Policy;
use view_types::server_view::AuthzKind;
use view_types::verdict::{Decider, Verdict};

/// Formats the verdict on a request to a Pod of the namespace.
#[derive(Clone, Copy)]
pub struct ShownVerdict<'a> {
    pub ns: &'a str,
    pub verdict: &'a Verdict,
}

// Formats what decided on a request to a Pod of the namespace.
#[derive(Clone, Copy)]
struct ShownDecider<'a> {
    ns: &'a str,
    decider: &'a Decider,
}

impl fmt::Display for ShownVerdict<'_> {
    ghost output = { λ shown. Some (verdict_text shown.ns.now shown.verdict.now) };

    fn fmt<W: fmt::Write>(&self, f: &mut fmt::Formatter<W>) -> fmt::Result {
        match self.verdict {
            Verdict::Allowed(decider) => {
                let decider = ShownDecider {
                    ns: self.ns,
                    decider,
                };
                write!(f, "allowed {decider}")
            }
            Verdict::Denied(decider) => {
                let decider = ShownDecider {
                    ns: self.ns,
                    decider,
                };
                write!(f, "denied {decider}")
            }
            Verdict::NotFound => write!(f, "not-found"),
            Verdict::NoWorkload => write!(f, "no-workload"),
        }
    }
}

impl fmt::Display for ShownDecider<'_> {
    ghost output = { λ shown. Some (decider_text shown.ns.now shown.decider.now) };

    fn fmt<W: fmt::Write>(&self, f: &mut fmt::Formatter<W>) -> fmt::Result {
        let ns = self.ns;
        match self.decider {
            Decider::Authz { kind, name } => {
                let kind = kind_word(*kind);
                let name = name.as_str();
                write!(f, "{kind} {ns}/{name}")
            }
            Decider::Default(policy) => {
                let policy = policy_word(*policy);
                write!(f, "default {policy}")
            }
            Decider::Probe { place } => {
                let place = *place;
                write!(f, "probe {place}")
            }
        }
    }
}

fn kind_word(kind: AuthzKind) -> &'static str
    ensures { result.now ≡ kind_text kind }
{
    match kind {
        AuthzKind::ServerAuthorization => "ServerAuthorization",
        AuthzKind::AuthorizationPolicy => "AuthorizationPolicy",
    }
}

fn policy_word(policy: Policy) -> &'static str
    ensures { result.now ≡ policy_text policy }
{
    match policy {
        Policy::AllUnauthenticated => "all-unauthenticated",
        Policy::AllAuthenticated => "all-authenticated",
        Policy::ClusterUnauthenticated => "cluster-unauthenticated",
        Policy::ClusterAuthenticated => "cluster-authenticated",
        Policy::Deny => "deny",
        Policy::Audit => "audit",
    }
}
