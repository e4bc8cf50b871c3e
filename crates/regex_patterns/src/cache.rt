// A cache of patterns.
ghost use Rattle.std.specs.Prelude.{◌≡◌, IfOk, IfSome};
ghost use Rattle.std.proofs.Props.{props};
ghost use Rattle.regex_patterns.specs.Patterns.{IsBuiltOf, IsExpression, IsSmallOf, regex_tells};

use crate::build::{build, build_small, is_found};
use crate::small::begins;
use mesh_base::memory::Memory;
use mesh_base::text::Text;
use mesh_outside::PatternFault;
use regex::Regex;
use regex_nfa::Nfa;
use std::alloc::Global;

/// A pattern and its regular expression, which is None if the pattern was refused.
#[derive(Drop)]
pub struct Kept {
    pub(crate) pattern: Text,
    regex: Option<Regex>,
    /// The NFA of the expression, if it is small. A search with it is cheaper than a matcher.
    small: Option<Nfa>,
    ghost built: { IfSome regex (IsBuiltOf pattern) } by { Prim.hlevel props },
    ghost built_small: { IfSome small (IsSmallOf pattern) } by { Prim.hlevel props },
}

impl Kept {
    pub(crate) fn new(alloc: Global, pattern: &str) -> Result<Kept, Memory>
        ensures { IfOk result (λ made. made.pattern ≡ pattern.now) }
    {
        let regex = build(alloc, pattern)?;
        let small = build_small(alloc, pattern)?;
        let own = Text::from_str(alloc, pattern)?;
        Ok(Kept {
            pattern: own,
            regex,
            small,
        })
    }

    /// Whether the pattern matches the whole string. The error is `Refused` or `Memory`.
    pub(crate) fn whole(&self, alloc: Global, text: &str) -> Result<bool, PatternFault>
        ensures told { IfOk result (λ answer. answer ≡ regex_tells self.now.pattern text.now) }
        ensures reads { IfOk result (λ answer. IsExpression self.now.pattern) }
    {
        match self.small_whole(alloc, text) {
            Some(found) => Ok(found),
            None => self.any_whole(alloc, text),
        }
    }

    // The same, or None unless both the pattern and the string are small.
    fn small_whole(&self, alloc: Global, text: &str) -> Option<bool>
        ensures told { IfSome result (λ answer. answer ≡ regex_tells self.now.pattern text.now) }
        ensures reads { IfSome result (λ answer. IsExpression self.now.pattern) }
    {
        match &self.small {
            Some(nfa) => begins(alloc, nfa, text),
            None => None,
        }
    }

    // The same for patterns and strings of any size.
    fn any_whole(&self, alloc: Global, text: &str) -> Result<bool, PatternFault>
        ensures told { IfOk result (λ answer. answer ≡ regex_tells self.now.pattern text.now) }
        ensures reads { IfOk result (λ answer. IsExpression self.now.pattern) }
    {
        match &self.regex {
            Some(regex) => match is_found(alloc, regex, text) {
                Ok(found) => Ok(found),
                Err(Memory) => Err(PatternFault::Memory),
            },
            None => Err(PatternFault::Refused),
        }
    }
}

/// Finds a pattern in the cache.
pub(crate) fn kept_of<'k>(kept: &'k [Kept], pattern: &str) -> Option<&'k Kept>
    ensures { IfSome result (λ known. known.now.pattern ≡ pattern.now) }
{
    kept.iter().find(|known| known.pattern.as_str() == pattern)
}
