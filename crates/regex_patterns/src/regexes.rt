// Regular expressions as patterns.
ghost use Rattle.std.specs.Prelude.{◌≡◌, ◌≢◌, ◌≤◌, ◌<◌, [], Some, None, IfOk, IsErrOf, Err, vec_len};
ghost use Rattle.mesh_outside.specs.Causes.{Rose, counted};
ghost use Rattle.regex_patterns.specs.Patterns.{IsExpression, is_refused, regex_tells};

use crate::cache::{Kept, kept_of};
use mesh_outside::{PatternFault, Patterns};
use std::alloc::Global;

/// The greatest number of patterns in the cache.
const MOST: usize = 64;

/// Regular expressions in the syntax of Rust's regex crate, each matched against a whole string.
/// The patterns that were built or refused last are cached. The tables of one have at most 10 MiB,
/// and those of a small one 16 KiB more. A pattern is put into a group. A pattern that closes it,
/// such as `a)|(?:b`, is built, but is not anchored. A comment without an end, under the flag `x`,
/// hides the end of the group, and the pattern is refused.
pub struct RegexPatterns {
    /// The cached patterns, the oldest first.
    kept: Vec<Kept>,
    /// The number of refusals so far.
    pub count: u64,
    ghost few: { vec_len kept ≤ 64 },
}

/// Implemented by hand, because a crate that drops this then needs no proof about its fields.
impl Drop for RegexPatterns {
    fn drop(self) {
        let RegexPatterns {
            kept: _kept,
            count: _,
        } = self;
    }
}

impl RegexPatterns {
    /// Creates an empty cache.
    pub fn new(alloc: Global) -> RegexPatterns
        ensures kept { result.kept.items ≡ [] }
        ensures count { result.count ≡ 0 }
    {
        RegexPatterns {
            kept: Vec::new(alloc),
            count: 0,
        }
    }

    // Returns the result of a match. Refusals are not counted yet.
    fn answer(&mut self, alloc: Global, pattern: &str, text: &str) -> Result<bool, PatternFault>
        ensures told { IfOk result (λ answer. answer ≡ regex_tells pattern.now text.now) }
        ensures reads { IfOk result (λ answer. IsExpression pattern.now) }
        ensures same { self.new.count ≡ self.old.count }
    {
        match kept_of(self.kept.as_slice(), pattern) {
            Some(known) => known.whole(alloc, text),
            None => self.first_answer(alloc, pattern, text),
        }
    }

    // Returns the result for a pattern that is not cached, and caches it.
    fn first_answer(
        &mut self,
        alloc: Global,
        pattern: &str,
        text: &str,
    ) -> Result<bool, PatternFault>
        ensures told { IfOk result (λ answer. answer ≡ regex_tells pattern.now text.now) }
        ensures reads { IfOk result (λ answer. IsExpression pattern.now) }
        ensures same { self.new.count ≡ self.old.count }
    {
        let Ok(fresh) = Kept::new(alloc, pattern) else {
            return Err(PatternFault::Memory);
        };
        let answer = fresh.whole(alloc, text);
        self.keep(fresh);
        answer
    }

    // Adds a pattern to the cache, unless out of memory.
    fn keep(&mut self, fresh: Kept)
        ensures { self.new.count ≡ self.old.count }
    {
        self.make_room();
        let _ = self.kept.push(fresh);
    }

    // Removes the oldest pattern from a full cache.
    fn make_room(&mut self)
        ensures room { vec_len self.new.kept < 64 }
        ensures same { self.new.count ≡ self.old.count }
    {
        if self.kept.len() == MOST {
            drop(self.kept.remove(0));
        }
    }
}

impl Patterns for RegexPatterns {
    ghost tells = { λ m. Some regex_tells };

    ghost refuses = { λ m. None };

    ghost refusals = { λ m. m.count };

    fn whole(&mut self, alloc: Global, pattern: &str, text: &str) -> Result<bool, PatternFault>
        ensures told { IfOk result (λ answer. answer ≡ regex_tells pattern.now text.now) }
        ensures later { self.old.count ≤ self.new.count }
        ensures refused { IsErrOf result PatternFault.Refused → Rose self.old.count self.new.count }
        ensures other { result ≢ Err PatternFault.Refused → self.new.count ≡ self.old.count }

        // A result that is not an error means that the pattern is an expression.
        ensures reads { IfOk result (λ answer. IsExpression pattern.now) }

        // Only refusals are counted.
        ensures count { self.new.count ≡ counted (is_refused result) self.old.count }
    {
        match self.answer(alloc, pattern, text) {
            Ok(answer) => Ok(answer),
            Err(PatternFault::Memory) => Err(PatternFault::Memory),
            Err(PatternFault::Refused) => {
                self.count = self.count.saturating_add(1);
                Err(PatternFault::Refused)
            }
        }
    }
}
