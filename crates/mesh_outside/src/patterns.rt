// Matchers of patterns.
ghost use Rattle.std.specs.Prelude.{◌≡◌, ◌≢◌, ◌≤◌, ℕ, Bool, List, [], Option, Some, IfOk, IfSome, IsErrOf, Ok, Err, if◌then◌else◌, true, false};
ghost use Rattle.std.specs.Str.{bytes_eq};
ghost use Rattle.mesh_outside.specs.Causes.{Rose, counted, none_ever};
ghost use Rattle.mesh_outside.specs.Patterns.{is_among};

use mesh_base::list::List;
use mesh_base::text::Text;
use std::alloc::Global;

/// The reason why a match has no result.
#[derive(Clone, Copy, Debug, PartialEq, Eq)]
pub enum PatternFault {
    /// The pattern isn't one that can be matched.
    Refused,
    Memory,
}

/// A matcher of patterns on whole strings.
pub trait Patterns {
    /// Whether a pattern matches a string, if specified.
    ghost tells: { Self → Option (List ℕ → List ℕ → Bool) };

    /// The patterns that are refused, if specified.
    ghost refuses: { Self → Option (List ℕ → Bool) };

    /// The number of refusals so far, which saturates at `u64::MAX`.
    ghost refusals: { Self → ℕ };

    /// Returns whether the pattern matches the whole string.
    fn whole(&mut self, alloc: Global, pattern: &str, text: &str) -> Result<bool, PatternFault>
        ensures told { IfOk result (λ answer.
            IfSome (tells self.old) (λ f. answer ≡ f pattern.now text.now)) }
        ensures later { refusals self.old ≤ refusals self.new }
        ensures refused { IsErrOf result PatternFault.Refused
            → Rose (refusals self.old) (refusals self.new) }
        ensures named { IsErrOf result PatternFault.Refused → IfSome (refuses self.old) (λ f.
            f pattern.now ≡ true) }
        ensures other { result ≢ Err PatternFault.Refused → refusals self.new ≡ refusals self.old }
        ensures tells_same { tells self.new ≡ tells self.old }
        ensures refuses_same { refuses self.new ≡ refuses self.old };
}

/// Patterns that match their own string alone, some of which are refused.
#[derive(Drop)]
pub struct MemPatterns {
    /// The patterns that are refused.
    pub refuse: List<Text>,
    /// The number of refusals so far.
    pub count: u64,
}

impl MemPatterns {
    /// Returns patterns of which none is refused.
    pub fn new(alloc: Global) -> MemPatterns
        ensures refuse { result.refuse ≡ [] }
        ensures count { result.count ≡ 0 }
    {
        MemPatterns {
            refuse: List::new(alloc),
            count: 0,
        }
    }
}

fn is_refused(refuse: &[Text], pattern: &str) -> bool
    ensures { result ≡ is_among pattern.now refuse.now }
{
    for text in refuse {
        if text.as_str() == pattern {
            return true;
        }
    }
    false
}

impl Patterns for MemPatterns {
    ghost tells = { λ m. Some bytes_eq };

    ghost refuses = { λ m. Some (λ p. is_among p m.refuse) };

    ghost refusals = { λ m. m.count };

    fn whole(&mut self, _alloc: Global, pattern: &str, text: &str) -> Result<bool, PatternFault>
        ensures told { IfOk result (λ answer. answer ≡ bytes_eq pattern.now text.now) }
        ensures later { self.old.count ≤ self.new.count }
        ensures refused { IsErrOf result PatternFault.Refused → Rose self.old.count self.new.count }
        ensures named { IsErrOf result PatternFault.Refused
            → is_among pattern.now self.old.refuse ≡ true }
        ensures other { result ≢ Err PatternFault.Refused → self.new.count ≡ self.old.count }
        ensures refuses_same { self.new.refuse ≡ self.old.refuse }

        // Patterns in `refuse` are refused, others matched without allocating. Only refusals count.
        ensures answer { result ≡ (if is_among pattern.now self.old.refuse then Err
            PatternFault.Refused else Ok (bytes_eq pattern.now text.now)) }
        ensures count { self.new.count
            ≡ counted (is_among pattern.now self.old.refuse) self.old.count }
    {
        if is_refused(self.refuse.as_slice(), pattern) {
            self.count = self.count.saturating_add(1);
            return Err(PatternFault::Refused);
        }
        Ok(pattern == text)
    }
}

/// Patterns that match their own string alone, none of which is refused.
#[derive(Drop)]
pub struct SurePatterns;

impl Patterns for SurePatterns {
    ghost tells = { λ s. Some bytes_eq };

    ghost refuses = { λ s. Some (λ p. false) };

    ghost refusals = { λ s. none_ever };

    fn whole(&mut self, _alloc: Global, pattern: &str, text: &str) -> Result<bool, PatternFault>
        ensures told { IfOk result (λ answer. answer ≡ bytes_eq pattern.now text.now) }
        ensures later { none_ever ≤ none_ever }
        ensures refused { IsErrOf result PatternFault.Refused → Rose none_ever none_ever }
        ensures named { IsErrOf result PatternFault.Refused → false ≡ true }
        ensures other { result ≢ Err PatternFault.Refused → none_ever ≡ none_ever }

        // Each pattern is matched, without allocating.
        ensures answer { result ≡ Ok (bytes_eq pattern.now text.now) }
    {
        Ok(pattern == text)
    }
}
