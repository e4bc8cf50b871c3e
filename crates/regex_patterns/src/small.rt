// Small expressions, which are searched for without the tables of a matcher.
ghost use Rattle.std.specs.Prelude.{◌≡◌, IfSome, IsCharBoundary, length, is_some};
ghost use Rattle.regex_nfa.specs.Run.{run};
ghost use Rattle.regex_patterns.specs.Patterns.{IsFromStart, IsOfStart};

use regex_compile::compile;
use regex_extract::is_anchored_start;
use regex_hir::Hir;
use regex_nfa::Nfa;
use regex_syntax::{Config, parse};
use regex_vm::Backtracker;
use std::alloc::Global;

/// The greatest size of the NFA of a small expression, in bytes.
const TABLES: usize = 16_384;

/// The greatest number of pairs of an NFA state and an index of the string in a search.
const PAIRS: usize = 16_384;

/// Builds the NFA of an expression, if it is small and all its matches begin at the start.
pub(crate) fn small(alloc: Global, source: &str) -> Option<Nfa>
    ensures { IfSome result (IsFromStart source.now) }
{
    let (hir, groups) = from_start(alloc, source)?;
    match compile(alloc, &hir, groups, TABLES) {
        Ok(nfa) => Some(nfa),
        Err(_) => None,
    }
}

// Parses an expression. Returns its tree and number of groups, if all matches begin at the start.
fn from_start(alloc: Global, source: &str) -> Option<(Hir, u32)>
    ensures { IfSome result (λ read. IsOfStart source.now read.0) }
{
    let Ok(parsed) = parse(alloc, source, &Config::default()) else {
        return None;
    };
    if !is_anchored_start(&parsed.hir) {
        return None;
    }
    match u32::try_from(parsed.names.len()) {
        Ok(groups) => Some((parsed.hir, groups)),
        Err(_) => None,
    }
}

/// Whether a match begins at the start of a string, or None if the search is too long.
pub(crate) fn begins(alloc: Global, nfa: &Nfa, text: &str) -> Option<bool>
    ensures told { IfSome result (λ found.
        found ≡ is_some (run nfa.now text.now (length text.now) nfa.now.start 0)) }
    ensures whole { IsCharBoundary text.now 0 }
{
    begins_in(alloc, nfa, text.as_bytes())
}

// The same for the bytes of a string.
fn begins_in(alloc: Global, nfa: &Nfa, bytes: &[u8]) -> Option<bool>
    ensures { IfSome result (λ found.
        found ≡ is_some (run nfa.now bytes.now (length bytes.now) nfa.now.start 0)) }
{
    if bytes.len() >= PAIRS / nfa.states.len() {
        return None;
    }
    let mut engine = Backtracker::new(alloc);
    match engine.find(nfa, bytes, 0, 0, bytes.len(), &mut []) {
        Ok(found) => Some(found.is_some()),
        Err(_) => None,
    }
}
