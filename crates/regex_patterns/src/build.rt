// Builds and searches regular expressions.
ghost use Rattle.std.specs.Prelude.{◌≡◌, IfOk, IfSome, is_some};
ghost use Rattle.std.specs.String.{string_bytes};
ghost use Rattle.regex.specs.Patterns.{find_str};
ghost use Rattle.regex.specs.Strings.{regex_pattern};
ghost use Rattle.regex_patterns.specs.Patterns.{IsBuiltOf, IsReadFrom, IsSmallOf, whole};

use crate::small::small;
use mesh_base::memory::Memory;
use regex::{Error, Regex};
use regex_nfa::Nfa;
use std::alloc::Global;

/// Builds the regular expression that a pattern has to match as a whole, or None if it is refused.
pub(crate) fn build(alloc: Global, pattern: &str) -> Result<Option<Regex>, Memory>
    ensures { IfOk result (λ built. IfSome built (IsBuiltOf pattern.now)) }
{
    let source = whole_of(alloc, pattern)?;
    read(alloc, source.as_str())
}

/// Builds the NFA that matches whole strings of a pattern, or None if it is not small.
pub(crate) fn build_small(alloc: Global, pattern: &str) -> Result<Option<Nfa>, Memory>
    ensures { IfOk result (λ built. IfSome built (IsSmallOf pattern.now)) }
{
    let source = whole_of(alloc, pattern)?;
    Ok(small(alloc, source.as_str()))
}

// Builds the regular expression of a source, or None if that is refused.
fn read(alloc: Global, source: &str) -> Result<Option<Regex>, Memory>
    ensures { IfOk result (λ made. IfSome made (IsReadFrom source.now)) }
{
    match Regex::new(alloc, source) {
        Ok(regex) => Ok(Some(regex)),
        Err(Error::OutOfMemory) => Err(Memory),
        Err(_) => Ok(None),
    }
}

// Returns the source that matches a pattern against a whole string: `\A(?:p)\z`.
fn whole_of(alloc: Global, pattern: &str) -> Result<String, Memory>
    ensures { IfOk result (λ source. string_bytes source ≡ whole pattern.now) }
{
    let mut source = String::from_str(alloc, "\\A(?:")?;
    source.push_str(pattern)?;
    source.push_str(")\\z")?;
    Ok(source)
}

/// Whether a regular expression is found in a string.
pub(crate) fn is_found(alloc: Global, regex: &Regex, text: &str) -> Result<bool, Memory>
    ensures { IfOk result
        (λ found. found ≡ is_some (find_str (regex_pattern regex.now) text.now 0)) }
{
    let mut matcher = regex.matcher(alloc)?;
    Ok(matcher.is_match(text))
}
