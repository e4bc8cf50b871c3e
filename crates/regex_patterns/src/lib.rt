//! Patterns as regular expressions, matched against whole strings with the kit's crate regex: a
//! pattern p matches a string if `\A(?:p)\z` is found in it, as `specs/Patterns` defines. Built
//! patterns are cached.
//!
//! Depends on mesh_outside, whose trait `Patterns` it implements.
#![tactic(auto)]

mod build;
mod cache;
mod regexes;
mod small;

pub use regexes::RegexPatterns;
