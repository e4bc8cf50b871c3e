//! The types that all crates share: strings, lists, labels, keys of objects, limits and the step
//! counter. Contracts see each as a plain value.
//!
//! Depends on std alone. `Copied` is the trait of copies that equal their source, `Same` that of
//! comparisons that decide equality. `specs/Keyed` defines sorted lists with keys, and
//! `specs/KeyOrder` the order of objects' keys.
#![tactic(auto)]

pub mod boxed;
pub mod copied;
pub mod key;
pub mod labels;
pub mod limits;
pub mod list;
pub mod memory;
pub mod numeral;
pub mod pieces;
pub mod same;
pub mod steps;
pub mod sub_id;
pub mod text;
