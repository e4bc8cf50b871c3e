//! The marks that each row reads, by the keys that a store has for marks.
//!
//! Depends on mark_rules, whose `specs/Reads` each contract cites, on object_store for the objects
//! and their keys, and on policy_rows for the test of a Server.
#![tactic(auto)]

pub mod at_mark;
pub mod references;
pub mod rows;
