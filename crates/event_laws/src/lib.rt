//! Laws on what a watch event leaves unchanged: each object stays lawful, and a query that reads no
//! mark of the event keeps its view and the marks that it reads.
//!
//! Depends on mark_rules for the marks of objects and those that a query reads, on object_store for
//! the marks of a list, and on feed_history for the effect of an event. The statement of each law
//! is in `specs/Laws`. The crate has no other code than the laws.
#![tactic(auto)]

pub mod laws;
