//! The EndpointSlices of a Service by the marks that their rows read, so that the slices that name
//! a changed Pod are found.
//!
//! Depends on mark_rules and key_lists, on mark_graph for the rows at marks and the marks that a
//! change removes and adds, and on endpoint_rows for lemmas about keys at items of lists. The
//! contracts cite `specs/Marked`.
#![tactic(auto)]

pub mod keys;
pub mod slices;
