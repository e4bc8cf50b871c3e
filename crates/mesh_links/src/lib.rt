//! The trait `Links` of links to peers: poll, read, write, close, their results, and their trace.
//!
//! Depends on mesh_base, and on mesh_outside for when an error may be returned: only if its count
//! rose. The contract of the trait `Links` cites `specs/Calls` (the trace) and `specs/Counts`.
#![tactic(auto)]

pub mod call;
pub mod links;
