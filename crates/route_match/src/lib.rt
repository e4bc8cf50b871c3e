//! Selects the best match of the routes of a Server for a request.
//!
//! Depends on view_types for routes and requests and on mesh_outside for patterns. `best_match`
//! returns `best` of `specs/Matching`, or names a match whose regular expression is refused
//! (`specs/Faults`).
#![tactic(auto)]

pub mod best;
pub mod fault;
mod header;
mod holds;
mod host;
pub mod laws;
mod merit;
mod path;
mod query;
mod value;
