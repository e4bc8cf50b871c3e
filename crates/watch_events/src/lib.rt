//! Reads a line of the feed: returns its contents, or the first fault.
//!
//! Depends on k8s_core, profile_objects, policy_objects and route_objects for objects, on mesh_text
//! for JSON and short strings, on k8s_meta for members and on view_types for the contents.
//! `read_row` returns `row_says` of `specs/Lines` for the rows that line_run splits
//! (`specs/Simulations` defines a simulated request), `read_line` the same for a line of any
//! length. The contents are lawful (`specs/Lawful`).
//!
//! Events and lists are read by a table of kinds (`specs/Tables`), as which form they have
//! (`specs/Forms`). A feed with further kinds has a `KindTable` of its own for `read_form`; one with
//! further lines has a `LineReader` of its own for `read_row_by`.
#![tactic(auto)]

pub mod control;
pub mod event;
mod event_type;
pub mod fault;
pub mod form;
mod kinds;
pub mod laws;
pub mod line;
mod line_text;
mod list;
pub mod method;
mod object;
pub mod plain;
pub mod query;
pub mod read;
pub mod simulation;
pub mod table;
mod watch;
