//! The endpoints of a Service's port, kept by the EndpointSlices (discovery.k8s.io/v1) that give
//! them. A slice that is added, changed or removed is compared at its own addresses alone, and no
//! row of another slice is made again (no clause says so).
//!
//! Depends on view_rules, whose `first_rows` defines the view, on key_lists and row_places, and on
//! view_diff, whose `Earlier` defines earlier rows. The contracts cite `specs/Kept` for the rows of
//! slices and the view, and `specs/Before` for the earlier rows at the addresses whose rows have
//! changed.
#![tactic(auto)]

pub mod laws;
mod pairs;
mod row_list;
pub mod rows;
mod settle;
mod slices;
