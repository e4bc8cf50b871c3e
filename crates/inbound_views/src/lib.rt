//! Views of ports of Pods, joined from rows that subscriptions share. The view of any port, without
//! the authorizations of its routes, and those of any route can be read without a subscription:
//! stored rows are borrowed, and the others are computed for the call.
//!
//! Depends on server_index, route_index and authz_index for the rows, on row_views and row_sets for
//! the ids that share them, on mark_rules for the rows that a view is joined from and the marks
//! that these read, and on object_store. `specs/PortRows` defines which keys of each index the rows
//! of a query have, `specs/Standing` when the stored rows are those over the objects held, and
//! `specs/Costs` what is looked up.
#![tactic(auto)]

mod joining;
mod keys;
pub mod moving;
mod peeking;
mod sources;
pub mod views;
