//! The parts of views from policies and routes: rows of authorizations, the Server of a port, the
//! routes that are attached to a Server or a Service, in order, the row of a route, and the paths
//! of a Pod's probes.
//!
//! Depends on view_rules, mark_rules and object_store. The contracts cite `Servers`, `Policies` and
//! `Routes` of view_rules over the objects of the store. The rows are the same however these
//! objects are found. Here they are found by the keys that the store has for marks; a spent store
//! returns Memory.
#![tactic(auto)]

pub mod by_mark;
pub mod candidates;
mod clients;
pub mod held;
mod in_order;
pub mod parent;
pub mod probes;
mod refs;
pub mod route_row;
pub mod routes;
pub mod rows;
mod selects;
pub mod server;
pub mod snapshot;
pub mod subject;
