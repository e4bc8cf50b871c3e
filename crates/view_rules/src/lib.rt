//! The definitions of views and messages: the view of a query over the objects held, the messages
//! that carry it, and what a subscriber sees after applying them.
//!
//! Depends on view_types and mesh_text. `specs/Endpoints` defines the endpoints of a Service port,
//! `specs/Profiles` the profile of a target, `specs/Views` the view of a query, `specs/Batch` the
//! messages and `specs/Fold` their effect, both in terms of `specs/ByKey` for rows by key;
//! `specs/Laws` states their properties. `specs/PodRows` is the row of an endpoint, by its Pod.
//! `specs/Inbound` is the view of a port of a Pod and `specs/Outbound` that of a target, in terms
//! of `specs/Servers`, `specs/Policies` and `specs/Routes`; `specs/PolicyLaws` states their
//! properties. `specs/Same` and `specs/SamePolicies` define when two views are the same. The only
//! code is laws.
#![tactic(auto)]

pub mod laws;
pub mod policy_laws;
