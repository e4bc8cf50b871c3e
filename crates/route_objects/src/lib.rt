//! The reader of HTTPRoutes, of policy.linkerd.io and of gateway.networking.k8s.io.
//!
//! Depends on k8s_meta for the parts of the member tables, on mesh_text for request methods and API
//! groups, and on view_types for the objects. `read_route` returns `route_at` of `specs/Routes`.
//! The parts that routes of other kinds have, too, are public: parents, backends, headers and their
//! types, and the filters, each with its table in `specs`; the laws of their values are in `laws`.
//! `or_one` of `specs/Matches` is for a list with a default, in code `list_of_one`.
#![tactic(auto)]

pub mod backend;
pub mod filter;
pub mod laws;
mod matches;
pub mod name_match;
pub mod parent;
pub mod route;
pub mod rule;
