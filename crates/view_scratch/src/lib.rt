//! Views, computed from the objects alone: the reference for all other ways to compute them.
//!
//! Depends on view_rules, mark_rules, row_places, object_store and policy_rows. The contract cites
//! the view of a query (`Views` of view_rules) over the objects of the store. Slices, Servers,
//! policies, routes and the owners of addresses are found by the keys that the store has for marks,
//! not among all objects; named objects are found by key. A spent store has no valid keys, so a
//! view that needs them is out of memory. The clauses `steps` bound the look-ups of each part by
//! its marks (`cost` of mark_rules).
#![tactic(auto)]

pub mod address;
pub mod collect;
mod endpoint;
pub mod endpoints;
pub mod inbound;
pub mod opaque;
pub mod outbound;
mod pairs;
pub mod pod;
pub mod profile;
pub mod scratch;
pub mod service;
