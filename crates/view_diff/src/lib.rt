//! The messages that bring a subscriber from one view to another.
//!
//! Depends on view_types, view_rules and row_places. The contracts cite the batch between two views
//! (`Batch` of view_rules), which says how large messages are; batch_laws proves that folding a
//! batch over the old view gives the new one. The same code serves endpoints, keyed by address and
//! port, and the authorizations of a Server, keyed by kind and name. `specs/Earlier` defines the
//! old endpoints where only the addresses that may have changed are known.
#![tactic(auto)]

pub mod batch;
mod cut;
mod keyed;
mod merge;
mod port;
pub mod since;
pub mod views;
pub mod whole;
