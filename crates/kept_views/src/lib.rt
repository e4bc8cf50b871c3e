//! The views of all queries except those for endpoints: profiles, inbound views of Pod ports and
//! outbound views. Endpoints have streams of their own (shared_endpoints).
//!
//! Depends on key_views for profiles and outbound views, on inbound_views for those of ports, on
//! profile_index and outbound_index for the rows of the first two, on row_views for the trait by
//! which subscriptions read them, and on object_store for the store and its changes.
//! `specs/KeptQueries` defines for each query the query whose view is kept, and `specs/Parts` the
//! state of the three parts.
#![tactic(auto)]

pub mod views;
