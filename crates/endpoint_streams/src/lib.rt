//! The streams of endpoints: what each subscriber to a port of a Service is sent, and what it was
//! last shown.
//!
//! Depends on mark_rules for the endpoints of a key and the marks that they read, on object_store
//! for the store and its changes, on mark_graph for lists of ids, on row_views for entries by id,
//! and on feed_history for frames. The contract of the trait `EndpointStreams` cites
//! `specs/Streams`.
#![tactic(auto)]

pub mod streams;
