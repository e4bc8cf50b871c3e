//! The streams of one key of endpoints by id, in groups of those that were last shown the same.
//!
//! Depends on endpoint_groups. The contract of `KeyStreams` cites `specs/Streams`: which ids have a
//! stream, and what its subscriber was last shown, given the current endpoints.
#![tactic(auto)]

mod members;
pub mod streams;
