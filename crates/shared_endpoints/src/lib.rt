//! Streams of endpoints that share data: all streams of a key share its endpoints, and subscribers
//! that were last shown the same endpoints share frames.
//!
//! Depends on endpoint_index for the endpoints of each key, on key_streams for the streams of one
//! key, and on feed_history for frames. `SharedEndpoints` implements the trait `EndpointStreams` of
//! endpoint_streams; `specs/Standing` defines the state of its streams over the objects held.
#![tactic(auto)]

mod by_key;
mod frames;
pub mod shared;
