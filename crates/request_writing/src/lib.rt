//! The requests of clients in their canonical encoding, which is read back as their meaning.
//!
//! Depends on proxy_proto, which reads requests, on mesh_text for their strings, and on proto_wire.
//! `specs/Requests` defines the records of each request, `specs/Meanings` its query,
//! `specs/Sendable` which requests can be sent, and `specs/Queries` the request for each query. The
//! public laws in `laws` relate them to the reader.
#![tactic(auto)]

pub mod laws;
pub mod request;
pub mod writing;
