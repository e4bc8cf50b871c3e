//! The wire format of Protocol Buffers, below messages: records, and gRPC frames with messages.
//!
//! Depends on mesh_base and bytes. `specs/Wire` defines how a record is read, and its one canonical
//! encoding. `specs/Frames` defines what a stream of frames holds, and `specs/Unframing` the same
//! for a stream in pieces. The public laws in `laws` relate reading and writing.
#![tactic(auto)]

pub mod fault;
pub mod frame;
pub mod front;
pub mod laws;
pub mod record;
pub mod scan;
pub mod unframer;
pub mod writing;
