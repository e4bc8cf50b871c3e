//! The messages that proxies are sent, and the requests that they send, as Protocol Buffers. Each
//! message has one canonical encoding. Reading is strict: any bytes have exactly one meaning or a
//! first fault.
//!
//! Depends on view_types for the messages, on mesh_text for the strings of requests, and on
//! proto_wire. The writers cite `specs/Messages`, which defines the records of each message; they
//! write backwards, so that lengths are known. The readers cite `specs/MessageReading` and
//! `specs/RequestReading`: the result is the first fault of `specs/Faults` over the fields of
//! `specs/Tables`, or else the contents of the records.
#![tactic(auto)]

mod authz;
mod check;
mod duration;
mod endpoint;
pub mod fault;
mod field;
pub mod fields;
mod from_records;
mod look_up;
pub mod part;
mod policy;
mod profile;
mod read_authz;
mod read_endpoint;
mod read_policy;
mod read_profile;
mod read_request_match;
mod read_response_match;
mod read_route;
pub mod reading;
pub mod request;
mod request_match;
mod response_match;
mod route;
mod seen_keys;
pub mod table;
mod whole;
pub mod writing;
