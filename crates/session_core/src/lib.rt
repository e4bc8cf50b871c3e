//! The session of one link: its path line, then lines or one request frame, in pieces of any
//! length; and its outbox.
//!
//! Depends on line_run for lines, and on proto_wire and proxy_proto for frames and requests.
//! `Session` in `link` is what a server keeps of each link. Its contract cites `specs/Sessions`
//! (what was passed to a session), `specs/Pieces` (the answer to a piece) and `specs/Outboxes`; the
//! contents of the bytes are defined in `specs/Phases`.
#![tactic(auto)]

pub mod feed;
pub mod laws;
pub mod link;
pub mod outbox;
pub mod path;
pub mod request;
pub mod session;
pub mod state;
mod steps;
