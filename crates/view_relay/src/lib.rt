//! A relay of the streams of an origin: it folds the frames of each stream, and sends clients of
//! its own the view of the stream with their query.
//!
//! Depends on session_core for the bytes that open a stream, on output_fold for frames, ids and
//! hex, on view_fold for the view that messages give, on view_diff for the messages between two
//! views, and on line_run for the loop. `specs/Relays` defines the state of a relay and the effect
//! of an accepted call, `specs/Accepted` which calls are accepted and why the others are refused,
//! and `specs/Relayed` what is written for the rows of an input. The contracts of `Relay` cite
//! `specs/Answers`.
#![tactic(auto)]

mod by_id;
mod client;
pub mod fault;
pub mod file;
mod frames;
pub mod line;
mod opening;
mod origin;
pub mod relay;
mod relaying;
mod row;
mod same;
mod stream;
mod streams;
