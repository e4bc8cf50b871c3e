//! Reads the output of `replay`, and writes the view of a subscriber that was sent the frames of
//! one id.
//!
//! Depends on line_run for the loop, on proto_wire and proxy_proto for the contents of frames, on
//! view_fold for the view that messages give, on view_diff for the messages of a view, and on
//! feed_history for the lines that show it. `specs/Lines` defines the contents of a line for the
//! frames of an id, and `specs/Folded` what is written for an input. `frame`, `number` and
//! `fault::ProtoText` are also for commands that read frames, ids and hex in lines of their own.
#![tactic(auto)]

pub mod fault;
pub mod fold;
mod folding;
pub mod frame;
mod line;
pub mod number;
pub mod view_text;
