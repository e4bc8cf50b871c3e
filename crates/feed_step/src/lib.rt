//! One line of a feed: its call of the machine, and its output.
//!
//! Depends on watch_events for the contents of lines, on feed_history for their effects and their
//! output, and on mesh_hub for the machine. `Run::step` processes a row, which a `RowReader` reads.
//! Its contract cites `specs/LineStep`, for the machine's state, and `specs/Transcript`, for its
//! replies. `Run::call` makes the call of a line, for a program that decides by `sort_of` which
//! lines have a place and how each is answered. `drain` sends one subscription what it is due, also
//! at the end of the input.
#![tactic(auto)]

pub mod drain;
pub mod frames;
mod lives;
pub mod reader;
pub mod run;
pub mod sort;
mod take;
