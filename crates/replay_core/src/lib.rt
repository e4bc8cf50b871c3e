//! The replay of a recorded feed, from the bytes of the input to the bytes of the output.
//!
//! Depends on line_run for the loop, on feed_step for one line, and on mesh_hub for the machine. If
//! the machine's state is known, `replay` writes `output_after` of feed_history's `specs/Output`,
//! over rows that are marked where a simulation met a refused pattern. If its replies are known,
//! `replay` writes `said` of feed_step's `specs/Transcript`. One function serves both.
#![tactic(auto)]

pub mod replay;
mod replaying;
