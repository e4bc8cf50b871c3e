//! The counted replay of a generated cluster: a run that anyone can repeat, and a first measure of
//! speed.
//!
//! Depends on gen_cluster for the lines, on replay_core for the replay, and on line_run for the
//! loop that counts. `sample` writes `sample_line` of `specs/Counted` over a text that, by
//! `specs/Headline`, is the output of the replay.
#![tactic(auto)]

mod counting;
mod counts;
pub mod sample;
