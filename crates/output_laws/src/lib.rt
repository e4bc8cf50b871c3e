//! Laws on a replay's output and on what is computed from it. The functions state them and do
//! nothing.
//!
//! Depends on feed_history for the output of a replay, on output_fold for the result of folding the
//! frames of one id, and on diagnosis for the view of the objects alone. `specs/Diagnoses` states
//! that the two agree.
#![tactic(auto)]

pub mod laws;
