//! The generated cluster: the lines of a feed for a number of Pods, without randomness, for runs
//! that anybody can repeat.
//!
//! Depends on mesh_base alone. `specs/Generated` has the lines, each in the form in which it is
//! read.
#![tactic(auto)]

pub mod cluster;
mod line;
mod shown;
