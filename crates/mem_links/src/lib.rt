//! Links in memory that play a script of steps of their peers, and record the calls as a trace.
//!
//! Depends on mesh_links for the trait `Links`, whose contract `mem::MemLinks` meets with a trace.
//! `step::MemStep` defines the steps; `sure::SureLinks` plays a script without failures.
#![tactic(auto)]

pub mod mem;
mod play;
pub mod step;
pub mod sure;
