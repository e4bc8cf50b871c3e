//! The view of one query at the end of a recorded feed, computed from the objects alone.
//!
//! Depends on line_run for the loop, on watch_events for lines, on object_store for the objects, on
//! view_scratch for the view of the query, and on output_fold for the lines that show a view.
//! `specs/Diagnosed` defines what is written for an input; lines about subscriptions and requests
//! count as blank. `apply` is also for a command that computes its answers from the objects alone.
#![tactic(auto)]

pub mod apply;
pub mod diagnose;
mod diagnosing;
mod take;
