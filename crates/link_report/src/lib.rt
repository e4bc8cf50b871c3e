//! What a terminal shows of a running server: how many links are open, how many of them are feeds
//! and subscriptions, and how many lines and frames went over all links.
//!
//! Depends on mesh_links for the trait `Links`, and on run_report for when a line is due and how a
//! number is formatted. That `CountedLinks` passes on each call is the contract of `Links`, with
//! the calls and the counts of the inner links. The counts are only tested.
#![tactic(auto)]

mod counted;
mod counts;
mod meter;
mod screen;
mod tally;

pub use counted::CountedLinks;
pub use counts::LinkCounts;
pub use screen::LinkScreen;
