//! Laws on the messages between two views. The functions state them and do nothing.
//!
//! Depends on view_rules, whose `Batch` defines the messages that bring a subscriber from one view
//! to another, and whose `Fold` defines the view that results from messages. `specs/Laws` states
//! that folding a batch gives the new view, and how large messages are.
#![tactic(auto)]

pub mod laws;
