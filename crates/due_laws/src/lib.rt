//! Laws on which subscriptions are due: those that were never drained, and those whose query read a
//! mark of an event since their last drain. A subscription that is not due is owed nothing.
//!
//! Depends on feed_history and history_laws for the history of a feed, and on event_laws for what
//! an event leaves unchanged. The statement of each law is in `specs/Laws`. The crate has no other
//! code than the laws.
#![tactic(auto)]

pub mod laws;
