//! The open links of a server by their numbers, each with its session. The links that may be read
//! or written, and the link of a subscription, are found without going over the others.
//!
//! Depends on session_core for sessions and their outboxes. The contracts of
//! `open_links::OpenLinks` see it as a list of links in the order of their numbers
//! (`specs/Entries`), and say that the sets and maps that find links agree with the list
//! (`specs/Settled`).
#![tactic(auto)]

pub mod link;
pub mod number_sets;
pub mod open_links;
