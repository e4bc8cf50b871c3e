//! Laws on the history of a feed: the last line about a key or an id decides what is held or live,
//! what is held is lawful, each message can be read back, and a subscriber that applies its
//! messages has the view of the objects held.
//!
//! Depends on feed_history for the definitions; the statement of each law is in its `specs/`. The
//! crate has no other code than the laws.
#![tactic(auto)]

pub mod laws;
