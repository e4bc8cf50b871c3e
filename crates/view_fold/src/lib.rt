//! The view that results from applying messages in order.
//!
//! Depends on view_types, row_places and view_rules, whose `Fold` defines the view after some
//! messages. The cost of applying a message depends on what it changes, except that a message with
//! many rows or keys is applied by one pass over all rows.
#![tactic(auto)]

pub mod folding;
pub mod laws;
mod many;
mod order;
mod rows;
