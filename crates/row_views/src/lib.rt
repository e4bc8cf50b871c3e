//! Rows that subscriptions share: each is stored once for all ids that are open with its key.
//!
//! Depends on row_table for the rows of an index, on mark_graph for the ids of each row, on
//! chunked_map for the key of each id, on mark_rules for the marks that a row reads, and on
//! object_store for the store and its changes.
//! The contract of `RowViews` cites `specs/Standing`. The trait `QueryViews` is its interface for
//! subscriptions: views of queries. Each implementation defines which it keeps.
#![tactic(auto)]

pub mod numbered_ids;
pub mod query_views;
pub mod views;
