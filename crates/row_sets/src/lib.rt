//! Rows that subscriptions share, each stored once for all ids that have its key. An id is open
//! with a list of keys, which can be changed.
//!
//! Depends on row_table for the rows of an index, on mark_graph for the ids of each key, on
//! chunked_map for the keys of each id, on row_views for the definitions of keys that have
//! ids, and on object_store for the store and its changes. The contract of `RowSets` cites
//! `specs/Standing`.
#![tactic(auto)]

pub mod sets;
pub mod used_keys;
