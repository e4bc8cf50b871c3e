//! The store of the objects held: a finite map from keys to objects, at most a limit of them.
//!
//! Depends on view_types for objects and marks, on mark_rules for the marks of an object, and on
//! key_lists. `specs/Changes` defines a set, a removal and a refused call, `specs/Relisted` a list
//! of a whole kind, `specs/KindLists` the map as a list for each kind, `specs/KeyLists` the keys of
//! each mark, and `specs/ServerKeys` the keys of Servers by the labels that they require.
#![tactic(auto)]

mod aside;
pub mod change;
mod last_places;
pub mod laws;
mod mark_keys;
mod objects;
mod relist;
mod server_keys;
pub mod store;
mod store_keys;
mod upkeep;
