//! Lists of object keys, one list per mark. A mark is one value, or has parts looked up in turn.
//! Depends on mesh_base alone. `specs/Keys` defines the keys at a mark.
#![tactic(auto)]

pub mod by_kind;
pub mod by_mark;
pub mod key_list;
pub mod nested;
