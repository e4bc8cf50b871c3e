//! An ordered map in chunks, searched by halves. Where keys are inserted in ascending order, no
//! chunk but the last has free room.
//!
//! Depends on mesh_base and chunked_list.
#![tactic(auto)]

pub mod map;
mod pairs;
