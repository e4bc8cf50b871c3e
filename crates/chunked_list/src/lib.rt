//! A list in chunks, in which an insertion moves the items of one chunk alone. Depends on mesh_base
//! alone. `specs/Spots` defines where an index of the list stands in its chunks.
#![tactic(auto)]

mod chunks;
pub mod list;
