//! The rows at each mark, for marks of any type with an order and a hash. Rows are numbers.
//!
//! Depends on mesh_base alone. `specs/RowMarks` defines the rows at marks, `specs/Moves` moves of
//! marks, and `specs/Puts` a value that is put at a key.
#![tactic(auto)]

pub mod by_mark;
mod few_items;
pub mod moves;
pub mod rows_by_mark;
pub mod sorted_set;
