//! Tables of rows by their keys. While a key has users, its row equals its filter over the objects
//! held, and is updated for each change with a mark that the row reads.
//!
//! Depends on mark_rules for marks and for what a change leads to, on object_store, and on
//! mark_graph for the rows at each mark. `specs/IndexRows` defines the contract of
//! the trait `RowIndex`, which `RowTable` implements for any `RowRule`, and `specs/TableRows` how
//! the parts of a table are tied.
#![tactic(auto)]

pub mod key_numbers;
pub mod peeked;
pub mod plain_row;
pub mod row_index;
pub mod row_rule;
pub mod rows_at_marks;
pub mod table;
pub mod table_rows;
pub mod watched_marks;
