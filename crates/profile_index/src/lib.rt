//! The profiles of targets, stored in rows for the clients that request them.
//!
//! Depends on row_table for the rows, on mark_rules for the definition of a row and the marks that
//! it reads, on object_store, and on view_scratch for the parts of a profile. `ProfileIndex` is the
//! table of row_table over `ProfileFinder`, so its contract is that of `RowIndex`, with
//! `profile_row` and `profile_reads` of mark_rules as its filter. The owner of an address is looked
//! up once, for both the row and its marks.
#![tactic(auto)]

pub mod finder;
pub mod index;
mod lookup;
