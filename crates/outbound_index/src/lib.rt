//! The outbound views of targets, stored in rows for the clients that request them.
//!
//! Depends on row_table for the rows, on mark_rules for the definition of a row and the marks that
//! it reads, on object_store, on policy_rows for the routes that are attached to a Service, and on
//! view_scratch for the parts of a view. `OutboundIndex` is the table of row_table over
//! `OutboundFinder`, so its contract is that of `RowIndex`, with `outbound_row` and
//! `outbound_reads` of mark_rules as its filter. The owner of an address is looked up once, for
//! both the row and its marks, and so is each route.
#![tactic(auto)]

pub mod finder;
pub mod index;
mod lookup;
