//! The endpoints of Service ports, stored in rows for the clients that request them, with the old
//! rows at the addresses that a change affected.
//!
//! Depends on row_table for the rows, on mark_rules for the definition of a row and the marks that
//! it reads, on endpoint_rows and slice_marks for what is stored for a row, and on view_scratch for
//! the rows of one slice. The contract of `EndpointIndex` is that of `RowIndex`, with
//! `endpoint_row` and `endpoint_reads` of mark_rules as its filter; `specs/Standing` defines what
//! is stored for a row.
#![tactic(auto)]

pub mod index;
pub mod kept;
pub mod rule;
mod service_port;
pub mod slices;
mod touched;
