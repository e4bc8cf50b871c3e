//! The authorizations of Servers and of routes, stored in rows for the ports that they are joined
//! into.
//!
//! Depends on row_table for the rows, on mark_rules for the definition of a row and the marks that
//! it reads, on object_store, and on policy_rows for the rows of authorizations. `AuthzIndex` is
//! the table of row_table over `AuthzFinder`, so its contract is that of `RowIndex`, with
//! `authz_row` and `authz_reads` of mark_rules as its filter. The authorizations that may apply are
//! looked up once, for both the row and the marks of what they refer to, and so is each of these
//! references.
#![tactic(auto)]

pub mod finder;
pub mod index;
mod lookup;
