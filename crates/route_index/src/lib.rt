//! The routes of Servers, kept in rows for the ports that they are joined into.
//!
//! Depends on row_table for the rows, on mark_rules for the value and the mark of a row, on
//! object_store, on policy_rows for the routes attached to a Server, and on view_scratch for their
//! rules. `RouteIndex` is the `RowTable` of `RouteRule`: its contract is that of `RowIndex`, with
//! `server_routes` and `route_reads` of mark_rules as its filter. A row has no authorizations,
//! which are rows of their own. A change replaces the routes with the names that it has
//! (`specs/Placed`), or all if it has many.
#![tactic(auto)]

mod changed;
mod found;
pub mod index;
mod kept;
mod placed;
pub mod rule;
mod server;
