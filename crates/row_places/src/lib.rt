//! Rows of views by key: their order, and the position of a key among rows in order. The key of an
//! endpoint is its address and port, and that of an authorization of a Server its kind and name.
//!
//! Depends on view_types and view_rules. `specs/Rows` defines which row of endpoints is found.
#![tactic(auto)]

mod compare;
pub mod keyed;
pub mod order;
pub mod place;
