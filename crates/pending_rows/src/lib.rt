//! What a subscriber of endpoints was last shown, kept as the changes since then.
//!
//! Depends on view_types, view_rules and view_diff. `specs/Pending` defines which addresses are
//! noted and which endpoints were last shown, and `specs/Laws` states that noting a change keeps
//! these.
#![tactic(auto)]

pub mod laws;
mod noting;
pub mod rows;
