//! The views of subscriptions whose query requests the row of one key: profiles and outbound views.
//!
//! Depends on profile_index and outbound_index for the rows, on row_views for the ids that share
//! one, and on mark_rules for the definition of a row and the marks that it reads. `KeyViews` is
//! generic in the index of its rows, a `QueryIndex`, and has the contract of `QueryViews`.
//! `specs/ProfileQueries` and `specs/OutboundQueries` define which queries are kept, and by which
//! keys.
#![tactic(auto)]

mod outbound;
mod profiles;
pub mod query_index;
pub mod views;
