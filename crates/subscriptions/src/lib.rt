//! The live subscriptions, and which of them are due: those whose views may have changed since
//! their last drain.
//!
//! Depends on event_laws for what an event leaves unchanged, on endpoint_streams for what
//! subscribers to endpoints are sent, on row_views for the views of all other queries, and on
//! chunked_map for the subscription of each id. The contract of `Subscribers` cites
//! `specs/Standing`: each live subscription has a stream or a kept view that follows what its query
//! reads, and one that is not due was shown its view over the objects held.
#![tactic(auto)]

pub mod boxed_view;
pub mod due_list;
pub mod live;
pub mod queries;
pub mod roster;
pub mod subscribers;
