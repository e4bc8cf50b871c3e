//! The hub: the objects held and the live subscriptions, and the trait `Machine`, which a hub and a
//! script of replies implement.
//!
//! Depends on object_store for the objects, on subscriptions for the live subscriptions and which
//! of them are due, on shared_endpoints and kept_views for the views, on view_diff for messages, on
//! request_sim for the verdict on a simulated request, and on feed_history for the definitions of
//! the effects of its calls. The contracts of `Hub` cite `specs/Hub`, and `specs/Due` for the
//! subscriptions that are due. `specs/HubAfter` defines the state of a hub after the rows of a
//! feed, and `specs/Calls` says that the state after any calls on a new hub is of this form.
#![tactic(auto)]

mod frames;
pub mod held;
pub mod hub;
pub mod laws;
pub mod machine;
mod port;
pub mod script;
