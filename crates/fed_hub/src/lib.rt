//! A hub to which the lines of feeds are applied, each with its answer, and which keeps the
//! subscriptions of links.
//!
//! Depends on watch_events for the contents of lines, on mesh_hub for the objects and the
//! subscriptions, on feed_step for the calls that lines make, and on serve_rules for the effects of
//! lines of feeds. The contracts of `hub::FedHub` cite `specs/LineSteps` for a line, and
//! `specs/HubSteps` for a request, a cancellation and a drain.
#![tactic(auto)]

mod answers;
pub mod hub;
