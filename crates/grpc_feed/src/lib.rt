//! Reads the lines of a feed that also has GRPCRoutes, which are lowered to HTTPRoutes.
//!
//! Depends on grpc_routes for GRPCRoutes, on watch_events for all other lines, on object_store for
//! lists and on feed_history for the effect of events. `specs/FeedKinds` defines the kinds,
//! `specs/FeedLines` the contents of a line over the objects held, and `specs/Routes` which of them
//! a `Lowering` keeps. A list of GRPCRoutes replaces the lowered routes alone, and a list of
//! HTTPRoutes the others.
#![tactic(auto)]

pub mod fault;
mod feed_line;
pub mod kinds;
pub mod laws;
pub mod lowering;
mod routes;
